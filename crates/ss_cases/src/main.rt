//! The program `ss_cases`: runs the cases of the program `sstore` in the files that the command line names, and counts them.
//!
//! The last column of a row is the first line that the program writes, or `accepted` for a catalogue that is accepted, or,
//! where it has a `␤`, all that is written. The status has to be the one that goes with what is written.
//!
//! - `kind`: the kinds of blocks, and which module runs each
//! - `inputs`, `requests`, `examples`: whole inputs, requests on a catalogue, and inputs in files of their own
//! - `calls`: calls one after another on one disk
//! - `listings`: scripts, lists, queries and bodies
//! - `run`: one run of the program, and whether it answered as its case says
#![tactic(auto)]

mod calls;
mod examples;
mod inputs;
mod kind;
mod listings;
mod requests;
mod run;

use kind::{check, form_of};
use ss_case_files::{Case, run_files};
use std::process::ExitCode;

/// Ends with 0 where cases ran and none is wrong, and with 1 otherwise.
fn main(rt: HostRuntime) -> ExitCode {
    run_files(&rt, &form_of, &|case: &Case| check(&rt, case))
}
