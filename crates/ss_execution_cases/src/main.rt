//! The program `ss_execution_cases`: runs the cases of executions by themselves and of plans, in the files that the command
//! line names, and counts them.
//!
//! - `executions`: calls, pushes, installs and steps by themselves, with the batches that they take
//! - `joining`: the same on a database that is split and joined again behind each
//! - `touching`: calls, pushes and installs on the shards that they touch
//! - `plans`: how the rows are found that a step looks for
#![tactic(auto)]

mod executions;
mod joining;
mod plans;
mod touching;

use ss_case_files::{Behind, BlockForm, Case, Wrong, run_files};
use std::alloc::Global;
use std::process::ExitCode;

/// How blocks with this word are read, where there is such a kind.
fn form_of(word: &str) -> Option<BlockForm> {
    let has_rows = match word {
        "plans" | "planned" => true,
        "executions" | "joined" | "touching" => false,
        _ => return None,
    };
    Some(BlockForm {
        behind: Behind::Base,
        has_rows,
    })
}

/// Runs a case.
fn check(alloc: Global, case: &Case) -> Result<(), Wrong> {
    let (base, lines) = (case.base, case.block.lines.as_slice());
    match case.block.word.as_str() {
        "plans" => plans::check_plan(alloc, base, case.row),
        "planned" => plans::check_planned(alloc, base, case.row),
        "joined" => joining::check_joined(alloc, base, lines),
        "touching" => touching::check_touching(alloc, base, lines),
        _ => executions::check_executions(alloc, base, lines),
    }
}

/// Ends with 0 where cases ran and none is wrong, and with 1 otherwise.
fn main(rt: HostRuntime) -> ExitCode {
    let alloc = rt.alloc();
    run_files(&rt, &form_of, &|case: &Case| check(alloc, case))
}
