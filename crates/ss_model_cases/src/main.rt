//! The program `ss_model_cases`: runs the cases of the definitions and of the machine of events, in the files that the
//! command line names, and counts them.
//!
//! ```text
//! replay BASE    lines of entries and of looks, each with what it comes to, and then the lines of all tables
//! ```
//!
//! - `events`: events of a store, and what they leave
#![tactic(auto)]

mod events;

use ss_case_files::{Behind, BlockForm, Case, Wrong, run_files, text_of};
use ss_case_lists::replayed;
use std::alloc::Global;
use std::process::ExitCode;

/// How blocks with this word are read, where there is such a kind.
fn form_of(word: &str) -> Option<BlockForm> {
    let has_rows = match word {
        "events" => true,
        "replay" => false,
        _ => return None,
    };
    Some(BlockForm {
        behind: Behind::Base,
        has_rows,
    })
}

/// Runs a case.
fn check(alloc: Global, case: &Case) -> Result<(), Wrong> {
    if case.block.word.as_str() == "events" {
        return events::check_events(alloc, case.base, case.row);
    }
    let base = text_of(alloc, case.base)?;
    let _listing = replayed(alloc, base.as_str(), case.block.lines.as_slice())?;
    Ok(())
}

/// Ends with 0 where cases ran and none is wrong, and with 1 otherwise.
fn main(rt: HostRuntime) -> ExitCode {
    let alloc = rt.alloc();
    run_files(&rt, &form_of, &|case: &Case| check(alloc, case))
}
