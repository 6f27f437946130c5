//! The program `ss_sql_cases`: runs the cases of SQL texts, in the files that the command line names, and counts them.
//!
//! - `sql`: texts with their trees, typed trees and tokens, as `parsed_trees`, `typed_trees` and `tokens` print them;
//!   `scopes` has the names that typed texts may use
//! - `shown`, `signs`: what prints trees and refusals into one text, and the signs of their operators
#![tactic(auto)]

mod parsed_trees;
mod scopes;
mod shown;
mod signs;
mod sql;
mod tokens;
mod typed_trees;

use ss_case_files::{Behind, BlockForm, Case, Wrong, run_files};
use std::alloc::Global;
use std::process::ExitCode;

/// How blocks with this word are read, where there is such a kind.
fn form_of(word: &str) -> Option<BlockForm> {
    match word {
        "parse" | "type" => Some(BlockForm {
            behind: Behind::Word,
            has_rows: true,
        }),
        _ => None,
    }
}

/// Runs a case.
fn check(alloc: Global, case: &Case) -> Result<(), Wrong> {
    let is_typed = case.block.word.as_str() == "type";
    sql::check_row(alloc, is_typed, case.block.name.as_str(), case.row)
}

/// Ends with 0 where cases ran and none is wrong, and with 1 otherwise.
fn main(rt: HostRuntime) -> ExitCode {
    let alloc = rt.alloc();
    run_files(&rt, &form_of, &|case: &Case| check(alloc, case))
}
