//! The program `ss_table_cases`: runs sequences of calls on tables and their undo beside plain maps, in the files that the
//! command line names, and counts them.
//!
//! `ss_table` and `ss_undo` are proved to be what their definitions say. A sequence here runs on tables and, call for call,
//! on maps of std that know nothing of slots, marks or dead rows; what must be refused, a person decided. So both agree only
//! where the definitions say what they mean to say, and the calls answer at all. That freed slots are used again is said by
//! no clause, and shown here alone.
//!
//! ```text
//! calls key 0 limit 5      each row is a sequence of calls, on two tables without a row, of this key and this limit
//!
//! insert 1 'a', commit, delete 1, rollback
//!
//! insert 1 'a'       the row is inserted
//! taken 1 'a'        the row is refused, since its key is taken
//! full 1 'a'         the row is refused, since the table is full
//! delete 1           the row of that key is deleted
//! absent 1           no row has that key
//! replace 1 'b'      the row is put in place of the one with its key
//! again 300 1 'a'    300 times the row with its key is deleted, and the row is inserted
//! fill 600 7 # 'a'   600 rows are inserted, with numbers from 0 on for `#`, in an order that skips by 7
//! thin 3             each third row is deleted, the first too, in the order of the keys
//! slots 3            no row stands in another slot than the first three
//! on 1               the calls from here on are on the second table, as `on 0` says the first
//! commit, rollback   of all changes
//! ```
//!
//! A number stands for itself and a text in quotes, with no space and no comma inside. Behind each call both sides are
//! compared.
//!
//! - `words`: numbers and rows from text
//! - `change`: changes of a row, and what a side answers to one
//! - `real`: tables with notes of the changes that made them; `plain`: maps, each with a copy of what it was before
//! - `compare`: whether a table and a map hold the same, by every call that looks
//! - `sides`: runs the calls of a row on both
#![tactic(auto)]

mod change;
mod compare;
mod plain;
mod real;
mod sides;
mod words;

use ss_case_files::{Behind, BlockForm, Case, Wrong, run_files};
use std::alloc::Global;
use std::process::ExitCode;

/// How blocks with this word are read, where there is such a kind.
fn form_of(word: &str) -> Option<BlockForm> {
    if word != "calls" {
        return None;
    }
    Some(BlockForm {
        behind: Behind::Word,
        has_rows: true,
    })
}

/// Runs a case.
fn check(alloc: Global, case: &Case) -> Result<(), Wrong> {
    sides::check_calls(alloc, case.block.name.as_str(), case.row)
}

/// Ends with 0 where cases ran and none is wrong, and with 1 otherwise.
fn main(rt: HostRuntime) -> ExitCode {
    let alloc = rt.alloc();
    run_files(&rt, &form_of, &|case: &Case| check(alloc, case))
}
