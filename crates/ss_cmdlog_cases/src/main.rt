//! The program `ss_cmdlog_cases`: runs cases of records and of the command log, in the files that the command line names, and
//! counts them: which bytes are read as what, where the first byte that can't be is told, what a crash in each call of a
//! store's making, of a flush and of a new generation leaves, and what a disk that fails there.
//!
//! The contracts say all of it of every store. That their definitions say what a person reads off docs/STORE.md, and that
//! the calls answer at all, these cases show.
//!
//! ```text
//! records     BYTES ~ ANSWER     what is read in front of bytes, or why nothing is
//! files       FILE ~ BYTES       all bytes of a file of a store that has a call and a push
//! damages     DAMAGE ~ ANSWER    what is read of a damaged store: write FILE AT BYTES, or cut FILE AT
//! crashes     CALL ~ ANSWERS     what a crash in this call of a store's making and of a flush leaves
//! flushes     CALL ~ STORY       what the flushes answer where the disk fails at this call, and what is then on it
//! openings    CALL ~ STORY       the same of a store's making and its opening
//! renewals    CALL ~ STORY       the same of a new generation and a flush behind it
//! renewed     DAMAGE ~ ANSWER    what is read of a damaged store whose generation was renewed twice
//! weak        DAMAGE ~ ANSWER    what is read of a damaged weak store of a call and a push, among steps
//! left_out    CALL ~ STORY       what flushes to a weak log answer, where the disk fails at this call
//! continued   DAMAGE ~ BYTES     both files of a damaged store behind a flush, a new generation and an install
//! ```
//!
//! FILE is `selector`, `first` or `second`; bytes stand as two hexadecimal digits each, with `*` and a number behind them where one
//! is there so often, and `|` parts fields. What is read of a store is `empty`;
//! its first place and the number of its entries, as in `0+3`; or the file and the first byte that can't be, as in `1@27`. A
//! crash has three answers: where each unsynced range holds its old bytes, its new ones, and dashes. In a STORY they stand
//! behind their call, for each call from the first that matters.
//!
//! - `words`: bytes, numbers and files from text, and text as an answer
//! - `records`: records at their bounds
//! - `stores`: stores on a disk in memory, and what is read of one
//! - `files`: the bytes of one, as docs/STORE.md shows them; `damage`: bytes that can't be
//! - `crashes`: a crash in each call; `faults`: a disk that fails in each call
//! - `renewals`: new generations, and a disk that fails in each call of one
//! - `weak`: weak logs, which leave steps out; `continued`: stores of either form that go on
#![tactic(auto)]

mod continued;
mod crashes;
mod damage;
mod faults;
mod files;
mod records;
mod renewals;
mod stores;
mod weak;
mod words;

use ss_case_files::{Behind, BlockForm, Case, Wrong, column, compare, run_files};
use std::alloc::Global;
use std::process::ExitCode;

/// How blocks with this word are read, where there is such a kind.
fn form_of(word: &str) -> Option<BlockForm> {
    match word {
        "records"
        | "files"
        | "damages"
        | "crashes"
        | "flushes"
        | "openings"
        | "renewals"
        | "renewed"
        | "weak"
        | "left_out"
        | "continued" => Some(BlockForm {
            behind: Behind::Nothing,
            has_rows: true,
        }),
        _ => None,
    }
}

/// What the first column of a row comes to.
fn answer_of(alloc: Global, kind: &str, given: &str) -> Result<String, Wrong> {
    match kind {
        "records" => records::answer_of(alloc, given),
        "files" => files::answer_of(alloc, given),
        "damages" => damage::answer_of(alloc, given),
        "crashes" => crashes::answer_of(alloc, given),
        "flushes" => faults::flushes_failing_at(alloc, given),
        "renewals" => renewals::renewal_failing_at(alloc, given),
        "renewed" => damage::answer_of_renewed(alloc, given),
        "weak" => damage::answer_of_weak(alloc, given),
        "left_out" => weak::flushes_failing_at(alloc, given),
        "continued" => damage::files_continued(alloc, given),
        _ => faults::opening_failing_at(alloc, given),
    }
}

/// Runs a case.
fn check(alloc: Global, case: &Case) -> Result<(), Wrong> {
    let (given, want) = column(alloc, case.row)?;
    let came = answer_of(alloc, case.block.word.as_str(), given)?;
    let want = want.replace(alloc, '|', " ")?;
    compare(alloc, given, want.as_str(), came.as_str())
}

/// Ends with 0 where cases ran and none is wrong, and with 1 otherwise.
fn main(rt: HostRuntime) -> ExitCode {
    let alloc = rt.alloc();
    run_files(&rt, &form_of, &|case: &Case| check(alloc, case))
}
