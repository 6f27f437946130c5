//! Requests behind a catalogue, which is a base.
//!
//! ```text
//! requests BASE  REQUESTS ~ LINE: the base, and the requests on the lines behind it
//! words BASE     WORDS ~ REQUESTS ~ LINE: the same with the words of a command line
//! report BASE    lines of requests, a line `->`, and the lines of the whole report
//! tables BASE    the same, with the report's lines from its first table on alone
//! audited BASE   lines of requests, each of whose reports an audit finds right, with the tables that a recovery finds
//! ```
//!
//! Clients run at the same time, so that requests of several clients have one report only where the order of their entries
//! says nothing. Where they leave one database whatever the order is, `tables` compares that, on several numbers of
//! partitions. Where it says more, `audited` has what holds of each order.

use crate::run::{check_run, check_words, report_of, run_on_disk, run_with};
use ss_case_files::{Wrong, bytes_of, column};
use ss_case_texts::check_report;
use ss_disk::MemoryDisk;
use ss_value::Seq;
use std::alloc::Global;
use std::sync::Wait;
use std::thread::Threads;

/// The line between the requests of a block and its report.
const ARROW: &str = "->";

/// How the line of a table begins.
const TABLE: &str = "[\"table\",";

/// How the last line of a report begins.
const DONE: &str = "[\"done\",";

/// How the answer of an audit begins that finds a report right.
const RIGHT: &str = "[\"audit\",\"yes\",";

/// The command lines on which a block of tables runs: with one partition, two and eight.
const ON_PARTITIONS: [&str; 3] = ["run", "run --partitions 2", "run --partitions 8"];

/// Those on which an audited block runs. Each store has the log of all executions, from which a recovery has its tables.
const AUDITED: [&str; 5] = [
    "run",
    "run --partitions 2",
    "run --partitions 3",
    "run --partitions 8",
    "run --partitions 8 --checkpoint 7",
];

/// A row of `requests`.
pub fn check_requests<R: AllocGlobal + Threads + Wait + Sync>(
    rt: &R,
    base: &str,
    row: &str,
) -> Result<(), Wrong> {
    let alloc = rt.alloc();
    let (requests, line) = column(alloc, row)?;
    let input = format!(in alloc; "{base}␤{requests}")?;
    check_run(rt, input.as_str(), line)
}

/// A row of `words`.
pub fn check_command<R: AllocGlobal + Threads + Wait + Sync>(
    rt: &R,
    base: &str,
    row: &str,
) -> Result<(), Wrong> {
    let alloc = rt.alloc();
    let (words, rest) = column(alloc, row)?;
    let (requests, line) = column(alloc, rest)?;
    let input = format!(in alloc; "{base}␤{requests}")?;
    check_words(rt, words, input.as_str(), line)
}

/// The requests of a block behind a base, and the report that the block has behind them.
#[derive(Drop)]
struct Block {
    input: Vec<u8>,
    wanted: Vec<u8>,
}

/// Lines as the bytes that they stand for, behind a first line where there is one.
fn bytes_behind(alloc: Global, first: &str, lines: &[String]) -> Result<Vec<u8>, Wrong> {
    let lines = lines.join(alloc, "␤")?;
    let text = format!(in alloc; "{first}{lines}␤")?;
    bytes_of(alloc, text.as_str())
}

/// The parts of a block.
fn block_of(alloc: Global, base: &str, lines: &[String]) -> Result<Block, Wrong> {
    let Some(at) = lines.iter().position(|line| line.as_str() == ARROW) else {
        return Err(Wrong::text(alloc, "a block without its report"));
    };
    let (requests, answer) = lines.split_at(at);
    let Some((_, report)) = answer.split_first() else {
        return Err(Wrong::text(alloc, "a block without its report"));
    };
    let wanted = bytes_behind(alloc, "", report)?;
    let base = format!(in alloc; "{base}␤")?;
    let input = bytes_behind(alloc, base.as_str(), requests)?;
    Ok(Block { input, wanted })
}

/// What the program writes on an input by a command line.
fn written_by<R: AllocGlobal + Threads + Wait + Sync>(
    rt: &R,
    command: &str,
    input: Vec<u8>,
) -> Result<String, Wrong> {
    let ended = run_with(rt, command, input)?;
    let report = report_of(rt.alloc(), &ended)?;
    Ok(String::from_str(rt.alloc(), report)?)
}

/// A block `report`.
pub fn check_block<R: AllocGlobal + Threads + Wait + Sync>(
    rt: &R,
    base: &str,
    lines: &[String],
) -> Result<(), Wrong> {
    let Block { input, wanted } = block_of(rt.alloc(), base, lines)?;
    let written = written_by(rt, "run", input)?;
    check_report(rt.alloc(), written.as_str(), wanted.as_slice())
}

/// A block `tables`, whose tables have to be the same on every number of partitions.
pub fn check_tables<R: AllocGlobal + Threads + Wait + Sync>(
    rt: &R,
    base: &str,
    lines: &[String],
) -> Result<(), Wrong> {
    for command in ON_PARTITIONS {
        check_tables_by(rt, command, base, lines)?;
    }
    Ok(())
}

/// A report from its first table on.
fn tables_of(alloc: Global, report: &str) -> Result<String, Wrong> {
    let Some((_, behind)) = report.split_once(TABLE) else {
        return Err(Wrong::text(alloc, "a report without a table"));
    };
    Ok(format!(in alloc; "{TABLE}{behind}")?)
}

/// The same by one command line.
fn check_tables_by<R: AllocGlobal + Threads + Wait + Sync>(
    rt: &R,
    command: &str,
    base: &str,
    lines: &[String],
) -> Result<(), Wrong> {
    let Block { input, wanted } = block_of(rt.alloc(), base, lines)?;
    let written = written_by(rt, command, input)?;
    let tables = tables_of(rt.alloc(), written.as_str())?;
    check_report(rt.alloc(), tables.as_str(), wanted.as_slice())
}

/// A report from its first table on, without its last line.
fn left_of(alloc: Global, report: &str) -> Result<String, Wrong> {
    let tables = tables_of(alloc, report)?;
    let Some((left, _)) = tables.split_once(DONE) else {
        return Err(Wrong::text(alloc, "a report without its end"));
    };
    Ok(String::from_str(alloc, left)?)
}

/// Checks that an audit finds a report right, behind the script that was run.
fn check_audit<R: AllocGlobal + Threads + Wait + Sync>(
    rt: &R,
    script: &[u8],
    report: &str,
) -> Result<(), Wrong> {
    let mut input = Vec::from_slice(rt.alloc(), script)?;
    input.extend_from_slice(report.as_bytes())?;
    let ended = run_with(rt, "audit", input)?;
    let verdict = report_of(rt.alloc(), &ended)?;
    if verdict.starts_with(RIGHT) {
        return Ok(());
    }
    let text = format!(in rt.alloc(); "{verdict}of the report\n{report}")?;
    Err(Wrong::Text(text))
}

/// Checks that a recovery of a disk finds what a report says is left.
fn check_recovery<R: AllocGlobal + Threads + Wait + Sync>(
    rt: &R,
    disk: MemoryDisk,
    report: &str,
) -> Result<(), Wrong> {
    let (ended, _) = run_on_disk(rt, "recover", Vec::new(rt.alloc()), disk)?;
    let found = report_of(rt.alloc(), &ended)?;
    let left = left_of(rt.alloc(), report)?;
    let want = format!(in rt.alloc(); "{left}[\"done\",0]\n")?;
    check_report(rt.alloc(), found, want.as_bytes())
}

/// A script by one command line: its report is right, and is that of its store.
fn check_audited_by<R: AllocGlobal + Threads + Wait + Sync>(
    rt: &R,
    command: &str,
    script: &[u8],
) -> Result<(), Wrong> {
    let input = Vec::from_slice(rt.alloc(), script)?;
    let disk = MemoryDisk::new(rt.alloc(), Seq::new(rt.alloc()));
    let (ended, disk) = run_on_disk(rt, command, input, disk)?;
    let report = match report_of(rt.alloc(), &ended) {
        Ok(report) => report,
        Err(wrong) => {
            // So it is let go by one call.
            drop(disk);
            return Err(wrong);
        }
    };
    check_recovery(rt, disk, report)?;
    check_audit(rt, script, report)
}

/// A block `audited`.
pub fn check_audited<R: AllocGlobal + Threads + Wait + Sync>(
    rt: &R,
    base: &str,
    lines: &[String],
) -> Result<(), Wrong> {
    let base = format!(in rt.alloc(); "{base}␤")?;
    let script = bytes_behind(rt.alloc(), base.as_str(), lines)?;
    for command in AUDITED {
        check_audited_by(rt, command, script.as_slice())?;
    }
    Ok(())
}
