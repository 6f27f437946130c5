//! Calls of the program one after another on one disk in memory: what each finds of those before it.
//!
//! ```text
//! calls BASE     WORDS ~ REQUESTS ~ LINE, a line each: the words of a command line, the requests behind the base, and the
//!                first line that is written, or, where it has a `␤`, all that is written
//! ```
//!
//! The whole block is one case. `recover` and `voter` read nothing, so they have no requests.

use crate::run::{check_answer, run_on_disk};
use ss_case_files::{Wrong, bytes_of, column};
use ss_disk::MemoryDisk;
use ss_value::Seq;
use std::alloc::Global;
use std::sync::Wait;
use std::thread::Threads;

/// A block `calls`, on a disk that is empty at first.
pub fn check_calls<R: AllocGlobal + Threads + Wait + Sync>(
    rt: &R,
    base: &str,
    lines: &[String],
) -> Result<(), Wrong> {
    let mut disk = MemoryDisk::new(rt.alloc(), Seq::new(rt.alloc()));
    for line in lines {
        let (words, input, want) = call_of(rt.alloc(), base, line.as_str())?;
        disk = check_call(rt, words, input, want, disk)?;
    }
    Ok(())
}

/// The words of a call's command line, its input, and what it has to write.
fn call_of<'a>(
    alloc: Global,
    base: &str,
    row: &'a str,
) -> Result<(&'a str, Vec<u8>, &'a str), Wrong> {
    let (words, rest) = column(alloc, row)?;
    let (requests, line) = column(alloc, rest)?;
    let input = format!(in alloc; "{base}␤{requests}")?;
    Ok((words, bytes_of(alloc, input.as_str())?, line))
}

/// A call, which gives back the disk as it left it.
fn check_call<R: AllocGlobal + Threads + Wait + Sync>(
    rt: &R,
    words: &str,
    input: Vec<u8>,
    want: &str,
    disk: MemoryDisk,
) -> Result<MemoryDisk, Wrong> {
    let (ended, disk) = run_on_disk(rt, words, input, disk)?;
    match check_answer(rt.alloc(), &ended, want) {
        Ok(()) => Ok(disk),
        Err(wrong) => {
            // So it is let go by one call.
            drop(disk);
            Err(wrong)
        }
    }
}
