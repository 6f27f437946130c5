//! A crash in each call of a store's making and of a flush.

ghost use Rattle.std.specs.Prelude.{◌<◌};
ghost use Rattle.ss_disk.specs.Calls.{memory_calls};

use crate::stores::{answer_of as read_of, store_of_steps};
use crate::words::{number_of, said};
use ss_case_files::Wrong;
use ss_disk::{MemoryDisk, Torn};
use std::alloc::Global;

/// What is read of a disk behind a crash in a call, which tears each unsynced range in one way.
fn left_by(alloc: Global, disk: &MemoryDisk, call: u64, torn: Torn) -> Result<String, Wrong>
    requires { call < memory_calls disk.now }
{
    match disk.crash(alloc, call, torn) {
        Ok(crashed) => read_of(alloc, crashed),
        Err(_) => Err(Wrong::NoMemory),
    }
}

/// What a crash in a call leaves, where each unsynced range holds its old bytes, its new ones, or dashes.
fn crash_in(alloc: Global, disk: &MemoryDisk, call: u64) -> Result<String, Wrong>
    requires { call < memory_calls disk.now }
{
    let mut text = String::new(alloc);
    for torn in [Torn::Nothing, Torn::Whole, Torn::Fill(b'-')] {
        let space = if text.is_empty() { "" } else { " " };
        let left = left_by(alloc, disk, call, torn)?;
        let words = format!(in alloc; "{space}{left}")?;
        text.push_str(words.as_str())?;
    }
    Ok(text)
}

/// What a crash in each call from this one on leaves, each behind the number of the call.
pub fn crashes_from(alloc: Global, disk: &MemoryDisk, from: u64) -> Result<String, Wrong> {
    let mut text = String::new(alloc);
    for call in from..disk.calls() {
        let left = crash_in(alloc, disk, call)?;
        let words = format!(in alloc; "; {call}: {left}")?;
        text.push_str(words.as_str())?;
    }
    Ok(text)
}

/// What a crash in a call leaves of a disk, if it was called so often.
fn left_of(alloc: Global, disk: &MemoryDisk, call: u64) -> Result<String, Wrong> {
    if call < disk.calls() {
        crash_in(alloc, disk, call)
    } else {
        said(alloc, "no such call")
    }
}

/// What a crash in a call of a store's making and of a flush leaves.
pub fn answer_of(alloc: Global, given: &str) -> Result<String, Wrong> {
    let call = number_of(alloc, given)?;
    let disk = store_of_steps(alloc)?;
    left_of(alloc, &disk, call)
}
