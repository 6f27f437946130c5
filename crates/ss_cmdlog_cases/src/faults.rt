//! A disk that fails in one call.

ghost use Rattle.std.specs.Prelude.{◌≡◌, false, length, All};
ghost use Rattle.ss_record.specs.Bounds.{IsRecordable};
ghost use Rattle.ss_cmdlog.specs.Logged.{is_install};

use crate::crashes::crashes_from;
use crate::stores::{answer_of, three_steps};
use crate::words::{number_of, said};
use ss_case_files::Wrong;
use ss_cmdlog::{CmdLog, LogError, Receipt};
use ss_disk::{Disk, MemoryDisk};
use ss_model::{Entry, Mode};
use ss_value::{NoMemory, Seq};
use std::alloc::Global;

/// Why a call was refused.
pub fn refusal_of(alloc: Global, refused: LogError) -> Result<String, Wrong> {
    match refused {
        LogError::NoMemory => Err(Wrong::NoMemory),
        LogError::DiskFault => said(alloc, "disk fault"),
        LogError::Foreign { file, at } => Ok(format!(in alloc; "{file}@{at}")?),
        LogError::Halted { faults } => Ok(format!(in alloc; "halted at {faults}")?),
    }
}

/// What a flush answered.
pub fn words_of(alloc: Global, answer: Result<Receipt, LogError>) -> Result<String, Wrong> {
    match answer {
        Ok(Receipt { count }) => Ok(format!(in alloc; "receipt of {count}")?),
        Err(refused) => refusal_of(alloc, refused),
    }
}

/// What two flushes answered, the second of which there was where the first met a fault.
fn words_of_both(
    alloc: Global,
    answer: Result<Receipt, LogError>,
    later: Option<Result<Receipt, LogError>>,
) -> Result<String, Wrong> {
    let first = words_of(alloc, answer)?;
    let Some(later) = later else {
        return Ok(first);
    };
    let later = words_of(alloc, later)?;
    Ok(format!(in alloc; "{first}, {later}")?)
}

/// How often a disk was called and failed.
fn counts_of(alloc: Global, disk: &MemoryDisk) -> Result<String, Wrong> {
    let calls = disk.calls();
    let faults = disk.faults();
    Ok(format!(in alloc; "{calls} calls, {faults} faults")?)
}

/// How often a disk was called and failed, what is read of it, and what is read behind a crash in each call from this one on.
pub fn disk_after(alloc: Global, disk: MemoryDisk, from: u64) -> Result<String, Wrong> {
    let counts = counts_of(alloc, &disk);
    let crashes = crashes_from(alloc, &disk, from);
    let read = answer_of(alloc, disk)?;
    let counts = counts?;
    let crashes = crashes?;
    Ok(format!(in alloc; "{counts}, {read}{crashes}")?)
}

/// The number of a call, as a list.
pub fn one_call(alloc: Global, call: u64) -> Result<Seq<u64>, NoMemory> {
    let mut calls = Seq::new(alloc);
    calls.push(call)?;
    Ok(calls)
}

/// A store of these entries on a disk that fails at one call: what a flush of them again answers, and the disk behind that.
fn flushes_of(alloc: Global, entries: &Seq<Entry>, call: u64) -> Result<String, Wrong>
    requires recordable { All IsRecordable entries.now }
    requires formed { All (λ e. is_install e ≡ false) entries.now }
    requires three { length entries.now ≡ 3 }
{
    let fails = one_call(alloc, call)?;
    let Ok(mut log) = CmdLog::format(alloc, MemoryDisk::new(alloc, fails), &[7, 8], Mode::Strong)
    else {
        return Err(Wrong::text(alloc, "no store"));
    };
    if log.flush(entries).is_err() {
        return Err(Wrong::text(alloc, "not flushed"));
    }
    let answer = log.flush(entries);
    let later = match answer {
        Err(LogError::DiskFault) => Some(log.flush(entries)),
        _ => None,
    };
    let disk = disk_after(alloc, log.into_disk(), 11)?;
    let answer = words_of_both(alloc, answer, later)?;
    Ok(format!(in alloc; "{answer}, {disk}")?)
}

/// A store of three steps on a disk that fails at one call: what a flush of three more answers, and the disk behind that.
pub fn flushes_failing_at(alloc: Global, given: &str) -> Result<String, Wrong> {
    let call = number_of(alloc, given)?;
    let entries = three_steps(alloc)?;
    flushes_of(alloc, &entries, call)
}

/// Why a store is not made or not opened, and the disk behind that.
fn not_so(
    alloc: Global,
    what: &str,
    refused: LogError,
    disk: MemoryDisk,
    from: u64,
) -> Result<String, Wrong> {
    let disk = disk_after(alloc, disk, from)?;
    let refusal = refusal_of(alloc, refused)?;
    Ok(format!(in alloc; "{what}: {refusal}, {disk}")?)
}

/// What the making of a store and its opening answer on a disk that fails at one call, and the disk behind that.
pub fn opening_failing_at(alloc: Global, given: &str) -> Result<String, Wrong> {
    let call = number_of(alloc, given)?;
    let fails = one_call(alloc, call)?;
    let log = match CmdLog::format(alloc, MemoryDisk::new(alloc, fails), &[7, 8], Mode::Strong) {
        Ok(log) => log,
        Err((refused, disk)) => return not_so(alloc, "not made", refused, disk, call),
    };
    match CmdLog::open(alloc, log.into_disk()) {
        Ok(_) => said(alloc, "opened"),
        Err((refused, disk)) => not_so(alloc, "not opened", refused, disk, call),
    }
}
