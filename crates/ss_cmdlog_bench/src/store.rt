//! Calls that are written to a store, and read again.

ghost use Rattle.std.specs.Prelude.{◌≡◌, ◌≢◌, ◌<◌, [], length, All, IfOk};
ghost use Rattle.ss_record.specs.Bounds.{IsRecordable};
ghost use Rattle.ss_cmdlog.specs.Store.{IsEmpty};
ghost use Rattle.ss_cmdlog.specs.Log.{IsSettled};

use ss_cmdlog::{CmdLog, LogError};
use ss_disk::{Disk, FileNo};
use ss_model::{Entry, Mode};
use ss_value::{NoMemory, Seq, Value};
use std::alloc::Global;
use std::io;
use std::time::{Clock, Duration, Instant};

/// Why a log refused, in words.
fn error_of(refused: LogError) -> io::Error {
    match refused {
        LogError::NoMemory => io::Error::from(io::ErrorKind::OutOfMemory),
        LogError::DiskFault => io::Error::other("the disk failed"),
        LogError::Foreign { .. } => io::Error::other("the folder holds no store"),
        LogError::Halted { .. } => io::Error::other("the log has halted"),
    }
}

/// The request of this number: a call with two Ints.
fn call(alloc: Global, index: u64) -> Result<Entry, NoMemory>
    ensures { IfOk result IsRecordable }
{
    let args = vec![in alloc; Value::Int(index.cast_signed()), Value::Int(1)]?;
    Ok(Entry::Call {
        client: 0,
        index,
        procedure: 0,
        args: Seq::from_vec(args),
    })
}

/// So many requests, from this number on.
fn calls(alloc: Global, from: u64, count: u64) -> Result<Seq<Entry>, NoMemory>
    ensures recordable { IfOk result (λ entries. All IsRecordable entries) }
    ensures many { IfOk result (λ entries. length entries ≡ count) }
{
    let mut entries = Seq::new(alloc);
    for more in 0..count {
        let entry = call(alloc, from.saturating_add(more))?;
        if entries.push(entry).is_err() {
            return Err(NoMemory);
        }
    }
    Ok(entries)
}

/// Whether a disk's selector names a file.
pub fn holds_store<D: Disk>(disk: &mut D) -> io::Result<bool> {
    match disk.len(FileNo::Selector) {
        Ok(length) => Ok(length > 0),
        Err(_) => Err(io::Error::other("the disk failed")),
    }
}

/// Makes a store on an empty disk and flushes so many calls to it, in groups of so many, the last of which may have fewer.
/// Answers how many the last receipt counts, and how long the flushes took, with the making of the calls.
pub fn write_calls<D: Disk + Drop, C: Clock>(
    alloc: Global,
    clock: &C,
    disk: D,
    records: u32,
    group: u32,
) -> io::Result<(u64, Duration)>
    requires empty { D.kind.tells → IsEmpty (D.kind.seen disk) }
    requires settled { D.kind.honest → IsSettled D.kind disk }
    requires some { 0 < group }
    ensures { IfOk result (λ r. r.0 ≡ records) }
{
    let mut log = match CmdLog::format(alloc, disk, b"", Mode::Strong) {
        Ok(log) => log,
        Err((refused, _)) => return Err(error_of(refused)),
    };
    let all = records as u64;
    let begun = Instant::now(clock)?;
    let mut written = 0;
    while written < all {
        let number = (group as u64).min(all - written);
        let Ok(entries) = calls(alloc, written, number) else {
            return Err(error_of(LogError::NoMemory));
        };
        match log.flush(&entries) {
            Ok(receipt) => written = receipt.count,
            Err(refused) => return Err(error_of(refused)),
        }
    }
    Ok((written, begun.elapsed(clock)?))
}

/// Opens the store on a disk, and answers how many calls it holds, and how long that took.
pub fn read_calls<D: Disk + Drop, C: Clock>(
    alloc: Global,
    clock: &C,
    disk: D,
) -> io::Result<(u64, Duration)>
    requires { D.kind.tells → (D.kind.seen disk).selector ≢ [] }
{
    let begun = Instant::now(clock)?;
    match CmdLog::open(alloc, disk) {
        Ok((_, loaded)) => Ok((loaded.entries.len() as u64, begun.elapsed(clock)?)),
        Err((refused, _)) => Err(error_of(refused)),
    }
}
