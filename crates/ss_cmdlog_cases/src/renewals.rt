//! New generations, and a disk that fails in one call of one.

ghost use Rattle.std.specs.Prelude.{◌≡◌, ◌≤◌, ◌+◌, true, false, length, All, OnOk};
ghost use Rattle.ss_record.specs.Bounds.{IsRecordable};
ghost use Rattle.ss_cmdlog.specs.Generation.{Stood};
ghost use Rattle.ss_cmdlog.specs.Log.{IsOpen};
ghost use Rattle.ss_cmdlog.specs.Logged.{is_install};

use crate::faults::{disk_after, one_call, refusal_of, words_of as words_of_flush};
use crate::stores::three_steps;
use crate::words::number_of;
use ss_case_files::Wrong;
use ss_cmdlog::{CmdLog, LogError, Receipt};
use ss_disk::{Disk, MemoryDisk};
use ss_model::{Entry, Mode};
use ss_value::Seq;
use std::alloc::Global;

/// What a renewal answered that left this first place.
fn words_of(alloc: Global, answer: Result<(), LogError>, first: u64) -> Result<String, Wrong> {
    match answer {
        Ok(()) => Ok(format!(in alloc; "first {first}")?),
        Err(refused) => refusal_of(alloc, refused),
    }
}

/// What a renewal and the flush behind it answered.
fn words_of_both(
    alloc: Global,
    answer: Result<(), LogError>,
    first: u64,
    later: Option<Result<Receipt, LogError>>,
) -> Result<String, Wrong> {
    let renewal = words_of(alloc, answer, first)?;
    let Some(later) = later else {
        return Ok(renewal);
    };
    let later = words_of_flush(alloc, later)?;
    Ok(format!(in alloc; "{renewal}, {later}")?)
}

/// A store of these entries on a disk that fails at one call: what a renewal and a flush of them behind it answer, and the
/// disk behind that.
fn renewal_of(alloc: Global, entries: &Seq<Entry>, call: u64) -> Result<String, Wrong>
    requires recordable { All IsRecordable entries.now }
    requires formed { All (λ e. is_install e ≡ false) entries.now }
    requires three { length entries.now ≡ 3 }
{
    let fails = one_call(alloc, call)?;
    let Ok(mut log) = CmdLog::format(alloc, MemoryDisk::new(alloc, fails), &[7, 8], Mode::Strong)
    else {
        return Err(Wrong::text(alloc, "no store"));
    };
    let Ok(receipt) = log.flush(entries) else {
        return Err(Wrong::text(alloc, "not flushed"));
    };
    let answer = log.renew(&[9], receipt.count);
    let first = log.first();
    let later = match answer {
        Ok(()) => Some(log.flush(entries)),
        Err(LogError::DiskFault) => Some(log.flush(entries)),
        Err(_) => None,
    };
    let disk = disk_after(alloc, log.into_disk(), 11)?;
    let answer = words_of_both(alloc, answer, first, later)?;
    Ok(format!(in alloc; "{answer}, {disk}")?)
}

/// A store of three steps on a disk that fails at one call: what a renewal and a flush of three more answer, and the disk
/// behind that.
pub fn renewal_failing_at(alloc: Global, given: &str) -> Result<String, Wrong> {
    let call = number_of(alloc, given)?;
    let entries = three_steps(alloc)?;
    renewal_of(alloc, &entries, call)
}

/// Flushes three entries, and renews the generation behind them.
pub fn renew_behind<D: Disk>(
    log: &mut CmdLog<D>,
    entries: &Seq<Entry>,
    image: &[u8],
) -> Result<(), LogError>
    requires open { (s : Stood) × IsOpen D.kind log.old s }
    requires recordable { All IsRecordable entries.now }
    requires formed { All (λ e. is_install e ≡ false) entries.now }
    requires three { length entries.now ≡ 3 }
    requires small { log.old.count ≤ 100 }
    ensures open { OnOk result ((s : Stood) × IsOpen D.kind log.new s) }
    ensures form { OnOk result (log.new.bodies ≡ true) }
    ensures count { OnOk result (log.new.count ≡ log.old.count + 3) }
{
    let receipt = log.flush(entries)?;
    log.renew(image, receipt.count)?;
    Ok(())
}

/// The disk of a log whose generation was renewed twice, each time behind three entries. What was in the second file from the
/// first time on is there, and in the first file what there is since the second time.
fn renewed_behind(alloc: Global, entries: &Seq<Entry>) -> Result<MemoryDisk, Wrong>
    requires recordable { All IsRecordable entries.now }
    requires formed { All (λ e. is_install e ≡ false) entries.now }
    requires three { length entries.now ≡ 3 }
{
    let disk = MemoryDisk::new(alloc, Seq::new(alloc));
    let Ok(mut log) = CmdLog::format(alloc, disk, &[7, 8], Mode::Strong) else {
        return Err(Wrong::text(alloc, "no store"));
    };
    let Ok(()) = renew_behind(&mut log, entries, &[9]) else {
        return Err(Wrong::text(alloc, "not renewed"));
    };
    match renew_behind(&mut log, entries, &[9, 9]) {
        Ok(()) => Ok(log.into_disk()),
        Err(_) => Err(Wrong::text(alloc, "not renewed twice")),
    }
}

/// The disk of a store whose generation was renewed twice, each time behind three steps.
pub fn twice_renewed(alloc: Global) -> Result<MemoryDisk, Wrong> {
    let entries = three_steps(alloc)?;
    renewed_behind(alloc, &entries)
}
