//! Weak logs, which leave steps out.

ghost use Rattle.std.specs.Prelude.{◌≡◌, ◌≤◌, ◌+◌, false, length, All, OnOk};
ghost use Rattle.ss_record.specs.Bounds.{IsRecordable};
ghost use Rattle.ss_cmdlog.specs.Generation.{Stood};
ghost use Rattle.ss_cmdlog.specs.Log.{IsOpen};
ghost use Rattle.ss_cmdlog.specs.Logged.{is_install};

use crate::faults::{disk_after, one_call, words_of};
use crate::files::group;
use crate::stores::three_steps;
use crate::words::number_of;
use ss_case_files::Wrong;
use ss_cmdlog::{CmdLog, LogError, Receipt};
use ss_disk::{Disk, MemoryDisk};
use ss_model::{Entry, Mode};
use ss_value::Seq;
use std::alloc::Global;

/// Flushes three steps, then a call and a push, and the steps again.
fn flush_among<D: Disk>(
    log: &mut CmdLog<D>,
    steps: &Seq<Entry>,
    asked: &Seq<Entry>,
) -> Result<Receipt, LogError>
    requires open { (s : Stood) × IsOpen D.kind log.old s }
    requires steps { All IsRecordable steps.now }
    requires asked { All IsRecordable asked.now }
    requires steps_formed { All (λ e. is_install e ≡ false) steps.now }
    requires asked_formed { All (λ e. is_install e ≡ false) asked.now }
    requires three { length steps.now ≡ 3 }
    requires two { length asked.now ≡ 2 }
    requires small { log.old.count ≡ 0 }
{
    log.flush(steps)?;
    log.flush(asked)?;
    log.flush(steps)
}

/// A weak log of an image of three bytes, on a disk that fails at these calls: what the last flush of the three answers, and the disk.
fn flushed_among(
    alloc: Global,
    fails: Seq<u64>,
    steps: &Seq<Entry>,
    asked: &Seq<Entry>,
) -> Result<(Result<Receipt, LogError>, MemoryDisk), Wrong>
    requires steps { All IsRecordable steps.now }
    requires asked { All IsRecordable asked.now }
    requires steps_formed { All (λ e. is_install e ≡ false) steps.now }
    requires asked_formed { All (λ e. is_install e ≡ false) asked.now }
    requires three { length steps.now ≡ 3 }
    requires two { length asked.now ≡ 2 }
{
    let disk = MemoryDisk::new(alloc, fails);
    let Ok(mut log) = CmdLog::format(alloc, disk, b"img", Mode::Weak) else {
        return Err(Wrong::text(alloc, "no store"));
    };
    let answer = flush_among(&mut log, steps, asked);
    Ok((answer, log.into_disk()))
}

/// A weak store of a call and a push, among steps: the bytes that `files` shows, but for the magic.
pub fn store_among_steps(alloc: Global) -> Result<MemoryDisk, Wrong> {
    let steps = three_steps(alloc)?;
    let asked = group(alloc)?;
    match flushed_among(alloc, Seq::new(alloc), &steps, &asked)? {
        (Ok(Receipt { count: 8 }), disk) => Ok(disk),
        _ => Err(Wrong::text(alloc, "no receipt of all")),
    }
}

/// What the last flush answers where the disk fails at one call, and the disk behind that.
pub fn flushes_failing_at(alloc: Global, given: &str) -> Result<String, Wrong> {
    let call = number_of(alloc, given)?;
    let steps = three_steps(alloc)?;
    let asked = group(alloc)?;
    let fails = one_call(alloc, call)?;
    let (answer, disk) = flushed_among(alloc, fails, &steps, &asked)?;
    let disk = disk_after(alloc, disk, 7)?;
    let answer = words_of(alloc, answer)?;
    Ok(format!(in alloc; "{answer}, {disk}")?)
}
