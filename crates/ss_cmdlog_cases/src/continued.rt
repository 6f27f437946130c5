//! Stores of either form that go on: a flush, a new generation, and an install behind it.

ghost use Rattle.std.specs.Prelude.{◌≡◌, ◌≤◌, length, All, IfOk};
ghost use Rattle.ss_record.specs.Bounds.{IsRecordable};
ghost use Rattle.ss_cmdlog.specs.Generation.{Stood};
ghost use Rattle.ss_cmdlog.specs.Log.{IsOpen};

use crate::files::{bytes_of, digits_of};
use crate::renewals::renew_behind;
use crate::stores::{Kept, three_steps};
use ss_case_files::Wrong;
use ss_cmdlog::CmdLog;
use ss_disk::{Disk, FileNo, MemoryDisk};
use ss_model::Entry;
use ss_value::Seq;
use std::alloc::Global;

/// An install of the body `[]` for procedure 2, with index 1 of client 7.
fn install(alloc: Global) -> Result<Seq<Entry>, Wrong>
    ensures recordable { IfOk result (λ entries. All IsRecordable entries) }
    ensures one { IfOk result (λ entries. length entries ≡ 1) }
{
    let text = Vec::from_slice(alloc, b"[]")?;
    let entry = Entry::Install {
        client: 7,
        index: 1,
        procedure: 2,
        text: Seq::from_vec(text),
    };
    Ok(Seq::from_vec(vec![in alloc; entry]?))
}

/// Flushes three steps, renews the generation behind them, and flushes the install.
fn go_on<D: Disk>(alloc: Global, log: &mut CmdLog<D>) -> Result<(), Wrong>
    requires open { (s : Stood) × IsOpen D.kind log.old s }
    requires small { log.old.count ≤ 100 }
{
    let steps = three_steps(alloc)?;
    let installs = install(alloc)?;
    let Ok(()) = renew_behind(log, &steps, &[9]) else {
        return Err(Wrong::text(alloc, "not renewed"));
    };
    match log.flush(&installs) {
        Ok(_) => Ok(()),
        Err(_) => Err(Wrong::text(alloc, "not flushed")),
    }
}

/// The bytes of both files of a disk.
fn digits_of_both(alloc: Global, disk: &mut MemoryDisk) -> Result<String, Wrong> {
    let first = bytes_of(alloc, disk, FileNo::First)?;
    let first = digits_of(alloc, first.as_slice())?;
    let second = bytes_of(alloc, disk, FileNo::Second)?;
    let second = digits_of(alloc, second.as_slice())?;
    Ok(format!(in alloc; "{first}; {second}")?)
}

/// The bytes of both files, where the store of a disk goes on.
pub fn answer_of(alloc: Global, disk: MemoryDisk) -> Result<String, Wrong> {
    let mut kept = Kept { disk };
    match kept.disk.len(FileNo::Selector) {
        Ok(0) => return Err(Wrong::text(alloc, "no store")),
        Ok(_) => {}
        Err(_) => return Err(Wrong::text(alloc, "no length")),
    }
    let Ok((mut log, loaded)) = CmdLog::open(alloc, kept.into_disk()) else {
        return Err(Wrong::text(alloc, "not opened"));
    };
    if loaded.first > 50 || loaded.entries.len() > 50 {
        return Err(Wrong::text(alloc, "too many entries"));
    }
    let gone = go_on(alloc, &mut log);
    let mut disk = log.into_disk();
    let digits = digits_of_both(alloc, &mut disk);
    gone?;
    digits
}
