//! Stores on a disk in memory.
//!
//! A disk has many lists, which are let go wherever a call may fail while it is there. So what may fail borrows it.

ghost use Rattle.std.specs.Prelude.{◌≡◌, ◌≤◌, ◌^◌, false, length, All, IfOk};
ghost use Rattle.ss_record.specs.Bounds.{IsRecordable};
ghost use Rattle.ss_cmdlog.specs.Logged.{is_install};

use crate::words::said;
use ss_case_files::Wrong;
use ss_cmdlog::{CmdLog, Loaded, LogError};
use ss_disk::{Disk, FileNo, MemoryDisk};
use ss_model::{Entry, Mode};
use ss_value::Seq;
use std::alloc::Global;

/// Steps on the batches 0, 1 and 2, each with a record of 11 bytes.
pub fn three_steps(alloc: Global) -> Result<Seq<Entry>, Wrong>
    ensures recordable { IfOk result (λ entries. All IsRecordable entries) }
    ensures formed { IfOk result (λ entries. All (λ e. is_install e ≡ false) entries) }
    ensures three { IfOk result (λ entries. length entries ≡ 3) }
{
    let mut entries = Seq::new(alloc);
    for batch in 0..3 {
        let step = Entry::Step {
            procedure: 1,
            batch,
        };
        if entries.push(step).is_err() {
            return Err(Wrong::NoMemory);
        }
    }
    Ok(entries)
}

/// A store of one group behind this image, made in 11 calls: 7 of its making, 4 of a flush.
pub fn store_with(
    alloc: Global,
    mode: Mode,
    image: &[u8],
    group: &Seq<Entry>,
) -> Result<MemoryDisk, Wrong>
    requires recordable { All IsRecordable group.now }
    requires formed { All (λ e. is_install e ≡ false) group.now }
    requires within { length group.now ≤ 2 ^ 60 }
{
    let disk = MemoryDisk::new(alloc, Seq::new(alloc));
    let Ok(mut log) = CmdLog::format(alloc, disk, image, mode) else {
        return Err(Wrong::text(alloc, "no store"));
    };
    match log.flush(group) {
        Ok(receipt) if receipt.count == group.len() as u64 => Ok(log.into_disk()),
        _ => Err(Wrong::text(alloc, "no receipt of all")),
    }
}

/// A store of three steps behind an image of two bytes.
pub fn store_of_steps(alloc: Global) -> Result<MemoryDisk, Wrong> {
    let steps = three_steps(alloc)?;
    store_with(alloc, Mode::Strong, &[7, 8], &steps)
}

/// What the opening of a store came to: its first place, and how many entries it has from there on; or what is wrong with it.
fn words_of(
    alloc: Global,
    opened: &Result<(CmdLog<MemoryDisk>, Loaded), (LogError, MemoryDisk)>,
) -> Result<String, Wrong> {
    match opened {
        Ok((_, loaded)) => {
            let first = loaded.first;
            let count = loaded.entries.len();
            Ok(format!(in alloc; "{first}+{count}")?)
        }
        Err((LogError::Foreign { file, at }, _)) => Ok(format!(in alloc; "{file}@{at}")?),
        Err(_) => Err(Wrong::text(alloc, "not opened")),
    }
}

/// A disk.
pub struct Kept {
    pub disk: MemoryDisk,
}

// By hand, so that letting it go is one call.
impl Drop for Kept {
    fn drop(self) {
        let Kept { disk: _ } = self;
    }
}

impl Kept {
    /// The disk itself.
    pub fn into_disk(self) -> MemoryDisk
        ensures { result ≡ self.disk }
    {
        let Kept { disk } = self;
        disk
    }
}

/// What is read of a disk.
pub fn answer_of(alloc: Global, disk: MemoryDisk) -> Result<String, Wrong> {
    let mut kept = Kept { disk };
    match kept.disk.len(FileNo::Selector) {
        Ok(0) => return said(alloc, "empty"),
        Ok(_) => {}
        Err(_) => return Err(Wrong::text(alloc, "no length")),
    }
    let opened = CmdLog::open(alloc, kept.into_disk());
    words_of(alloc, &opened)
}
