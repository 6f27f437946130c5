//! The last flush: of the whole list, behind settling. `run_session` of `ss_engine` calls it when the engine is closed.

ghost use Rattle.std.specs.Prelude.{◌≡◌, ◌+◌, ◌≤◌, ◌^◌, ℕ, length};
ghost use Rattle.ss_model.specs.Accepted.{Accepted};
ghost use Rattle.ss_model.specs.Replays.{Replays};
ghost use Rattle.ss_receipts.specs.Holding.{Holds};
ghost use Rattle.ss_receipts.specs.Durable.{Finishes};

use crate::durable::DurableError;
use crate::flush::flush_rest;
use crate::rest::copied_entries;
use ss_cmdlog::{CmdLog, Receipt};
use ss_disk::Disk;
use ss_model::{Life, Listed};
use ss_value::Seq;
use std::alloc::Global;

/// Writes all that a log doesn't hold yet of a list that is whole, and answers a receipt of all of the list. The log's own
/// count tells where its part ends, so this may follow calls of [`crate::Receipts`] or none, or itself.
///
/// `NoMemory`, `DiskFault` and `Halted` as of [`crate::Receipts::ensure_durable`]. Linear in the bytes that are written; it
/// takes memory for a copy of their entries, and what the flush takes. Where the log holds all of the list there is no call
/// of the disk.
///
/// It follows settling, instead of going before the close, because the steps of settling are in the list that the
/// report prints: so the disk stands for all of it where all is done. No client waits for it, so it takes no lock.
pub fn finish<I: Life, D: Disk + Drop>(
    alloc: Global,
    log: &mut CmdLog<D>,
    list: &Seq<Listed>,
    first: u64,
) -> Result<Receipt, DurableError>
    requires accepted { Accepted I.catalog }
    requires first { first ≡ I.first }
    requires small { I.first + length list.now ≤ 2 ^ 60 }
    requires replays { Replays I.catalog I.opening list.now }
    requires holds { (count : ℕ) × (fault : ℕ)
        × Holds I.recovery I.every I.catalog I.opening I.first I.moment I.faults I.past D.kind list.now log.old count fault }
    ensures { (count fault : ℕ)
        → Holds I.recovery I.every I.catalog I.opening I.first I.moment I.faults I.past D.kind list.now log.old count fault
        → Finishes I.recovery I.every I.catalog I.opening I.first I.moment I.faults I.past D.kind list.now log.new count fault result }
{
    if let Some(faults) = log.halted() {
        return Err(DurableError::Halted { faults });
    }
    let count = log.count();
    let from = (count - first) as usize;
    let Ok(rest) = copied_entries(alloc, &list.as_slice()[from..]) else {
        return Err(DurableError::NoMemory);
    };
    flush_rest::<I, D>(log, count, &rest).answer
}
