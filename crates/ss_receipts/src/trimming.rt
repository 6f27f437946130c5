//! The last checkpoint: behind the last flush, where it is due. `run_session` of `ss_engine` calls it when the engine is closed.

ghost use Rattle.std.specs.Prelude.{◌≡◌, ◌≤◌, ℕ, List, IsSome};
ghost use Rattle.ss_model.specs.declared.entry.Listed.{Listed};
ghost use Rattle.ss_model.specs.Accepted.{Accepted};
ghost use Rattle.ss_model.specs.WholeDatabase.{WholeDatabase, HadAtMost};
ghost use Rattle.ss_receipts.specs.Trimming.{HoldsAll, Trims};

use crate::checkpoint::renew_log;
use crate::durable::DurableError;
use ss_cmdlog::CmdLog;
use ss_disk::Disk;
use ss_model::{Catalog, Life};
use ss_model_laws::whole_databases_stay;
use ss_shard::Shard;
use ss_snapshot::write_image;
use ss_stream::Streams;
use std::alloc::Global;

/// Puts the image of the database in place of the generation that a log is open on, where so many entries or more stand behind
/// that one's first place, and else does nothing. The log has all of the list, and shard and streams stand behind it.
///
/// At Ok fewer entries than that stand behind the current generation's first place. `NoMemory` is want of memory: the log
/// goes on with the generation that there was. `DiskFault` comes only where the disk failed in this call, and counted it; a
/// log that was halted before answers `Halted`, with its count, and is left as it is. A crash at any moment leaves all of the
/// list, as one without this call would.
///
/// Where no checkpoint is due it is constant, and takes no memory. Else there are seven calls of the disk, of time and memory
/// linear in the image.
///
/// It follows [`crate::finish`], so that the next opening doesn't execute again what this one has: a generation that clients
/// left too short for a checkpoint grows by the steps of settling, and nobody else would look at it before the next opening.
/// No client waits for it, so it takes no lock.
pub fn trim<I: Life, D: Disk + Drop>(
    alloc: Global,
    log: &mut CmdLog<D>,
    catalog: &Catalog,
    whole: &Shard,
    streams: &Streams,
    end: u64,
    every: u64,
) -> Result<(), DurableError>
    requires catalog { catalog.now ≡ I.catalog }
    requires accepted { Accepted I.catalog }
    requires asked { IsSome I.every }
    requires opening { WholeDatabase I.catalog I.opening × HadAtMost I.first I.opening }
    requires every { 1 ≤ every }
    requires list { (list : List Listed) × (fault : ℕ)
        × HoldsAll I.recovery I.every I.catalog I.opening I.first I.moment I.faults I.past D.kind list log.old end fault whole.now streams.now.streams }
    ensures holds { (list : List Listed) (fault : ℕ)
        → HoldsAll I.recovery I.every I.catalog I.opening I.first I.moment I.faults I.past D.kind list log.old end fault whole.now streams.now.streams
        → Trims I.recovery I.every I.catalog I.opening I.first I.moment I.faults I.past D.kind list log.new end fault every result }
{
    if let Some(faults) = log.halted() {
        return Err(DurableError::Halted { faults });
    }
    if end.saturating_sub(log.first()) < every {
        return Ok(());
    }
    whole_databases_stay();
    let Ok(image) = write_image(alloc, catalog, whole, streams) else {
        return Err(DurableError::NoMemory);
    };
    match renew_log::<I, D>(log, end, image.as_slice()).answer {
        Ok(_) => Ok(()),
        Err(refused) => Err(refused),
    }
}
