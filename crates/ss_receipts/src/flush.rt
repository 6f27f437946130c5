//! A flush of the rest of a list, by the command log that its caller has in hand: `durable` under the disk's lock, `finishing`
//! without one. It takes none itself.

ghost use Rattle.std.specs.Prelude.{◌≡◌, ◌+◌, ◌≤◌, ℕ, List, length, None, OnOk};
ghost use Rattle.ss_model.specs.declared.entry.Listed.{Listed};
ghost use Rattle.ss_model.specs.Accepted.{Accepted};
ghost use Rattle.ss_receipts.specs.Holding.{Holds, AreRest};
ghost use Rattle.ss_receipts.specs.Durable.{IsDurable};

use crate::durable::DurableError;
use ss_cmdlog::{CmdLog, LogError, Receipt, groups_hold_the_entries};
use ss_disk::Disk;
use ss_fronts::{flushes_keep_fronts, held_fronts_stand};
use ss_model::{Entry, Life};
use ss_value::Seq;

/// What a flush has left.
#[derive(Drop)]
pub(crate) struct Flushed {
    /// Every place below it is receipted.
    pub count: u64,
    /// The disk's count of faults where it failed, and else 0.
    pub faults: u64,
    pub answer: Result<Receipt, DurableError>,
}

/// Writes the rest of a list behind what a log holds of it. One flush.
pub(crate) fn flush_rest<I: Life, D: Disk + Drop>(
    log: &mut CmdLog<D>,
    count: u64,
    entries: &Seq<Entry>,
) -> Flushed
    requires accepted { Accepted I.catalog }
    requires going { log.old.halted ≡ None }
    requires rest { (list : List Listed) × (fault : ℕ) × AreRest I.catalog I.opening I.first list count entries.now
        × Holds I.recovery I.every I.catalog I.opening I.first I.moment I.faults I.past D.kind list log.old count fault }
    ensures holds { (list : List Listed) (fault : ℕ) → AreRest I.catalog I.opening I.first list count entries.now
        → Holds I.recovery I.every I.catalog I.opening I.first I.moment I.faults I.past D.kind list log.old count fault
        → Holds I.recovery I.every I.catalog I.opening I.first I.moment I.faults I.past D.kind list log.new result.count result.faults }
    ensures more { count ≤ result.count }
    ensures going { OnOk result.answer (log.new.halted ≡ None) }
    ensures answer { IsDurable (count + length entries.now) result.count result.faults result.answer }
{
    groups_hold_the_entries();
    held_fronts_stand();
    flushes_keep_fronts::<D>();
    match log.flush(entries) {
        Ok(receipt) => Flushed {
            count: receipt.count,
            faults: 0,
            answer: Ok(receipt),
        },
        Err(LogError::NoMemory) => Flushed {
            count: log.count(),
            faults: 0,
            answer: Err(DurableError::NoMemory),
        },
        Err(LogError::DiskFault) => {
            let Some(faults) = log.halted() else {
                unreachable!()
            };
            Flushed {
                count,
                faults,
                answer: Err(DurableError::DiskFault),
            }
        }
        Err(_) => unreachable!(),
    }
}
