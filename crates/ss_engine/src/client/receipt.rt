//! Receipts for a client's lane, for `requests`. Under the lock of `ss_receipts`, and so perhaps behind a flush of the disk, the
//! lane's mark learns how far the list is receipted; then mark and note meet under the commit log's lock.

ghost use Rattle.std.specs.Prelude.{◌≡◌};
ghost use Rattle.ss_engine.specs.Assured.{AsksForReceipt, with_faults};

use crate::engine::Engine;
use ss_cmdlog::Receipt;
use ss_disk::Disk;
use ss_lanes::{Lane, failed, lane_of};
use ss_model::Life;
use ss_proc::Runner;
use ss_receipts::{DurableError, Receipts};
use ss_settle::Gate;
use std::alloc::Global;
use std::sync::Wait;

impl<I: Life, N: Runner + Drop, G: Gate + Drop> Engine<I, N, G> {
    /// Makes all that a lane's answers tell durable, in one flush with all that the list has by then: group commit.
    ///
    /// At Ok all places below the receipt's count are on the disk, whatever a crash leaves of it from then on, those of the
    /// lane's listed answers among them. NoMemory is want of memory, and what waits for a receipt waits on. Where the disk fails
    /// in this call, or has failed before, the lane is told of its faults, and each later request of it is answered `Halted`.
    /// Whatever is answered, the lane keeps its answers.
    ///
    /// Costs what `Receipts::ensure_durable` costs, and takes the commit log's lock once more. A lane that was told that the disk
    /// has failed is answered at once.
    ///
    /// Source: group commit of a command log (Malviya et al., Rethinking Main Memory OLTP Recovery, ICDE 2014, section 3).
    pub fn ensure_durable<D: Disk + Drop, R: Wait>(
        &self,
        rt: &R,
        alloc: Global,
        receipts: &Receipts<I, D>,
        lane: Lane<I>,
    ) -> (Lane<I>, Result<Receipt, DurableError>)
        ensures { AsksForReceipt I.first lane result.0 result.1 }
    {
        let faults = lane.faults();
        if faults != 0 {
            return (lane, Err(DurableError::Halted { faults }));
        }
        let Lane {
            ticket,
            due,
            mut mark,
            mut note,
            answers,
        } = lane;
        let log = &self.hub.log;
        let answer = receipts.ensure_durable(rt, alloc, log, &mut mark, due.above);
        log.meet(rt, &mut mark, &mut note);
        match answer {
            Ok(receipt) => {
                let due = due.receipted();
                let lane = lane_of(ticket, due, mark, note, answers);
                (lane, Ok(receipt))
            }
            Err(DurableError::NoMemory) => {
                let lane = lane_of(ticket, due, mark, note, answers);
                (lane, Err(DurableError::NoMemory))
            }
            // The disk fails now, or has failed before.
            Err(refused) => {
                let (lane, faults) = failed(log, ticket, due, mark, note, answers);
                (lane, Err(with_faults(refused, faults)))
            }
        }
    }
}

/// What is answered, where it tells of faults with those that the lane was told. Takes no memory.
pub(crate) fn with_faults(refused: DurableError, faults: u64) -> DurableError
    ensures { result ≡ with_faults faults refused }
{
    match refused {
        DurableError::Halted { .. } => DurableError::Halted { faults },
        other => other,
    }
}
