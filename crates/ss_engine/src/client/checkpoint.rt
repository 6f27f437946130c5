//! Checkpoints, which clients make between their requests. `requests` asks for one before each; where one is due, all partitions
//! are taken out of their bays by `partition/hands`, the image of the database goes to the disk under the lock of `ss_receipts`,
//! and the partitions go back. Then the lane's mark and note meet under the commit log's lock.

ghost use Rattle.std.specs.Prelude.{◌≡◌, ◌-◌, nat_lt, ℕ, Some};
ghost use Rattle.ss_commitlog.specs.Growing.{GoesOn};
ghost use Rattle.ss_hand.specs.Hands.{IsInHand};
ghost use Rattle.ss_shard.specs.Parts.{all_partitions};
ghost use Rattle.ss_engine.specs.Checkpoints.{AreAllInHand, AsksForCheckpoint, IsCheckpointedBehind, IsCheckpointedInHand};

use crate::client::receipt::with_faults;
use crate::engine::Engine;
use ss_commitlog::Note;
use ss_disk::Disk;
use ss_hand::Hand;
use ss_lanes::{Due, Lane, failed, lane_of};
use ss_model::Life;
use ss_proc::Runner;
use ss_receipts::{DurableError, Receipts};
use ss_settle::Gate;
use std::alloc::Global;
use std::sync::Wait;

/// Whether a client's last listed entry stands less than so many places behind the beginning of a generation. Takes no memory.
fn is_near(due: Due, begun: u64, every: u64) -> bool
    ensures { result ≡ nat_lt (due.above - begun) every }
{
    due.above.saturating_sub(begun) < every
}

impl<I: Life, N: Runner + Drop, G: Gate + Drop> Engine<I, N, G> {
    /// Makes a checkpoint where one is due: where the client's last listed entry stands as many places behind the beginning of the
    /// current generation as entries may stand behind one. `begun` is where that begins, as the client was told last. Answers
    /// where the generation begins that is then current: `begun` at least, or the place that a checkpoint was made at.
    ///
    /// It counts to the client's own last entry and not to the end of the list, because the client knows that place without a
    /// lock: where no checkpoint is due by the place that the client was told, no lock is taken, and what others flush holds up
    /// nobody. Else the lock of `ss_receipts` is taken, since another client may have made one. Who makes one takes all
    /// partitions, so executors wait meanwhile: for the flush of what the disk hasn't got yet, and for one walk over the
    /// database, whose image is written.
    ///
    /// NoMemory is want of memory, and then all is as it was; a later call tries again. Where the disk fails in this call, or has
    /// failed before, the lane is told of its faults, as by `ensure_durable`. Whatever is answered, the lane keeps its answers
    /// and what of them waits for a receipt.
    ///
    /// Source: checkpoints of a command log that is cut behind them (Malviya et al., ICDE 2014, section 3).
    pub fn checkpoint_if<D: Disk + Drop, R: Wait>(
        &self,
        rt: &R,
        alloc: Global,
        receipts: &Receipts<I, D>,
        lane: Lane<I>,
        begun: u64,
    ) -> (Lane<I>, Result<u64, DurableError>)
        ensures { AsksForCheckpoint I.first I.every lane result.0 result.1 }
    {
        let Some(every) = receipts.every() else {
            return (lane, Ok(begun));
        };
        let faults = lane.faults();
        if faults != 0 {
            return (lane, Err(DurableError::Halted { faults }));
        }
        if is_near(lane.due, begun, every) {
            return (lane, Ok(begun));
        }
        let current = receipts.begun(rt);
        if is_near(lane.due, current, every) {
            return (lane, Ok(current));
        }
        self.checkpoint(rt, alloc, receipts, lane)
    }

    /// Makes a checkpoint, after which the client's mark and note meet.
    fn checkpoint<D: Disk + Drop, R: Wait>(
        &self,
        rt: &R,
        alloc: Global,
        receipts: &Receipts<I, D>,
        lane: Lane<I>,
    ) -> (Lane<I>, Result<u64, DurableError>)
        requires asked { (every : ℕ) × (I.every ≡ Some every) }
        requires going { lane.due.faults ≡ 0 }
        ensures { AsksForCheckpoint I.first I.every lane result.0 result.1 }
    {
        let Lane {
            ticket,
            due,
            mut mark,
            mut note,
            answers,
        } = lane;
        let log = &self.hub.log;
        let made = self.checkpoint_of_all(rt, alloc, receipts, &mut note);
        log.meet(rt, &mut mark, &mut note);
        match made {
            Ok(place) => {
                let lane = lane_of(ticket, due, mark, note, answers);
                (lane, Ok(place))
            }
            Err(DurableError::NoMemory) => {
                let lane = lane_of(ticket, due, mark, note, answers);
                (lane, Err(DurableError::NoMemory))
            }
            // The disk fails now, or has failed before.
            Err(refused) => {
                let (lane, faults) = failed(log, ticket, due, mark, note, answers);
                (lane, Err(with_faults(refused, faults)))
            }
        }
    }

    /// Takes all partitions, makes a checkpoint of what they have, and puts them back. The note knows more of the list, and has seen
    /// what became of the disk.
    fn checkpoint_of_all<D: Disk + Drop, R: Wait>(
        &self,
        rt: &R,
        alloc: Global,
        receipts: &Receipts<I, D>,
        note: &mut Note<I>,
    ) -> Result<u64, DurableError>
        requires asked { (every : ℕ) × (I.every ≡ Some every) }
        ensures note { GoesOn I.catalog I.parts note.old note.new }
        ensures answer { IsCheckpointedBehind I.first note.old note.new result }
    {
        let log = &self.hub.log;
        let works = self.works(rt, alloc);
        let Ok((mut hand, turns)) = self.take_set(&works, note, self.all_parts()) else {
            return Err(DurableError::NoMemory);
        };
        let made = self.checkpoint_in_hand(rt, alloc, receipts, &mut hand);
        // So the note has seen the numbers that the marks have.
        log.meet_with(rt, &mut hand.marks, note);
        self.put_back(alloc, hand, turns);
        made
    }

    /// Makes a checkpoint of what all partitions in hand have, whose marks know one list. The same partitions are in hand then.
    fn checkpoint_in_hand<D: Disk + Drop, R: Wait>(
        &self,
        rt: &R,
        alloc: Global,
        receipts: &Receipts<I, D>,
        hand: &mut Hand<I>,
    ) -> Result<u64, DurableError>
        requires asked { (every : ℕ) × (I.every ≡ Some every) }
        requires in_hand { AreAllInHand I.catalog I.parts I.opening hand.old }
        ensures in_hand { IsInHand I.catalog I.parts I.opening (all_partitions I.parts) hand.new }
        ensures answer { IsCheckpointedInHand I.first hand.old.marks hand.new.marks result }
    {
        let log = &self.hub.log;
        let Ok(streams) = log.streams(rt, alloc, &mut hand.marks) else {
            return Err(DurableError::NoMemory);
        };
        let Hand { shard, marks, .. } = hand;
        receipts.checkpointed(rt, alloc, log, marks, shard, &streams, &self.catalog)
    }
}
