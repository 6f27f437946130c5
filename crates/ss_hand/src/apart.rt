//! Partitions that come together, one by one: their shards beside one another, each with its own part. `taking` puts those of a
//! set there, and `closing` all; `joining` makes one shard of them. It touches no bay and no lock.

ghost use Rattle.std.specs.Prelude.{◌≡◌, ℕ, suc, [], ◌∷◌, ◌++◌, IfOk};
ghost use Rattle.ss_hand.specs.Apart.{shards_of, shards_in, ArePartitions, AreSetApart, IsRoom, HasRoom};

use crate::hand::Hand;
use crate::partition::Partition;
use ss_commitlog::Mark;
use ss_model::Life;
use ss_shard::Shard;
use ss_value::{NoMemory, Seq};
use std::alloc::Global;

/// Lists with room for the shards and the marks of some partitions.
#[derive(Drop)]
pub(crate) struct Room<I: Life> {
    pub(crate) shards: Vec<Shard>,
    pub(crate) marks: Vec<Mark<I>>,
}

/// Some partitions in rising order: the shard of the first and those of the others, and the mark of each.
#[derive(Drop)]
pub(crate) struct Apart<I: Life> {
    pub(crate) first: Shard,
    pub(crate) others: Vec<Shard>,
    pub(crate) marks: Vec<Mark<I>>,
}

/// Makes room for so many partitions.
pub(crate) fn make_room<I: Life>(alloc: Global, count: usize) -> Result<Room<I>, NoMemory>
    ensures { IfOk result (λ room. IsRoom count room) }
{
    let shards = Vec::with_capacity(alloc, count)?;
    let marks = Vec::with_capacity(alloc, count)?;
    Ok(Room { shards, marks })
}

impl<I: Life> Apart<I> {
    /// One partition alone. Takes no memory.
    pub(crate) fn of_one(room: Room<I>, partition: Partition<I>) -> Apart<I>
        requires { (count : ℕ) × IsRoom (suc count) room }
        ensures are { ArePartitions I.catalog I.parts I.opening (shards_of result) result.marks.items }
        ensures shards { shards_of result ≡ partition.shard ∷ [] }
        ensures room { (count : ℕ) → IsRoom (suc count) room → HasRoom count result }
    {
        let (first, mark) = partition.into_parts();
        let Room {
            shards: others,
            mut marks,
        } = room;
        marks.push_reserved(mark);
        Apart {
            first,
            others,
            marks,
        }
    }

    /// One partition more, behind the others. Takes no memory.
    pub(crate) fn add(&mut self, partition: Partition<I>)
        requires are { ArePartitions I.catalog I.parts I.opening (shards_of self.old) self.old.marks.items }
        requires room { (count : ℕ) × HasRoom (suc count) self.old }
        ensures are { ArePartitions I.catalog I.parts I.opening (shards_of self.new) self.new.marks.items }
        ensures shards { shards_of self.new ≡ shards_of self.old ++ partition.shard ∷ [] }
        ensures room { (count : ℕ) → HasRoom (suc count) self.old → HasRoom count self.new }
    {
        let (shard, mark) = partition.into_parts();
        self.others.push_reserved(shard);
        self.marks.push_reserved(mark);
    }

    /// All of them in one hand, each with its own part still. Takes no memory.
    pub(crate) fn into_hand(self) -> Hand<I>
        requires { ArePartitions I.catalog I.parts I.opening (shards_of self) self.marks.items }
        ensures are { AreSetApart I.catalog I.parts I.opening result }
        ensures shards { shards_in result ≡ shards_of self }
    {
        let Apart {
            first,
            others,
            marks,
        } = self;
        Hand {
            shard: first,
            shells: others,
            marks: Seq::from_vec(marks),
        }
    }
}
