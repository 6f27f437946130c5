//! What is in hand: a shard with the marks of its partitions. A value, which `ss_turns` and `ss_settle` are lent.

use ss_commitlog::Marks;
use ss_model::Life;
use ss_shard::Shard;

/// The parts of some partitions in one hand: one shard that has them all, what is left of the shards that lent theirs to it, and
/// the marks of all of them, in rising order of partitions.
///
/// The marks need not know one list: it is enough that there is one database with which each mark's own list agrees
/// (`AreOfOne`). So a mark may look for batches, or show a note what ran, while the others stay. The turns of the bays
/// are beside the hand and not in it, because at the close of an engine all partitions are in hand and there is no bay
/// any more.
///
/// Memory: the lists of shells and marks, each of eight at most.
#[derive(Drop)]
pub struct Hand<I: Life> {
    /// The shard with all the parts. Its number is the least one.
    pub shard: Shard,
    /// What is left of the shards of the other partitions.
    pub shells: Vec<Shard>,
    /// The mark of each partition.
    pub marks: Marks<I>,
}
