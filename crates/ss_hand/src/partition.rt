//! What a bay has. It is a value and touches nothing: `ss_opening` makes one for each bay, `putting` one for each that it fills
//! again, and `taking` and `apart` take it apart into what a hand holds.

use ss_commitlog::Mark;
use ss_model::Life;
use ss_party::Tagged;
use ss_shard::Shard;
use std::marker::Model;

/// The shard of one partition, with the partition's mark.
///
/// By its type the shard is between executions, has the part of its own number alone, and holds that part of the database
/// after the list that the mark knows. Nothing behind that list in the log touches the part, so it is that part of the log's
/// own database too.
#[derive(Drop)]
pub struct Partition<I: Life> {
    pub(crate) shard: Shard,
    pub(crate) mark: Mark<I>,
}

impl<I: Life> Model for Partition<I> {
    ghost use Rattle.ss_hand.specs.Partitions.{PartitionView, IsPartition, coded_partition};

    ghost Value = { PartitionView };

    ghost coded = { coded_partition };

    ghost view = { λ p. record { shard = p.shard; mark = p.mark } };

    ghost invariant = { λ p. IsPartition I.catalog I.parts I.opening p.shard p.mark };
}

impl<I: Life> Tagged for Partition<I> {
    ghost use Rattle.ss_hand.specs.Partitions.{number_of};

    ghost tag = { number_of };
}

impl<I: Life> Partition<I> {
    ghost use Rattle.std.specs.Prelude.{◌≡◌};
    ghost use Rattle.ss_hand.specs.Partitions.{IsPartition};

    /// What a bay is to have. Takes no memory.
    pub fn new(shard: Shard, mark: Mark<I>) -> Partition<I>
        requires { IsPartition I.catalog I.parts I.opening shard mark }
        ensures { result ≡ record { shard = shard; mark = mark } }
    {
        Partition { shard, mark }
    }

    /// Takes it apart again. Takes no memory.
    pub fn into_parts(self) -> (Shard, Mark<I>)
        ensures own { IsPartition I.catalog I.parts I.opening result.0 result.1 }
        ensures same { (result.0 ≡ self.shard) × (result.1 ≡ self.mark) }
    {
        let Partition { shard, mark } = self;
        (shard, mark)
    }
}
