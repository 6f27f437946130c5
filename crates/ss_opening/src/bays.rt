//! Partitions in their bays before the first entry, for `opening`: a shard is split, and each part gets its mark. No thread has
//! the bays yet.

ghost use Rattle.std.specs.Prelude.{◌≡◌, ◌≤◌, [], length, IfOk};
ghost use Rattle.ss_party.specs.Tags.{TagsFrom};
ghost use Rattle.ss_party.specs.Turns.{bay_count};
ghost use Rattle.ss_shard.specs.Parts.{IsWholeShard};
ghost use Rattle.ss_shard.specs.Windows.{HoldsDatabase};
ghost use Rattle.ss_commitlog.specs.declared.role.Role.TheVariants.{Part};
ghost use Rattle.ss_commitlog.specs.Committing.{IsOpening};
ghost use Rattle.ss_commitlog.specs.Rule.{numbered};
ghost use Rattle.ss_commitlog.specs.Tokens.{at_opening};
ghost use Rattle.ss_hand.specs.Partitions.{PartitionView};
ghost use Rattle.ss_opening.specs.Openings.{ArePartitionsFrom};

use ss_commitlog::Marks;
use ss_hand::Partition;
use ss_model::{Catalog, Life};
use ss_party::Bays;
use ss_shard::{Shard, split};
use ss_value::{NoMemory, Seq};
use std::alloc::Global;

/// A bay for each partition, with its shard and its mark. Costs what `split` does; no row is moved.
pub(crate) fn bays_of<I: Life>(
    alloc: Global,
    catalog: &Catalog,
    whole: Shard,
    parts: u8,
    marks: Marks<I>,
) -> Result<Bays<Partition<I>>, NoMemory>
    requires catalog { catalog.now ≡ I.catalog }
    requires opening { IsOpening I.catalog I.parts I.opening }
    requires parts { (parts ≡ I.parts) × (parts ≤ 8) }
    requires whole { IsWholeShard I.catalog I.parts whole × HoldsDatabase I.catalog whole I.opening }
    requires marks { marks ≡ at_opening I.first (numbered Part 0 I.parts []) }
    ensures { IfOk result (λ bays. bay_count bays ≡ I.parts) }
{
    let shards = match split(alloc, whole, catalog, parts) {
        Ok(shards) => shards,
        Err((error, _)) => return Err(error),
    };
    match Bays::new(alloc, partitions(alloc, shards, marks)?) {
        Ok(bays) => Ok(bays),
        Err((error, _)) => Err(error),
    }
}

/// What each bay is to have: a shard, with the mark of its partition.
fn partitions<I: Life>(
    alloc: Global,
    shards: Seq<Shard>,
    marks: Marks<I>,
) -> Result<Seq<Partition<I>>, NoMemory>
    requires { ArePartitionsFrom I.catalog I.parts I.opening 0 shards marks }
    ensures tags { IfOk result (TagsFrom (λ (p : PartitionView). p.shard.number) 0) }
    ensures many { IfOk result (λ made. length made ≡ length shards) }
{
    let mut made = Vec::with_capacity(alloc, shards.len())?;
    let mut left = marks.into_vec().into_iter();
    for shard in shards.into_vec() {
        let Some(mark) = left.next() else {
            unreachable!()
        };
        made.push_reserved(Partition::new(shard, mark));
    }
    Ok(Seq::from_vec(made))
}
