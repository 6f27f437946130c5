//! A shard that takes in the parts of several others, for an execution that touches all of them, and gives them back.

ghost use Rattle.std.specs.Prelude.{◌≡◌, ◌≤◌, length, List, ℕ, OnOk, OnErr};
ghost use Rattle.ss_model.specs.Accepted.{Accepted};
ghost use Rattle.ss_shard.specs.Unions.{AreApart, Unites, StayApart, MayPart, Departs};

use crate::shard::Shard;
use ss_model::Catalog;
use ss_value::NoMemory;
use std::alloc::Global;

/// A shard takes in the parts of others, of which shells are left. `parts` is how many partitions run.
///
/// Costs an `absorb` for each, whatever the rows. Out of memory gives back the parts that were taken in.
pub fn unite(
    alloc: Global,
    catalog: &Catalog,
    parts: u8,
    shard: &mut Shard,
    others: &mut [Shard],
) -> Result<(), NoMemory>
    requires accepted { Accepted catalog.now }
    requires some { 1 ≤ parts }
    requires apart { (held : List ℕ) × AreApart catalog.now parts held shard.old others.old × (1 ≤ length held) }
    ensures ok { OnOk result (Unites catalog.now parts shard.old others.old shard.new others.new) }
    ensures err { OnErr result (StayApart catalog.now parts shard.old others.old shard.new others.new) }
{
    let Some((other, behind)) = others.split_first_mut() else {
        return Ok(());
    };
    shard.absorb(alloc, catalog, parts, other)?;
    match unite(alloc, catalog, parts, shard, behind) {
        Ok(()) => Ok(()),
        Err(NoMemory) => {
            shard.release(alloc, catalog, parts, other);
            Err(NoMemory)
        }
    }
}

/// A shard gives shells back the parts that it took in from them by `unite`. `parts` is how many partitions run.
///
/// Costs a `release` for each, whatever the rows; takes no memory.
pub fn part(alloc: Global, catalog: &Catalog, parts: u8, shard: &mut Shard, shells: &mut [Shard])
    requires accepted { Accepted catalog.now }
    requires some { 1 ≤ parts }
    requires may { (held : List ℕ) × MayPart catalog.now parts held shard.old shells.old }
    ensures { Departs catalog.now parts shard.old shells.old shard.new shells.new }
{
    let Some((back, behind)) = shells.split_first_mut() else {
        return;
    };
    // What was taken in last goes back first.
    part(alloc, catalog, parts, shard, behind);
    shard.release(alloc, catalog, parts, back)
}
