//! A core before any event.

ghost use Rattle.std.specs.Prelude.{◌≡◌, ◌≤◌, replicate, IfOk};
ghost use Rattle.ss_model.specs.Accepted.{Accepted};
ghost use Rattle.ss_model.specs.Database.{empty_database};
ghost use Rattle.ss_model.specs.Replays.{Replays};
ghost use Rattle.ss_core.specs.Theorem.{opened_core, IsReachable};

use crate::machine::{Core, Half, Stage};
use ss_model::{Catalog, Listed};
use ss_value::{NoMemory, Seq};
use std::alloc::Global;

/// So many copies of an item.
fn repeat<T: Copy + Drop>(alloc: Global, count: u8, item: T) -> Result<Seq<T>, NoMemory>
    ensures { IfOk result (λ items. items ≡ replicate count item) }
{
    let mut items = Seq::new(alloc);
    for _ in 0..count {
        if items.push(item).is_err() {
            return Err(NoMemory);
        }
    }
    Ok(items)
}

/// The core of a store with this list, opened with so many partitions: both halves cover the whole list, all of it is
/// known of each partition, and nobody holds one. Linear in the number of partitions.
pub fn opened(
    alloc: Global,
    catalog: Catalog,
    parts: u8,
    list: Seq<Listed>,
) -> Result<Core, NoMemory>
    requires accepted { Accepted catalog }
    requires some { 1 ≤ parts }
    requires few { parts ≤ 8 }
    requires replays { Replays catalog (empty_database catalog) list }
    ensures ok { IfOk result (λ core. core ≡ opened_core catalog parts list) }
    ensures reachable { IfOk result IsReachable }
{
    let count = list.len() as u64;
    let known = repeat(alloc, parts, count)?;
    let hands = repeat(alloc, parts, None)?;
    let halves = repeat(alloc, 2, Half { front: 0, count })?;
    Ok(Core {
        catalog,
        parts,
        base: count,
        list,
        known,
        hands,
        halves,
        selector: 0,
        stage: Stage::Still,
        receipts: Seq::new(alloc),
        halted: false,
        down: false,
    })
}
