//! What the bays of the tests have.

ghost use Rattle.std.specs.Prelude.{◌≡◌, ◌<◌, ◌+◌, ℕ, IfSome};
ghost use Rattle.std.specs.Int.{IsBitSet};
ghost use Rattle.ss_party.specs.Turns.{bay_count};

use ss_party::{Bays, Tagged};
use ss_value::{NoMemory, PartSet, Seq};
use std::alloc::Global;
use std::sync::Wait;

/// A number that belongs to a bay.
#[derive(Drop)]
pub(crate) struct Counter {
    pub(crate) bay: u8,
    pub(crate) count: u64,
}

impl Tagged for Counter {
    ghost tag = { λ c. c.bay };
}

/// The counter, one higher.
pub(crate) fn raise(counter: Counter) -> Counter
    ensures { result.bay ≡ counter.bay }
{
    Counter {
        bay: counter.bay,
        count: counter.count.wrapping_add(1),
    }
}

/// Three bays, each with a counter at 0, or None without memory.
pub(crate) fn three_bays(alloc: Global) -> Option<Bays<Counter>>
    ensures { IfSome result (λ bays. bay_count bays ≡ 3) }
{
    let mut items = Seq::new(alloc);
    items.push(Counter { bay: 0, count: 0 }).ok()?;
    items.push(Counter { bay: 1, count: 0 }).ok()?;
    items.push(Counter { bay: 2, count: 0 }).ok()?;
    Bays::new(alloc, items).ok()
}

/// A bay and the next one.
pub(crate) fn pair(low: u8) -> PartSet
    requires { low < 2 }
    ensures { (p : ℕ) → IsBitSet result p → p < 3 }
{
    let mut set = PartSet::empty();
    set.insert(low);
    set.insert(low + 1);
    set
}

/// Raises the counters of a set's bays together.
pub(crate) fn raise_all<R: Wait>(
    rt: &R,
    alloc: Global,
    bays: &Bays<Counter>,
    set: PartSet,
) -> Result<(), NoMemory>
    requires { (p : ℕ) → IsBitSet set p → p < bay_count bays.now }
{
    let mut taken = bays.gather(rt, alloc, set)?.into_vec();
    while let Some((counter, turn)) = taken.pop() {
        bays.put(turn, raise(counter));
    }
    taken.destroy_empty();
    Ok(())
}
