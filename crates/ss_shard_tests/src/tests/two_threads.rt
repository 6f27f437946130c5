//! A shard that two threads hand to and fro.

ghost use Rattle.std.specs.Prelude.{◌≡◌, ◌<◌, length, IfSome};
ghost use Rattle.ss_model.specs.Accepted.{Accepted};
ghost use Rattle.ss_party.specs.Turns.{bay_count};

use super::catalog::catalog;
use ss_model::Catalog;
use ss_party::{Bays, Tagged};
use ss_shard::{Shard, opening};
use ss_value::Seq;
use std::alloc::Global;
use std::sync::Wait;
use std::test::*;
use std::thread::{Threads, join};

/// A shard in the bay of its partition.
#[derive(Drop)]
struct Held {
    bay: u8,
    shard: Shard,
}

impl Tagged for Held {
    ghost tag = { λ h. h.bay };
}

/// A bay with a shard in which no procedure has taken a batch, or None without memory.
fn one_bay(alloc: Global, catalog: &Catalog) -> Option<Bays<Held>>
    requires { Accepted catalog.now }
    ensures { IfSome result (λ bays. bay_count bays ≡ 1) }
{
    let database = opening(alloc, catalog, 1).ok()?;
    let mut items = Seq::new(alloc);
    items
        .push(Held {
            bay: 0,
            shard: database.whole,
        })
        .ok()?;
    Bays::new(alloc, items).ok()
}

/// The shard with the count of a procedure raised by one.
fn raised(held: Held, procedure: u16) -> Held
    ensures { result.bay ≡ held.bay }
{
    let Held { bay, mut shard } = held;
    let count = shard.cursor(procedure);
    shard.set_cursor(procedure, count.wrapping_add(1));
    Held { bay, shard }
}

/// Takes the shard so many times, each time raises the count of a procedure, and puts it back.
fn raise_counts<R: Wait>(rt: &R, bays: &Bays<Held>, procedure: u16, times: u32)
    requires { bay_count bays.now ≡ 1 }
{
    for _ in 0..times {
        let (held, turn) = bays.take(rt, 0);
        bays.put(turn, raised(held, procedure));
    }
}

/// Two threads, each of which raises the count of a procedure of its own, and that of one that both raise.
fn raise_in_two<R: Threads + Wait + Sync>(rt: &R, bays: Bays<Held>) -> Seq<Held>
    requires { bay_count bays ≡ 1 }
    ensures { length result ≡ 1 }
{
    let shared = &bays;
    join(
        rt,
        move ||
            requires { bay_count shared.now ≡ 1 }
        {
            raise_counts(rt, shared, 0, 500);
            raise_counts(rt, shared, 2, 500)
        },
        move ||
            requires { bay_count shared.now ≡ 1 }
        {
            raise_counts(rt, shared, 1, 500);
            raise_counts(rt, shared, 2, 500)
        },
    );
    bays.close(rt)
}

#[test]
fn no_count_is_lost(rt: HostRuntime) -> Result<(), Fail> {
    let alloc = rt.alloc();
    let catalog = catalog(alloc).ok_or("the catalogue")?;
    let bays = one_bay(alloc, &catalog).ok_or("memory")?;
    let left = raise_in_two(&rt, bays);
    let held = left.get(0).ok_or("the shard")?;
    assert_eq!(rt; held.shard.cursor(0), 500);
    assert_eq!(rt; held.shard.cursor(1), 500);
    assert_eq!(rt; held.shard.cursor(2), 1000);
    Ok(())
}
