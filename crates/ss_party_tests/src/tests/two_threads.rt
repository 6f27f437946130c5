//! Two threads on the same bays.

ghost use Rattle.std.specs.Prelude.{◌≡◌, ◌<◌, length};
ghost use Rattle.ss_party.specs.Turns.{bay_count};

use super::counters::{Counter, pair, raise, raise_all, three_bays};
use ss_party::Bays;
use ss_value::Seq;
use std::alloc::Global;
use std::sync::Wait;
use std::test::*;
use std::thread::{Threads, join};

// Raises the counter of bay 1 so many times, each in a turn of its own.
fn raise_one<R: Wait>(rt: &R, bays: &Bays<Counter>, times: u32)
    requires { bay_count bays.now ≡ 3 }
{
    for _ in 0..times {
        let (counter, turn) = bays.take(rt, 1);
        bays.put(turn, raise(counter));
    }
}

// Two threads that raise one counter.
fn raise_in_two<R: Threads + Wait + Sync>(rt: &R, bays: Bays<Counter>) -> Seq<Counter>
    requires { bay_count bays ≡ 3 }
    ensures { length result ≡ 3 }
{
    let shared = &bays;
    join(
        rt,
        move ||
            requires { bay_count shared.now ≡ 3 }
        { raise_one(rt, shared, 1000) },
        move ||
            requires { bay_count shared.now ≡ 3 }
        { raise_one(rt, shared, 1000) },
    );
    bays.close(rt)
}

#[test]
fn each_turn_counts(rt: HostRuntime) -> Result<(), Fail> {
    let bays = three_bays(rt.alloc()).ok_or("memory")?;
    let counters = raise_in_two(&rt, bays);
    let first = counters.get(0).ok_or("bay 0")?;
    let second = counters.get(1).ok_or("bay 1")?;
    assert_eq!(rt; first.count, 0);
    assert_eq!(rt; second.count, 2000);
    Ok(())
}

// Raises two neighbours together, up to so many times. How often there was memory for it.
fn raise_pairs<R: Wait>(rt: &R, alloc: Global, bays: &Bays<Counter>, low: u8, times: u64) -> u64
    requires bays { bay_count bays.now ≡ 3 }
    requires low { low < 2 }
{
    let mut done = 0u64;
    for _ in 0..times {
        if raise_all(rt, alloc, bays, pair(low)).is_ok() {
            done = done.wrapping_add(1);
        }
    }
    done
}

// Two threads, each on two bays, one of which both of them use.
fn raise_pairs_in_two<R: Threads + Wait + Sync>(
    rt: &R,
    alloc: Global,
    bays: Bays<Counter>,
) -> ((u64, u64), Seq<Counter>)
    requires { bay_count bays ≡ 3 }
{
    let shared = &bays;
    let done = join(
        rt,
        move || -> u64
            requires { bay_count shared.now ≡ 3 }
        { raise_pairs(rt, alloc, shared, 0, 500) },
        move || -> u64
            requires { bay_count shared.now ≡ 3 }
        { raise_pairs(rt, alloc, shared, 1, 500) },
    );
    (done, bays.close(rt))
}

#[test]
fn gathered_bays_overlap(rt: HostRuntime) -> Result<(), Fail> {
    let bays = three_bays(rt.alloc()).ok_or("memory")?;
    let (done, counters) = raise_pairs_in_two(&rt, rt.alloc(), bays);
    let first = counters.get(0).ok_or("bay 0")?;
    let second = counters.get(1).ok_or("bay 1")?;
    let third = counters.get(2).ok_or("bay 2")?;
    assert_eq!(rt; first.count, done.0);
    assert_eq!(rt; second.count, done.0.wrapping_add(done.1));
    assert_eq!(rt; third.count, done.1);
    Ok(())
}
