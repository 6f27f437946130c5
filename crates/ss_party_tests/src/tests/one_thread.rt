//! What the calls give on one thread.

ghost use Rattle.std.specs.Prelude.{◌<◌};
ghost use Rattle.ss_party.specs.Turns.{bay_count};

use super::counters::{Counter, pair, raise, raise_all, three_bays};
use ss_party::Bays;
use std::test::*;

// Whether bay p is full. It is left as it was.
fn is_full(bays: &Bays<Counter>, p: u8) -> bool
    requires { p < bay_count bays.now }
{
    match bays.try_take(p) {
        None => false,
        Some((counter, turn)) => {
            bays.put(turn, counter);
            true
        }
    }
}

#[test]
fn a_bay_is_empty_while_its_value_is_out(rt: HostRuntime) -> Result<(), Fail> {
    let bays = three_bays(rt.alloc()).ok_or("memory")?;
    assert_eq!(rt; is_full(&bays, 2), true);
    let (counter, turn) = bays.take(&rt, 2);
    let found = (is_full(&bays, 1), is_full(&bays, 2));
    bays.put(turn, raise(counter));
    assert_eq!(rt; found, (true, false));
    assert_eq!(rt; is_full(&bays, 2), true);
    let counters = bays.close(&rt);
    let last = counters.get(2).ok_or("bay 2")?;
    assert_eq!(rt; last.count, 1);
    Ok(())
}

#[test]
fn gather_takes_members_or_nothing(rt: HostRuntime) -> Result<(), Fail> {
    let bays = three_bays(rt.alloc()).ok_or("memory")?;
    let raised = raise_all(&rt, rt.alloc(), &bays, pair(1)).is_ok();
    for p in 0..3 {
        assert_eq!(rt; is_full(&bays, p), true, "bay {p}");
    }
    let counters = bays.close(&rt);
    for (p, counter) in counters.as_slice().iter().enumerate() {
        let wanted = if raised && p != 0 { 1 } else { 0 };
        assert_eq!(rt; counter.count, wanted, "bay {p}");
    }
    Ok(())
}
