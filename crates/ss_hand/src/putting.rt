//! Partitions back into their bays, each by its turn, which waits for nobody. `ss_engine` calls it behind an execution, and
//! `taking` where memory is short.

ghost use Rattle.std.specs.Prelude.{◌≡◌, ◌≤◌, List, ℕ, map};
ghost use Rattle.ss_model.specs.Accepted.{Accepted};
ghost use Rattle.ss_party.specs.Turns.{turn_of};
ghost use Rattle.ss_hand.specs.Apart.{numbers_in, AreSetApart};
ghost use Rattle.ss_hand.specs.Hands.{IsInHand};

use crate::hand::Hand;
use crate::partition::Partition;
use crate::turns::Turns;
use ss_model::{Catalog, Life};
use ss_party::Bays;
use ss_shard::part;
use std::alloc::Global;

/// Puts each partition in hand into its bay, the last one first. Takes no memory and waits for nobody.
pub(crate) fn put_back<I: Life>(bays: &Bays<Partition<I>>, hand: Hand<I>, turns: Turns<I>)
    requires are { AreSetApart I.catalog I.parts I.opening hand }
    requires turns { turns ≡ map (turn_of bays.now) (numbers_in hand) }
{
    let Hand {
        shard: first,
        shells: mut others,
        mut marks,
    } = hand;
    let Turns {
        first: turn,
        others: mut turns,
    } = turns;
    while let Some(shard) = others.pop() {
        let Some(mark) = marks.pop() else {
            unreachable!()
        };
        let Some(turn) = turns.pop() else {
            unreachable!()
        };
        bays.put(turn, Partition::new(shard, mark));
    }
    let Some(mark) = marks.pop() else {
        unreachable!()
    };
    turns.destroy_empty();
    bays.put(turn, Partition::new(first, mark));
}

/// Gives each partition its part back, and puts it into its bay, the last one first. `parts` is how many partitions run, and the
/// turns are those that came with the hand.
///
/// A step for each bay, and for each partition but the first what `part` of `ss_shard` takes, whatever the rows. Takes no memory.
pub fn put_parts<I: Life>(
    alloc: Global,
    catalog: &Catalog,
    parts: u8,
    bays: &Bays<Partition<I>>,
    mut hand: Hand<I>,
    turns: Turns<I>,
)
    requires catalog { catalog.now ≡ I.catalog }
    requires accepted { Accepted I.catalog }
    requires parts { (parts ≡ I.parts) × (1 ≤ parts) }
    requires in_hand { (held : List ℕ) × IsInHand I.catalog I.parts I.opening held hand × (turns ≡ map (turn_of bays.now) held) }
{
    let shells = hand.shells.as_mut_slice();
    part(alloc, catalog, parts, &mut hand.shard, shells);
    put_back(bays, hand, turns);
}
