//! Taking values out of bays.
//!
//! Nothing here takes memory, and nothing can fail: lists come with their room.

ghost use Rattle.std.specs.Prelude.{◌≡◌, ◌<◌, ◌≤◌, ℕ, [], length, vec_capacity, IfSome, IfNone};
ghost use Rattle.std.specs.Int.{IsBitSet};
ghost use Rattle.ss_party.specs.Rule.{AreBays};
ghost use Rattle.ss_party.specs.Tags.{TagsFrom};
ghost use Rattle.ss_party.specs.Turns.{IsAlone, IsTaken, IsGathered};

use crate::rule::{BayTable, Takes};
use crate::sleepers::Sleepers;
use crate::tagged::Tagged;
use crate::turn::{Turn, end};
use ss_value::{PartSet, Seq};
use std::sync::Wait;

/// The value of a bay, where there is one at this step.
pub(crate) fn take_if_full<T: Tagged>(table: &BayTable<T>, p: usize) -> Option<(T, Turn<T>)>
    requires bays { AreBays table.now.shared.table_id }
    requires bay { p < table.now.shared.table_id.slots }
    ensures some { IfSome result (λ taken. IsTaken T.tag table.now.shared.table_id p taken) }
{
    let (found, mut seat) = table.shared.swap_new_seat::<Takes<T>>(p, 0);
    if found != 1 {
        return None;
    }
    let held = table.shared.exchange(&mut seat, p, None);
    let Some(value) = held else { unreachable!() };
    Some((value, Turn { bay: p, seat }))
}

/// The value of a bay, once there is one.
pub(crate) fn take_when_full<T: Tagged, R: Wait>(
    rt: &R,
    table: &BayTable<T>,
    sleepers: &Sleepers,
    p: usize,
) -> (T, Turn<T>)
    requires bays { AreBays table.now.shared.table_id }
    requires bay { p < table.now.shared.table_id.slots }
    ensures { IsTaken T.tag table.now.shared.table_id p result }
{
    for _ in rt.forever() {
        if let Some(taken) = take_if_full(table, p) {
            return taken;
        }
        sleepers.sleep(rt, table, p);
    }
    unreachable!()
}

/// The one member of a set of numbers below a count, and None where it has several or none.
pub(crate) fn only_member(set: PartSet, count: usize) -> Option<u8>
    requires few { count ≤ 8 }
    requires members { (p : ℕ) → IsBitSet set p → p < count }
    ensures some { IfSome result (λ p. (p < count) × IsAlone set p) }
    ensures none { IfNone result ((p : ℕ) → IsAlone set p → ⊥) }
{
    let mut found = None;
    for p in 0..count {
        if set.has(p as u8) {
            if found.is_some() {
                return None;
            }
            found = Some(p as u8);
        }
    }
    found
}

/// The values of a set's bays with their turns, in rising order, into a list that has the room.
pub(crate) fn take_members<T: Tagged, R: Wait>(
    rt: &R,
    table: &BayTable<T>,
    sleepers: &Sleepers,
    set: PartSet,
    mut list: Vec<(T, Turn<T>)>,
) -> Seq<(T, Turn<T>)>
    requires bays { AreBays table.now.shared.table_id }
    requires members { (p : ℕ) → IsBitSet set p → p < table.now.shared.table_id.slots }
    requires list { (list.items ≡ []) × (table.now.shared.table_id.slots ≤ vec_capacity list) }
    ensures { IsGathered T.tag table.now.shared.table_id set result }
{
    for p in 0..table.slot_count() {
        if set.has(p as u8) {
            list.push_reserved(take_when_full(rt, table, sleepers, p));
        }
    }
    Seq::from_vec(list)
}

/// The value of each bay in rising order, into a list that has the room. No bay is filled again.
pub(crate) fn take_all<T: Tagged, R: Wait>(
    rt: &R,
    table: &BayTable<T>,
    sleepers: &Sleepers,
    list: &mut Vec<T>,
)
    requires bays { AreBays table.now.shared.table_id }
    requires list { (list.old.items ≡ []) × (table.now.shared.table_id.slots ≤ vec_capacity list.old) }
    ensures { TagsFrom T.tag 0 list.new.items × (length list.new.items ≡ table.now.shared.table_id.slots) }
{
    for p in 0..table.slot_count() {
        let (value, turn) = take_when_full(rt, table, sleepers, p);
        end(turn);
        list.push_reserved(value);
    }
}
