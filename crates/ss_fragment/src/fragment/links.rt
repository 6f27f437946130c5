//! Searches and changes of a fragment's order. Their contracts speak of its rows, those of `Order` only of marks.

ghost use Rattle.std.specs.Prelude.{◌≡◌, ◌++◌, ◌∷◌, List, OnOk, OnErr, IsSome, false, drop};
ghost use Rattle.std.specs.List.{find, AllByRecursion};
ghost use Rattle.ss_fragment.specs.declared.mark.PrefixedSlot.{PrefixedSlot};
ghost use Rattle.ss_fragment.specs.Cells.{is_live, row_of};
ghost use Rattle.ss_fragment.specs.Targets.{slot_rank, linked_order};
ghost use Rattle.ss_fragment.specs.Chunks.{slots_of};
ghost use Rattle.ss_fragment.specs.FragmentValue.{HasKey, sought_key, slot_with};
ghost use Rattle.ss_fragment.specs.Invariant.{IsFragment, IsMark, live_list};

use crate::cell::{Cell, any_row};
use crate::order::Order;
use crate::search::aim_at;
use ss_chunks::Hint;
use ss_value::{NoMemory, Value};

/// The live slot with a key, or with the key of a row, and a hint where the slots with that key stand.
pub(super) fn live_near(
    order: &Order,
    cells: &[Cell],
    key: &[u8],
    is_key: bool,
    values: &[Value],
) -> (Option<usize>, Hint)
    requires fragment { IsFragment key.now cells.now (slots_of order.now) }
    requires marked { AllByRecursion (IsMark key.now cells.now) order.now }
    requires values { is_key ≡ false → HasKey key.now values.now }
    ensures { result.0 ≡ slot_with (sought_key is_key key.now values.now) (live_list cells.now key.now (slots_of order.now)) }
{
    // Slot 0 comes before every other slot with the key, so the search begins at the first of them.
    let aim = aim_at(cells, key, is_key, values, 0);
    order.next_hit(&aim)
}

/// The live slot with a key, or with the key of a row.
pub(super) fn live_with(
    order: &Order,
    cells: &[Cell],
    key: &[u8],
    is_key: bool,
    values: &[Value],
) -> Option<usize>
    requires fragment { IsFragment key.now cells.now (slots_of order.now) }
    requires marked { AllByRecursion (IsMark key.now cells.now) order.now }
    requires values { is_key ≡ false → HasKey key.now values.now }
    ensures { result ≡ slot_with (sought_key is_key key.now values.now) (live_list cells.now key.now (slots_of order.now)) }
{
    live_near(order, cells, key, is_key, values).0
}

/// The first live slot that doesn't stand before a row's key, or at that key before a slot.
pub(super) fn live_from(
    order: &Order,
    cells: &[Cell],
    key: &[u8],
    row: &[Value],
    slot: usize,
) -> Option<usize>
    requires fragment { IsFragment key.now cells.now (slots_of order.now) }
    requires marked { AllByRecursion (IsMark key.now cells.now) order.now }
    requires has_key { HasKey key.now row.now }
    ensures { let slots = slots_of order.now in result ≡ find (is_live cells.now) (drop (slot_rank cells.now key.now false row.now slot slots) slots) }
{
    let aim = aim_at(cells, key, false, row, slot);
    order.next_live(&aim)
}

/// Puts a slot into the order, by a row's key, with a hint where it may go. Out of memory changes nothing.
pub(super) fn link(
    order: &mut Order,
    cells: &[Cell],
    key: &[u8],
    row: &[Value],
    slot: usize,
    hint: Hint,
) -> Result<(), NoMemory>
    requires fragment { IsFragment key.now cells.now (slots_of order.old) }
    requires marked { AllByRecursion (IsMark key.now cells.now) order.old }
    requires has_key { HasKey key.now row.now }
    ensures ok { OnOk result (order.new ≡ linked_order cells.now key.now row.now slot order.old) }
    ensures err { OnErr result (order.new ≡ order.old) }
{
    let aim = aim_at(cells, key, false, row, slot);
    order.insert(&aim, hint)
}

/// Takes a slot out of the order.
pub(super) fn unlink(order: &mut Order, cells: &[Cell], key: &[u8], slot: usize)
    requires fragment { IsFragment key.now cells.now (slots_of order.old) }
    requires marked { AllByRecursion (IsMark key.now cells.now) order.old }
    requires row { IsSome (row_of cells.now slot) }
    ensures { (front back : List PrefixedSlot) (mark : PrefixedSlot) → order.old ≡ front ++ mark ∷ back → mark.slot ≡ slot → order.new ≡ front ++ back }
{
    if order.remove_near(slot) {
        return;
    }
    match any_row(cells, slot) {
        None => (),
        Some(row) => {
            let aim = aim_at(cells, key, false, row.as_slice(), slot);
            order.remove(&aim)
        }
    }
}
