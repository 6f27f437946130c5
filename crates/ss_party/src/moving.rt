//! Values between a list and the slots of a table.

ghost use Rattle.std.specs.Prelude.{◌≡◌, ◌≤◌, List, [], map, vec_len, vec_capacity, Some};

use crate::tagged::Tagged;

/// Moves the items into slots, in their order, and leaves their list empty, with its room. The slots have room for all.
/// Takes no memory.
pub(crate) fn fill_slots<T: Tagged>(items: &mut Vec<T>, slots: &mut Vec<Option<T>>)
    requires { (slots.old.items ≡ []) × (vec_len items.old ≤ vec_capacity slots.old) }
    ensures items { (items.new.items ≡ []) × (vec_capacity items.new ≡ vec_capacity items.old) }
    ensures slots { slots.new.items ≡ map Some items.old.items }
{
    items.as_mut_slice().reverse();
    while let Some(item) = items.pop() {
        slots.push_reserved(Some(item));
    }
}

/// Moves the values of full slots back into a list that has room for all. Takes no memory.
pub(crate) fn empty_slots<T: Tagged>(mut slots: Vec<Option<T>>, items: &mut Vec<T>)
    requires room { (items.old.items ≡ []) × (vec_len slots ≤ vec_capacity items.old) }
    requires all { (xs : List T) × (slots.items ≡ map Some xs) }
    ensures { map Some items.new.items ≡ slots.items }
{
    slots.as_mut_slice().reverse();
    while let Some(slot) = slots.pop() {
        let Some(item) = slot else { unreachable!() };
        items.push_reserved(item);
    }
}
