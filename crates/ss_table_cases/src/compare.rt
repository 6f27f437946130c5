//! Whether a table and a plain map hold the same, by every call that looks.

use crate::plain::Rows;
use ss_case_files::Wrong;
use ss_table::{Hint, Table};
use ss_value::{NoMemory, Row, Slot, Value, copy_row};
use std::alloc::Global;

/// A slot, without its hint.
fn slot_of(place: Option<(Slot, Hint)>) -> Option<Slot> {
    match place {
        Some((slot, _)) => Some(slot),
        None => None,
    }
}

/// What stands behind a slot, with its hint. None where the slot isn't live, or where another hint or none gives another
/// slot.
fn behind(table: &Table, slot: Slot, hint: Hint) -> Option<Option<(Slot, Hint)>> {
    if table.row(slot).is_none() {
        return None;
    }
    let far = Hint {
        chunk: 1,
        position: 2,
    };
    let found = table.after_near(slot, hint);
    let next = table.after(slot);
    if slot_of(found) == next && slot_of(table.after_near(slot, far)) == next {
        Some(found)
    } else {
        None
    }
}

/// Whether walks over all rows, by hints and without, give the same, and each row stands where its key is found.
fn walk_alike(table: &Table, map: &Rows) -> bool {
    let mut place = table.first_near();
    if slot_of(place) != table.first() {
        return false;
    }
    for (key, row) in map.iter() {
        let Some((slot, hint)) = place else {
            return false;
        };
        if table.row(slot) != Some(row) || table.get(key.as_slice()) != Some(slot) {
            return false;
        }
        let Some(next) = behind(table, slot, hint) else {
            return false;
        };
        place = next;
    }
    place.is_none()
}

/// Whether both have a row of a key, and the same one, or neither has.
fn get_alike(table: &Table, map: &Rows, key: &Row) -> bool {
    let found = match table.get(key.as_slice()) {
        Some(slot) => table.row(slot),
        None => None,
    };
    found == map.get(key)
}

/// The same of a key with a value more, and of one with a value less, where it has any.
fn others_alike(alloc: Global, table: &Table, map: &Rows, key: &Row) -> Result<bool, NoMemory> {
    let mut other = copy_row(alloc, key)?;
    other.push(Value::Int(0))?;
    let longer = get_alike(table, map, &other);
    let _added = other.pop();
    let _last = other.pop();
    Ok(longer && get_alike(table, map, &other))
}

/// The same of keys, of each with a value more, and of each with one less.
fn gets_alike(alloc: Global, table: &Table, map: &Rows, keys: &[Row]) -> Result<bool, NoMemory> {
    for key in keys {
        if !get_alike(table, map, key) || !others_alike(alloc, table, map, key)? {
            return Ok(false);
        }
    }
    Ok(true)
}

/// How many of the first slots of each part are live: a slot is eight times its place in the part, and the part.
pub fn live_below(table: &Table, slots: usize) -> usize {
    (0..slots.saturating_mul(8))
        .filter(|slot| table.row(*slot).is_some())
        .count()
}

/// A table and a map have to hold the same, asked for these keys and among as many slots.
pub fn hold_the_same(alloc: Global, table: &Table, map: &Rows, keys: &[Row]) -> Result<(), Wrong> {
    let difference = if !walk_alike(table, map) {
        "the walk differs"
    } else if !gets_alike(alloc, table, map, keys)? {
        "a key is found otherwise"
    } else if live_below(table, keys.len()) != map.len() {
        "another slot is live"
    } else {
        return Ok(());
    };
    Err(Wrong::text(alloc, difference))
}
