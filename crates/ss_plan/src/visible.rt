//! Which rows of a table an execution sees, in the order of their keys.

ghost use Rattle.std.specs.Prelude.{◌≡◌, true, false, None};
ghost use Rattle.std.specs.Option.{option_copied};
ghost use Rattle.ss_value.specs.Rows.{Row};
ghost use Rattle.ss_rows.specs.Sources.{Positioned, has_position, first_position, StandsAt};
ghost use Rattle.ss_plan.specs.Seen.{row_is_seen, live_positions, seen_of, value_behind, IsOnTheWay};
ghost use Rattle.ss_plan.specs.Scans.{ComesNext, GivesRow, FindsSeen};

use ss_model::{Catalog, Placement};
use ss_table::{Hint, Table};
use ss_value::{Row, Slot, Value, compare};

/// Whether an execution sees a row of a table. One that is limited to a value of split columns sees of a split table only the
/// rows that have it. Costs a comparison of two values.
pub fn is_seen(catalog: &Catalog, split: Option<&Value>, table: u16, row: &Row) -> bool
    ensures { result ≡ row_is_seen catalog.now (value_behind split.entry) table row.now }
{
    let Some(value) = split else { return true };
    match catalog.tables.get(usize::from(table)) {
        Some(def) => match def.placement {
            Placement::By(column) => match row.get(usize::from(column)) {
                Some(found) => compare(found, value).is_eq(),
                None => compare(&Value::Int(0), value).is_eq(),
            },
            Placement::Part(_) => true,
        },
        None => true,
    }
}

/// How many positions of one chunk a hint's number tells apart: as many as a chunk has items at most. Only what a walk costs
/// depends on it.
const POSITIONS: usize = 256;

/// A hint of a table as one number. Wrapping, since a hint may be any two numbers, and a wrong one only makes a
/// step dearer.
fn pack(hint: Hint) -> usize {
    hint.chunk
        .wrapping_mul(POSITIONS)
        .wrapping_add(hint.position)
}

/// The hint that a number stands for.
fn unpack(hint: usize) -> Hint {
    Hint {
        chunk: hint / POSITIONS,
        position: hint % POSITIONS,
    }
}

/// The first live slot of a table by key, with a hint.
fn first_slot(rows: &Table) -> (Option<Slot>, usize)
    ensures { result.0 ≡ first_position (live_positions rows.now.live) }
{
    match rows.first_near() {
        None => (None, 0),
        Some((slot, hint)) => (Some(slot), pack(hint)),
    }
}

/// The live slot behind a live slot, by key, with a hint. Costs what the table's `after_near` costs.
fn next_slot(rows: &Table, at: Slot, hint: usize) -> (Option<Slot>, usize)
    requires { has_position (live_positions rows.now.live) at ≡ true }
    ensures { ComesNext (live_positions rows.now.live) at result.0 }
{
    rows.rows_are_keyed();
    match rows.after_near(at, unpack(hint)) {
        None => (None, hint),
        Some((slot, hint)) => (Some(slot), pack(hint)),
    }
}

/// The row in a live slot. Constant.
fn row_in(rows: &Table, at: Slot) -> &Row
    requires { has_position (live_positions rows.now.live) at ≡ true }
    ensures { (row : Row) (behind : Positioned) → StandsAt (live_positions rows.now.live) at row behind → result.now ≡ row }
{
    rows.rows_are_keyed();
    match rows.row(at) {
        Some(row) => row,
        None => unreachable!(),
    }
}

/// The first row that is seen, from a live slot on by key, with a hint, and None where there is none.
///
/// Costs a step of the table's walk for each row that is passed over; constant where the execution is limited to no value.
fn seen_from(
    catalog: &Catalog,
    split: Option<&Value>,
    table: u16,
    rows: &Table,
    from: Option<Slot>,
    hint: usize,
) -> (Option<Slot>, usize)
    requires { IsOnTheWay (live_positions rows.now.live) from }
    ensures { FindsSeen catalog.now (value_behind split.entry) table rows.now.live from result.0 }
{
    // Every row is seen, so none is looked up.
    if split.is_none() {
        return (from, hint);
    }
    let mut at = from;
    let mut near = hint;
    while let Some(slot) = at {
        if is_seen(catalog, split, table, row_in(rows, slot)) {
            return (at, near);
        }
        let (next, behind) = next_slot(rows, slot, near);
        at = next;
        near = behind;
    }
    (None, near)
}

/// The first row of a table that is seen, by key, with a hint, and None exactly where there is none.
pub fn first_seen(
    catalog: &Catalog,
    split: Option<&Value>,
    table: u16,
    rows: &Table,
) -> (Option<Slot>, usize)
    ensures { result.0 ≡ first_position (seen_of catalog.now (value_behind split.entry) table (live_positions rows.now.live)) }
{
    let (first, hint) = first_slot(rows);
    seen_from(catalog, split, table, rows, first, hint)
}

/// The row that is seen behind one that is, by key, with a hint, and None exactly behind the last.
pub fn next_seen(
    catalog: &Catalog,
    split: Option<&Value>,
    table: u16,
    rows: &Table,
    at: Slot,
    hint: usize,
) -> (Option<Slot>, usize)
    requires { has_position (seen_of catalog.now (value_behind split) table (live_positions rows.now.live)) at ≡ true }
    ensures { ComesNext (seen_of catalog.now (value_behind split.entry) table (live_positions rows.now.live)) at result.0 }
{
    let (next, near) = next_slot(rows, at, hint);
    seen_from(catalog, split, table, rows, next, near)
}

/// The row in a live slot that is seen, and None exactly where the slot has none that is. Constant.
pub fn seen_row<'a>(
    catalog: &Catalog,
    split: Option<&Value>,
    table: u16,
    rows: &'a Table,
    at: Slot,
) -> Option<&'a Row>
    ensures some { GivesRow (seen_of catalog.now (value_behind split.entry) table (live_positions rows.now.live)) at (option_copied result) }
    ensures none { has_position (seen_of catalog.now (value_behind split.entry) table (live_positions rows.now.live)) at ≡ false → result ≡ None }
{
    rows.rows_are_keyed();
    match rows.row(at) {
        None => None,
        Some(row) => {
            if is_seen(catalog, split, table, row) {
                Some(row)
            } else {
                None
            }
        }
    }
}
