//! The rows of a table, lent in the order of their keys.

ghost use Rattle.std.specs.FinMap as finmap;
ghost use Rattle.std.specs.Prelude.{◌≡◌, IfOk, IsSome, Some};
ghost use Rattle.ss_table.specs.TableValue.{row_at};
ghost use Rattle.ss_shard.specs.Contents.{rows_by_key};
ghost use Rattle.ss_shard.specs.Lent.{rows_behind};

use ss_table::Table;
use ss_value::{NoMemory, Row, Slot};
use std::alloc::Global;

/// The row in a live slot.
fn live_row(table: &Table, slot: Slot) -> &Row
    requires { IsSome (row_at table.now.live slot) }
    ensures { row_at table.now.live slot ≡ Some result.now }
{
    match table.row(slot) {
        Some(row) => row,
        None => unreachable!(),
    }
}

/// The rows of a table in the order of their keys, lent and not copied.
///
/// One walk by hints, with memory for one reference for each row: linear in the rows where the table has one part, since no
/// step searches, and a search in each part for each row where it has several.
pub fn rows_in_order<'a>(alloc: Global, table: &'a Table) -> Result<Vec<&'a Row>, NoMemory>
    ensures { IfOk result (λ rows. rows_behind rows.items ≡ finmap.values (rows_by_key table.now.live)) }
{
    // A law of tables: no two rows have one slot, so a step from a slot is a step from its row.
    table.rows_are_keyed();
    let mut rows = Vec::new(alloc);
    let mut at = table.first_near();
    while let Some((slot, hint)) = at {
        rows.push(live_row(table, slot))?;
        at = table.after_near(slot, hint);
    }
    Ok(rows)
}
