//! Pairs, as an index holds them.

ghost use Rattle.std.specs.Prelude.{◌≡◌, IfOk};
ghost use Rattle.ss_value.specs.Rows.{column_value, column_values};
ghost use Rattle.ss_index.specs.Pairs.{pair_of};
ghost use Rattle.ss_index.specs.Entries.{pair_in};

use ss_value::{NoMemory, Row, Seq, Slot, Value};
use std::alloc::Global;

/// The values of a row in an index's columns, and its slot.
#[derive(Drop)]
pub struct IndexEntry {
    pub values: Row,
    pub slot: Slot,
}

/// A copy of a row's value in a column, and 0 past the row's end.
fn copied_value(alloc: Global, row: &Row, column: u8) -> Result<Value, NoMemory>
    ensures { IfOk result (λ value. value ≡ column_value row.now column) }
{
    match row.get(usize::from(column)) {
        Some(value) => value.copy(alloc),
        None => Ok(Value::Int(0)),
    }
}

/// Copies of a row's values in these columns.
fn copied_values(alloc: Global, columns: &[u8], row: &Row) -> Result<Row, NoMemory>
    ensures { IfOk result (λ values. values ≡ column_values columns.now row.now) }
{
    let mut values = Seq::new(alloc);
    for column in columns {
        let value = copied_value(alloc, row, *column)?;
        values.push(value)?;
    }
    Ok(values)
}

/// The entry of a row in a slot.
pub fn entry_of(
    alloc: Global,
    columns: &[u8],
    row: &Row,
    slot: Slot,
) -> Result<IndexEntry, NoMemory>
    ensures { IfOk result (λ entry. pair_in entry ≡ pair_of columns.now row.now slot) }
{
    let values = copied_values(alloc, columns, row)?;
    Ok(IndexEntry { values, slot })
}
