//! The partitions of rows, and of the values by which they are placed.

ghost use Rattle.std.specs.Prelude.{◌≡◌, ◌≤◌, ◌%◌, slice_get, Some};
ghost use Rattle.ss_value.specs.Rows.{column_value};
ghost use Rattle.ss_value.specs.ValuePartition.{value_partition};
ghost use Rattle.ss_model.specs.Partitions.{key_partition, row_partition};

use ss_model::{Catalog, Placement, TableDef};
use ss_value::{Value, value_partition};

/// The partition of the value in a column, and that of 0 past the row's end.
pub(crate) fn column_partition(row: &[Value], column: usize, parts: u8) -> u8
    requires { 1 ≤ parts }
    ensures { result ≡ value_partition parts (column_value row.now column) }
{
    match row.get(column) {
        Some(value) => value_partition(parts, value),
        None => 0,
    }
}

/// The partition of the row with this key in a table that is there.
fn key_partition(table: &TableDef, key: &[Value], parts: u8) -> u8
    requires { 1 ≤ parts }
    ensures { result ≡ key_partition parts (Some table.now.placement) table.now.key key.now }
{
    match table.placement {
        Placement::Part(part) => part % parts,
        Placement::By(column) => column_partition(key, table.key_position(column), parts),
    }
}

/// The partition of the row with this key in a table, of so many; a table that is not there counts as on partition 0.
/// Linear in the table's key, and in the bytes of a Text by which the row is placed.
pub fn row_partition(catalog: &Catalog, table: u16, key: &[Value], parts: u8) -> u8
    requires { 1 ≤ parts }
    ensures { result ≡ row_partition catalog.now parts table key.now }
{
    match catalog.tables.get(usize::from(table)) {
        Some(table) => key_partition(table, key, parts),
        None => 0,
    }
}
