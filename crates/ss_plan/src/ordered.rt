//! Rows in the order of their keys.

ghost use Rattle.std.specs.Prelude.{◌≡◌, IfOk};
ghost use Rattle.ss_value.specs.Rows.{column_value, column_values};
ghost use Rattle.ss_value.specs.Order.{value_cmp, row_cmp};
ghost use Rattle.ss_plan.specs.Found.{lent_rows, IsInKeyOrder};

use ss_rows::column_in;
use ss_value::{NoMemory, Row, Slot, Value, compare};
use std::cmp::Ordering;

/// The order of two rows by a column, whose value is 0 past the end of a row. Linear in the shorter text, constant for Ints.
fn compare_column(column: u8, a: &Row, b: &Row) -> Ordering
    ensures { result ≡ value_cmp (column_value a.now column) (column_value b.now column) }
{
    let zero = Value::Int(0);
    let at = usize::from(column);
    compare(
        column_in(a, at).unwrap_or(&zero),
        column_in(b, at).unwrap_or(&zero),
    )
}

/// The order of two rows by these columns, of which the first decides where it can.
fn compare_columns(columns: &[u8], a: &Row, b: &Row) -> Ordering
    ensures { result ≡ row_cmp (column_values columns.now a.now) (column_values columns.now b.now) }
{
    for column in columns {
        let found = compare_column(*column, a, b);
        if found.is_ne() {
            return found;
        }
    }
    Ordering::Equal
}

/// Rows in the order of their keys, and of those with the same key one.
///
/// Of the order of n log n comparisons for n rows, and the memory of a second list of them while it sorts.
pub fn in_key_order<'a>(
    key: &[u8],
    rows: Vec<(Slot, &'a Row)>,
) -> Result<Vec<(Slot, &'a Row)>, NoMemory>
    ensures { IfOk result (λ ordered. IsInKeyOrder key.now (lent_rows rows.entry.items) (lent_rows ordered.items)) }
{
    let mut ordered = rows;
    ordered.sort_by(|a, b| compare_columns(key, a.1, b.1))?;
    ordered.dedup_by(|a, b| compare_columns(key, a.1, b.1).is_eq());
    Ok(ordered)
}
