//! Rows of an image from bytes, one behind another.

ghost use Rattle.std.specs.Prelude.{◌≡◌, option_map, pos};
ghost use Rattle.std.specs.Option.{option_copied};
ghost use Rattle.ss_value.specs.declared.value.Value.TheVariants.{Int};
ghost use Rattle.ss_value.specs.Order.{row_cmp};
ghost use Rattle.ss_value.specs.Rows.{column_value, column_values};
ghost use Rattle.ss_standing.specs.ImageForm.{row_above};
ghost use Rattle.ss_standing.specs.Readers.{is_above};
ghost use Rattle.ss_snapshot.specs.ImageParts.{last_row, many_rows, rows_above};
ghost use Rattle.ss_snapshot.specs.Parts.{Reads};

use crate::reading::fields::{PartError, fitting_row_in};
use ss_model::TableDef;
use ss_value::{Row, Rows, Schema, Seq, Value, compare};
use std::alloc::Global;
use std::cmp::Ordering;

/// The value of a row in a column, and the other one past the row's end.
fn value_or<'a>(row: &'a [Value], column: u8, past: &'a Value) -> &'a Value
    requires { past.now ≡ Int (pos 0) }
    ensures { result.now ≡ column_value row.now column }
{
    match row.get(usize::from(column)) {
        None => past,
        Some(value) => value,
    }
}

/// How two rows compare by their values in some columns, which are compared where they are, without a copy. Linear in
/// the values that tie.
fn compare_keys(key: &[u8], a: &[Value], b: &[Value]) -> Ordering
    ensures { result ≡ row_cmp (column_values key.now a.now) (column_values key.now b.now) }
{
    match key.split_first() {
        None => Ordering::Equal,
        Some((column, behind)) => {
            let past = Value::Int(0);
            match compare(value_or(a, *column, &past), value_or(b, *column, &past)) {
                Ordering::Equal => compare_keys(behind, a, b),
                other => other,
            }
        }
    }
}

/// Whether a row's key stands behind that of the last row, if there is one.
fn stands_above(key: &[u8], last: Option<&Row>, row: &Row) -> bool
    ensures { result ≡ is_above row_cmp (option_map (column_values key.now) (option_copied last.entry)) (column_values key.now row.now) }
{
    match last {
        None => true,
        Some(last) => compare_keys(key, last.as_slice(), row.as_slice()).is_lt(),
    }
}

/// A row of a table whose key stands behind that of the last row, if there is one.
fn row_above_in<'a>(
    alloc: Global,
    bytes: &'a [u8],
    table: &TableDef,
    last: Option<&Row>,
) -> Result<(Row, &'a [u8]), PartError>
    ensures { Reads (λ x. (x.0, x.1.now)) result (row_above table.now (option_map (column_values table.now.key) (option_copied last.entry)) bytes.now) }
{
    let (row, rest) = fitting_row_in(alloc, bytes, &table.schema)?;
    if !stands_above(table.key.as_slice(), last, &row) {
        return Err(PartError::Foreign { left: bytes.len() });
    }
    Ok((row, rest))
}

/// The last of some rows, or the one before them if there is one.
fn last_of<'a>(rows: &'a [Row], before: Option<&'a Row>) -> Option<&'a Row>
    ensures { option_copied result ≡ last_row (option_copied before.entry) rows.now }
{
    match rows.split_last() {
        None => before,
        Some((last, _)) => Some(last),
    }
}

/// So many rows of a table, each with its key behind the one before it. The first stands behind a row that was read before
/// them, if there is one. Linear in the bytes.
pub(crate) fn rows_above_in<'a>(
    alloc: Global,
    bytes: &'a [u8],
    table: &TableDef,
    count: usize,
    before: Option<&Row>,
) -> Result<(Rows, &'a [u8]), PartError>
    ensures { Reads (λ x. (x.0, x.1.now)) result
        (rows_above table.now count (option_map (column_values table.now.key) (option_copied before.entry)) bytes.now) }
{
    let mut rows = Seq::new(alloc);
    let mut rest = bytes;
    for _ in 0..count {
        let last = last_of(rows.as_slice(), before);
        let (row, behind) = row_above_in(alloc, rest, table, last)?;
        if rows.push(row).is_err() {
            return Err(PartError::NoMemory);
        }
        rest = behind;
    }
    Ok((rows, rest))
}

/// So many rows that fit the columns. Linear in their bytes.
pub(crate) fn rows_in<'a>(
    alloc: Global,
    bytes: &'a [u8],
    schema: &Schema,
    count: u64,
) -> Result<(Rows, &'a [u8]), PartError>
    ensures { Reads (λ x. (x.0, x.1.now)) result (many_rows schema.now count bytes.now) }
{
    let mut rows = Seq::new(alloc);
    let mut rest = bytes;
    for _ in 0..count {
        let (row, behind) = fitting_row_in(alloc, rest, schema)?;
        if rows.push(row).is_err() {
            return Err(PartError::NoMemory);
        }
        rest = behind;
    }
    Ok((rows, rest))
}
