//! The row that the front of a WHERE names by its key.

ghost use Rattle.std.specs.Prelude.{◌≡◌, ◌<◌, ◌∷◌, [], length, pos, slice_get, IfOk, IfSome};
ghost use Rattle.std.specs.Option.{option_copied, option_map};
ghost use Rattle.std.specs.FinMap as finite;
ghost use Rattle.ss_sql_trees.specs.declared.typed.SourceId.TheVariants.{Table as FromTable};
ghost use Rattle.ss_value.specs.declared.value.Value.TheVariants.{Int};
ghost use Rattle.ss_model.specs.Contents.{key_columns};
ghost use Rattle.ss_shard.specs.Shards.{HasTables};
ghost use Rattle.ss_plan.specs.Bounds.{operand_of, known_value, bound_value};
ghost use Rattle.ss_plan.specs.Keys.{key_sought, lent_row, one_or_none};
ghost use Rattle.ss_plan.specs.Found.{rows_found};
ghost use Rattle.ss_plan.specs.Plans.{seen_with, RowsAreEnough};

use crate::bounds::{RangeEnd, Side, first_bound};
use crate::found::FoundRows;
use crate::visible::is_seen;
use crate::visible_rows::ShardRows;
use ss_rows::column_in;
use ss_sql_trees::Expr;
use ss_table::Table;
use ss_value::{NoMemory, Row, Seq, Slot, Value};
use std::alloc::Global;

/// The value of an operand, where it stands, and None of a column. `zero` is lent where a parameter is missing. Constant.
fn known_value<'a>(side: Side<'a>, params: &'a Row, zero: &'a Value) -> Option<&'a Value>
    requires { zero.now ≡ Int (pos 0) }
    ensures { option_copied result ≡ known_value params.now (operand_of side.entry) }
{
    match side {
        Side::Literal(value) => Some(value),
        Side::Parameter(n) => match column_in(params, usize::from(n)) {
            Some(value) => Some(value),
            None => Some(zero),
        },
        Side::Column(_, _) => None,
    }
}

/// The value that bounds a column at an end, where it stands, and None where there is none. `zero` is lent where a parameter
/// is missing. Linear in the front of WHERE. Takes no memory.
fn lent_bound<'a>(
    end: RangeEnd,
    column: u8,
    test: &'a Option<Expr>,
    params: &'a Row,
    zero: &'a Value,
) -> Option<&'a Value>
    requires { zero.now ≡ Int (pos 0) }
    ensures { option_copied result ≡ bound_value end params.now test.now column }
{
    match first_bound(end, column, test) {
        None => None,
        Some(side) => known_value(side, params, zero),
    }
}

/// A copy of the value that bounds a column at an end, and None where there is none. Linear in the front of WHERE and in the
/// value's bytes.
pub fn bound_value(
    alloc: Global,
    end: RangeEnd,
    column: u8,
    test: &Option<Expr>,
    params: &Row,
) -> Result<Option<Value>, NoMemory>
    ensures { IfOk result (λ v. v ≡ bound_value end params.now test.now column) }
{
    let zero = Value::Int(0);
    match lent_bound(end, column, test, params, &zero) {
        None => Ok(None),
        Some(value) => Ok(Some(value.copy(alloc)?)),
    }
}

/// The key that the front of a WHERE names, and None where it doesn't name each of its columns. In copies, since a table is
/// searched for values that stand side by side.
///
/// Linear in the key's columns times the front of WHERE.
fn sought_key(
    alloc: Global,
    columns: &[u8],
    test: &Option<Expr>,
    params: &Row,
) -> Result<Option<Row>, NoMemory>
    ensures { IfOk result (λ key. key ≡ key_sought params.now test.now columns.now) }
{
    let mut key = Seq::with_capacity(alloc, columns.len())?;
    for column in columns {
        let Some(value) = bound_value(alloc, RangeEnd::Both, *column, test, params)? else {
            return Ok(None);
        };
        key.push(value)?;
    }
    Ok(Some(key))
}

/// The live row with a key, with its slot. Costs what the table's `get` costs.
fn live_row_with<'a>(rows: &'a Table, key: &[Value]) -> Option<(Slot, &'a Row)>
    ensures { option_map lent_row result ≡ finite.get rows.now.live key.now }
{
    rows.rows_are_keyed();
    match rows.get(key) {
        None => None,
        Some(slot) => match rows.row(slot) {
            None => unreachable!(),
            Some(row) => Some((slot, row)),
        },
    }
}

/// The row of a table with a key, where the execution sees it. Costs what the table's `get` costs.
fn seen_with<'a, 'b>(from: ShardRows<'a, 'b>, table: u16, key: &[Value]) -> Option<(Slot, &'a Row)>
    requires tables { HasTables from.catalog.now from.shard.now.tables }
    requires there { table < length from.catalog.now.tables }
    ensures { one_or_none (option_map lent_row result) ≡ seen_with from.entry table key.now }
{
    let Some(rows) = from.shard.table(table) else {
        unreachable!()
    };
    rows.rows_are_keyed();
    match live_row_with(rows, key) {
        None => None,
        Some((slot, row)) => {
            if is_seen(from.catalog, from.split, table, row) {
                Some((slot, row))
            } else {
                None
            }
        }
    }
}

/// One row or none, as the rows that were found. Takes no memory.
fn at_most_one<'a>(row: Option<(Slot, &'a Row)>) -> FoundRows<'a>
    ensures { rows_found result ≡ one_or_none (option_map lent_row row.entry) }
{
    match row {
        None => FoundRows::Nothing,
        Some(pair) => FoundRows::One(pair),
    }
}

/// The one row of a table that may pass WHERE, by the value of its key, which is this column, and None where WHERE doesn't
/// name that.
///
/// The value is lent from where it stands. Costs one search, and is linear in the front of WHERE. Takes no memory.
fn row_by_value<'a, 'b>(
    from: ShardRows<'a, 'b>,
    table: u16,
    column: u8,
    test: &Option<Expr>,
    params: &Row,
) -> Option<FoundRows<'a>>
    requires tables { HasTables from.catalog.now from.shard.now.tables }
    requires there { table < length from.catalog.now.tables }
    requires key { key_columns (slice_get from.catalog.now.tables table) ≡ column ∷ [] }
    ensures { IfSome result (RowsAreEnough from.entry (FromTable table) params.now test.now) }
{
    let zero = Value::Int(0);
    match lent_bound(RangeEnd::Both, column, test, params, &zero) {
        None => None,
        Some(value) => {
            let key = std::slice::from_ref(value);
            Some(at_most_one(seen_with(from, table, key)))
        }
    }
}

/// The one row of a table that may pass WHERE, by the values of its key, which is these columns, and None where WHERE doesn't
/// name each of them.
///
/// Costs one search, and the building of the key, linear in its columns times the front of WHERE and in its bytes. Takes
/// memory for the key.
fn row_by_values<'a, 'b>(
    alloc: Global,
    from: ShardRows<'a, 'b>,
    table: u16,
    columns: &[u8],
    test: &Option<Expr>,
    params: &Row,
) -> Result<Option<FoundRows<'a>>, NoMemory>
    requires tables { HasTables from.catalog.now from.shard.now.tables }
    requires there { table < length from.catalog.now.tables }
    requires key { key_columns (slice_get from.catalog.now.tables table) ≡ columns.now }
    ensures { IfOk result (λ found. IfSome found (RowsAreEnough from.entry (FromTable table) params.now test.now)) }
{
    match sought_key(alloc, columns, test, params)? {
        None => Ok(None),
        Some(key) => Ok(Some(at_most_one(seen_with(from, table, key.as_slice())))),
    }
}

/// The column of a key of one column, and None where it has none or several. Constant.
fn only_column(columns: &[u8]) -> Option<u8>
    ensures { IfSome result (λ column. columns.now ≡ column ∷ []) }
{
    let Some((column, others)) = columns.split_first() else {
        return None;
    };
    if others.is_empty() {
        Some(*column)
    } else {
        None
    }
}

/// The one row of a table that may pass WHERE, by its key, and None where WHERE doesn't name the whole key.
///
/// A row without this key doesn't pass, and WHERE doesn't abort on it. Costs one search, logarithmic in the rows of the
/// table, and is linear in the key's columns times the front of WHERE. Takes no memory where the key has one column, and
/// else that of a copy of the key.
pub fn row_by_key<'a, 'b>(
    alloc: Global,
    from: ShardRows<'a, 'b>,
    table: u16,
    test: &Option<Expr>,
    params: &Row,
) -> Result<Option<FoundRows<'a>>, NoMemory>
    requires tables { HasTables from.catalog.now from.shard.now.tables }
    requires there { table < length from.catalog.now.tables }
    ensures { IfOk result (λ found. IfSome found (RowsAreEnough from.entry (FromTable table) params.now test.now)) }
{
    let def = from.catalog.tables.at(usize::from(table));
    let columns = def.key.as_slice();
    match only_column(columns) {
        Some(column) => Ok(row_by_value(from, table, column, test, params)),
        None => row_by_values(alloc, from, table, columns, test, params),
    }
}
