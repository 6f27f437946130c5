//! The rows in the range of an index that the front of a WHERE names.

ghost use Rattle.std.specs.Prelude.{◌≡◌, IfOk, Some, slice_get};
ghost use Rattle.std.specs.Option.{option_map};
ghost use Rattle.ss_sql_trees.specs.declared.typed.SourceId.TheVariants.{Table as FromTable};
ghost use Rattle.ss_shard.specs.Shards.{HasTables};
ghost use Rattle.ss_plan.specs.Ranges.{is_int_kind, is_int_column, is_int, int_bound, range_end};
ghost use Rattle.ss_plan.specs.Found.{lent_rows, row_seen, rows_seen_in};
ghost use Rattle.ss_plan.specs.Keys.{lent_row};
ghost use Rattle.ss_plan.specs.Plans.{is_seen_by, HasRows, RowsAreEnough};

use crate::bounds::RangeEnd;
use crate::found::FoundRows;
use crate::key::bound_value;
use crate::ordered::in_key_order;
use crate::visible::is_seen;
use crate::visible_rows::ShardRows;
use ss_index::Index;
use ss_sql_trees::Expr;
use ss_table::Table;
use ss_value::{ColType, NoMemory, Row, Schema, Seq, Slot, Value};
use std::alloc::Global;

/// Whether the column of this number is an Int.
pub fn is_int(schema: &Schema, column: u8) -> bool
    ensures { result ≡ is_int schema.now column }
{
    match schema.get(usize::from(column)) {
        None => false,
        Some(column) => match column.kind {
            ColType::Int => true,
            ColType::Text => false,
        },
    }
}

/// A copy of the bound of a column at an end, where the column is an Int. Linear in the front of WHERE.
fn int_bound(
    alloc: Global,
    end: RangeEnd,
    schema: &Schema,
    column: u8,
    test: &Option<Expr>,
    params: &Row,
) -> Result<Option<Value>, NoMemory>
    ensures { IfOk result (λ v. v ≡ int_bound end schema.now params.now test.now column) }
{
    if is_int(schema, column) {
        bound_value(alloc, end, column, test, params)
    } else {
        Ok(None)
    }
}

/// An end of the range of an index that the front of a WHERE names, in copies: the values that its leading columns have
/// by `=`, and then the bound of the next column, if that is an Int and has one. A column without a bound ends it: an index
/// is compared by as many leading columns as an end has.
///
/// Linear in the columns times the front of WHERE.
fn range_end(
    alloc: Global,
    end: RangeEnd,
    schema: &Schema,
    columns: &[u8],
    test: &Option<Expr>,
    params: &Row,
) -> Result<Row, NoMemory>
    ensures { IfOk result (λ values. values ≡ range_end end schema.now params.now test.now columns.now) }
{
    let mut values = Seq::new(alloc);
    for column in columns {
        let Some(value) = bound_value(alloc, RangeEnd::Both, *column, test, params)? else {
            if let Some(bound) = int_bound(alloc, end, schema, *column, test, params)? {
                values.push(bound)?;
            }
            return Ok(values);
        };
        values.push(value)?;
    }
    Ok(values)
}

/// The row in a slot, with the slot, where it is live and the execution sees it. Constant.
fn row_seen<'a, 'b>(
    from: ShardRows<'a, 'b>,
    table: u16,
    rows: &'a Table,
    slot: Slot,
) -> Option<(Slot, &'a Row)>
    ensures { option_map lent_row result ≡ row_seen (is_seen_by from.entry table) rows.entry.now.live slot }
{
    match rows.row(slot) {
        None => None,
        Some(row) => {
            if is_seen(from.catalog, from.split, table, row) {
                Some((slot, row))
            } else {
                None
            }
        }
    }
}

/// The rows in some slots that are live and that the execution sees, each with its slot. Constant for each slot.
fn rows_seen_in<'a, 'b>(
    alloc: Global,
    from: ShardRows<'a, 'b>,
    table: u16,
    rows: &'a Table,
    slots: &[Slot],
) -> Result<Vec<(Slot, &'a Row)>, NoMemory>
    ensures { IfOk result (λ found. lent_rows found.items ≡ rows_seen_in (is_seen_by from.entry table) rows.entry.now.live slots.now) }
{
    let mut found = Vec::new(alloc);
    for slot in slots {
        if let Some(row) = row_seen(from, table, rows, *slot) {
            found.push(row)?;
        }
    }
    Ok(found)
}

/// The rows of a table in the range of an index that the front of a WHERE names, of those that the execution sees, in
/// the order of their keys.
///
/// No other row passes WHERE, and WHERE aborts on none of them. Costs the index's search, a look at each pair in the range,
/// and a sort of the rows that are found, of the order of n log n comparisons for n of them. Takes memory for them and for
/// the two ends.
pub fn rows_in_range<'a, 'b>(
    alloc: Global,
    from: ShardRows<'a, 'b>,
    table: u16,
    rows: &'a Table,
    index: &Index,
    test: &Option<Expr>,
    params: &Row,
) -> Result<FoundRows<'a>, NoMemory>
    requires tables { HasTables from.catalog.now from.shard.now.tables }
    requires there { slice_get from.shard.now.tables table ≡ Some rows.now }
    requires pairs { HasRows rows.now.live index.now }
    ensures { IfOk result (RowsAreEnough from.entry (FromTable table) params.now test.now) }
{
    let def = from.catalog.tables.at(usize::from(table));
    rows.rows_are_keyed();
    let columns = index.columns();
    let low = range_end(alloc, RangeEnd::Low, &def.schema, columns, test, params)?;
    let high = range_end(alloc, RangeEnd::High, &def.schema, columns, test, params)?;
    let slots = index.range(&low, &high)?;
    let found = rows_seen_in(alloc, from, table, rows, slots.as_slice())?;
    // In an execution that has replaced a row, its old and its new pair both lead to it; sorted, the two stand side by
    // side. So the order of the index is not seen. Costs a sort beside the search, and nothing in the size of the
    // table.
    let ordered = in_key_order(def.key.as_slice(), found)?;
    Ok(FoundRows::Many(Seq::from_vec(ordered)))
}
