//! Rows, and the tables of a shard.

ghost use Rattle.std.specs.Prelude.{◌≡◌, ◌++◌, ◌^◌, OnOk, All};
ghost use Rattle.std.specs.List.{flat_map};
ghost use Rattle.ss_record.specs.Bounds.{IsTypedRow};
ghost use Rattle.ss_record.specs.Spelling.{row_bytes};
ghost use Rattle.ss_shard.specs.Contents.{rows_by_key, tables_of};
ghost use Rattle.ss_shard.specs.Lent.{rows_behind};
ghost use Rattle.ss_standing.specs.FitsImage.{FitRows, FitsTable};
ghost use Rattle.ss_standing.specs.Image.{counted_rows, table_bytes};

use crate::writing::numbers::{push_long, push_short_count};
use ss_record::encode_row;
use ss_shard::rows_in_order;
use ss_table::Table;
use ss_value::{NoMemory, Row, Rows};
use std::alloc::Global;

/// The most values of a row: no accepted catalogue has more columns.
const ROW_VALUES: usize = 16;

/// Adds a row. One of more than 16 values, for which no record has room, is reported as out of memory, instead of being
/// ruled out by a premise: no clause of a shard bounds the columns of its catalogue.
fn push_row(alloc: Global, out: &mut Vec<u8>, row: &Row) -> Result<(), NoMemory>
    ensures spelled { OnOk result (out.new.items ≡ out.old.items ++ row_bytes row.now) }
    ensures typed { OnOk result (IsTypedRow row.now) }
{
    if row.len() > ROW_VALUES {
        return Err(NoMemory);
    }
    encode_row(alloc, row, out)
}

/// Adds rows, one after another.
fn push_rows(alloc: Global, out: &mut Vec<u8>, rows: &[Row]) -> Result<(), NoMemory>
    ensures spelled { OnOk result (out.new.items ≡ out.old.items ++ flat_map row_bytes rows.now) }
    ensures typed { OnOk result (All IsTypedRow rows.now) }
{
    for row in rows {
        push_row(alloc, out, row)?;
    }
    Ok(())
}

/// Adds a unit of a window: its rows behind their number.
pub(crate) fn push_unit(alloc: Global, out: &mut Vec<u8>, unit: &Rows) -> Result<(), NoMemory>
    ensures spelled { OnOk result (out.new.items ≡ out.old.items ++ counted_rows 8 unit.now) }
    ensures fits { OnOk result (FitRows (2 ^ 64) unit.now) }
{
    push_long(out, unit.len() as u64)?;
    push_rows(alloc, out, unit.as_slice())?;
    Ok(())
}

/// Adds a batch of a stream: its rows behind their number. More than 65,535 of them are reported as out of memory; a batch
/// of a whole database has 1,024 at most.
pub(crate) fn push_batch(alloc: Global, out: &mut Vec<u8>, batch: &Rows) -> Result<(), NoMemory>
    ensures spelled { OnOk result (out.new.items ≡ out.old.items ++ counted_rows 2 batch.now) }
    ensures fits { OnOk result (FitRows (2 ^ 16) batch.now) }
{
    push_short_count(out, batch.len())?;
    push_rows(alloc, out, batch.as_slice())?;
    Ok(())
}

/// Adds rows that are lent, one after another.
fn push_lent_rows(alloc: Global, out: &mut Vec<u8>, rows: &[&Row]) -> Result<(), NoMemory>
    ensures spelled { OnOk result (out.new.items ≡ out.old.items ++ flat_map row_bytes (rows_behind rows.now)) }
    ensures typed { OnOk result (All IsTypedRow (rows_behind rows.now)) }
{
    for row in rows {
        push_row(alloc, out, row)?;
    }
    Ok(())
}

/// Adds a table: how many rows it has, and its rows in the order of their keys. One walk, with memory for a reference to
/// each row.
fn push_table(alloc: Global, out: &mut Vec<u8>, table: &Table) -> Result<(), NoMemory>
    ensures spelled { OnOk result (out.new.items ≡ out.old.items ++ table_bytes (rows_by_key table.now.live)) }
    ensures fits { OnOk result (FitsTable (rows_by_key table.now.live)) }
{
    let rows = rows_in_order(alloc, table)?;
    push_long(out, rows.len() as u64)?;
    push_lent_rows(alloc, out, rows.as_slice())?;
    Ok(())
}

/// Adds tables, one after another.
pub(crate) fn push_tables(
    alloc: Global,
    out: &mut Vec<u8>,
    tables: &[Table],
) -> Result<(), NoMemory>
    ensures spelled { OnOk result (out.new.items ≡ out.old.items ++ flat_map table_bytes (tables_of tables.now)) }
    ensures fits { OnOk result (All FitsTable (tables_of tables.now)) }
{
    for table in tables {
        push_table(alloc, out, table)?;
    }
    Ok(())
}
