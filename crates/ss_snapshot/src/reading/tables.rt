//! Tables of an image from bytes, each put into its table of a shard.

ghost use Rattle.std.specs.Prelude.{◌≡◌, ◌<◌, length, map, slice_get, true, Some, None, IfErr, IfOk, IsOk, OnOk};
ghost use Rattle.std.specs.FinMap as finmap;
ghost use Rattle.ss_model.specs.Accepted.{Accepted};
ghost use Rattle.ss_model.specs.declared.catalog.Catalog.{Catalog};
ghost use Rattle.ss_model.specs.declared.catalog.TableDef.{TableDef};
ghost use Rattle.ss_standing.specs.ImageForm.{may_have, number_where, table_of, table_with};
ghost use Rattle.ss_standing.specs.Readers.{each, made};
ghost use Rattle.ss_model.specs.Statements.{insert_row};
ghost use Rattle.ss_shard.specs.Changes.{RowInserted};
ghost use Rattle.ss_shard.specs.Contents.{contents_of, tables_of};
ghost use Rattle.ss_shard.specs.Rows.{IsKeyed};
ghost use Rattle.ss_shard.specs.Shards.{Changed, HasTables, IsCommitted};
ghost use Rattle.ss_snapshot.specs.declared.reading.fields.PartError.TheVariants.{NoMemory};
ghost use Rattle.ss_snapshot.specs.ImageParts.{last_row, rows_above};
ghost use Rattle.ss_snapshot.specs.Parts.{Reads};
ghost use Rattle.ss_snapshot.specs.Tables.{MayPut, OneFilled, Settles, WerePut, table_in};

use crate::reading::fields::{PartError, u64_in};
use crate::reading::rows::rows_above_in;
use ss_model::{Catalog, Placement, RunError};
use ss_shard::{Shard, TABLE_ROWS};
use ss_value::{Row, Rows, copy_row};
use std::alloc::Global;

/// How many rows are read before they are put in and made final. No more are held beside the shard at a time, and no more
/// changes are noted.
const CHUNK_ROWS: u64 = 1024;

/// Whether a table of this placement may have so many rows.
fn may_have(placement: Placement, rows: u64) -> bool
    ensures { result ≡ may_have placement rows }
{
    match placement {
        Placement::Part(_) => rows <= TABLE_ROWS as u64,
        Placement::By(_) => true,
    }
}

/// The number of a table's rows.
fn row_count_in(bytes: &[u8], placement: Placement) -> Result<(u64, &[u8]), PartError>
    ensures read { Reads (λ x. (x.0, x.1.now)) result (number_where 8 (may_have placement) bytes.now) }
    ensures may { IfOk result (λ x. may_have placement x.0 ≡ true) }
{
    let (rows, rest) = u64_in(bytes)?;
    if !may_have(placement, rows) {
        return Err(PartError::Foreign { left: bytes.len() });
    }
    Ok((rows, rest))
}

/// Puts a row into a table in which it may stand. An insert. Out of memory changes no row.
fn put_row(whole: &mut Shard, number: u16, row: Row) -> Result<(), PartError>
    requires keyed { IsKeyed whole.old.tables number row }
    requires goes { (catalog : Catalog) × HasTables catalog whole.old.tables × IsOk (insert_row catalog number row (contents_of whole.old)) }
    ensures put { OnOk result (RowInserted whole.old whole.new number row) }
    ensures changed { Changed whole.old whole.new }
    ensures memory { IfErr result (λ e. e ≡ NoMemory) }
{
    match whole.insert_row(number, row) {
        Ok(()) => Ok(()),
        Err(RunError::NoMemory) => Err(PartError::NoMemory),
        Err(RunError::Abort(_)) => unreachable!(),
    }
}

/// Puts rows into a table in which they may stand, one after the other, and makes them final. An insert for each row. Out of
/// memory may leave some of them there, not yet final.
fn put_rows(whole: &mut Shard, number: u16, rows: Rows) -> Result<(), PartError>
    requires { (catalog : Catalog) × MayPut catalog whole.old number rows }
    ensures put { OnOk result ((catalog : Catalog) → MayPut catalog whole.old number rows → WerePut catalog whole.old whole.new number rows) }
    ensures memory { IfErr result (λ e. e ≡ NoMemory) }
{
    for row in rows.into_vec() {
        put_row(whole, number, row)?;
    }
    whole.commit();
    Ok(())
}

/// A copy of the last of some rows, or the one before them if there is one.
fn last_copy(alloc: Global, rows: &[Row], before: Option<Row>) -> Result<Option<Row>, PartError>
    ensures copy { IfOk result (λ last. last ≡ last_row before rows.now) }
    ensures memory { IfErr result (λ e. e ≡ NoMemory) }
{
    match rows.split_last() {
        None => Ok(before),
        Some((last, _)) => match copy_row(alloc, last) {
            Ok(copy) => Ok(Some(copy)),
            Err(_) => Err(PartError::NoMemory),
        },
    }
}

/// So many rows of a table, put into it where it stands without a row. They are read and put in by chunks, so that a table
/// isn't held twice; the last row of each chunk is copied, since its key is the one that the next has to stand behind.
fn rows_into<'a>(
    alloc: Global,
    bytes: &'a [u8],
    catalog: &Catalog,
    whole: &mut Shard,
    number: u16,
    count: u64,
) -> Result<&'a [u8], PartError>
    requires accepted { Accepted catalog.now }
    requires committed { IsCommitted catalog.now whole.old }
    requires there { number < length catalog.now.tables }
    requires may { (d : TableDef) → slice_get catalog.now.tables number ≡ Some d → may_have d.placement count ≡ true }
    requires empty { table_in whole.old number ≡ finmap.empty }
    ensures read { (d : TableDef) → slice_get catalog.now.tables number ≡ Some d
        → Reads (λ rest. (table_in whole.new number, rest.now)) result (made (table_with d) (rows_above d count None) bytes.now) }
    ensures filled { OnOk result (OneFilled catalog.now whole.old whole.new number) }
{
    let table = catalog.tables.at(usize::from(number));
    let mut last = None;
    let mut rest = bytes;
    let mut left = count;
    while left > 0 {
        let some = left.min(CHUNK_ROWS);
        let (rows, behind) = rows_above_in(alloc, rest, table, some as usize, last.as_ref())?;
        last = last_copy(alloc, rows.as_slice(), last)?;
        put_rows(whole, number, rows)?;
        rest = behind;
        left -= some;
    }
    Ok(rest)
}

/// A table, put into that of a shard which has no row yet. Linear in its bytes, and an insert for each row.
fn table_into<'a>(
    alloc: Global,
    bytes: &'a [u8],
    catalog: &Catalog,
    whole: &mut Shard,
    number: u16,
) -> Result<&'a [u8], PartError>
    requires accepted { Accepted catalog.now }
    requires committed { IsCommitted catalog.now whole.old }
    requires there { number < length catalog.now.tables }
    requires empty { table_in whole.old number ≡ finmap.empty }
    ensures read { (d : TableDef) → slice_get catalog.now.tables number ≡ Some d
        → Reads (λ rest. (table_in whole.new number, rest.now)) result (table_of d bytes.now) }
    ensures filled { OnOk result (OneFilled catalog.now whole.old whole.new number) }
{
    let table = catalog.tables.at(usize::from(number));
    let (count, rest) = row_count_in(bytes, table.placement)?;
    rows_into(alloc, rest, catalog, whole, number, count)
}

/// The tables of a catalogue, put into those of a shard without a row. Linear in their bytes, and an insert for each row.
/// What is refused may leave some rows there.
pub(crate) fn tables_into<'a>(
    alloc: Global,
    bytes: &'a [u8],
    catalog: &Catalog,
    whole: &mut Shard,
) -> Result<&'a [u8], PartError>
    requires accepted { Accepted catalog.now }
    requires committed { IsCommitted catalog.now whole.old }
    requires empty { tables_of whole.old.tables ≡ map (λ d. finmap.empty) catalog.now.tables }
    ensures read { Reads (λ rest. (tables_of whole.new.tables, rest.now)) result (each table_of catalog.now.tables bytes.now) }
    ensures settled { OnOk result (Settles catalog.now whole.old whole.new) }
{
    let mut rest = bytes;
    for number in 0..catalog.tables.len() {
        rest = table_into(alloc, rest, catalog, whole, number as u16)?;
    }
    Ok(rest)
}
