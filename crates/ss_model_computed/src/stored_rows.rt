//! What an execution sees of tables, and how it changes them row by row.

ghost use Rattle.std.specs.Prelude.{◌≡◌, map, slice_get, Some, IfOk, IfErr, OnOk, Ok};
ghost use Rattle.std.specs.List.{filter};
ghost use Rattle.std.specs.Option.{option_copied};
ghost use Rattle.std.specs.FinMap as finmap;
ghost use Rattle.ss_value.specs.Rows.{column_value, column_values};
ghost use Rattle.ss_value.specs.Order.{values_equal};
ghost use Rattle.ss_model.specs.Contents.{table_at, table_placement, row_key, has_split_value, matches_split, put_entries, remove_entries};
ghost use Rattle.ss_model.specs.Statements.{insert_row, is_table_full};
ghost use Rattle.ss_model.specs.Stops.{StopsAs};
ghost use Rattle.ss_model_computed.specs.State.{contents_of, context_of};
ghost use Rattle.ss_model_computed.specs.Meanings.{table_seen};

use crate::contents::{Contents, Context};
use crate::lists::one_item;
use crate::table::Entry;
use ss_model::{Catalog, Placement, Reason, RunError, TableDef};
use ss_model_computed_sql::columns::column_value;
use ss_value::{NoMemory, Row, Rows, Seq, Value};
use std::alloc::Global;

/// The most rows of a placed table. A split one has no limit of its own.
pub const TABLE_ROW_LIMIT: usize = 1_000_000;

/// The values of these columns of a row, in the order of the columns.
fn column_values(alloc: Global, columns: &[u8], row: &Row) -> Result<Row, NoMemory>
    ensures { IfOk result (λ values. values ≡ column_values columns.now row.now) }
{
    let mut values = Seq::new(alloc);
    for column in columns {
        let value = column_value(alloc, row, usize::from(*column))?;
        values.push(value)?;
    }
    Ok(values)
}

/// The key of a row in a table, and the key of no value where there is no such table.
fn row_key(alloc: Global, catalog: &Catalog, table: u16, row: &Row) -> Result<Row, NoMemory>
    ensures { IfOk result (λ key. key ≡ row_key catalog.now table row.now) }
{
    match catalog.tables.get(usize::from(table)) {
        Some(def) => column_values(alloc, def.key.as_slice(), row),
        None => Ok(Seq::new(alloc)),
    }
}

/// Whether a column of a row has this value; past the row's end the value is 0.
fn has_value(row: &Row, column: usize, value: &Value) -> bool
    ensures { result ≡ values_equal (column_value row.now column) value.now }
{
    match row.get(column) {
        Some(found) => found == value,
        None => Value::Int(0) == *value,
    }
}

/// Whether a key of a split table has this value in the split column; every key of a placed table passes.
fn has_split_value(def: &TableDef, value: &Value, key: &Row) -> bool
    ensures { result ≡ has_split_value (Some def.now.placement) def.now.key value.now key.now }
{
    match def.placement {
        Placement::Part(_) => true,
        Placement::By(column) => has_value(key, def.key_position(column), value),
    }
}

/// Whether an execution that is limited to this value of split columns sees the row of a key.
fn matches_split(catalog: &Catalog, split_value: Option<&Value>, table: u16, key: &Row) -> bool
    ensures { result ≡ matches_split catalog.now (option_copied split_value.entry) table key.now }
{
    match split_value {
        None => true,
        Some(value) => match catalog.tables.get(usize::from(table)) {
            None => true,
            Some(def) => has_split_value(def, value, key),
        },
    }
}

/// Copies of the keys and rows of a table, and none where there is no such table.
#[tactic(auto, unfolding(ss_model::specs::Contents::table_at))]
fn table_entries(alloc: Global, contents: &Contents, table: u16) -> Result<Seq<Entry>, NoMemory>
    ensures { IfOk result (λ entries. entries ≡ finmap.entries (table_at (contents_of contents.now) table)) }
{
    match contents.tables.get(usize::from(table)) {
        Some(table) => table.entries(alloc),
        None => Ok(Seq::new(alloc)),
    }
}

/// Those of these entries whose keys an execution sees, in their order.
fn seen_entries(
    alloc: Global,
    context: &Context,
    table: u16,
    entries: Seq<Entry>,
) -> Result<Seq<Entry>, NoMemory>
    ensures { let c = context_of context.now in IfOk result (λ seen. seen ≡ filter (λ e. matches_split c.catalog c.split_value table e.0) entries) }
{
    let mut seen = Seq::new(alloc);
    for (key, row) in entries.into_vec() {
        if matches_split(context.catalog, context.split_value, table, &key) {
            seen.push((key, row))?;
        }
    }
    Ok(seen)
}

/// Copies of the keys and rows of a table that an execution sees, in key order.
pub fn visible_entries(
    alloc: Global,
    context: &Context,
    contents: &Contents,
    table: u16,
) -> Result<Seq<Entry>, NoMemory>
    ensures { IfOk result (λ entries. entries ≡ finmap.entries (table_seen context.now contents.now table)) }
{
    let entries = table_entries(alloc, contents, table)?;
    seen_entries(alloc, context, table, entries)
}

/// The rows of these entries, moved and not copied.
pub fn rows_of(alloc: Global, entries: Seq<Entry>) -> Result<Rows, NoMemory>
    ensures { IfOk result (λ rows. rows ≡ map (λ e. e.1) entries) }
{
    let mut rows = Seq::new(alloc);
    for (_, row) in entries.into_vec() {
        rows.push(row)?;
    }
    Ok(rows)
}

/// Puts rows at keys of a table, in this order; changes nothing where there is no such table.
#[tactic(auto, unfolding(ss_model::specs::Contents::table_at, ss_model::specs::Contents::put_entries))]
pub fn put_entries(table: u16, entries: Seq<Entry>, contents: &mut Contents) -> Result<(), NoMemory>
    ensures { OnOk result (contents_of contents.new ≡ put_entries (contents_of contents.old) table entries) }
{
    match contents.tables.get_mut(usize::from(table)) {
        Some(table) => table.insert_all(entries)?,
        None => {}
    }
    Ok(())
}

/// Removes the rows at keys of a table; changes nothing where there is no such table.
#[tactic(auto, unfolding(ss_model::specs::Contents::table_at, ss_model::specs::Contents::remove_entries))]
pub fn remove_entries(table: u16, entries: Seq<Entry>, contents: &mut Contents)
    ensures { contents_of contents.new ≡ remove_entries (contents_of contents.old) table entries }
{
    match contents.tables.get_mut(usize::from(table)) {
        Some(table) => table.remove_all(entries),
        None => {}
    }
}

/// Whether a table has a row with this key.
#[tactic(auto, unfolding(ss_model::specs::Contents::table_at))]
fn is_taken(contents: &Contents, table: u16, key: &Row) -> bool
    ensures { result ≡ finmap.contains_key (table_at (contents_of contents.now) table) key.now }
{
    match contents.tables.get(usize::from(table)) {
        Some(table) => table.contains_key(key),
        None => false,
    }
}

/// The number of rows of a table, and 0 where there is no such table.
#[tactic(auto, unfolding(ss_model::specs::Contents::table_at))]
fn table_len(contents: &Contents, table: u16) -> usize
    ensures { result ≡ finmap.len (table_at (contents_of contents.now) table) }
{
    match contents.tables.get(usize::from(table)) {
        Some(table) => table.len(),
        None => 0,
    }
}

/// Whether a table is placed and has the most rows that it may have.
fn is_table_full(catalog: &Catalog, table: u16, contents: &Contents) -> bool
    ensures { result ≡ is_table_full (table_placement (slice_get catalog.now.tables table)) (table_at (contents_of contents.now) table) }
{
    match catalog.tables.get(usize::from(table)) {
        None => false,
        Some(def) => match def.placement {
            Placement::Part(_) => table_len(contents, table) >= TABLE_ROW_LIMIT,
            Placement::By(_) => false,
        },
    }
}

/// Inserts a row into a table. Aborts with `KeyTaken` where its key has a row, and else with `TableFull` where the
/// table is full.
#[tactic(auto, unfolding(ss_model::specs::Statements::insert_row))]
pub fn insert_row(
    alloc: Global,
    catalog: &Catalog,
    table: u16,
    row: Row,
    contents: &mut Contents,
) -> Result<(), RunError>
    ensures ok { OnOk result (insert_row catalog.now table row (contents_of contents.old) ≡ Ok (contents_of contents.new)) }
    ensures stops { IfErr result (λ stop. StopsAs (insert_row catalog.now table row (contents_of contents.old)) stop) }
{
    let key = row_key(alloc, catalog, table, &row)?;
    if is_taken(contents, table, &key) {
        return Err(RunError::Abort(Reason::KeyTaken(table)));
    }
    if is_table_full(catalog, table, contents) {
        return Err(RunError::Abort(Reason::TableFull(table)));
    }
    let entries = one_item(alloc, (key, row))?;
    put_entries(table, entries, contents)?;
    Ok(())
}
