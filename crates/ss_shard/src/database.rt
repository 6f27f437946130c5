//! Shards before the first execution, and the shard of all partitions with the streams beside it.

ghost use Rattle.std.specs.Prelude.{◌≡◌, ◌≤◌, ◌<◌, IfOk, [], length, replicate};
ghost use Rattle.std.specs.List.{AllByRecursion};
ghost use Rattle.ss_model.specs.Database.{empty_database};
ghost use Rattle.ss_shard.specs.Contents.{row_limit};
ghost use Rattle.ss_model.specs.Accepted.{Accepted};
ghost use Rattle.ss_table.specs.Joins.{shell_of};
ghost use Rattle.ss_undo.specs.Indexed.{AreIndexed};
ghost use Rattle.ss_shard.specs.Parts.{IsShardOf, AreShards, HoldTheirParts, IsWholeShard};
ghost use Rattle.ss_shard.specs.Windows.{HoldsDatabase};
ghost use Rattle.ss_shard.specs.Databases.{WindowIsSound, route_at, empty_table, empty_tables, shell_tables, HasBlanksBeside, empty_group, empty_indexes, empty_windows, StandsFor, OpensWhole};

use crate::shard::Shard;
use crate::sources::no_sources;
use crate::splits::join;
use ss_index::{Index, Indexes};
use ss_model::{Catalog, Placement, TableDef, WindowDef};
use ss_stream::{Streams, empty_streams};
use ss_table::{Route, Table};
use ss_value::{Copies, NoMemory, Seq};
use ss_window::Window;
use std::alloc::Global;

/// The most rows that a table may have that one partition holds whole.
pub const TABLE_ROWS: usize = 1_000_000;

/// A database: one shard of all partitions, which holds all tables, windows, counts and next numbers, and beside it the streams.
#[derive(Drop)]
pub struct Database {
    /// The shard, of number 0.
    pub whole: Shard,
    /// Of each stream the batches that some procedure has still to take.
    pub streams: Streams,
}

/// The most rows that a table of this placement may have, and None for a split one, which has no limit.
fn row_limit(placement: Placement) -> Option<usize>
    ensures { result ≡ row_limit placement }
{
    match placement {
        Placement::Part(_) => Some(TABLE_ROWS),
        Placement::By(_) => None,
    }
}

/// How the rows of a table of this definition are dealt to so many parts.
fn route_at(parts: u8, table: &TableDef) -> Route
    requires { 1 ≤ parts }
    ensures { result ≡ route_at parts table.now.key table.now.placement }
{
    match table.placement {
        Placement::Part(part) => Route::Placed(part % parts),
        Placement::By(column) => Route::Split(table.key_position(column), parts),
    }
}

/// A table of this definition, without a row, of one part of so many.
fn empty_table(alloc: Global, table: &TableDef, parts: u8, part: u8) -> Result<Table, NoMemory>
    requires some { 1 ≤ parts }
    requires below { part < 8 }
    ensures { IfOk result (λ made. made ≡ empty_table parts part table.now) }
{
    let key = table.key.duplicate(alloc)?;
    let limit = row_limit(table.placement);
    Ok(Table::new(alloc, key, limit, route_at(parts, table), part))
}

/// Tables of these definitions, without a row, of one part of so many.
fn empty_tables(
    alloc: Global,
    tables: &[TableDef],
    parts: u8,
    part: u8,
) -> Result<Seq<Table>, NoMemory>
    requires some { 1 ≤ parts }
    requires below { part < 8 }
    ensures { IfOk result (λ made. made ≡ empty_tables parts part tables.now) }
{
    let mut made = Seq::new(alloc);
    for table in tables {
        let table = empty_table(alloc, table, parts, part)?;
        made.push(table)?;
    }
    Ok(made)
}

/// A table that lent its rows, and its key with them.
fn shell_table(alloc: Global, table: &TableDef, parts: u8, part: u8) -> Table
    requires some { 1 ≤ parts }
    requires below { part < 8 }
    ensures { result ≡ shell_of (empty_table parts part table.now) }
{
    let limit = row_limit(table.placement);
    Table::new(alloc, Seq::new(alloc), limit, route_at(parts, table), part)
}

/// Tables of these definitions that lent their rows, and their keys with them, of one part of so many.
pub fn shell_tables(
    alloc: Global,
    tables: &[TableDef],
    parts: u8,
    part: u8,
) -> Result<Seq<Table>, NoMemory>
    requires some { 1 ≤ parts }
    requires below { part < 8 }
    ensures { IfOk result (λ made. made ≡ shell_tables parts part tables.now) }
{
    let mut made = Seq::new(alloc);
    for table in tables {
        made.push(shell_table(alloc, table, parts, part))?;
    }
    Ok(made)
}

/// Indexes without a pair, of one part, on these columns.
fn empty_group(alloc: Global, listed: &[Seq<u8>], part: u8) -> Result<Indexes, NoMemory>
    ensures { IfOk result (λ made. made ≡ empty_group part listed.now) }
{
    let mut made = Indexes::new(alloc);
    for columns in listed {
        let columns = columns.duplicate(alloc)?;
        made.push(Index::new(alloc, columns, part))?;
    }
    Ok(made)
}

/// The indexes of tables of these definitions, without a pair, of one part.
fn empty_indexes(alloc: Global, tables: &[TableDef], part: u8) -> Result<Seq<Indexes>, NoMemory>
    ensures { IfOk result (λ made. made ≡ empty_indexes part tables.now) }
{
    let mut made = Seq::new(alloc);
    for table in tables {
        let group = empty_group(alloc, table.indexes.as_slice(), part)?;
        made.push(group)?;
    }
    Ok(made)
}

/// Windows of these definitions, without a unit.
fn empty_windows(alloc: Global, windows: &[WindowDef]) -> Result<Seq<Window>, NoMemory>
    requires { AllByRecursion WindowIsSound windows.now }
    ensures { IfOk result (λ made. made ≡ empty_windows windows.now) }
{
    let mut made = Seq::new(alloc);
    for window in windows {
        let window = Window::new(alloc, window.unit, window.size, window.slide);
        if made.push(window).is_err() {
            return Err(NoMemory);
        }
    }
    Ok(made)
}

/// So many counts of 0.
fn zeros(alloc: Global, count: usize) -> Result<Seq<u64>, NoMemory>
    ensures { IfOk result (λ made. made ≡ replicate count 0) }
{
    let mut made = Seq::new(alloc);
    for _ in 0..count {
        if made.push(0).is_err() {
            return Err(NoMemory);
        }
    }
    Ok(made)
}

/// So many numbers of bodies, each of which is the procedure's own.
fn own_bodies(alloc: Global, count: usize) -> Result<Seq<usize>, NoMemory>
    ensures { IfOk result (λ made. made ≡ replicate count 0) }
{
    let mut made = Seq::new(alloc);
    for _ in 0..count {
        if made.push(0).is_err() {
            return Err(NoMemory);
        }
    }
    Ok(made)
}

/// A shard that has these tables, without a row, and else only blanks.
pub fn blanks_beside(
    alloc: Global,
    catalog: &Catalog,
    number: u8,
    tables: Seq<Table>,
) -> Result<Shard, NoMemory>
    requires sound { AllByRecursion WindowIsSound catalog.now.windows }
    requires indexed { AreIndexed tables [] (empty_indexes number catalog.now.tables) }
    ensures { IfOk result (λ shard. HasBlanksBeside catalog.now number tables shard) }
{
    let indexes = empty_indexes(alloc, catalog.tables.as_slice(), number)?;
    let windows = empty_windows(alloc, catalog.windows.as_slice())?;
    let cursors = zeros(alloc, catalog.procedures.len())?;
    let sources = no_sources(alloc, catalog.streams.len())?;
    let bodies = own_bodies(alloc, catalog.procedures.len())?;
    Ok(Shard::new(
        alloc, number, tables, indexes, windows, cursors, sources, bodies,
    ))
}

/// The shard of one partition before the first execution: its part of the empty database. `parts` is how many partitions run.
///
/// Linear in the catalogue's tables, their keys and indexes, its windows, procedures and streams.
pub fn blank(alloc: Global, catalog: &Catalog, parts: u8, number: u8) -> Result<Shard, NoMemory>
    requires sound { AllByRecursion WindowIsSound catalog.now.windows }
    requires runs { number < parts }
    requires below { number < 8 }
    ensures is_shard { IfOk result (λ shard. IsShardOf catalog.now parts number shard) }
    ensures holds { IfOk result (λ shard. HoldsDatabase catalog.now shard (empty_database catalog.now)) }
{
    let tables = empty_tables(alloc, catalog.tables.as_slice(), parts, number)?;
    blanks_beside(alloc, catalog, number, tables)
}

/// The shards of all partitions before the first execution, by number.
fn blanks(alloc: Global, catalog: &Catalog, parts: u8) -> Result<Seq<Shard>, NoMemory>
    requires sound { AllByRecursion WindowIsSound catalog.now.windows }
    requires some { 1 ≤ parts }
    requires few { parts ≤ 8 }
    ensures are_shards { IfOk result (λ shards. AreShards catalog.now parts shards) }
    ensures hold { IfOk result (λ shards. HoldTheirParts catalog.now parts shards (empty_database catalog.now)) }
{
    let mut made = Seq::new(alloc);
    for number in 0..parts {
        let shard = blank(alloc, catalog, parts, number)?;
        made.push(shard)?;
    }
    Ok(made)
}

/// The database of a catalogue before the first execution. `parts` is how many partitions run.
///
/// A table has a fragment for each of them from here on, instead of being dealt when the database is split: a row goes
/// to the fragment of its partition when it is inserted, so a split and a join move fragments, and cost the same at any
/// number of rows. That the database is whole is said where the catalogue's empty database is (`whole`), since that is
/// a law of the model on which this crate doesn't stand.
///
/// For each partition linear in the catalogue's tables, their keys and indexes, its windows and its procedures, and once linear in
/// its procedures' inputs for each stream.
pub fn opening(alloc: Global, catalog: &Catalog, parts: u8) -> Result<Database, NoMemory>
    requires accepted { Accepted catalog.now }
    requires some { 1 ≤ parts }
    requires few { parts ≤ 8 }
    ensures is_whole { IfOk result (λ db. IsWholeShard catalog.now parts db.whole) }
    ensures stands { IfOk result (λ db. StandsFor catalog.now db (empty_database catalog.now)) }
    ensures whole { IfOk result (λ db. OpensWhole catalog.now db) }
{
    let shards = blanks(alloc, catalog, parts)?;
    let whole = match join(alloc, shards, catalog, parts) {
        Ok(whole) => whole,
        Err((error, _)) => return Err(error),
    };
    let streams = empty_streams(alloc, catalog)?;
    Ok(Database { whole, streams })
}
