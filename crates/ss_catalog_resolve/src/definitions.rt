//! Tables, streams and windows, with numbers for the names in them.

ghost use Rattle.std.specs.Prelude.{◌≡◌, ◌≤◌, length, map, nat_lt, false, IfOk};
ghost use Rattle.std.specs.List.{list_any};
ghost use Rattle.ss_catalog_outline.specs.declared.types.TableOutline.{TableOutline as ATable};
ghost use Rattle.ss_names.specs.Names.{column_name};
ghost use Rattle.ss_catalog_outline.specs.Limits.{is_too_many_to_number};
ghost use Rattle.ss_catalog_resolve.specs.Numbers.{number_in};
ghost use Rattle.ss_catalog_resolve.specs.Numbered.{placement_in, table_of, stream_of, window_of, sections_of};

use crate::references::{column_number, section_number};
use ss_catalog_json::Word;
use ss_catalog_outline::{Outline, PlacementOutline, StreamOutline, TableOutline, WindowOutline};
use ss_model::{Placement, StreamDef, TableDef, WindowDef};
use ss_names::NameIndex;
use ss_value::{Copies, NoMemory, Seq};
use std::alloc::Global;

/// All that SQL may name as a source or a target, each kind in written order.
#[derive(Drop)]
pub struct Sections {
    pub tables: Seq<TableDef>,
    pub streams: Seq<StreamDef>,
    pub windows: Seq<WindowDef>,
}

// ---- tables

/// The numbers of the columns of these names.
fn column_numbers(alloc: Global, columns: &NameIndex, names: &[Word]) -> Result<Seq<u8>, NoMemory>
    requires { length columns.now ≤ 256 }
    ensures { IfOk result (λ numbers. numbers ≡ map (number_in columns.now) names.now) }
{
    let mut numbers = Seq::new(alloc);
    for name in names {
        let number = column_number(columns, name.as_slice());
        numbers.push(number)?;
    }
    Ok(numbers)
}

/// The numbers of the columns of several indexes.
fn index_numbers(
    alloc: Global,
    columns: &NameIndex,
    indexes: &[Seq<Word>],
) -> Result<Seq<Seq<u8>>, NoMemory>
    requires { length columns.now ≤ 256 }
    ensures { IfOk result (λ numbers. numbers ≡ map (map (number_in columns.now)) indexes.now) }
{
    let mut numbers = Seq::new(alloc);
    for names in indexes {
        let of_one = column_numbers(alloc, columns, names.as_slice())?;
        numbers.push(of_one)?;
    }
    Ok(numbers)
}

/// The placement of a table with these columns.
fn placement_of(columns: &NameIndex, placement: &PlacementOutline) -> Placement
    requires { length columns.now ≤ 256 }
    ensures { result ≡ placement_in columns.now placement.now }
{
    match placement {
        PlacementOutline::Part(part) => Placement::Part(*part),
        PlacementOutline::By(name) => Placement::By(column_number(columns, name.as_slice())),
    }
}

/// A table, by an index of its columns.
fn table_by(alloc: Global, columns: &NameIndex, table: &TableOutline) -> Result<TableDef, NoMemory>
    requires few { length columns.now ≤ 256 }
    requires own { columns.now ≡ map column_name table.now.columns }
    ensures { IfOk result (λ def. def ≡ table_of table.now) }
{
    let name = table.name.copy(alloc)?;
    let schema = table.columns.duplicate(alloc)?;
    let key = column_numbers(alloc, columns, table.key.as_slice())?;
    let placement = placement_of(columns, &table.placement);
    let indexes = index_numbers(alloc, columns, table.indexes.as_slice())?;
    Ok(TableDef {
        name,
        schema,
        key,
        placement,
        indexes,
    })
}

/// A table. Its columns are indexed, so that the names in its key, placement and indexes are looked up by hash.
fn table_of(alloc: Global, table: &TableOutline) -> Result<TableDef, NoMemory>
    requires { length table.now.columns ≤ 256 }
    ensures { IfOk result (λ def. def ≡ table_of table.now) }
{
    let columns = NameIndex::new(alloc, table.columns.as_slice())?;
    table_by(alloc, &columns, table)
}

/// The tables.
fn tables_of(alloc: Global, tables: &[TableOutline]) -> Result<Seq<TableDef>, NoMemory>
    requires { list_any (λ (d : ATable). nat_lt 256 (length d.columns)) tables.now ≡ false }
    ensures { IfOk result (λ defs. defs ≡ map table_of tables.now) }
{
    let mut defs = Seq::new(alloc);
    for table in tables {
        let def = table_of(alloc, table)?;
        defs.push(def)?;
    }
    Ok(defs)
}

// ---- streams and windows

/// A stream.
fn stream_of(alloc: Global, stream: &StreamOutline) -> Result<StreamDef, NoMemory>
    ensures { IfOk result (λ def. def ≡ stream_of stream.now) }
{
    let name = stream.name.copy(alloc)?;
    let schema = stream.columns.duplicate(alloc)?;
    Ok(StreamDef { name, schema })
}

/// The streams.
fn streams_of(alloc: Global, streams: &[StreamOutline]) -> Result<Seq<StreamDef>, NoMemory>
    ensures { IfOk result (λ defs. defs ≡ map stream_of streams.now) }
{
    let mut defs = Seq::new(alloc);
    for stream in streams {
        let def = stream_of(alloc, stream)?;
        defs.push(def)?;
    }
    Ok(defs)
}

/// A window, whose owner is one of these procedures.
fn window_of(
    alloc: Global,
    procedures: &NameIndex,
    window: &WindowOutline,
) -> Result<WindowDef, NoMemory>
    requires { length procedures.now ≤ 65536 }
    ensures { IfOk result (λ def. def ≡ window_of procedures.now window.now) }
{
    let name = window.name.copy(alloc)?;
    let schema = window.columns.duplicate(alloc)?;
    Ok(WindowDef {
        name,
        schema,
        owner: section_number(procedures, window.owner.as_slice()),
        unit: window.unit,
        size: window.size,
        slide: window.slide,
    })
}

/// The windows.
fn windows_of(
    alloc: Global,
    procedures: &NameIndex,
    windows: &[WindowOutline],
) -> Result<Seq<WindowDef>, NoMemory>
    requires { length procedures.now ≤ 65536 }
    ensures { IfOk result (λ defs. defs ≡ map (window_of procedures.now) windows.now) }
{
    let mut defs = Seq::new(alloc);
    for window in windows {
        let def = window_of(alloc, procedures, window)?;
        defs.push(def)?;
    }
    Ok(defs)
}

// ---- the whole

/// The tables, streams and windows of an outline, with numbers for the names in them.
pub fn sections_of(alloc: Global, outline: &Outline) -> Result<Sections, NoMemory>
    requires { is_too_many_to_number outline.now ≡ false }
    ensures { IfOk result (λ sections. sections ≡ sections_of outline.now) }
{
    let procedures = NameIndex::new(alloc, outline.procedures.as_slice())?;
    let tables = tables_of(alloc, outline.tables.as_slice())?;
    let streams = streams_of(alloc, outline.streams.as_slice())?;
    let windows = windows_of(alloc, &procedures, outline.windows.as_slice())?;
    Ok(Sections {
        tables,
        streams,
        windows,
    })
}
