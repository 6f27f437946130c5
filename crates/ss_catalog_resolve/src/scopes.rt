//! The names in scope of the SQL of a catalogue.
//!
//! One scope serves all texts, so that tables and windows are copied into it only once: as sources, and as targets. What
//! a procedure or a trigger sees besides them is put behind the sources, and taken off again.

ghost use Rattle.std.specs.Prelude.{◌≡◌, ◌≤◌, [], ◌++◌, length, take, IfOk, OnOk};
ghost use Rattle.ss_model.specs.Results.{map_indexed};
ghost use Rattle.ss_catalog_resolve.specs.Numbered.{sections_of};
ghost use Rattle.ss_catalog_resolve.specs.Scopes.{named_table, named_window, shared_names, shared_scope, stream_columns, named_batch, procedure_scope, named_inserted, trigger_scope};

use crate::definitions::Sections;
use ss_catalog_outline::{Outline, StreamOutline};
use ss_model::{On, TableDef, WindowDef};
use ss_sql_trees::SourceId;
use ss_sql_type::{Named, Scope};
use ss_value::{Copies, NoMemory, Schema, Seq, name_of};
use std::alloc::Global;

// ---- tables and windows

fn named_table(alloc: Global, number: u16, table: &TableDef) -> Result<Named, NoMemory>
    ensures { IfOk result (λ named. named ≡ named_table number table.now) }
{
    let name = table.name.copy(alloc)?;
    let schema = table.schema.duplicate(alloc)?;
    let key = table.key.duplicate(alloc)?;
    Ok(Named {
        name,
        source: SourceId::Table(number),
        schema,
        key,
    })
}

fn named_window(alloc: Global, number: u16, window: &WindowDef) -> Result<Named, NoMemory>
    ensures { IfOk result (λ named. named ≡ named_window number window.now) }
{
    let name = window.name.copy(alloc)?;
    let schema = window.schema.duplicate(alloc)?;
    Ok(Named {
        name,
        source: SourceId::Window(number),
        schema,
        key: Seq::new(alloc),
    })
}

fn add_tables(alloc: Global, names: &mut Seq<Named>, tables: &[TableDef]) -> Result<(), NoMemory>
    requires { length tables.now ≤ 65536 }
    ensures { OnOk result (names.new ≡ names.old ++ map_indexed named_table tables.now) }
{
    for (at, table) in tables.iter().enumerate() {
        let named = named_table(alloc, at as u16, table)?;
        names.push(named)?;
    }
    Ok(())
}

fn add_windows(alloc: Global, names: &mut Seq<Named>, windows: &[WindowDef]) -> Result<(), NoMemory>
    requires { length windows.now ≤ 65536 }
    ensures { OnOk result (names.new ≡ names.old ++ map_indexed named_window windows.now) }
{
    for (at, window) in windows.iter().enumerate() {
        let named = named_window(alloc, at as u16, window)?;
        names.push(named)?;
    }
    Ok(())
}

fn shared_names(alloc: Global, sections: &Sections) -> Result<Seq<Named>, NoMemory>
    requires tables { length sections.now.tables ≤ 65536 }
    requires windows { length sections.now.windows ≤ 65536 }
    ensures { IfOk result (λ names. names ≡ shared_names sections.now) }
{
    let mut names = Seq::new(alloc);
    add_tables(alloc, &mut names, sections.tables.as_slice())?;
    add_windows(alloc, &mut names, sections.windows.as_slice())?;
    Ok(names)
}

/// The scope with tables and windows alone.
pub fn shared_scope(alloc: Global, sections: &Sections) -> Result<Scope, NoMemory>
    requires tables { length sections.now.tables ≤ 65536 }
    requires windows { length sections.now.windows ≤ 65536 }
    ensures { IfOk result (λ scope. scope ≡ shared_scope sections.now) }
{
    let sources = shared_names(alloc, sections)?;
    let targets = shared_names(alloc, sections)?;
    Ok(Scope {
        sources,
        targets,
        params: Seq::new(alloc),
        out: None,
    })
}

// ---- procedures and triggers

/// A copy of the columns of the stream of this number, and none where there is no such stream.
pub fn stream_columns(alloc: Global, outline: &Outline, stream: u16) -> Result<Schema, NoMemory>
    ensures { IfOk result (λ columns. columns ≡ stream_columns (sections_of outline.now) stream) }
{
    match outline.streams.get(stream as usize) {
        Some(stream) => stream.columns.duplicate(alloc),
        None => Ok(Seq::new(alloc)),
    }
}

/// The batch of a stream as the input at a position.
fn named_batch(
    alloc: Global,
    outline: &Outline,
    position: u16,
    stream: u16,
) -> Result<Named, NoMemory>
    ensures { IfOk result (λ named. named ≡ named_batch (sections_of outline.now) position stream) }
{
    // Comes only for the number 0 of an unknown name, where there are no streams at all.
    let Some(found) = outline.streams.get(stream as usize) else {
        return Err(NoMemory);
    };
    let name = found.name.copy(alloc)?;
    let schema = found.columns.duplicate(alloc)?;
    Ok(Named {
        name,
        source: SourceId::Batch(position),
        schema,
        key: Seq::new(alloc),
    })
}

fn add_batches(
    alloc: Global,
    names: &mut Seq<Named>,
    outline: &Outline,
    inputs: &[u16],
) -> Result<(), NoMemory>
    ensures { OnOk result (names.new ≡ names.old ++ map_indexed (named_batch (sections_of outline.now)) inputs.now) }
{
    for (position, stream) in inputs.iter().enumerate() {
        // Inputs that are known and no duplicates are at most as many as streams, of which there are 65,536 at most.
        if position > 65_535 {
            return Err(NoMemory);
        }
        let named = named_batch(alloc, outline, position as u16, *stream)?;
        names.push(named)?;
    }
    Ok(())
}

/// Adds what a procedure with these inputs and arguments sees. Linear in them and the columns of the inputs.
pub fn enter_procedure(
    alloc: Global,
    scope: &mut Scope,
    outline: &Outline,
    inputs: &[u16],
    args: &Schema,
) -> Result<(), NoMemory>
    requires { scope.old ≡ shared_scope (sections_of outline.now) }
    ensures { OnOk result (scope.new ≡ procedure_scope (sections_of outline.now) inputs.now args.now None) }
{
    add_batches(alloc, &mut scope.sources, outline, inputs)?;
    scope.params = args.duplicate(alloc)?;
    Ok(())
}

/// Adds what a trigger sees. Linear in the columns of its stream.
pub fn enter_trigger(
    alloc: Global,
    scope: &mut Scope,
    outline: &Outline,
    on: On,
) -> Result<(), NoMemory>
    requires { scope.old ≡ shared_scope (sections_of outline.now) }
    ensures { OnOk result (scope.new ≡ trigger_scope (sections_of outline.now) on) }
{
    let On::Stream(stream) = on else {
        return Ok(());
    };
    // The word has the form of a name, so that this fails only when out of memory.
    let Ok(name) = name_of(alloc, b"inserted") else {
        return Err(NoMemory);
    };
    let schema = stream_columns(alloc, outline, stream)?;
    let inserted = Named {
        name,
        source: SourceId::Inserted,
        schema,
        key: Seq::new(alloc),
    };
    scope.sources.push(inserted)?;
    Ok(())
}

/// Takes off what was added behind the shared sources, of which there are this many, and the parameters.
pub fn leave(alloc: Global, scope: &mut Scope, shared: usize)
    ensures { scope.new ≡ record scope.old { sources = take shared scope.old.sources; params = [] } }
{
    // By way of a `Vec`, since `Seq` has no `truncate`.
    let sources = std::mem::replace(&mut scope.sources, Seq::new(alloc));
    let mut sources = sources.into_vec();
    sources.truncate(shared);
    scope.sources = Seq::from_vec(sources);
    scope.params = Seq::new(alloc);
}
