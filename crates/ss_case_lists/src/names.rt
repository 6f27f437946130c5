//! The numbers of what a catalogue names.

use ss_case_files::Wrong;
use ss_model::Catalog;
use std::alloc::Global;

/// The number at a position.
fn number_at(alloc: Global, position: Option<usize>) -> Result<u16, Wrong> {
    let Some(position) = position else {
        return Err(Wrong::text(alloc, "no definition has that name"));
    };
    match u16::try_from(position) {
        Ok(number) => Ok(number),
        Err(_) => Err(Wrong::text(alloc, "a number over 16 bits")),
    }
}

/// The number of a table. Wrong where none has that name.
pub fn table_number(alloc: Global, catalog: &Catalog, name: &str) -> Result<u16, Wrong> {
    let mut tables = catalog.tables.as_slice().iter();
    number_at(alloc, tables.position(|table| table.name.as_str() == name))
}

/// The number of a stream. Wrong where none has that name.
pub fn stream_number(alloc: Global, catalog: &Catalog, name: &str) -> Result<u16, Wrong> {
    let mut streams = catalog.streams.as_slice().iter();
    number_at(
        alloc,
        streams.position(|stream| stream.name.as_str() == name),
    )
}

/// The number of a window. Wrong where none has that name.
pub fn window_number(alloc: Global, catalog: &Catalog, name: &str) -> Result<u16, Wrong> {
    let mut windows = catalog.windows.as_slice().iter();
    number_at(
        alloc,
        windows.position(|window| window.name.as_str() == name),
    )
}

/// The number of a procedure. Wrong where none has that name.
pub fn procedure_number(alloc: Global, catalog: &Catalog, name: &str) -> Result<u16, Wrong> {
    let mut procedures = catalog.procedures.as_slice().iter();
    number_at(
        alloc,
        procedures.position(|procedure| procedure.name.as_str() == name),
    )
}
