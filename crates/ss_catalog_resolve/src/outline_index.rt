//! An outline whose names are indexed, and the numbers that it has for them.

ghost use Rattle.std.specs.Prelude.{◌≡◌, false, IfOk};
ghost use Rattle.ss_catalog_outline.specs.Limits.{is_too_many_to_number};
ghost use Rattle.ss_catalog_resolve.specs.Numbered.{table_names, stream_names, window_names, on_of, inputs_of};
ghost use Rattle.ss_catalog_resolve.specs.Steps.{table_number, table_columns, stream_number, columns_of_stream};

use crate::references::{numbers_of, on_of, section_number};
use crate::scopes::stream_columns;
use ss_catalog_json::Word;
use ss_catalog_outline::{Outline, ProcedureOutline};
use ss_model::On;
use ss_names::NameIndex;
use ss_value::{Column, NoMemory, Schema, Seq};
use std::alloc::Global;

/// An outline with indexes of its names. It borrows the names, and takes a reference and a hash for each.
#[derive(Drop)]
pub struct OutlineIndex<'a> {
    pub outline: &'a Outline,
    tables: NameIndex<'a>,
    streams: NameIndex<'a>,
    windows: NameIndex<'a>,
    ghost few: { is_too_many_to_number outline.now ≡ false },
    ghost tables_named: { tables ≡ table_names outline.now },
    ghost streams_named: { streams ≡ stream_names outline.now },
    ghost windows_named: { windows ≡ window_names outline.now },
}

impl<'a> OutlineIndex<'a> {
    /// Indexes the tables, streams and windows of an outline.
    pub fn new(alloc: Global, outline: &'a Outline) -> Result<OutlineIndex<'a>, NoMemory>
        requires { is_too_many_to_number outline.now ≡ false }
        ensures { IfOk result (λ names. names.outline.now ≡ outline.now) }
    {
        let tables = NameIndex::new(alloc, outline.tables.as_slice())?;
        let streams = NameIndex::new(alloc, outline.streams.as_slice())?;
        let windows = NameIndex::new(alloc, outline.windows.as_slice())?;
        Ok(OutlineIndex {
            outline,
            tables,
            streams,
            windows,
        })
    }

    /// The number of a table, and 0 where it isn't there.
    pub fn table_number(&self, table: &Word) -> u16
        ensures { result ≡ table_number self.now.outline.now table.now }
    {
        section_number(&self.tables, table.as_slice())
    }

    /// The columns of the table that has this name's number.
    pub fn table_columns(&self, table: &Word) -> &[Column]
        ensures { result.now ≡ table_columns self.now.outline.now table.now }
    {
        match self.outline.tables.get(self.table_number(table) as usize) {
            Some(found) => found.columns.as_slice(),
            None => &[],
        }
    }

    /// The number of a stream, and 0 where it isn't there.
    pub fn stream_number(&self, stream: &Word) -> u16
        ensures { result ≡ stream_number self.now.outline.now stream.now }
    {
        section_number(&self.streams, stream.as_slice())
    }

    /// A copy of the columns of the stream that has this name's number.
    pub fn columns_of_stream(&self, alloc: Global, stream: &Word) -> Result<Schema, NoMemory>
        ensures { IfOk result (λ columns. columns ≡ columns_of_stream self.now.outline.now stream.now) }
    {
        stream_columns(alloc, self.outline, self.stream_number(stream))
    }

    /// The numbers of the streams that a procedure takes.
    pub fn inputs_of(
        &self,
        alloc: Global,
        procedure: &ProcedureOutline,
    ) -> Result<Seq<u16>, NoMemory>
        ensures { IfOk result (λ inputs. inputs ≡ inputs_of self.now.outline.now procedure.now) }
    {
        numbers_of(alloc, &self.streams, procedure.inputs.as_slice())
    }

    /// What a trigger waits for.
    pub fn on_of(&self, name: &Word) -> On
        ensures { result ≡ on_of self.now.outline.now name.now }
    {
        on_of(&self.streams, &self.windows, name)
    }
}
