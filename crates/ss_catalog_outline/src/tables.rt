//! Tables, streams, windows and triggers as JSON.

ghost use Rattle.std.specs.Prelude.{◌≡◌, Ok, IfOk, IfErr, option_and_then};
ghost use Rattle.serde_json.specs.View.{view, items_view};
ghost use Rattle.serde_json.specs.Find.{as_str};
ghost use Rattle.ss_catalog_json.specs.Readings.{FaultsAs, object_of};
ghost use Rattle.ss_catalog_outline.specs.Tables.{kind_of, read_kind, read_pair, read_column, read_part, read_placement, part_keys, by_keys, table_object, read_table, read_stream, unit_of, read_unit, read_window, read_trigger};

use crate::types::{PlacementOutline, StreamOutline, TableOutline, TriggerOutline, WindowOutline};
use serde_json::Value as Json;
use ss_catalog_json::{
    ArrayOf, ItemCount, NameReader, NumberBetween, ReadError, Reader, WordReader, fault_here,
    has_key, object_of, read_item, read_key, read_key_or,
};
use ss_value::{ColType, Column, Seq, Unit};
use std::alloc::Global;

// ---- columns

fn kind_of(word: &str) -> Option<ColType>
    ensures { result ≡ kind_of word.now }
{
    if word == "int" {
        Some(ColType::Int)
    } else if word == "text" {
        Some(ColType::Text)
    } else {
        None
    }
}

fn kind_from(value: &Json) -> Option<ColType>
    ensures { result ≡ option_and_then kind_of (as_str (view value.now)) }
{
    match value.as_str() {
        Some(word) => kind_of(word),
        None => None,
    }
}

/// A column's type.
#[derive(Drop)]
pub struct KindReader;

impl Reader for KindReader {
    type Read = ColType;

    ghost reading = { λ _. read_kind };

    fn read(&self, alloc: Global, value: &Json) -> Result<ColType, ReadError> {
        match kind_from(value) {
            Some(kind) => Ok(kind),
            None => Err(fault_here(alloc)),
        }
    }
}

fn read_pair(alloc: Global, items: &[Json]) -> Result<Column, ReadError>
    ensures ok { IfOk result (λ c. read_pair (items_view items.now) ≡ Ok c) }
    ensures refused { IfErr result (FaultsAs (read_pair (items_view items.now))) }
{
    let Some((first, others)) = items.split_first() else {
        return Err(fault_here(alloc));
    };
    let Some((second, others)) = others.split_first() else {
        return Err(fault_here(alloc));
    };
    if others.split_first().is_some() {
        return Err(fault_here(alloc));
    }
    let name = read_item(alloc, 0, &NameReader, first)?;
    let kind = read_item(alloc, 1, &KindReader, second)?;
    Ok(Column { name, kind })
}

/// A column: the pair of its name and its type.
#[derive(Drop)]
pub struct ColumnReader;

impl Reader for ColumnReader {
    type Read = Column;

    ghost reading = { λ _. read_column };

    fn read(&self, alloc: Global, value: &Json) -> Result<Column, ReadError> {
        match value.as_array() {
            Some(items) => read_pair(alloc, items.as_slice()),
            None => Err(fault_here(alloc)),
        }
    }
}

const COLUMNS: ArrayOf<ColumnReader> = ArrayOf {
    many: ItemCount::AtLeastOne,
    of: ColumnReader,
};

const WORDS: ArrayOf<WordReader> = ArrayOf {
    many: ItemCount::AtLeastOne,
    of: WordReader,
};

const INDEXES: ArrayOf<ArrayOf<WordReader>> = ArrayOf {
    many: ItemCount::Any,
    of: ArrayOf {
        many: ItemCount::AtLeastOne,
        of: WordReader,
    },
};

// ---- tables

/// A part, from 0 to 7.
#[derive(Drop)]
pub struct PartReader;

// `NumberBetween` reads the same numbers, but as `u32`.
impl Reader for PartReader {
    type Read = u8;

    ghost reading = { λ _. read_part };

    fn read(&self, alloc: Global, value: &Json) -> Result<u8, ReadError> {
        match value.as_u64() {
            Some(part) => {
                if part <= 7 {
                    Ok(part as u8)
                } else {
                    Err(fault_here(alloc))
                }
            }
            None => Err(fault_here(alloc)),
        }
    }
}

fn read_placement(alloc: Global, value: &Json) -> Result<PlacementOutline, ReadError>
    ensures ok { IfOk result (λ p. read_placement (view value.now) ≡ Ok p) }
    ensures refused { IfErr result (FaultsAs (read_placement (view value.now))) }
{
    if has_key(value, "part") {
        let part = read_key(alloc, value, "part", &PartReader)?;
        Ok(PlacementOutline::Part(part))
    } else {
        let column = read_key(alloc, value, "by", &WordReader)?;
        Ok(PlacementOutline::By(column))
    }
}

fn check_part_keys(alloc: Global, value: &Json) -> Result<(), ReadError>
    ensures ok { IfOk result (λ x. object_of part_keys (view value.now) ≡ Ok x) }
    ensures refused { IfErr result (FaultsAs (object_of part_keys (view value.now))) }
{
    object_of(alloc, value, &["name", "columns", "key", "part", "indexes"])
}

fn check_by_keys(alloc: Global, value: &Json) -> Result<(), ReadError>
    ensures ok { IfOk result (λ x. object_of by_keys (view value.now) ≡ Ok x) }
    ensures refused { IfErr result (FaultsAs (object_of by_keys (view value.now))) }
{
    object_of(alloc, value, &["name", "columns", "key", "by", "indexes"])
}

fn table_object(alloc: Global, value: &Json) -> Result<(), ReadError>
    ensures ok { IfOk result (λ x. table_object (view value.now) ≡ Ok x) }
    ensures refused { IfErr result (FaultsAs (table_object (view value.now))) }
{
    // A table has one placement: where `part` is there, `by` is a key that isn't allowed.
    if has_key(value, "part") {
        check_part_keys(alloc, value)
    } else {
        check_by_keys(alloc, value)
    }
}

/// A table.
#[derive(Drop)]
pub struct TableReader;

impl Reader for TableReader {
    type Read = TableOutline;

    ghost reading = { λ _. read_table };

    fn read(&self, alloc: Global, value: &Json) -> Result<TableOutline, ReadError> {
        table_object(alloc, value)?;
        let name = read_key(alloc, value, "name", &NameReader)?;
        let columns = read_key(alloc, value, "columns", &COLUMNS)?;
        let key = read_key(alloc, value, "key", &WORDS)?;
        let placement = read_placement(alloc, value)?;
        let indexes = read_key_or(alloc, value, "indexes", &INDEXES, Seq::new(alloc))?;
        Ok(TableOutline {
            name,
            columns,
            key,
            placement,
            indexes,
        })
    }
}

// ---- streams

/// A stream.
#[derive(Drop)]
pub struct StreamReader;

impl Reader for StreamReader {
    type Read = StreamOutline;

    ghost reading = { λ _. read_stream };

    fn read(&self, alloc: Global, value: &Json) -> Result<StreamOutline, ReadError> {
        object_of(alloc, value, &["name", "columns"])?;
        let name = read_key(alloc, value, "name", &NameReader)?;
        let columns = read_key(alloc, value, "columns", &COLUMNS)?;
        Ok(StreamOutline { name, columns })
    }
}

// ---- windows

fn unit_of(word: &str) -> Option<Unit>
    ensures { result ≡ unit_of word.now }
{
    if word == "rows" {
        Some(Unit::Rows)
    } else if word == "batches" {
        Some(Unit::Batches)
    } else {
        None
    }
}

fn unit_from(value: &Json) -> Option<Unit>
    ensures { result ≡ option_and_then unit_of (as_str (view value.now)) }
{
    match value.as_str() {
        Some(word) => unit_of(word),
        None => None,
    }
}

/// A window's unit.
#[derive(Drop)]
pub struct UnitReader;

impl Reader for UnitReader {
    type Read = Unit;

    ghost reading = { λ _. read_unit };

    fn read(&self, alloc: Global, value: &Json) -> Result<Unit, ReadError> {
        match unit_from(value) {
            Some(unit) => Ok(unit),
            None => Err(fault_here(alloc)),
        }
    }
}

/// The most units that a window shows.
const MAX_SIZE: u32 = 65_536;

/// A window.
#[derive(Drop)]
pub struct WindowReader;

impl Reader for WindowReader {
    type Read = WindowOutline;

    ghost reading = { λ _. read_window };

    fn read(&self, alloc: Global, value: &Json) -> Result<WindowOutline, ReadError> {
        object_of(
            alloc,
            value,
            &["name", "columns", "owner", "unit", "size", "slide"],
        )?;
        let name = read_key(alloc, value, "name", &NameReader)?;
        let columns = read_key(alloc, value, "columns", &COLUMNS)?;
        let owner = read_key(alloc, value, "owner", &WordReader)?;
        let unit = read_key(alloc, value, "unit", &UnitReader)?;
        let sizes = NumberBetween {
            low: 1,
            high: MAX_SIZE,
        };
        let size = read_key(alloc, value, "size", &sizes)?;
        // A greater slide would pass over units that the window never shows.
        let slides = NumberBetween { low: 1, high: size };
        let slide = read_key(alloc, value, "slide", &slides)?;
        Ok(WindowOutline {
            name,
            columns,
            owner,
            unit,
            size,
            slide,
        })
    }
}

// ---- triggers

/// A trigger.
#[derive(Drop)]
pub struct TriggerReader;

impl Reader for TriggerReader {
    type Read = TriggerOutline;

    ghost reading = { λ _. read_trigger };

    fn read(&self, alloc: Global, value: &Json) -> Result<TriggerOutline, ReadError> {
        object_of(alloc, value, &["name", "on", "sql"])?;
        let name = read_key(alloc, value, "name", &NameReader)?;
        let on = read_key(alloc, value, "on", &WordReader)?;
        let statements = read_key(alloc, value, "sql", &WORDS)?;
        Ok(TriggerOutline {
            name,
            on,
            statements,
        })
    }
}
