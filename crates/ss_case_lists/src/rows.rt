//! Values, rows and batches that stand in JSON.

use serde_json::Value as Json;
use ss_case_files::Wrong;
use ss_value::{Row, Rows, Seq, Value, text_of as value_text};
use std::alloc::Global;

/// The JSON value of a text. Wrong where it is none.
pub fn json_of(alloc: Global, text: &str) -> Result<Json, Wrong> {
    match Json::from_str(alloc, text) {
        Ok(value) => Ok(value),
        Err(_) => Err(Wrong::text(alloc, "no JSON")),
    }
}

/// A value that stands in JSON.
fn value_of(alloc: Global, value: &Json) -> Result<Value, Wrong> {
    if let Some(number) = value.as_i64() {
        return Ok(Value::Int(number));
    }
    let text = value.as_str().unwrap_or("");
    match value_text(alloc, text.as_bytes()) {
        Ok(text) => Ok(Value::Text(text)),
        Err(_) => Err(Wrong::text(alloc, "no value")),
    }
}

/// The items of an array, and none of another value.
fn items_of(value: &Json) -> &[Json] {
    match value.as_array() {
        Some(items) => items.as_slice(),
        None => &[],
    }
}

/// A row that stands in JSON.
fn row_of(alloc: Global, value: &Json) -> Result<Row, Wrong> {
    let mut row = Seq::new(alloc);
    for item in items_of(value) {
        row.push(value_of(alloc, item)?)?;
    }
    Ok(row)
}

/// The rows of a batch that stand in JSON.
fn rows_of(alloc: Global, value: &Json) -> Result<Rows, Wrong> {
    let mut rows = Seq::new(alloc);
    for item in items_of(value) {
        rows.push(row_of(alloc, item)?)?;
    }
    Ok(rows)
}

/// The batches that stand in JSON.
fn batches_of(alloc: Global, value: &Json) -> Result<Seq<Rows>, Wrong> {
    let mut batches = Seq::new(alloc);
    for item in items_of(value) {
        batches.push(rows_of(alloc, item)?)?;
    }
    Ok(batches)
}

// ---- texts, whose values are let go by one call each

/// The row of a JSON text; empty where it is no array.
pub fn row_in(alloc: Global, text: &str) -> Result<Row, Wrong> {
    let value = json_of(alloc, text)?;
    let read = row_of(alloc, &value);
    drop(value);
    read
}

/// The rows of a JSON text; none where it is no array.
pub fn rows_in(alloc: Global, text: &str) -> Result<Rows, Wrong> {
    let value = json_of(alloc, text)?;
    let read = rows_of(alloc, &value);
    drop(value);
    read
}

/// The batches of a JSON text: arrays of rows, in an array. What is no array there has no items.
pub fn batches_in(alloc: Global, text: &str) -> Result<Seq<Rows>, Wrong> {
    let value = json_of(alloc, text)?;
    let read = batches_of(alloc, &value);
    drop(value);
    read
}
