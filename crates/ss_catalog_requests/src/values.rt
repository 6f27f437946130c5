//! The values of a request as JSON.
//!
//! A text over 255 bytes has the right shape (C11), and is refused only after the request's name was looked up (C13
//! after C12). So a value, a row or rows with such a text are read as None, and what comes behind is still read.

ghost use Rattle.std.specs.Prelude.{◌≡◌, Ok, IfOk, IfErr};
ghost use Rattle.serde_json.specs.View.{view, items_view};
ghost use Rattle.ss_catalog_json.specs.Readings.{FaultsAs};
ghost use Rattle.ss_catalog_requests.specs.Shape.{read_client, read_seq, read_any_array, short_text, read_value, with_another, all_items, read_all_of};

use serde_json::Value as Json;
use ss_catalog_json::{ReadError, Reader, fault_here, read_item};
use ss_value::{NoMemory, Seq, Value, ValueError, text_of};
use std::alloc::Global;

// ---- numbers

/// A client, from 0 to 7.
#[derive(Drop)]
pub struct ClientReader;

impl Reader for ClientReader {
    type Read = u8;

    ghost reading = { λ _. read_client };

    fn read(&self, alloc: Global, value: &Json) -> Result<u8, ReadError> {
        let Some(client) = value.as_u64() else {
            return Err(fault_here(alloc));
        };
        if client <= 7 {
            Ok(client as u8)
        } else {
            Err(fault_here(alloc))
        }
    }
}

/// The greatest Int.
const GREATEST: u64 = (1 << 63) - 1;

/// An Int of at least 0.
#[derive(Drop)]
pub struct SeqReader;

impl Reader for SeqReader {
    type Read = u64;

    ghost reading = { λ _. read_seq };

    fn read(&self, alloc: Global, value: &Json) -> Result<u64, ReadError> {
        let Some(number) = value.as_u64() else {
            return Err(fault_here(alloc));
        };
        if number <= GREATEST {
            Ok(number)
        } else {
            Err(fault_here(alloc))
        }
    }
}

// ---- arrays

/// An array, whatever its items are; they aren't read.
#[derive(Drop)]
pub struct AnyArrayReader;

impl Reader for AnyArrayReader {
    type Read = ();

    ghost reading = { λ _. read_any_array };

    fn read(&self, alloc: Global, value: &Json) -> Result<(), ReadError> {
        match value.as_array() {
            Some(_) => Ok(()),
            None => Err(fault_here(alloc)),
        }
    }
}

// ---- values

fn short_text(alloc: Global, text: &str) -> Result<Option<Value>, NoMemory>
    ensures { IfOk result (λ v. v ≡ short_text text.now) }
{
    match text_of(alloc, text.as_bytes()) {
        Ok(text) => Ok(Some(Value::Text(text))),
        Err(ValueError::TextTooLong) => Ok(None),
        Err(_) => Err(NoMemory),
    }
}

/// An Int, or a text, which is copied once; and None for a text over 255 bytes.
#[derive(Drop)]
pub struct ValueReader;

impl Reader for ValueReader {
    type Read = Option<Value>;

    ghost reading = { λ _. read_value };

    fn read(&self, alloc: Global, value: &Json) -> Result<Option<Value>, ReadError> {
        if let Some(number) = value.as_i64() {
            return Ok(Some(Value::Int(number)));
        }
        let Some(text) = value.as_str() else {
            return Err(fault_here(alloc));
        };
        let value = short_text(alloc, text)?;
        Ok(value)
    }
}

// ---- rows

fn with_another<T: Drop>(all: Option<Seq<T>>, more: Option<T>) -> Result<Option<Seq<T>>, NoMemory>
    ensures { IfOk result (λ w. w ≡ with_another all more) }
{
    let Some(mut all) = all else {
        return Ok(None);
    };
    let Some(more) = more else {
        return Ok(None);
    };
    all.push(more)?;
    Ok(Some(all))
}

fn read_all<T: Drop, R: Reader<Read = Option<T>>>(
    alloc: Global,
    reader: &R,
    items: &[Json],
) -> Result<Option<Seq<T>>, ReadError>
    ensures ok { IfOk result (λ all. all_items (R.reading reader.now) 0 (items_view items.now) ≡ Ok all) }
    ensures refused { IfErr result (FaultsAs (all_items (R.reading reader.now) 0 (items_view items.now))) }
{
    let mut all = Some(Seq::new(alloc));
    for (number, value) in items.iter().enumerate() {
        // Read also where `all` is None already, since a fault of any item goes before that.
        let read = read_item(alloc, number, reader, value)?;
        all = with_another(all, read)?;
    }
    Ok(all)
}

/// Each item of an array, and None where one of them is None. A fault of any item goes before that.
#[derive(Drop)]
pub struct AllOf<R> {
    /// How an item is read.
    pub of: R,
}

impl<T: Drop, R: Reader<Read = Option<T>>> Reader for AllOf<R> {
    type Read = Option<Seq<T>>;

    ghost reading = { λ a. read_all_of (R.reading a.of) };

    fn read(&self, alloc: Global, value: &Json) -> Result<Option<Seq<T>>, ReadError> {
        match value.as_array() {
            Some(items) => read_all(alloc, &self.of, items.as_slice()),
            None => Err(fault_here(alloc)),
        }
    }
}

/// A row, and None where it has a text over 255 bytes.
pub(crate) const ROW: AllOf<ValueReader> = AllOf { of: ValueReader };

/// Rows, and None where one of them has a text over 255 bytes.
pub(crate) const ROWS: AllOf<AllOf<ValueReader>> = AllOf { of: ROW };
