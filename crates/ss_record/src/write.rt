//! Rows and entries to bytes.

ghost use Rattle.std.specs.Prelude.{◌≡◌, ◌∷◌, ◌++◌, ◌≤◌, ◌<◌, ◌+◌, ◌^◌, length, OnOk, OnErr, IfOk, IsTrue, All};
ghost use Rattle.std.specs.List.{flat_map};
ghost use Rattle.ss_record.specs.Numbers.{number_bytes};
ghost use Rattle.ss_record.specs.Spelling.{value_bytes, row_bytes, name_bytes, record_bytes, max_record};
ghost use Rattle.ss_value.specs.Words.{is_name};
ghost use Rattle.ss_record.specs.Bounds.{IsShort, IsRecordable, IsTypedValue, IsTypedRow, IsTyped};

use crate::numbers::{push_u16, push_u32, push_u64};
use ss_model::Entry;
use ss_value::{Name, NoMemory, Row, Rows, Value};
use std::alloc::Global;

/// Adds a value.
fn push_value(out: &mut Vec<u8>, value: &Value) -> Result<(), NoMemory>
    ensures spelled { OnOk result (out.new.items ≡ out.old.items ++ value_bytes value.now) }
    ensures long { OnOk result (length out.new.items ≤ length out.old.items + 257) }
    ensures typed { OnOk result (IsTypedValue value.now) }
{
    match value {
        Value::Int(n) => {
            out.push(0)?;
            push_u64(out, n.cast_unsigned())?;
            Ok(())
        }
        Value::Text(text) => {
            out.push(1)?;
            out.push(text.len() as u8)?;
            // As a `str`, since that tells that the bytes are UTF-8.
            out.extend_from_slice(text.as_str().as_bytes())?;
            Ok(())
        }
    }
}

/// Adds a row.
fn push_row(out: &mut Vec<u8>, row: &Row) -> Result<(), NoMemory>
    requires { IsShort row.now }
    ensures spelled { OnOk result (out.new.items ≡ out.old.items ++ row_bytes row.now) }
    ensures long { OnOk result (length out.new.items ≤ length out.old.items + 4113) }
    ensures typed { OnOk result (IsTypedRow row.now) }
{
    out.push(row.len() as u8)?;
    for value in row.as_slice() {
        push_value(out, value)?;
    }
    Ok(())
}

/// Adds a number of rows, and the rows.
fn push_rows(out: &mut Vec<u8>, rows: &Rows) -> Result<(), NoMemory>
    requires few { length rows.now ≤ 1024 }
    requires short { All IsShort rows.now }
    ensures spelled { OnOk result (out.new.items ≡ out.old.items ++ flat_map row_bytes rows.now) }
    ensures long { OnOk result (length out.new.items ≤ length out.old.items + 4211712) }
    ensures typed { OnOk result (All IsTypedRow rows.now) }
{
    for row in rows.as_slice() {
        push_row(out, row)?;
    }
    Ok(())
}

/// Adds a name.
fn push_name(out: &mut Vec<u8>, name: &Name) -> Result<(), NoMemory>
    ensures spelled { OnOk result (out.new.items ≡ out.old.items ++ name_bytes name.now) }
    ensures long { OnOk result (length out.new.items ≤ length out.old.items + 33) }
    ensures typed { OnOk result (IsTrue (is_name name.now)) }
{
    let bytes = name.as_bytes();
    out.push(bytes.len() as u8)?;
    out.extend_from_slice(bytes)?;
    Ok(())
}

/// Adds what the record of a client's entry begins with: its kind, the client, its index, and what it calls or feeds.
fn push_front(
    out: &mut Vec<u8>,
    kind: u8,
    client: u8,
    index: u64,
    target: u16,
) -> Result<(), NoMemory>
    ensures spelled { OnOk result (out.new.items ≡ out.old.items ++ kind ∷ client ∷ number_bytes 8 index ++ number_bytes 2 target) }
    ensures long { OnOk result (length out.new.items ≡ length out.old.items + 12) }
    ensures typed { OnOk result ((index < 2 ^ 64) × (target < 2 ^ 16)) }
{
    out.push(kind)?;
    out.push(client)?;
    push_u64(out, index)?;
    push_u16(out, target)?;
    Ok(())
}

/// Adds a batch: its source, its number there, and its rows.
fn push_batch(out: &mut Vec<u8>, source: &Name, seq: u64, rows: &Rows) -> Result<(), NoMemory>
    requires few { length rows.now ≤ 1024 }
    requires short { All IsShort rows.now }
    ensures spelled { OnOk result (out.new.items
        ≡ out.old.items ++ name_bytes source.now ++ number_bytes 8 seq ++ number_bytes 2 (length rows.now) ++ flat_map row_bytes rows.now) }
    ensures long { OnOk result (length out.new.items ≤ length out.old.items + 4211755) }
    ensures typed { OnOk result (IsTrue (is_name source.now) × All IsTypedRow rows.now) }
{
    push_name(out, source)?;
    push_u64(out, seq)?;
    push_u16(out, rows.len() as u16)?;
    push_rows(out, rows)?;
    Ok(())
}

/// Adds an entry. Where memory is wanting it may leave a part of it.
fn push_entry(out: &mut Vec<u8>, entry: &Entry) -> Result<(), NoMemory>
    requires { IsRecordable entry.now }
    ensures spelled { OnOk result (out.new.items ≡ out.old.items ++ record_bytes entry.now) }
    ensures long { OnOk result (length out.new.items ≤ length out.old.items + max_record) }
    ensures typed { OnOk result (IsTyped entry.now) }
{
    match entry {
        Entry::Call {
            client,
            index,
            procedure,
            args,
        } => {
            push_front(out, 1, *client, *index, *procedure)?;
            push_row(out, args)?;
        }
        Entry::Push {
            client,
            index,
            stream,
            source,
            seq,
            rows,
        } => {
            push_front(out, 2, *client, *index, *stream)?;
            push_batch(out, source, *seq, rows)?;
        }
        Entry::Step { procedure, batch } => {
            out.push(3)?;
            push_u16(out, *procedure)?;
            push_u64(out, *batch)?;
        }
        Entry::Install {
            client,
            index,
            procedure,
            text,
        } => {
            push_front(out, 4, *client, *index, *procedure)?;
            push_u32(out, text.len() as u32)?;
            out.extend_from_slice(text.as_slice())?;
        }
    }
    Ok(())
}

/// Appends a row, and leaves the bytes as they were where memory is wanting. Linear in the row's bytes, of which there is
/// one copy.
pub fn encode_row(alloc: Global, row: &Row, out: &mut Vec<u8>) -> Result<(), NoMemory>
    requires { IsShort row.now }
    ensures ok { OnOk result (out.new.items ≡ out.old.items ++ row_bytes row.now) }
    ensures err { OnErr result (out.new.items ≡ out.old.items) }
    ensures typed { OnOk result (IsTypedRow row.now) }
{
    let mut bytes = Vec::new(alloc);
    push_row(&mut bytes, row)?;
    out.extend_from_slice(bytes.as_slice())?;
    Ok(())
}

/// The record of an entry. Linear in its bytes.
///
/// It tells that what has a record is `IsTyped`, and so that the record is read again as this very entry, instead of
/// asking for it: to contracts an index is any number and a text any list of bytes, and an index of 2^64 would be
/// spelled as 0, so that two entries had one record. The types keep it, and no caller has to carry it. For that each
/// text is checked again to be UTF-8, at the price of one more pass over its 255 bytes at most.
#[tactic(auto, using(crate::proofs::Records::some_bytes))]
pub fn record_of(alloc: Global, entry: &Entry) -> Result<Vec<u8>, NoMemory>
    requires { IsRecordable entry.now }
    ensures spelled { IfOk result (λ bytes. bytes.items ≡ record_bytes entry.now) }
    ensures long { IfOk result (λ bytes. length bytes.items ≤ max_record) }
    ensures some { IfOk result (λ bytes. 0 < length bytes.items) }
    ensures typed { IfOk result (λ bytes. IsTyped entry.now) }
{
    let mut record = Vec::new(alloc);
    push_entry(&mut record, entry)?;
    Ok(record)
}

/// Appends the record of an entry, and leaves the bytes as they were where memory is wanting. Linear in the record's bytes,
/// of which there is one copy.
pub fn write_record(alloc: Global, entry: &Entry, out: &mut Vec<u8>) -> Result<(), NoMemory>
    requires { IsRecordable entry.now }
    ensures ok { OnOk result (out.new.items ≡ out.old.items ++ record_bytes entry.now) }
    ensures err { OnErr result (out.new.items ≡ out.old.items) }
    ensures typed { OnOk result (IsTyped entry.now) }
{
    let record = record_of(alloc, entry)?;
    out.extend_from_slice(record.as_slice())?;
    Ok(())
}
