//! Records at their bounds.

ghost use Rattle.ss_record.specs.Bounds.{IsRecordable};

use crate::words::{bytes_of, said};
use ss_case_files::Wrong;
use ss_model::Entry;
use ss_record::{RecordError, read_record, write_record};
use std::alloc::Global;

/// Whether the record of an entry is so many bytes, and in front of these.
fn is_in_front(alloc: Global, entry: &Entry, taken: usize, bytes: &[u8]) -> Result<bool, Wrong>
    requires { IsRecordable entry.now }
{
    let mut again = Vec::new(alloc);
    write_record(alloc, entry, &mut again)?;
    Ok(again.len() == taken && bytes.starts_with(again.as_slice()))
}

/// What an entry is, with the number of its values, its rows or its text's bytes, and the number of bytes that it takes.
fn words_of(alloc: Global, entry: &Entry, taken: usize) -> Result<String, Wrong> {
    let (kind, count) = match entry {
        Entry::Call { args, .. } => ("call", args.len()),
        Entry::Push { rows, .. } => ("push", rows.len()),
        Entry::Install { text, .. } => ("install", text.len()),
        Entry::Step { .. } => return Ok(format!(in alloc; "step in {taken}")?),
    };
    Ok(format!(in alloc; "{kind} of {count} in {taken}")?)
}

/// What an entry is that was read in front of bytes. It is written again, and has to give the same bytes.
fn words_of_read(alloc: Global, entry: &Entry, taken: usize, bytes: &[u8]) -> Result<String, Wrong>
    requires { IsRecordable entry.now }
{
    if is_in_front(alloc, entry, taken, bytes)? {
        return words_of(alloc, entry, taken);
    }
    Err(Wrong::text(alloc, "written otherwise"))
}

/// What is read in front of bytes, with the number of bytes that it takes, or why nothing is.
pub fn answer_of(alloc: Global, given: &str) -> Result<String, Wrong> {
    let bytes = bytes_of(alloc, given)?;
    let bytes = bytes.as_slice();
    let refused = match read_record(alloc, bytes) {
        Ok((entry, taken)) => return words_of_read(alloc, &entry, taken, bytes),
        Err(RecordError::NoMemory) => return Err(Wrong::NoMemory),
        Err(RecordError::Truncated) => "truncated",
        Err(RecordError::BadKind) => "bad kind",
        Err(RecordError::BadField) => "bad field",
    };
    said(alloc, refused)
}
