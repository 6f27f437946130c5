//! Streams of an image from bytes.

ghost use Rattle.std.specs.Prelude.{◌≡◌, ◌≤◌, length, map, nat_le, IfOk};
ghost use Rattle.std.specs.List.{range_with_len};
ghost use Rattle.ss_standing.specs.ImageForm.{most_of, number_where, rows_of, stream_at, stream_of};
ghost use Rattle.ss_standing.specs.Readers.{each};
ghost use Rattle.ss_snapshot.specs.ImageParts.{many_batches};
ghost use Rattle.ss_snapshot.specs.Parts.{Reads};
ghost use Rattle.ss_snapshot.specs.Streams.{as_kept};

use crate::reading::fields::{PartError, u16_in, u64_in};
use crate::reading::rows::rows_in;
use ss_model::Catalog;
use ss_value::{Rows, Schema, Seq};
use std::alloc::Global;

/// The most rows of a batch.
const BATCH_ROWS: u16 = 1024;

/// What an image has of a stream.
#[derive(Drop)]
pub(crate) struct KeptStream {
    /// How many batches it has had.
    pub had: u64,
    /// The number of the first kept one.
    pub first: u64,
    /// The batches from that one on.
    pub batches: Seq<Rows>,
}

/// The number of a batch's rows.
fn batch_rows_in(bytes: &[u8]) -> Result<(u16, &[u8]), PartError>
    ensures { Reads (λ x. (x.0, x.1.now)) result (number_where 2 (λ n. nat_le n 1024) bytes.now) }
{
    let (rows, rest) = u16_in(bytes)?;
    if rows > BATCH_ROWS {
        return Err(PartError::Foreign { left: bytes.len() });
    }
    Ok((rows, rest))
}

/// A batch: its rows behind their number. Linear in its bytes.
fn batch_in<'a>(
    alloc: Global,
    bytes: &'a [u8],
    schema: &Schema,
) -> Result<(Rows, &'a [u8]), PartError>
    ensures { Reads (λ x. (x.0, x.1.now)) result (rows_of 2 (λ n. nat_le n 1024) schema.now bytes.now) }
{
    let (rows, rest) = batch_rows_in(bytes)?;
    rows_in(alloc, rest, schema, u64::from(rows))
}

/// So many batches. Linear in their bytes.
fn batches_in<'a>(
    alloc: Global,
    bytes: &'a [u8],
    schema: &Schema,
    count: u64,
) -> Result<(Seq<Rows>, &'a [u8]), PartError>
    ensures { Reads (λ x. (x.0, x.1.now)) result (many_batches schema.now count bytes.now) }
{
    let mut batches = Seq::new(alloc);
    let mut rest = bytes;
    for _ in 0..count {
        let (batch, behind) = batch_in(alloc, rest, schema)?;
        if batches.push(batch).is_err() {
            return Err(PartError::NoMemory);
        }
        rest = behind;
    }
    Ok((batches, rest))
}

/// A number that is this one at most.
fn number_to(bytes: &[u8], most: u64) -> Result<(u64, &[u8]), PartError>
    ensures read { Reads (λ x. (x.0, x.1.now)) result (number_where 8 (λ n. nat_le n most) bytes.now) }
    ensures within { IfOk result (λ x. x.0 ≤ most) }
{
    let (number, rest) = u64_in(bytes)?;
    if number > most {
        return Err(PartError::Foreign { left: bytes.len() });
    }
    Ok((number, rest))
}

/// A stream that has had so many batches at most. Linear in its bytes.
fn stream_in<'a>(
    alloc: Global,
    bytes: &'a [u8],
    schema: &Schema,
    most: u64,
) -> Result<(KeptStream, &'a [u8]), PartError>
    ensures { Reads (λ x. (as_kept x.0, x.1.now)) result (stream_of most schema.now bytes.now) }
{
    let (had, rest) = number_to(bytes, most)?;
    let (first, rest) = number_to(rest, had)?;
    let (batches, rest) = batches_in(alloc, rest, schema, had - first)?;
    let read = KeptStream {
        had,
        first,
        batches,
    };
    Ok((read, rest))
}

/// The most batches that a stream may have had, where one may have had so many: one inside of a nest has had none. Linear in
/// the inner streams of all procedures.
fn most_of(catalog: &Catalog, stream: usize, most: u64) -> u64
    ensures { result ≡ most_of catalog.now most stream }
{
    if catalog.is_inner_stream(stream) {
        0
    } else {
        most
    }
}

/// The stream of this number, without columns past the end. Linear in its bytes and in the inner streams of all procedures.
fn stream_at_in<'a>(
    alloc: Global,
    bytes: &'a [u8],
    catalog: &Catalog,
    stream: usize,
    most: u64,
) -> Result<(KeptStream, &'a [u8]), PartError>
    ensures { Reads (λ x. (as_kept x.0, x.1.now)) result (stream_at catalog.now most stream bytes.now) }
{
    let most = most_of(catalog, stream, most);
    match catalog.streams.get(stream) {
        Some(def) => stream_in(alloc, bytes, &def.schema, most),
        None => {
            let none = Seq::new(alloc);
            stream_in(alloc, bytes, &none, most)
        }
    }
}

/// The streams of a catalogue, each of which has had so many batches at most, and none where it is inside of a nest. Linear in
/// their bytes, and for each stream in the inner streams of all procedures.
pub(crate) fn streams_in<'a>(
    alloc: Global,
    bytes: &'a [u8],
    catalog: &Catalog,
    most: u64,
) -> Result<(Seq<KeptStream>, &'a [u8]), PartError>
    ensures { Reads (λ x. (map as_kept x.0, x.1.now)) result (each (stream_at catalog.now most) (range_with_len 0 (length catalog.now.streams)) bytes.now) }
{
    let mut read = Seq::new(alloc);
    let mut rest = bytes;
    for stream in 0..catalog.streams.len() {
        let (kept, behind) = stream_at_in(alloc, rest, catalog, stream, most)?;
        if read.push(kept).is_err() {
            return Err(PartError::NoMemory);
        }
        rest = behind;
    }
    Ok((read, rest))
}
