//! The sources of pushes, from bytes.

ghost use Rattle.std.specs.Prelude.{◌≡◌, ◌^◌, ◌&&◌, ◌≤◌, length, map, nat_le, IfErr, IfOk, OnOk, Some, None};
ghost use Rattle.std.specs.FinMap as finmap;
ghost use Rattle.std.specs.List.{range_with_len};
ghost use Rattle.std.specs.Option.{option_copied};
ghost use Rattle.std.specs.Ordering.{nat_cmp};
ghost use Rattle.std.specs.Cmp.Lexicographic.{slice_cmp};
ghost use Rattle.ss_record.specs.Records.{name_at};
ghost use Rattle.ss_cmdlog.specs.Reading.{as_field};
ghost use Rattle.ss_standing.specs.ImageForm.{number_where, source_above, sources_at, sources_of};
ghost use Rattle.ss_standing.specs.Readers.{each, is_above, made, passing};
ghost use Rattle.ss_shard.specs.Sources.{positive};
ghost use Rattle.ss_snapshot.specs.declared.reading.fields.PartError.TheVariants.{NoMemory};
ghost use Rattle.ss_snapshot.specs.Parts.{Reads, name_error};
ghost use Rattle.ss_snapshot.specs.Sources.{sources_above};

use crate::reading::fields::{PartError, u64_in};
use ss_model::Catalog;
use ss_record::RecordError;
use ss_shard::Sources;
use ss_value::{Name, Seq};
use std::alloc::Global;

/// The greatest number that a source's next push may have to carry.
const MOST_NEXT: u64 = 1 << 63;

/// The refusal of a name, which is one field.
fn refused_name(bytes: &[u8], refused: RecordError) -> PartError
    ensures { result ≡ name_error bytes.now refused }
{
    match refused {
        RecordError::NoMemory => PartError::NoMemory,
        RecordError::Truncated => PartError::Foreign { left: 0 },
        _ => PartError::Foreign { left: bytes.len() },
    }
}

/// A name, which is one field.
fn name_in(alloc: Global, bytes: &[u8]) -> Result<(Name, &[u8]), PartError>
    ensures { Reads (λ x. (x.0, x.1.now)) result (as_field bytes.now (name_at bytes.now)) }
{
    match ss_record::name_in(alloc, bytes) {
        Ok(name) => Ok(name),
        Err(refused) => Err(refused_name(bytes, refused)),
    }
}

/// Whether a name stands behind the last one, if there is one.
fn stands_above(last: Option<&Name>, name: &Name) -> bool
    ensures { result ≡ is_above (slice_cmp nat_cmp) (option_copied last.entry) name.now }
{
    match last {
        None => true,
        Some(last) => last.as_bytes().cmp(name.as_bytes()).is_lt(),
    }
}

/// A name that stands behind the last one, if there is one.
fn name_above_in<'a>(
    alloc: Global,
    bytes: &'a [u8],
    last: Option<&Name>,
) -> Result<(Name, &'a [u8]), PartError>
    ensures { Reads (λ x. (x.0, x.1.now)) result
        (passing (is_above (slice_cmp nat_cmp) (option_copied last.entry)) (λ bytes. as_field bytes (name_at bytes)) bytes.now) }
{
    let (name, rest) = name_in(alloc, bytes)?;
    if !stands_above(last, &name) {
        return Err(PartError::Foreign { left: bytes.len() });
    }
    Ok((name, rest))
}

/// The number that a source's next push has to carry.
fn next_number_in(bytes: &[u8]) -> Result<(u64, &[u8]), PartError>
    ensures read { Reads (λ x. (x.0, x.1.now)) result (number_where 8 (λ n. nat_le 1 n && nat_le n (2 ^ 63)) bytes.now) }
    ensures least { IfOk result (λ x. 1 ≤ x.0) }
{
    let (next, rest) = u64_in(bytes)?;
    if next == 0 || next > MOST_NEXT {
        return Err(PartError::Foreign { left: bytes.len() });
    }
    Ok((next, rest))
}

/// A source whose name stands behind the last one, if there is one, and its next number.
fn source_above_in<'a>(
    alloc: Global,
    bytes: &'a [u8],
    last: Option<&Name>,
) -> Result<((Name, u64), &'a [u8]), PartError>
    ensures read { Reads (λ x. (x.0, x.1.now)) result (source_above (option_copied last.entry) bytes.now) }
    ensures least { IfOk result (λ x. 1 ≤ x.0.1) }
{
    let (name, rest) = name_above_in(alloc, bytes, last)?;
    let (next, rest) = next_number_in(rest)?;
    Ok(((name, next), rest))
}

/// Puts a source with its next number beside others. Logarithmic, and a copy of the name.
#[tactic(auto, using(crate::proofs::SourcesRead::put_positive))]
fn put_source(
    alloc: Global,
    sources: &mut Sources,
    source: &Name,
    next: u64,
) -> Result<(), PartError>
    requires { 1 ≤ next }
    ensures put { OnOk result (positive sources.new ≡ finmap.insert (positive sources.old) source.now next) }
    ensures memory { IfErr result (λ e. e ≡ NoMemory) }
{
    if sources.add(alloc, source).is_err() {
        return Err(PartError::NoMemory);
    }
    sources.set(source, next);
    Ok(())
}

/// So many sources, each with its name behind the one before it. Linear in the bytes, and for each source logarithmic in those
/// before it.
fn sources_above_in<'a>(
    alloc: Global,
    bytes: &'a [u8],
    count: u64,
) -> Result<(Sources, &'a [u8]), PartError>
    ensures { Reads (λ x. (positive x.0, x.1.now)) result (made finmap.from_sorted (sources_above count) bytes.now) }
{
    let mut sources = Sources::new(alloc);
    let mut last = None;
    let mut rest = bytes;
    for _ in 0..count {
        let (source, behind) = source_above_in(alloc, rest, last.as_ref())?;
        let (name, next) = source;
        put_source(alloc, &mut sources, &name, next)?;
        last = Some(name);
        rest = behind;
    }
    Ok((sources, rest))
}

/// The sources of a stream: a border stream's behind their number, and none of another one.
#[tactic(auto, using(crate::proofs::SourcesRead::none_positive))]
fn stream_sources_in<'a>(
    alloc: Global,
    bytes: &'a [u8],
    catalog: &Catalog,
    stream: usize,
) -> Result<(Sources, &'a [u8]), PartError>
    ensures { Reads (λ x. (positive x.0, x.1.now)) result (sources_at catalog.now stream bytes.now) }
{
    if !catalog.is_border_stream(stream) {
        return Ok((Sources::new(alloc), bytes));
    }
    let (count, rest) = u64_in(bytes)?;
    sources_above_in(alloc, rest, count)
}

/// The sources of all streams, stream by stream.
///
/// Linear in the bytes, and for each source logarithmic in those of its stream; and for each stream linear in the inputs of
/// all procedures.
pub(crate) fn sources_in<'a>(
    alloc: Global,
    bytes: &'a [u8],
    catalog: &Catalog,
) -> Result<(Seq<Sources>, &'a [u8]), PartError>
    ensures { Reads (λ x. (map positive x.0, x.1.now)) result (each (sources_at catalog.now) (range_with_len 0 (length catalog.now.streams)) bytes.now) }
{
    let mut read = Seq::new(alloc);
    let mut rest = bytes;
    for stream in 0..catalog.streams.len() {
        let (sources, behind) = stream_sources_in(alloc, rest, catalog, stream)?;
        if read.push(sources).is_err() {
            return Err(PartError::NoMemory);
        }
        rest = behind;
    }
    Ok((read, rest))
}
