//! How many batches each procedure has taken, from bytes.

ghost use Rattle.std.specs.Prelude.{◌≡◌, ◌<◌, ◌+◌, ◌-◌, ◌++◌, ◌==◌, ◌∷◌, [], cond, length, map, min, slice_get, true};
ghost use Rattle.std.specs.List.{list_any, range_with_len};
ghost use Rattle.ss_model.specs.Database.{is_call};
ghost use Rattle.ss_model.specs.Orders.{procedure_emits, procedure_has, procedure_takes};
ghost use Rattle.ss_standing.specs.ImageForm.{counts_of, goes_with, implies, least_of, may_have_taken, number_where, takes_last};
ghost use Rattle.ss_snapshot.specs.Counts.{all_go_with, had_and_first};
ghost use Rattle.ss_snapshot.specs.Parts.{Reads};
ghost use Rattle.ss_snapshot.specs.Streams.{as_kept};

use crate::reading::fields::{PartError, u64_in};
use crate::reading::streams::KeptStream;
use ss_model::Catalog;
use ss_value::Seq;
use std::alloc::Global;

/// Whether a procedure emits to a stream, which none does past the end. Linear in its body.
fn emits(catalog: &Catalog, procedure: usize, stream: usize) -> bool
    ensures { result ≡ procedure_emits catalog.now procedure stream }
{
    match catalog.procedures.as_slice().get(procedure) {
        None => false,
        Some(emitter) => emitter.emits(stream),
    }
}

/// Whether a procedure takes a stream, which none does past the end. Linear in its inputs.
fn takes(catalog: &Catalog, procedure: usize, stream: usize) -> bool
    ensures { result ≡ procedure_takes catalog.now procedure stream }
{
    match catalog.procedures.as_slice().get(procedure) {
        None => false,
        Some(taker) => taker.takes(stream),
    }
}

/// Whether a procedure is called by clients, which none is past the end.
fn is_called(catalog: &Catalog, procedure: usize) -> bool
    ensures { result ≡ procedure_has (λ p. is_call p.kind) (slice_get catalog.now.procedures procedure) }
{
    match catalog.procedures.as_slice().get(procedure) {
        None => false,
        Some(called) => called.kind.is_call(),
    }
}

/// Whether a procedure behind this one takes a stream. Linear in their inputs.
fn taken_behind(catalog: &Catalog, procedure: usize, stream: usize) -> bool
    requires { procedure < length catalog.now.procedures }
    ensures { result ≡ list_any (λ p. procedure_takes catalog.now p stream) (range_with_len (procedure + 1) (length catalog.now.procedures - (procedure + 1))) }
{
    let count = catalog.procedures.len();
    (procedure + 1..count).any(|later| takes(catalog, later, stream))
}

/// Whether a procedure is the last one that takes a stream. Linear in the inputs of all behind it.
fn takes_last(catalog: &Catalog, procedure: usize, stream: usize) -> bool
    requires { procedure < length catalog.now.procedures }
    ensures { result ≡ takes_last catalog.now procedure stream }
{
    takes(catalog, procedure, stream) && !taken_behind(catalog, procedure, stream)
}

/// The least of this and of a procedure's count, where it takes the stream.
fn least_with(catalog: &Catalog, procedure: usize, stream: usize, least: u64, count: u64) -> u64
    ensures { result ≡ cond (procedure_takes catalog.now procedure stream) (min least count) least }
{
    if takes(catalog, procedure, stream) {
        least.min(count)
    } else {
        least
    }
}

/// The least of the first counts of those that take a stream, or how many batches it has had where that is less. Linear in
/// the inputs of these procedures.
fn least_of(catalog: &Catalog, stream: usize, had: u64, counts: &[u64]) -> u64
    ensures { result ≡ least_of catalog.now stream had counts.now }
{
    let mut least = had;
    for (procedure, count) in counts.iter().enumerate() {
        least = least_with(catalog, procedure, stream, least, *count);
    }
    least
}

/// How many batches a stream has had and which of them is the first kept one; 0 past the end.
fn had_and_first(streams: &[KeptStream], stream: usize) -> (u64, u64)
    ensures { result ≡ had_and_first (map as_kept streams.now) stream }
{
    match streams.get(stream) {
        None => (0, 0),
        Some(kept) => (kept.had, kept.first),
    }
}

/// Whether a stream's first kept batch goes with the count of the procedure behind those with the first counts: it is that of
/// the least count where the procedure is the last one that takes the stream.
#[tactic(auto, using(crate::proofs::LeastCounts::least_more))]
fn is_first_kept(
    catalog: &Catalog,
    stream: usize,
    had: u64,
    first: u64,
    count: u64,
    before: &[u64],
) -> bool
    requires there { length before.now < length catalog.now.procedures }
    requires taken { procedure_takes catalog.now (length before.now) stream ≡ true }
    ensures { result ≡ implies (takes_last catalog.now (length before.now) stream) (first == least_of catalog.now stream had (before.now ++ count ∷ [])) }
{
    if !takes_last(catalog, before.len(), stream) {
        return true;
    }
    first == least_of(catalog, stream, had, before).min(count)
}

/// Whether a stream goes with the count of the procedure behind those with the first counts. Linear in the procedure's steps
/// and inputs, and in the inputs of those behind it; for the last one that takes the stream, in those of all procedures.
fn goes_with(
    catalog: &Catalog,
    stream: usize,
    had: u64,
    first: u64,
    count: u64,
    before: &[u64],
) -> bool
    requires { length before.now < length catalog.now.procedures }
    ensures { result ≡ goes_with catalog.now stream (had, (first, [])) (length before.now) count (before.now ++ count ∷ []) }
{
    let procedure = before.len();
    if emits(catalog, procedure, stream) && had != count {
        return false;
    }
    if !takes(catalog, procedure, stream) {
        return true;
    }
    count <= had && is_first_kept(catalog, stream, had, first, count, before)
}

/// Whether each stream goes with the count of the procedure behind those with the first counts.
fn all_go_with(catalog: &Catalog, streams: &[KeptStream], before: &[u64], count: u64) -> bool
    requires { length before.now < length catalog.now.procedures }
    ensures { result ≡ all_go_with catalog.now (map as_kept streams.now) before.now count }
{
    (0..catalog.streams.len()).all(|stream| {
        let (had, first) = had_and_first(streams, stream);
        goes_with(catalog, stream, had, first, count, before)
    })
}

/// Whether the procedure behind those with the first counts may have taken so many batches.
fn may_have_taken(catalog: &Catalog, streams: &[KeptStream], before: &[u64], count: u64) -> bool
    requires { length before.now < length catalog.now.procedures }
    ensures { result ≡ may_have_taken catalog.now (map as_kept streams.now) before.now count }
{
    if is_called(catalog, before.len()) && count != 0 {
        return false;
    }
    all_go_with(catalog, streams, before, count)
}

/// The count of the procedure behind those with the first counts.
fn count_in<'a>(
    bytes: &'a [u8],
    catalog: &Catalog,
    streams: &[KeptStream],
    before: &[u64],
) -> Result<(u64, &'a [u8]), PartError>
    requires { length before.now < length catalog.now.procedures }
    ensures { Reads (λ x. (x.0, x.1.now)) result (number_where 8 (may_have_taken catalog.now (map as_kept streams.now) before.now) bytes.now) }
{
    let (count, rest) = u64_in(bytes)?;
    if !may_have_taken(catalog, streams, before, count) {
        return Err(PartError::Foreign { left: bytes.len() });
    }
    Ok((count, rest))
}

/// The counts of all procedures.
///
/// Each procedure is held against each stream, so the streams times the steps and the inputs of all procedures; and where a
/// procedure takes the stream, times those of the procedures behind it: 64 times 64 times 64 small steps at worst, where
/// each of 64 procedures takes each of 64 streams.
pub(crate) fn counts_in<'a>(
    alloc: Global,
    bytes: &'a [u8],
    catalog: &Catalog,
    streams: &[KeptStream],
) -> Result<(Seq<u64>, &'a [u8]), PartError>
    ensures { Reads (λ x. (x.0, x.1.now)) result (counts_of catalog.now (map as_kept streams.now) bytes.now) }
{
    let mut counts = Seq::new(alloc);
    let mut rest = bytes;
    for _ in 0..catalog.procedures.len() {
        let (count, behind) = count_in(rest, catalog, streams, counts.as_slice())?;
        if counts.push(count).is_err() {
            return Err(PartError::NoMemory);
        }
        rest = behind;
    }
    Ok((counts, rest))
}
