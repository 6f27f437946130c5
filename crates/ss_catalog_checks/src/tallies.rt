//! How many procedures emit to each stream and take it.
//!
//! All streams are counted together, in four passes over the procedures: counting each by itself would walk all bodies
//! once for each stream.

ghost use Rattle.std.specs.Prelude.{◌≡◌, ◌==◌, ◌<◌, ◌≤◌, ◌+◌, ◌^◌, ℕ, suc, length, IfOk, OnOk};
ghost use Rattle.std.specs.List.{list_any};
ghost use Rattle.ss_model.specs.Database.{emits_to, is_border_stream};
ghost use Rattle.ss_model.specs.Orders.{procedure_emits};
ghost use Rattle.ss_catalog_checks.specs.StreamEnds.{emitters, consumers, border_consumers, interior_consumers};
ghost use Rattle.ss_catalog_checks.specs.Tallies.{count_with, tally as noted, count_at, StayBelow, CountsAre, is_counted, procedure_takes, takers, CountsEnds};

use crate::procedures::is_interior;
use ss_model::{Catalog, ProcedureKind, Step};
use ss_value::{NoMemory, Seq};
use std::alloc::Global;

/// How many procedures are counted at a stream. `below` is the mark of the last one, which is its number plus 1. They are
/// counted in ascending order, so that a procedure which comes again has this mark and isn't counted twice.
#[derive(Clone, Copy)]
pub(crate) struct Count {
    pub count: usize,
    pub below: usize,
}

/// The kinds of procedures whose inputs are counted.
#[derive(Clone, Copy)]
enum Takers {
    All,
    Border,
    Interior,
}

/// How many procedures have an end at each stream: those that emit to it, and those that take it, all of them, the
/// border procedures and the interior ones. Past the end of a list none does.
#[derive(Drop)]
pub(crate) struct StreamEnds {
    pub emitters: Seq<Count>,
    pub consumers: Seq<Count>,
    pub border_consumers: Seq<Count>,
    pub interior_consumers: Seq<Count>,
}

/// Whether procedures of this kind are counted.
fn is_counted(kinds: Takers, kind: ProcedureKind) -> bool
    ensures { result ≡ is_counted kinds kind }
{
    match kinds {
        Takers::All => true,
        Takers::Border => kind.is_border(),
        Takers::Interior => is_interior(kind),
    }
}

/// What is counted at a stream.
fn count_at(tallies: &Seq<Count>, stream: usize) -> Count
    ensures { result ≡ count_at tallies.now stream }
{
    match tallies.get(stream) {
        Some(tally) => *tally,
        None => Count { count: 0, below: 0 },
    }
}

/// Extends the list by counts of 0 until it reaches this stream.
fn make_counts(tallies: &mut Seq<Count>, stream: usize) -> Result<(), NoMemory>
    ensures unchanged { OnOk result ((s : ℕ) → count_at tallies.new s ≡ count_at tallies.old s) }
    ensures ok { OnOk result (stream < length tallies.new) }
{
    'places: while tallies.len() <= stream {
        tallies.push(Count { count: 0, below: 0 })?;
    }
    Ok(())
}

/// Counts one more, unless the mark is counted already.
fn count_with(tally: Count, mark: usize) -> Count
    requires { tally.count ≤ tally.below }
    ensures { result ≡ count_with mark tally }
{
    if tally.below < mark {
        Count {
            count: tally.count + 1,
            below: mark,
        }
    } else {
        tally
    }
}

/// Counts the procedure with this mark at a stream.
fn count_at_stream(tallies: &mut Seq<Count>, stream: usize, mark: usize) -> Result<(), NoMemory>
    requires { StayBelow tallies.old }
    ensures { OnOk result ((s : ℕ) → count_at tallies.new s ≡ noted (s == stream) mark (count_at tallies.old s)) }
{
    make_counts(tallies, stream)?;
    let before = count_at(tallies, stream);
    let _before = tallies.put(stream, count_with(before, mark));
    Ok(())
}

/// Counts the procedure with this mark at the stream that a step emits to.
fn count_step(tallies: &mut Seq<Count>, step: &Step, mark: usize) -> Result<(), NoMemory>
    requires { StayBelow tallies.old }
    ensures { OnOk result ((s : ℕ) → count_at tallies.new s ≡ noted (emits_to s step.now) mark (count_at tallies.old s)) }
{
    match step {
        Step::Emit { stream, .. } => count_at_stream(tallies, usize::from(*stream), mark),
        Step::Sql(_) => Ok(()),
        Step::AbortIf { .. } => Ok(()),
        Step::ForEach { .. } => Ok(()),
        Step::Local { .. } => Ok(()),
        Step::Return(_) => Ok(()),
    }
}

/// Counts the procedure with this mark at the streams that its body emits to.
#[tactic(auto, using(crate::proofs::Noting::noted_twice))]
fn count_body(tallies: &mut Seq<Count>, body: &[Step], mark: usize) -> Result<(), NoMemory>
    requires { StayBelow tallies.old }
    ensures { OnOk result ((s : ℕ) → count_at tallies.new s ≡ noted (list_any (emits_to s) body.now) mark (count_at tallies.old s)) }
{
    for step in body {
        count_step(tallies, step, mark)?;
    }
    Ok(())
}

/// Counts the procedure with this mark at its inputs.
#[tactic(auto, using(crate::proofs::Noting::noted_twice))]
fn count_inputs(tallies: &mut Seq<Count>, inputs: &[u16], mark: usize) -> Result<(), NoMemory>
    requires { StayBelow tallies.old }
    ensures { OnOk result ((s : ℕ) → count_at tallies.new s ≡ noted (list_any (λ input. input == s) inputs.now) mark (count_at tallies.old s)) }
{
    for input in inputs {
        count_at_stream(tallies, usize::from(*input), mark)?;
    }
    Ok(())
}

/// Counts the procedure of this number at the streams that it emits to.
fn count_emits(
    tallies: &mut Seq<Count>,
    catalog: &Catalog,
    procedure: usize,
) -> Result<(), NoMemory>
    requires below { StayBelow tallies.old }
    requires next { procedure + 1 < 2 ^ 64 }
    ensures { OnOk result ((s : ℕ) → count_at tallies.new s ≡ noted (procedure_emits catalog.now procedure s) (suc procedure) (count_at tallies.old s)) }
{
    match catalog.procedures.get(procedure) {
        Some(found) => count_body(tallies, found.body.as_slice(), procedure + 1),
        None => Ok(()),
    }
}

/// Counts the procedure of this number at its inputs, if procedures of its kind are counted.
fn count_takes(
    tallies: &mut Seq<Count>,
    catalog: &Catalog,
    kinds: Takers,
    procedure: usize,
) -> Result<(), NoMemory>
    requires below { StayBelow tallies.old }
    requires next { procedure + 1 < 2 ^ 64 }
    ensures { OnOk result ((s : ℕ) → count_at tallies.new s ≡ noted (procedure_takes kinds catalog.now procedure s) (suc procedure) (count_at tallies.old s)) }
{
    match catalog.procedures.get(procedure) {
        Some(found) => {
            if is_counted(kinds, found.kind) {
                count_inputs(tallies, found.inputs.as_slice(), procedure + 1)
            } else {
                Ok(())
            }
        }
        None => Ok(()),
    }
}

/// How many procedures emit to each stream.
fn count_emitters(alloc: Global, catalog: &Catalog) -> Result<Seq<Count>, NoMemory>
    ensures { IfOk result (λ tallies. CountsAre (emitters catalog.now) tallies) }
{
    let mut tallies = Seq::new(alloc);
    for procedure in 0..catalog.procedures.len() {
        count_emits(&mut tallies, catalog, procedure)?;
    }
    Ok(tallies)
}

/// How many procedures of these kinds take each stream.
fn count_takers(alloc: Global, catalog: &Catalog, kinds: Takers) -> Result<Seq<Count>, NoMemory>
    ensures { IfOk result (λ tallies. CountsAre (takers kinds catalog.now) tallies) }
{
    let mut tallies = Seq::new(alloc);
    for procedure in 0..catalog.procedures.len() {
        count_takes(&mut tallies, catalog, kinds, procedure)?;
    }
    Ok(tallies)
}

/// The ends of all streams, each list up to the last stream that has such an end.
///
/// Linear in all bodies and inputs, and in the streams. Takes eight words a stream.
pub(crate) fn count_stream_ends(alloc: Global, catalog: &Catalog) -> Result<StreamEnds, NoMemory>
    ensures { IfOk result (λ ends. CountsEnds catalog.now ends) }
{
    let emitters = count_emitters(alloc, catalog)?;
    let consumers = count_takers(alloc, catalog, Takers::All)?;
    let border_consumers = count_takers(alloc, catalog, Takers::Border)?;
    let interior_consumers = count_takers(alloc, catalog, Takers::Interior)?;
    Ok(StreamEnds {
        emitters,
        consumers,
        border_consumers,
        interior_consumers,
    })
}

/// How many procedures emit to a stream.
pub(crate) fn emitters(catalog: &Catalog, ends: &StreamEnds, stream: usize) -> usize
    requires { CountsEnds catalog.now ends.now }
    ensures { result ≡ emitters catalog.now stream }
{
    count_at(&ends.emitters, stream).count
}

/// How many procedures take a stream.
pub(crate) fn consumers(catalog: &Catalog, ends: &StreamEnds, stream: usize) -> usize
    requires { CountsEnds catalog.now ends.now }
    ensures { result ≡ consumers catalog.now stream }
{
    count_at(&ends.consumers, stream).count
}

/// How many border procedures take a stream.
pub(crate) fn border_consumers(catalog: &Catalog, ends: &StreamEnds, stream: usize) -> usize
    requires { CountsEnds catalog.now ends.now }
    ensures { result ≡ border_consumers catalog.now stream }
{
    count_at(&ends.border_consumers, stream).count
}

/// How many interior procedures take a stream.
pub(crate) fn interior_consumers(catalog: &Catalog, ends: &StreamEnds, stream: usize) -> usize
    requires { CountsEnds catalog.now ends.now }
    ensures { result ≡ interior_consumers catalog.now stream }
{
    count_at(&ends.interior_consumers, stream).count
}

/// Whether a border procedure takes a stream.
pub(crate) fn is_border_stream(catalog: &Catalog, ends: &StreamEnds, stream: usize) -> bool
    requires { CountsEnds catalog.now ends.now }
    ensures { result ≡ is_border_stream catalog.now stream }
{
    border_consumers(catalog, ends, stream) > 0
}
