//! The workflows that streams and procedures belong to.

ghost use Rattle.std.specs.Prelude.{◌≡◌, ◌==◌, ◌<◌, ℕ, cond, Some, None, get_or, length, slice_get, unwrap_or, IfOk, OnOk};
ghost use Rattle.std.specs.List.{list_any};
ghost use Rattle.ss_model.specs.Database.{emits_to, is_border};
ghost use Rattle.ss_model.specs.Orders.{procedure_has, procedure_emits};
ghost use Rattle.ss_model.specs.Settling.{first_input, border_stream_from, border_stream};
ghost use Rattle.ss_catalog_checks.specs.StreamEnds.{ListsEmitters, NotesAt, workflow_of};
ghost use Rattle.ss_catalog_checks.specs.Tallies.{CountsEnds};

use crate::tallies::{StreamEnds, is_border_stream};
use ss_model::{Catalog, Step};
use ss_value::{NoMemory, Seq};
use std::alloc::Global;

/// Whether a procedure is a border procedure.
fn is_border_procedure(catalog: &Catalog, procedure: usize) -> bool
    ensures { result ≡ procedure_has (λ p. is_border p.kind) (slice_get catalog.now.procedures procedure) }
{
    match catalog.procedures.get(procedure) {
        Some(procedure) => procedure.kind.is_border(),
        None => false,
    }
}

/// The first input of a procedure, and 0 where it has none.
fn first_input(catalog: &Catalog, procedure: usize) -> usize
    ensures { result ≡ first_input catalog.now procedure }
{
    match catalog.procedures.get(procedure) {
        Some(procedure) => match procedure.inputs.get(0) {
            Some(input) => usize::from(*input),
            None => 0,
        },
        None => 0,
    }
}

/// Extends the list by None until it reaches this stream.
fn extend_to(emitters: &mut Seq<Option<usize>>, stream: usize) -> Result<(), NoMemory>
    ensures unchanged { OnOk result ((s : ℕ) → get_or emitters.new s None ≡ get_or emitters.old s None) }
    ensures ok { OnOk result (stream < length emitters.new) }
{
    'places: while emitters.len() <= stream {
        emitters.push(None)?;
    }
    Ok(())
}

/// Puts a procedure at a stream, over the one that is there.
fn set_emitter(
    emitters: &mut Seq<Option<usize>>,
    stream: usize,
    procedure: usize,
) -> Result<(), NoMemory>
    ensures { OnOk result ((s : ℕ) → get_or emitters.new s None ≡ cond (s == stream) (Some procedure) (get_or emitters.old s None)) }
{
    extend_to(emitters, stream)?;
    let _before = emitters.put(stream, Some(procedure));
    Ok(())
}

/// Puts a procedure at the stream that a step emits to.
fn set_step_emitters(
    emitters: &mut Seq<Option<usize>>,
    step: &Step,
    procedure: usize,
) -> Result<(), NoMemory>
    ensures { OnOk result ((s : ℕ) → get_or emitters.new s None ≡ cond (emits_to s step.now) (Some procedure) (get_or emitters.old s None)) }
{
    match step {
        Step::Emit { stream, .. } => set_emitter(emitters, usize::from(*stream), procedure),
        Step::Sql(_) => Ok(()),
        Step::AbortIf { .. } => Ok(()),
        Step::ForEach { .. } => Ok(()),
        Step::Local { .. } => Ok(()),
        Step::Return(_) => Ok(()),
    }
}

/// Puts a procedure at the streams that a body emits to.
fn set_body_emitters(
    emitters: &mut Seq<Option<usize>>,
    body: &[Step],
    procedure: usize,
) -> Result<(), NoMemory>
    ensures { OnOk result ((s : ℕ) → get_or emitters.new s None ≡ cond (list_any (emits_to s) body.now) (Some procedure) (get_or emitters.old s None)) }
{
    for step in body {
        set_step_emitters(emitters, step, procedure)?;
    }
    Ok(())
}

/// Puts the procedure of this number at the streams that it emits to.
fn set_procedure_emitters(
    emitters: &mut Seq<Option<usize>>,
    catalog: &Catalog,
    procedure: usize,
) -> Result<(), NoMemory>
    ensures { OnOk result (NotesAt (procedure_emits catalog.now procedure) procedure emitters.old emitters.new) }
{
    match catalog.procedures.get(procedure) {
        Some(found) => set_body_emitters(emitters, found.body.as_slice(), procedure),
        None => Ok(()),
    }
}

/// The first procedure that emits to each stream, up to the last that is emitted to.
///
/// Linear in all bodies and in the streams. Takes two words a stream.
pub(crate) fn first_emitters(
    alloc: Global,
    catalog: &Catalog,
) -> Result<Seq<Option<usize>>, NoMemory>
    ensures { IfOk result (λ emitters. ListsEmitters catalog.now emitters) }
{
    let mut emitters = Seq::new(alloc);
    // From the last procedure to the first, so that of several the first stays.
    for procedure in (0..catalog.procedures.len()).rev() {
        set_procedure_emitters(&mut emitters, catalog, procedure)?;
    }
    Ok(emitters)
}

/// The procedure at a stream in this list, and 0 where there is none.
fn emitting_procedure(emitters: &Seq<Option<usize>>, stream: usize) -> usize
    ensures { result ≡ unwrap_or (get_or emitters.now stream None) 0 }
{
    match emitters.get(stream) {
        Some(noted) => match noted {
            Some(procedure) => *procedure,
            None => 0,
        },
        None => 0,
    }
}

/// The border stream of a procedure's workflow: the way goes up the first inputs as far as a border procedure.
///
/// Linear in the procedures on the way.
pub(crate) fn border_stream(
    catalog: &Catalog,
    emitters: &Seq<Option<usize>>,
    procedure: usize,
) -> usize
    requires { ListsEmitters catalog.now emitters.now }
    ensures { result ≡ border_stream catalog.now procedure }
{
    let mut at = procedure;
    // A way without a cycle passes each procedure once at most; the bound ends it in any catalogue.
    for _ in 0..catalog.procedures.len() {
        if is_border_procedure(catalog, at) {
            return first_input(catalog, at);
        }
        at = emitting_procedure(emitters, first_input(catalog, at));
    }
    first_input(catalog, at)
}

/// The border stream of a stream's workflow. Linear in the procedures on the way.
pub(crate) fn workflow_of(
    catalog: &Catalog,
    ends: &StreamEnds,
    emitters: &Seq<Option<usize>>,
    stream: usize,
) -> usize
    requires ends { CountsEnds catalog.now ends.now }
    requires emitters { ListsEmitters catalog.now emitters.now }
    ensures { result ≡ workflow_of catalog.now stream }
{
    if is_border_stream(catalog, ends, stream) {
        return stream;
    }
    border_stream(catalog, emitters, emitting_procedure(emitters, stream))
}
