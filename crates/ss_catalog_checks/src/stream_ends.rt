//! The ends of streams: which procedures emit to them and which take them.

ghost use Rattle.std.specs.Prelude.{◌≡◌, ◌==◌, not, slice_get, length, IfOk};
ghost use Rattle.std.specs.List.{filter_map, flat_map, find, range_with_len};
ghost use Rattle.ss_model.specs.Settling.{procedure_numbers};
ghost use Rattle.ss_catalog_checks.specs.StreamEnds.{ListsEmitters, ends_badly, refuses_triggers, awaited_stream, workflow_of, foreign_inputs, refused_stream};
ghost use Rattle.ss_catalog_checks.specs.Tallies.{CountsEnds};

use crate::tallies::{
    StreamEnds, border_consumers, consumers, count_stream_ends, emitters, interior_consumers,
    is_border_stream,
};
use crate::workflows::{border_stream, first_emitters, workflow_of};
use ss_model::{Catalog, On};
use ss_value::{NoMemory, Seq};
use std::alloc::Global;

/// Whether the ends of a stream are neither those of a border stream nor those of a stream inside a workflow.
#[tactic(auto, unfolding(crate::specs::StreamEnds::ends_badly))]
fn ends_badly(catalog: &Catalog, ends: &StreamEnds, stream: usize) -> bool
    requires { CountsEnds catalog.now ends.now }
    ensures { result ≡ ends_badly catalog.now stream }
{
    let emitters = emitters(catalog, ends, stream);
    let consumers = consumers(catalog, ends, stream);
    let at_border = emitters == 0 && consumers == 1 && border_consumers(catalog, ends, stream) == 1;
    let inside = emitters == 1
        && consumers >= 1
        && interior_consumers(catalog, ends, stream) == consumers;
    !(at_border || inside)
}

/// The first stream with bad ends.
fn stream_with_bad_ends(catalog: &Catalog, ends: &StreamEnds) -> Option<usize>
    requires { CountsEnds catalog.now ends.now }
    ensures { result ≡ find (ends_badly catalog.now) (range_with_len 0 (length catalog.now.streams)) }
{
    (0..catalog.streams.len()).find(|stream| ends_badly(catalog, ends, *stream))
}

/// Whether a trigger may not wait for a stream: it is a border stream, or nothing emits to it.
fn refuses_triggers(catalog: &Catalog, ends: &StreamEnds, stream: usize) -> bool
    requires { CountsEnds catalog.now ends.now }
    ensures { result ≡ refuses_triggers catalog.now stream }
{
    is_border_stream(catalog, ends, stream) || emitters(catalog, ends, stream) == 0
}

/// The stream that a trigger waits for.
fn awaited_stream(on: On) -> Option<usize>
    ensures { result ≡ awaited_stream on }
{
    match on {
        On::Stream(stream) => Some(usize::from(stream)),
        On::Window(_) => None,
    }
}

/// The first stream that a trigger waits for but may not.
fn stream_with_bad_trigger(catalog: &Catalog, ends: &StreamEnds) -> Option<usize>
    requires { CountsEnds catalog.now ends.now }
    ensures { result ≡ find (refuses_triggers catalog.now) (filter_map (λ t. awaited_stream t.on) catalog.now.triggers) }
{
    catalog
        .triggers
        .as_slice()
        .iter()
        .filter_map(|trigger| awaited_stream(trigger.on))
        .find(|stream| refuses_triggers(catalog, ends, *stream))
}

/// The first of these inputs that belongs to another workflow than this one. A workflow is known by its border stream.
fn foreign_among(
    catalog: &Catalog,
    ends: &StreamEnds,
    emitters: &Seq<Option<usize>>,
    workflow: usize,
    inputs: &[u16],
) -> Option<usize>
    requires ends { CountsEnds catalog.now ends.now }
    requires emitters { ListsEmitters catalog.now emitters.now }
    ensures { result ≡ find (λ s. not (workflow_of catalog.now s == workflow)) inputs.now }
{
    inputs.iter().map(|input| usize::from(*input)).find(|input| workflow_of(
        catalog, ends, emitters, *input,
    ) != workflow)
}

/// The first input of a procedure that belongs to another workflow than the procedure.
fn foreign_input(
    catalog: &Catalog,
    ends: &StreamEnds,
    emitters: &Seq<Option<usize>>,
    procedure: usize,
) -> Option<usize>
    requires ends { CountsEnds catalog.now ends.now }
    requires emitters { ListsEmitters catalog.now emitters.now }
    ensures { result ≡ slice_get (foreign_inputs catalog.now procedure) 0 }
{
    match catalog.procedures.get(procedure) {
        Some(found) => foreign_among(
            catalog,
            ends,
            emitters,
            border_stream(catalog, emitters, procedure),
            found.inputs.as_slice(),
        ),
        None => None,
    }
}

/// The first input, by procedures, that belongs to another workflow than its procedure.
fn input_of_other_workflow(
    catalog: &Catalog,
    ends: &StreamEnds,
    emitters: &Seq<Option<usize>>,
) -> Option<usize>
    requires ends { CountsEnds catalog.now ends.now }
    requires emitters { ListsEmitters catalog.now emitters.now }
    ensures { result ≡ slice_get (flat_map (foreign_inputs catalog.now) (procedure_numbers catalog.now)) 0 }
{
    for procedure in 0..catalog.procedures.len() {
        match foreign_input(catalog, ends, emitters, procedure) {
            Some(stream) => return Some(stream),
            None => {}
        }
    }
    None
}

/// The first stream that is refused, and None where there is none.
///
/// Goes first by streams: a border stream has no emitter and one consumer, a border procedure; every other stream has
/// one emitter and one or more consumers, all interior procedures. Then by triggers: none waits for a border stream or
/// for a stream that nothing emits to. Then by procedures and their inputs: each input is of the procedure's workflow,
/// which is that of its first input.
///
/// Linear in all bodies and inputs, in the streams and in the triggers; and for each procedure and each input linear
/// in the procedures on the way up to the border stream. Takes ten words a stream.
///
/// Source: workflows of S-Store (Meehan et al., PVLDB 8, 2015), section 2.
pub fn refused_stream(alloc: Global, catalog: &Catalog) -> Result<Option<usize>, NoMemory>
    ensures { IfOk result (λ found. found ≡ refused_stream catalog.now) }
{
    let ends = count_stream_ends(alloc, catalog)?;
    match stream_with_bad_ends(catalog, &ends) {
        Some(stream) => return Ok(Some(stream)),
        None => {}
    }
    match stream_with_bad_trigger(catalog, &ends) {
        Some(stream) => return Ok(Some(stream)),
        None => {}
    }
    // Only the way up to a border stream asks which procedure emits; the ends before ask how many do.
    let emitters = first_emitters(alloc, catalog)?;
    Ok(input_of_other_workflow(catalog, &ends, &emitters))
}
