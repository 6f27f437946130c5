//! Which nests can't be joined: for their streams, their touch sets or their windows.

ghost use Rattle.std.specs.Prelude.{◌≡◌, ◌==◌, ◌&&◌, ◌<◌, not, length, slice_get};
ghost use Rattle.std.specs.List.{list_all, list_any, range_with_len};
ghost use Rattle.std.specs.Option.{option_copied};
ghost use Rattle.ss_model.specs.Bodies.{is_batches_unit};
ghost use Rattle.ss_model.specs.Nests.{members_emit, members_take};
ghost use Rattle.ss_model.specs.Orders.{procedure_emits, procedure_takes};
ghost use Rattle.ss_nest.specs.Joinable.{is_fed, is_fed_at, is_closed, others_take, is_shared, is_open, same_touch, touches, all_touch, has_two_touches, owns_batches, has_batches, open_nest, nest_of_two_touches, nest_with_batches};
ghost use Rattle.ss_nest.specs.Members.{stands_in};

use crate::twice::stands_in;
use ss_catalog::Catalog;
use ss_model::{Nest, Procedure, Touch, WindowDef};
use ss_value::Unit;

// ---- streams

/// Whether a procedure emits to a stream. Linear in its body.
fn procedure_emits(catalog: &Catalog, procedure: usize, stream: usize) -> bool
    ensures { result ≡ procedure_emits catalog.now procedure stream }
{
    match catalog.procedures.get(procedure) {
        Some(found) => found.emits(stream),
        None => false,
    }
}

/// Whether a procedure takes a stream.
fn procedure_takes(catalog: &Catalog, procedure: usize, stream: usize) -> bool
    ensures { result ≡ procedure_takes catalog.now procedure stream }
{
    match catalog.procedures.get(procedure) {
        Some(found) => found.takes(stream),
        None => false,
    }
}

/// Whether one of these emits to a stream. Linear in their bodies.
pub(crate) fn members_emit(catalog: &Catalog, members: &[u16], stream: usize) -> bool
    ensures { result ≡ members_emit catalog.now members.now stream }
{
    members.iter().any(|member| procedure_emits(catalog, usize::from(*member), stream))
}

/// Whether one of these takes a stream.
pub(crate) fn members_take(catalog: &Catalog, members: &[u16], stream: usize) -> bool
    ensures { result ≡ members_take catalog.now members.now stream }
{
    members.iter().any(|member| procedure_takes(catalog, usize::from(*member), stream))
}

/// Whether each of these inputs is emitted by one of these procedures. A function of its own, since the prover doesn't
/// find the walk inside an arm of a match.
fn all_emitted(catalog: &Catalog, before: &[u16], inputs: &[u16]) -> bool
    ensures { result ≡ list_all (members_emit catalog.now before.now) inputs.now }
{
    inputs
        .iter()
        .all(|input| members_emit(catalog, before, usize::from(*input)))
}

/// Whether each input of a procedure is emitted by one of these.
fn is_fed(catalog: &Catalog, before: &[u16], procedure: usize) -> bool
    ensures { result ≡ is_fed catalog.now before.now procedure }
{
    match catalog.procedures.get(procedure) {
        Some(found) => all_emitted(catalog, before, found.inputs.as_slice()),
        None => false,
    }
}

/// Whether each input of the member at this position is emitted by one of those before it.
fn is_fed_at(catalog: &Catalog, members: &[u16], position: usize) -> bool
    requires { position < length members.now }
    ensures { result ≡ is_fed_at catalog.now members.now position }
{
    is_fed(
        catalog,
        &members[..position],
        usize::from(members[position]),
    )
}

/// Whether this holds of all members behind the first.
#[tactic(auto, using(ss_lemmas::proofs::Firsts::range_on, ss_lemmas::proofs::Firsts::range_done))]
fn is_closed(catalog: &Catalog, members: &[u16]) -> bool
    ensures { result ≡ is_closed catalog.now members.now }
{
    for position in 1..members.len() {
        if !is_fed_at(catalog, members, position) {
            return false;
        }
    }
    true
}

/// Whether a procedure takes a stream and is none of these.
fn takes_outside(catalog: &Catalog, members: &[u16], stream: usize, procedure: usize) -> bool
    ensures { result ≡ (procedure_takes catalog.now procedure stream && not (stands_in members.now procedure)) }
{
    procedure_takes(catalog, procedure, stream) && !stands_in(members, procedure)
}

/// Whether a procedure that is none of these takes a stream.
fn others_take(catalog: &Catalog, members: &[u16], stream: usize) -> bool
    ensures { result ≡ others_take catalog.now members.now stream }
{
    (0..catalog.procedures.len()).any(|procedure| takes_outside(
        catalog, members, stream, procedure,
    ))
}

/// Whether a stream of a member has both members and others as consumers.
fn is_shared(catalog: &Catalog, members: &[u16], stream: usize) -> bool
    ensures { result ≡ is_shared catalog.now members.now stream }
{
    members_emit(catalog, members, stream)
        && members_take(catalog, members, stream)
        && others_take(catalog, members, stream)
}

/// Whether some stream is.
fn shares(catalog: &Catalog, members: &[u16]) -> bool
    ensures { result ≡ list_any (is_shared catalog.now members.now) (range_with_len 0 (length catalog.now.streams)) }
{
    (0..catalog.streams.len()).any(|stream| is_shared(catalog, members, stream))
}

/// Whether a later member takes what no earlier one emits, or a stream of a member is shared.
fn is_open(catalog: &Catalog, nest: &Nest) -> bool
    ensures { result ≡ is_open catalog.now nest.now }
{
    !is_closed(catalog, nest.members.as_slice()) || shares(catalog, nest.members.as_slice())
}

/// N4: the first nest that isn't closed. For each stream and each nest linear in the bodies.
pub(crate) fn open_nest<'a>(catalog: &Catalog, nests: &'a [Nest]) -> Option<&'a Nest>
    ensures { option_copied result ≡ open_nest catalog.now nests.now }
{
    nests.iter().find(|nest| is_open(catalog, nest))
}

// ---- touch sets

/// Whether two touch sets are written alike.
fn same_touch(one: &Touch, other: &Touch) -> bool
    ensures { result ≡ same_touch one.now other.now }
{
    match (one, other) {
        (Touch::Part(one), Touch::Part(other)) => *one == *other,
        (Touch::Arg(one), Touch::Arg(other)) => *one == *other,
        (Touch::Multi(one), Touch::Multi(other)) => one.as_slice() == other.as_slice(),
        (Touch::All, Touch::All) => true,
        _ => false,
    }
}

/// Whether a procedure has this touch set.
fn touches(catalog: &Catalog, touch: &Touch, procedure: usize) -> bool
    ensures { result ≡ touches catalog.now touch.now procedure }
{
    match catalog.procedures.get(procedure) {
        Some(found) => same_touch(&found.touch, touch),
        None => false,
    }
}

/// Whether these have the touch set of this procedure.
fn all_touch(catalog: &Catalog, members: &[u16], first: &Procedure) -> bool
    ensures { result ≡ list_all (touches catalog.now first.now.touch) members.now }
{
    members.iter().all(|member| touches(catalog, &first.touch, usize::from(*member)))
}

/// Whether members have not all the touch set of the first.
fn has_two_touches(catalog: &Catalog, nest: &Nest) -> bool
    ensures { result ≡ has_two_touches catalog.now nest.now }
{
    let first = match nest.members.get(0) {
        Some(first) => usize::from(*first),
        None => 0,
    };
    match catalog.procedures.get(first) {
        Some(first) => !all_touch(catalog, nest.members.as_slice(), first),
        None => true,
    }
}

/// N5: the first nest whose members have not all the same touch set. Linear in the nests' members and touch sets.
pub(crate) fn nest_of_two_touches<'a>(catalog: &Catalog, nests: &'a [Nest]) -> Option<&'a Nest>
    ensures { option_copied result ≡ nest_of_two_touches catalog.now nests.now }
{
    nests.iter().find(|nest| has_two_touches(catalog, nest))
}

// ---- windows

/// Whether a window is one of batches.
fn is_batches_unit(unit: Unit) -> bool
    ensures { result ≡ is_batches_unit unit }
{
    match unit {
        Unit::Rows => false,
        Unit::Batches => true,
    }
}

/// Whether a window is a procedure's, and of batches.
fn is_batches_of(window: &WindowDef, procedure: usize) -> bool
    ensures { result ≡ ((window.now.owner == procedure) && is_batches_unit window.now.unit) }
{
    usize::from(window.owner) == procedure && is_batches_unit(window.unit)
}

/// Whether a procedure owns a window of batches.
fn owns_batches(catalog: &Catalog, procedure: usize) -> bool
    ensures { result ≡ owns_batches catalog.now procedure }
{
    catalog
        .windows
        .as_slice()
        .iter()
        .any(|window| is_batches_of(window, procedure))
}

/// Whether a member does.
fn has_batches(catalog: &Catalog, nest: &Nest) -> bool
    ensures { result ≡ has_batches catalog.now nest.now }
{
    nest.members
        .as_slice()
        .iter()
        .any(|member| owns_batches(catalog, usize::from(*member)))
}

/// N6: the first nest of which a member owns a window of batches. Linear in the nests' members, times the windows.
pub(crate) fn nest_with_batches<'a>(catalog: &Catalog, nests: &'a [Nest]) -> Option<&'a Nest>
    ensures { option_copied result ≡ nest_with_batches catalog.now nests.now }
{
    nests.iter().find(|nest| has_batches(catalog, nest))
}
