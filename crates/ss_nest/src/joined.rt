//! A catalogue with its nests joined: in the place of each nest's first member stands the nest, and its other members are gone.

ghost use Rattle.std.specs.Prelude.{◌≡◌, ◌==◌, ◌++◌, ◌&&◌, [], length, map, slice_get, IfOk, OnOk};
ghost use Rattle.std.specs.List.{filter, range_with_len};
ghost use Rattle.std.specs.Option.{option_copied};
ghost use Rattle.ss_model.specs.Results.{and_behind};
ghost use Rattle.ss_model.specs.Nests.{members_emit, members_take, moved_body, joined_body, inner_streams, nest_procedure, is_head, in_place, nested_procedures, text_in_place, nested_texts, stands_for, nested_number, nested_window, nested_catalog};
ghost use Rattle.ss_nest.specs.Moves.{has_member, nest_with};

use crate::joinable::{members_emit, members_take};
use crate::moved::{Moves, add_moved};
use crate::twice::stands_in;
use ss_catalog::Catalog;
use ss_model::{Nest, Procedure, Step, WindowDef};
use ss_value::{Copies, NoMemory, Seq};
use std::alloc::Global;

// ---- a nest's procedure

/// Whether a stream is one between these procedures.
fn is_between(catalog: &Catalog, members: &[u16], stream: usize) -> bool
    ensures { result ≡ (members_emit catalog.now members.now stream && members_take catalog.now members.now stream) }
{
    members_emit(catalog, members, stream) && members_take(catalog, members, stream)
}

/// The streams between these procedures, in rising order. For each stream linear in their bodies.
fn inner_streams(alloc: Global, catalog: &Catalog, members: &[u16]) -> Result<Seq<u16>, NoMemory>
    ensures { IfOk result (λ inner. inner ≡ inner_streams catalog.now members.now) }
{
    let mut inner = Seq::new(alloc);
    for stream in 0..catalog.streams.len() {
        if is_between(catalog, members, stream) {
            // In an accepted catalogue each number fits.
            let Ok(number) = u16::try_from(stream) else {
                return Err(NoMemory);
            };
            inner.push(number)?;
        }
    }
    Ok(inner)
}

/// What a nest reads: the inputs of its first member, and behind them its inner streams.
fn streams_read(alloc: Global, inputs: &Seq<u16>, inner: &[u16]) -> Result<Seq<u16>, NoMemory>
    ensures { IfOk result (λ reads. reads ≡ and_behind inputs.now inner.now) }
{
    let mut reads = inputs.duplicate(alloc)?;
    for stream in inner {
        reads.push(*stream)?;
    }
    Ok(reads)
}

/// Adds the body of a member to that of its nest, which reads these streams, of which these are the inner ones.
fn add_member(
    alloc: Global,
    catalog: &Catalog,
    reads: &[u16],
    inner: &[u16],
    member: u16,
    joined: &mut Seq<Step>,
) -> Result<(), NoMemory>
    ensures { OnOk result (joined.new ≡ joined.old ++ moved_body reads.now inner.now (slice_get catalog.now.procedures member)) }
{
    match catalog.procedures.get(usize::from(member)) {
        Some(found) => {
            let moves = Moves::of(alloc, reads, found.inputs.as_slice())?;
            add_moved(alloc, &moves, inner, found.body.as_slice(), joined)
        }
        None => Ok(()),
    }
}

/// The bodies of members, one behind another. Linear in them.
fn joined_body(
    alloc: Global,
    catalog: &Catalog,
    reads: &[u16],
    inner: &[u16],
    members: &[u16],
) -> Result<Seq<Step>, NoMemory>
    ensures { IfOk result (λ body. body ≡ joined_body catalog.now reads.now inner.now members.now) }
{
    let mut joined = Seq::new(alloc);
    for member in members {
        add_member(alloc, catalog, reads, inner, *member, &mut joined)?;
    }
    Ok(joined)
}

/// The procedure of a nest with this first member: it has the nest's name, the streams between members as inner ones, all
/// members' bodies, and else what the first member has.
fn nest_procedure(
    alloc: Global,
    catalog: &Catalog,
    nest: &Nest,
    first: &Procedure,
) -> Result<Procedure, NoMemory>
    ensures { IfOk result (λ joined. joined ≡ nest_procedure catalog.now nest.now first.now) }
{
    let members = nest.members.as_slice();
    let inner = inner_streams(alloc, catalog, members)?;
    let reads = streams_read(alloc, &first.inputs, inner.as_slice())?;
    let body = joined_body(alloc, catalog, reads.as_slice(), inner.as_slice(), members)?;
    Ok(Procedure {
        name: nest.name.duplicate(alloc)?,
        kind: first.kind,
        args: first.args.duplicate(alloc)?,
        inputs: first.inputs.duplicate(alloc)?,
        inner,
        touch: first.touch.duplicate(alloc)?,
        body,
    })
}

// ---- places

/// Whether a procedure is a member of a nest.
fn has_member(nest: &Nest, procedure: usize) -> bool
    ensures { result ≡ has_member procedure nest.now }
{
    stands_in(nest.members.as_slice(), procedure)
}

/// The nest that a procedure is in.
fn nest_with(nests: &[Nest], procedure: usize) -> Option<&Nest>
    ensures { option_copied result ≡ nest_with nests.now procedure }
{
    nests.iter().find(|nest| has_member(nest, procedure))
}

/// Whether a procedure is the first member of a nest.
fn is_head(nest: &Nest, procedure: usize) -> bool
    ensures { result ≡ is_head procedure nest.now.members }
{
    match nest.members.get(0) {
        Some(head) => usize::from(*head) == procedure,
        None => false,
    }
}

/// Adds what stands in the place of a procedure: the nest that it begins, nothing where it is another member, or else a
/// copy of it.
#[tactic(auto, using(crate::proofs::Places::in_place_of))]
fn add_in_place(
    alloc: Global,
    catalog: &Catalog,
    nests: &[Nest],
    number: usize,
    procedure: &Procedure,
    all: &mut Seq<Procedure>,
) -> Result<(), NoMemory>
    ensures { OnOk result (all.new ≡ all.old ++ in_place catalog.now nests.now number procedure.now) }
{
    match nest_with(nests, number) {
        Some(nest) => {
            if is_head(nest, number) {
                let joined = nest_procedure(alloc, catalog, nest, procedure)?;
                all.push(joined)?;
            }
            Ok(())
        }
        None => {
            let copy = procedure.duplicate(alloc)?;
            all.push(copy)?;
            Ok(())
        }
    }
}

/// The procedures with the nests joined. Linear in the catalogue, but for the walks over nests.
#[tactic(auto, using(crate::proofs::Places::items_next))]
fn nested_procedures(
    alloc: Global,
    catalog: &Catalog,
    nests: &[Nest],
) -> Result<Seq<Procedure>, NoMemory>
    ensures { IfOk result (λ all. all ≡ nested_procedures catalog.now nests.now 0 catalog.now.procedures) }
{
    let mut all = Seq::new(alloc);
    for (number, procedure) in catalog.procedures.as_slice().iter().enumerate() {
        add_in_place(alloc, catalog, nests, number, procedure, &mut all)?;
    }
    Ok(all)
}

/// Adds the text that stands in the place of a procedure's own one: a nest's is empty.
#[tactic(auto, using(crate::proofs::Places::text_in_place_of))]
fn add_text(
    alloc: Global,
    nests: &[Nest],
    number: usize,
    text: &Seq<u8>,
    all: &mut Seq<Seq<u8>>,
) -> Result<(), NoMemory>
    ensures { OnOk result (all.new ≡ all.old ++ text_in_place nests.now number text.now) }
{
    match nest_with(nests, number) {
        Some(nest) => {
            if is_head(nest, number) {
                all.push(Seq::new(alloc))?;
            }
            Ok(())
        }
        None => {
            let copy = text.duplicate(alloc)?;
            all.push(copy)?;
            Ok(())
        }
    }
}

/// The texts of the procedures' own bodies with the nests joined. Linear in them.
#[tactic(auto, using(crate::proofs::Places::items_next))]
fn nested_texts(alloc: Global, nests: &[Nest], texts: &[Seq<u8>]) -> Result<Seq<Seq<u8>>, NoMemory>
    ensures { IfOk result (λ all. all ≡ nested_texts nests.now 0 texts.now) }
{
    let mut all = Seq::new(alloc);
    for (number, text) in texts.iter().enumerate() {
        add_text(alloc, nests, number, text, &mut all)?;
    }
    Ok(all)
}

// ---- windows

/// The procedure that stands for one: the first member of its nest, or else itself.
#[tactic(auto, using(crate::proofs::Places::stands_for_by))]
fn stands_for(nests: &[Nest], procedure: usize) -> usize
    ensures { result ≡ stands_for nests.now procedure }
{
    match nest_with(nests, procedure) {
        Some(nest) => match nest.members.get(0) {
            Some(head) => usize::from(*head),
            None => procedure,
        },
        None => procedure,
    }
}

/// Whether a procedure stands for itself.
fn stands_there(nests: &[Nest], procedure: usize) -> bool
    ensures { result ≡ (stands_for nests.now procedure == procedure) }
{
    stands_for(nests, procedure) == procedure
}

/// The number that a procedure has with the nests joined: how many that stand for themselves stand before the one that
/// stands for it.
fn nested_number(nests: &[Nest], procedure: usize) -> usize
    ensures { result ≡ nested_number nests.now procedure }
{
    let mut before = 0;
    for number in 0..stands_for(nests, procedure) {
        if stands_there(nests, number) {
            before += 1;
        }
    }
    before
}

/// A copy of a window, of which a nest is the owner where a member was.
fn nested_window(alloc: Global, nests: &[Nest], window: &WindowDef) -> Result<WindowDef, NoMemory>
    ensures { IfOk result (λ moved. moved ≡ nested_window nests.now window.now) }
{
    // No number is above the old one.
    let Ok(owner) = u16::try_from(nested_number(nests, usize::from(window.owner))) else {
        return Err(NoMemory);
    };
    let mut moved = window.duplicate(alloc)?;
    moved.owner = owner;
    Ok(moved)
}

/// Copies of the windows, with their owners' new numbers.
fn nested_windows(
    alloc: Global,
    nests: &[Nest],
    windows: &[WindowDef],
) -> Result<Seq<WindowDef>, NoMemory>
    ensures { IfOk result (λ all. all ≡ map (nested_window nests.now) windows.now) }
{
    let mut all = Seq::with_capacity(alloc, windows.len())?;
    for window in windows {
        let moved = nested_window(alloc, nests, window)?;
        all.push(moved)?;
    }
    Ok(all)
}

// ---- the whole

/// The catalogue with these nests joined, and with this text. Its tables, streams and triggers are moved; procedures and
/// windows are copied, in time linear in them, but for the walks over nests. It has to have no bodies to be installed, as
/// each catalogue that was just read.
pub(crate) fn join_catalog(
    alloc: Global,
    plain: Catalog,
    nests: &[Nest],
    text: Seq<u8>,
) -> Result<Catalog, NoMemory>
    requires { plain.spares ≡ [] }
    ensures { IfOk result (λ joined. joined ≡ nested_catalog plain nests.now text) }
{
    let procedures = nested_procedures(alloc, &plain, nests)?;
    let windows = nested_windows(alloc, nests, plain.windows.as_slice())?;
    let own_texts = nested_texts(alloc, nests, plain.own_texts.as_slice())?;
    let mut joined = plain;
    joined.procedures = procedures;
    joined.windows = windows;
    joined.own_texts = own_texts;
    joined.text = text;
    Ok(joined)
}
