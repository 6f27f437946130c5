//! The bodies that may be installed for the procedures of a catalogue.
//!
//! A catalogue is read with none (`read_catalog`). A body is read by `read_body` from its JSON value, or by `body_of` from
//! its text, and `add_spare` adds it to the catalogue. Each body is checked as if it stood in the place of the procedure's
//! own, whatever other bodies may be installed.

ghost use Rattle.std.specs.Prelude.{◌≡◌, ◌≤◌, ◌<◌, ◌++◌, ◌-◌, true, false, cond, None, Some, Ok, [], ◌∷◌, codes, length, get_or, set, replicate, slice_get, option_map, IfOk, OnOk, OnErr, IfErr, IfSome, IfNone, IsUtf8};
ghost use Rattle.std.specs.Str.{bytes_eq};
ghost use Rattle.serde_json.specs.Data.{Data, depth};
ghost use Rattle.serde_json.specs.Read.{max_depth, read};
ghost use Rattle.serde_json.specs.View.{view};
ghost use Rattle.ss_model.specs.Database.{has_body};
ghost use Rattle.ss_model.specs.AcceptedBodies.{OtherBodies};
ghost use Rattle.ss_model.specs.SparesAside.{with_spares, GoesOnWith};
ghost use Rattle.ss_catalog_outline.specs.declared.types.ProcedureOutline.{ProcedureOutline};
ghost use Rattle.ss_catalog_outline.specs.Limits.{is_too_many_to_number, over_limit};
ghost use Rattle.ss_catalog_outline.specs.Steps.{read_steps};
ghost use Rattle.ss_catalog.specs.Checks.{IsShaped, IsNumbered, HasRightOwners};
ghost use Rattle.ss_catalog.specs.Reads.{Refuses};
ghost use Rattle.ss_catalog.specs.Bodies.{with_body_in, IsReadFrom, WasRead, BodyReads, RefusesBody, MayHave, IsBodyIfAny, is_no_memory, way_in_body, IsBodyFault, with_spare, with_added};

use crate::checks::check_catalog;
use crate::error::{CatalogError, Word};
use crate::laws::a_body_has_one_answer;
use crate::outline_checks::{check_counts, check_outline};
use crate::resolve::{resolve_sql, text_of};
use serde_json::Value as Json;
use ss_catalog_json::ReadError;
use ss_catalog_outline::{Outline, ProcedureOutline, StepOutline, read_outline, read_steps};
use ss_model::{Body, Catalog, ProcedureKind, Step};
use ss_value::{NoMemory, Reserved, Seq};
use std::alloc::Global;

// ---- the outline with a body in place

/// The outline of the value that a catalogue was read from.
fn own_outline(alloc: Global, catalog: &Catalog) -> Result<Outline, NoMemory>
    ensures { (d : Data) → IsReadFrom catalog.now d → IfOk result (IsShaped d) }
{
    // What was read once is read again, so both errors are out of memory.
    let Ok(value) = Json::from_slice(alloc, catalog.text.as_slice()) else {
        return Err(NoMemory);
    };
    match read_outline(alloc, &value) {
        Ok(outline) => Ok(outline),
        Err(_) => Err(NoMemory),
    }
}

/// The path to a fault in the body of a procedure, from the way to it in the body.
fn path_into_body(alloc: Global, procedure: u16, way: &Word) -> Result<Word, NoMemory>
    ensures { IfOk result (λ path. path ≡ codes "$" ++ way_in_body procedure way.now) }
{
    let way = way.as_str();
    let path = format!(in alloc; "$.procedures[{procedure}].body{way}")?;
    Ok(Word::from_string(path))
}

/// C1: the steps of a value as the body of a procedure of this kind, or the path to its first fault.
fn read_shape_of_body(
    alloc: Global,
    kind: ProcedureKind,
    procedure: u16,
    value: &Json,
) -> Result<Seq<StepOutline>, CatalogError>
    ensures ok { IfOk result (λ steps. read_steps kind (view value.now) ≡ Ok steps) }
    ensures refused { IfErr result (IsBodyFault kind procedure (view value.now)) }
{
    match read_steps(alloc, kind, value) {
        Ok(steps) => Ok(steps),
        Err(ReadError::NoMemory) => Err(CatalogError::NoMemory),
        Err(ReadError::Fault(way)) => {
            let path = path_into_body(alloc, procedure, &way)?;
            Err(CatalogError::Shape(path))
        }
    }
}

/// Gives the procedure of this number these steps.
fn put_steps(procedures: &mut Seq<ProcedureOutline>, number: usize, steps: Seq<StepOutline>)
    ensures { (p : ProcedureOutline) → slice_get procedures.old number ≡ Some p → procedures.new ≡ set procedures.old number (record p { body = steps }) }
{
    match procedures.get_mut(number) {
        Some(procedure) => procedure.body = steps,
        None => (),
    }
}

/// C1: the outline of the catalogue's value with a body in place, or the path to the first fault.
fn outline_with_body(
    alloc: Global,
    catalog: &Catalog,
    procedure: u16,
    value: &Json,
) -> Result<Outline, CatalogError>
    ensures ok { (d : Data) → IsReadFrom catalog.now d → IfOk result (IsShaped (with_body_in procedure (view value.now) d)) }
    ensures refused { (d : Data) → IsReadFrom catalog.now d → IfErr result (Refuses (with_body_in procedure (view value.now) d)) }
{
    let mut outline = own_outline(alloc, catalog)?;
    let number = usize::from(procedure);
    // Callers rule out that no procedure has the number.
    let Some(own) = outline.procedures.get(number) else {
        return Err(CatalogError::NoMemory);
    };
    let steps = read_shape_of_body(alloc, own.kind, procedure, value)?;
    put_steps(&mut outline.procedures, number, steps);
    Ok(outline)
}

// ---- the catalogue with a body in place

/// The catalogue of an outline, but for its texts, or the first thing that is wrong with it behind what an outline says.
fn changed_catalog(alloc: Global, outline: &Outline) -> Result<Catalog, CatalogError>
    requires { is_too_many_to_number outline.now ≡ false }
    ensures ok { (d : Data) → IsNumbered d outline.now → IfOk result (HasRightOwners d outline.now) }
    ensures limits { IfOk result (λ changed. over_limit outline.now ≡ None) }
    ensures refused { (d : Data) → IsNumbered d outline.now → IfErr result (Refuses d) }
{
    let changed = resolve_sql(alloc, outline, Seq::new(alloc), Seq::new(alloc))?;
    check_catalog(alloc, &changed)?;
    check_counts(outline)?;
    Ok(changed)
}

/// Takes the steps of a procedure out of a catalogue.
fn take_steps(alloc: Global, catalog: &mut Catalog, procedure: usize) -> Result<Seq<Step>, NoMemory>
    ensures { IfOk result (λ steps. option_map (λ p. p.body) (slice_get catalog.old.procedures procedure) ≡ Some steps) }
{
    match catalog.procedures.get_mut(procedure) {
        Some(procedure) => Ok(std::mem::replace(&mut procedure.body, Seq::new(alloc))),
        // Callers rule out that no procedure has the number.
        None => Err(NoMemory),
    }
}

/// The body of a procedure that a value is, or the first thing that is wrong with it, in the order of `read_catalog`.
fn body_in_place(
    alloc: Global,
    catalog: &Catalog,
    procedure: u16,
    value: &Json,
) -> Result<Body, CatalogError>
    requires levels { depth (view value.now) ≤ max_depth }
    requires within { procedure < length catalog.now.procedures }
    ensures ok { (d : Data) → IsReadFrom catalog.now d → IfOk result (BodyReads catalog.now procedure (view value.now)) }
    ensures refused { (d : Data) → IsReadFrom catalog.now d → IfErr result (Refuses (with_body_in procedure (view value.now) d)) }
{
    let outline = outline_with_body(alloc, catalog, procedure, value)?;
    check_outline(alloc, &outline)?;
    let text = text_of(alloc, value)?;
    let mut changed = changed_catalog(alloc, &outline)?;
    let steps = take_steps(alloc, &mut changed, usize::from(procedure))?;
    Ok(Body { text, steps })
}

/// The body of a procedure that a value is, or the first thing that is wrong with it.
///
/// A body is refused exactly where `read_catalog` refuses the value of the catalogue with this body in place of the
/// procedure's own, and with the same error: the paths of shapes begin at the catalogue's value. Its text is the value's
/// compact one, and the procedure may have it (`MayHave`). Which other bodies may be installed makes no difference. The
/// value has to have at most 127 levels, as each value has that is read from a text, and the catalogue to be one that was
/// read, with whatever bodies to be installed.
///
/// Costs as much as reading the catalogue from its text.
pub fn read_body(
    alloc: Global,
    catalog: &Catalog,
    procedure: u16,
    value: &Json,
) -> Result<Body, CatalogError>
    requires levels { depth (view value.now) ≤ max_depth }
    requires was_read { WasRead catalog.now }
    requires within { procedure < length catalog.now.procedures }
    ensures ok { IfOk result (BodyReads catalog.now procedure (view value.now)) }
    ensures may_have { IfOk result (λ body. MayHave catalog.now procedure body.steps) }
    ensures refused { IfErr result (RefusesBody catalog.now procedure (view value.now)) }
{
    a_body_has_one_answer();
    body_in_place(alloc, catalog, procedure, value)
}

// ---- the body of a text

/// The value of a text, and none exactly where the text isn't JSON in UTF-8.
fn value_of(alloc: Global, text: &[u8]) -> Result<Option<Json>, NoMemory>
    ensures some { IfOk result (λ found. IfSome found (λ value. (read text.now ≡ Some (view value)) × (depth (view value) ≤ max_depth))) }
    ensures none { IfOk result (λ found. IfNone found (IsUtf8 text.now → read text.now ≡ None)) }
{
    match Json::from_slice(alloc, text) {
        Ok(value) => Ok(Some(value)),
        Err(refused) => {
            if refused.is_memory() {
                Err(NoMemory)
            } else {
                Ok(None)
            }
        }
    }
}

/// The body, where this is its text.
fn if_text(body: Body, text: &[u8]) -> Option<Body>
    ensures { result ≡ cond (bytes_eq body.text text.now) (Some body) None }
{
    if body.text.as_slice() == text {
        Some(body)
    } else {
        None
    }
}

/// Whether an error is that memory is out.
fn is_no_memory(refused: &CatalogError) -> bool
    ensures { result ≡ is_no_memory refused.now }
{
    matches!(refused, CatalogError::NoMemory)
}

/// The body of a procedure whose text this is, and none exactly where it is the text of none: where it isn't the compact
/// text of a value, or `read_body` refuses the value.
///
/// Costs as much as `read_body`.
pub fn body_of(
    alloc: Global,
    catalog: &Catalog,
    procedure: u16,
    text: &[u8],
) -> Result<Option<Body>, NoMemory>
    requires was_read { WasRead catalog.now }
    requires within { procedure < length catalog.now.procedures }
    ensures ok { IfOk result (IsBodyIfAny catalog.now procedure text.now) }
    ensures may_have { IfOk result (λ found. IfSome found (λ body. MayHave catalog.now procedure body.steps)) }
{
    a_body_has_one_answer();
    let Some(value) = value_of(alloc, text)? else {
        return Ok(None);
    };
    match read_body(alloc, catalog, procedure, &value) {
        Ok(body) => Ok(if_text(body, text)),
        Err(refused) => {
            if is_no_memory(&refused) {
                Err(NoMemory)
            } else {
                Ok(None)
            }
        }
    }
}

// ---- bodies to be installed

/// Adds empty lists, for which there is room.
fn pad(alloc: Global, spares: &mut Reserved<Seq<Body>>, count: usize)
    requires { count ≤ spares.old.spare }
    ensures items { spares.new.items ≡ spares.old.items ++ replicate count [] }
    ensures room { spares.new.spare ≡ spares.old.spare - count }
{
    for _ in 0..count {
        spares.add(Seq::new(alloc));
    }
}

/// Adds the bodies of a procedure behind those of all procedures before it. Out of memory changes nothing.
fn add_list(
    alloc: Global,
    spares: &mut Seq<Seq<Body>>,
    procedure: u16,
    bodies: Seq<Body>,
) -> Result<(), NoMemory>
    requires { length spares.old ≤ procedure }
    ensures ok { OnOk result (spares.new ≡ spares.old ++ (replicate (procedure - length spares.old) [] ++ bodies ∷ [])) }
    ensures err { OnErr result (spares.new ≡ spares.old) }
{
    let before = usize::from(procedure) - spares.len();
    let mut room = Reserved::from_seq(std::mem::replace(spares, Seq::new(alloc)));
    if room.reserve(before + 1).is_err() {
        *spares = room.into_seq();
        return Err(NoMemory);
    }
    pad(alloc, &mut room, before);
    room.add(bodies);
    *spares = room.into_seq();
    Ok(())
}

/// Adds a body to a list that is there. Out of memory changes nothing.
fn add_to_list(spares: &mut Seq<Seq<Body>>, procedure: usize, body: Body) -> Result<(), NoMemory>
    requires { procedure < length spares.old }
    ensures ok { OnOk result (spares.new ≡ set spares.old procedure (get_or spares.old procedure [] ++ body ∷ [])) }
    ensures err { OnErr result (spares.new ≡ spares.old) }
{
    match spares.get_mut(procedure) {
        None => unreachable!(),
        Some(bodies) => match bodies.push(body) {
            Ok(()) => Ok(()),
            Err(_) => Err(NoMemory),
        },
    }
}

/// Adds a body of a procedure. Out of memory changes nothing.
fn push_spare(
    alloc: Global,
    spares: &mut Seq<Seq<Body>>,
    procedure: u16,
    body: Body,
) -> Result<(), NoMemory>
    ensures ok { OnOk result (spares.new ≡ with_spare spares.old procedure body) }
    ensures err { OnErr result (spares.new ≡ spares.old) }
{
    let number = usize::from(procedure);
    if number < spares.len() {
        return add_to_list(spares, number, body);
    }
    let mut bodies = Seq::new(alloc);
    bodies.push(body)?;
    add_list(alloc, spares, procedure, bodies)
}

/// Adds a body that may be installed for a procedure, unless the procedure has one with this text already: its own, or
/// another to be installed.
///
/// The catalogue is the same but for its bodies to be installed, and goes on with these (`GoesOnWith`): what it had, it has
/// still. Out of memory changes nothing. Linear in the texts of the procedure's bodies, and at most in the number of
/// procedures; takes memory for the list alone, since the body is moved.
pub fn add_spare(
    alloc: Global,
    catalog: &mut Catalog,
    procedure: u16,
    body: Body,
) -> Result<(), NoMemory>
    requires spares { OtherBodies catalog.old }
    requires may_have { MayHave catalog.old procedure body.steps }
    ensures added { OnOk result (catalog.new ≡ with_added catalog.old procedure body) }
    ensures same { OnOk result (catalog.new ≡ with_spares catalog.old catalog.new.spares) }
    ensures goes_on { OnOk result (GoesOnWith catalog.old catalog.new.spares) }
    ensures has { OnOk result (has_body catalog.new procedure body.text ≡ true) }
    ensures err { OnErr result (catalog.new ≡ catalog.old) }
{
    if catalog.has_body(usize::from(procedure), body.text.as_slice()) {
        return Ok(());
    }
    push_spare(alloc, &mut catalog.spares, procedure, body)
}
