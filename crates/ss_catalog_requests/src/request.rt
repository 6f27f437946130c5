//! The request that a JSON value is, or the first reason to refuse it.

ghost use Rattle.std.specs.Prelude.{◌≡◌, ◌≤◌, ◌<◌, ℕ, Ok, true, false, codes, length, slice_get, IfOk, OnOk, IfErr, OnErr, IfSome, option_map};
ghost use Rattle.serde_json.specs.Data.{depth};
ghost use Rattle.serde_json.specs.Find.{get};
ghost use Rattle.serde_json.specs.Read.{max_depth};
ghost use Rattle.serde_json.specs.View.{view};
ghost use Rattle.ss_model.specs.Database.{fits_entry, has_body, takes_bodies};
ghost use Rattle.ss_model.specs.Report.{asked_entry};
ghost use Rattle.ss_model.specs.AcceptedBodies.{OtherBodies};
ghost use Rattle.ss_model.specs.SparesAside.{with_spares, GoesOnWith};
ghost use Rattle.ss_catalog.specs.Bodies.{MayHave, with_added};
ghost use Rattle.ss_nest.specs.Reads.{WasNested};
ghost use Rattle.ss_catalog_requests.specs.declared.outline.AskedOutline.TheVariants.{Call as CallOutline, Push as PushOutline, Install as InstallOutline};
ghost use Rattle.ss_catalog_requests.specs.Requests.{few_rows, taking_bodies, asked_of, said_of, RefusesAs};
ghost use Rattle.ss_catalog_requests.specs.Answers.{AddsAsked, BodyAt, AsksFor, Asks, RefusesInstall, RefusesRequest, is_install};

use crate::fitting::{fitting_args, fitting_rows};
use crate::outline::AskedOutline;
use crate::shape::read_request;
use crate::targets::{border_stream_named, call_named, procedure_named};
use serde_json::Value as Json;
use ss_catalog::{CatalogError, add_spare};
use ss_catalog_json::ReadError;
use ss_model::{Asked, Body, Catalog, Request};
use ss_nest::read_nested_body;
use ss_value::{Copies, Name, NoMemory, Row, Rows};
use std::alloc::Global;

/// Why a request is refused. Lines are counted from 1.
#[derive(Drop)]
pub enum RequestError {
    /// Out of memory.
    NoMemory,
    /// C11: the value isn't in the form of a request, or the compact text of its body has more than 1,048,576 bytes.
    Shape { line: u64 },
    /// C12: no call procedure, no border stream, or for an install no procedure, has that name.
    UnknownTarget { line: u64 },
    /// C13: the number or a type of the arguments, or of a row's values, differs, or a text has more than 255 bytes.
    Arguments { line: u64 },
    /// C14: a push has more than 1,024 rows.
    TooManyRows { line: u64 },
    /// C16: an install names a nest, which has no body but its own.
    Nested { line: u64 },
    /// C15: the catalogue is refused with the body in place of the procedure's own; `fault` is never out of memory.
    BadBody { line: u64, fault: CatalogError },
}

/// What a request asks for, as far as its shape, its name and its values tell.
#[derive(Drop)]
pub enum Said {
    /// All of it.
    Whole(Asked),
    /// That the body at `body` be installed for the procedure of this number.
    Body(u16),
}

/// What a request says: its client, and what it asks for.
#[derive(Drop)]
pub struct SaidRequest {
    /// From 0 to 7.
    pub client: u8,
    /// What it asks for.
    pub what: Said,
}

// ---- what is said

// A number as entries carry it. In an accepted catalogue each fits; elsewhere one that doesn't is answered as out of memory.
fn section(number: usize) -> Result<u16, RequestError>
    ensures ok { IfOk result (λ n. n ≡ number) }
    ensures refused { IfErr result (λ e. e ≡ RequestError.NoMemory) }
{
    match u16::try_from(number) {
        Ok(number) => Ok(number),
        Err(_) => Err(RequestError::NoMemory),
    }
}

fn call_of(
    catalog: &Catalog,
    line: u64,
    name: &[u8],
    args: Option<Row>,
) -> Result<Said, RequestError>
    ensures ok { IfOk result (λ asked. asked_of catalog.now line (CallOutline name.now args) ≡ Ok asked) }
    ensures refused { IfErr result (RefusesAs (asked_of catalog.now line (CallOutline name.now args))) }
{
    // The name goes before the values, as C12 before C13.
    let Some(number) = call_named(catalog, name) else {
        return Err(RequestError::UnknownTarget { line });
    };
    let Some(args) = fitting_args(catalog, number, args) else {
        return Err(RequestError::Arguments { line });
    };
    let procedure = section(number)?;
    Ok(Said::Whole(Asked::Call { procedure, args }))
}

fn few_rows(line: u64, rows: Rows) -> Result<Rows, RequestError>
    ensures ok { IfOk result (λ few. few_rows line rows ≡ Ok few) }
    ensures refused { IfErr result (RefusesAs (few_rows line rows)) }
{
    if rows.len() <= 1024 {
        Ok(rows)
    } else {
        Err(RequestError::TooManyRows { line })
    }
}

fn push_of(
    catalog: &Catalog,
    line: u64,
    name: &[u8],
    source: Name,
    seq: u64,
    rows: Option<Rows>,
) -> Result<Said, RequestError>
    ensures ok { IfOk result (λ asked. asked_of catalog.now line (PushOutline name.now source seq rows) ≡ Ok asked) }
    ensures refused { IfErr result (RefusesAs (asked_of catalog.now line (PushOutline name.now source seq rows))) }
{
    let Some(number) = border_stream_named(catalog, name) else {
        return Err(RequestError::UnknownTarget { line });
    };
    let Some(rows) = fitting_rows(catalog, number, rows) else {
        return Err(RequestError::Arguments { line });
    };
    // Counted only when they fit, as C13 goes before C14.
    let rows = few_rows(line, rows)?;
    let stream = section(number)?;
    Ok(Said::Whole(Asked::Push {
        stream,
        source,
        seq,
        rows,
    }))
}

fn taking_bodies(catalog: &Catalog, line: u64, number: usize) -> Result<usize, RequestError>
    ensures ok { IfOk result (λ n. taking_bodies catalog.now line number ≡ Ok n) }
    ensures refused { IfErr result (RefusesAs (taking_bodies catalog.now line number)) }
{
    if catalog.takes_bodies(number) {
        Ok(number)
    } else {
        Err(RequestError::Nested { line })
    }
}

fn body_for(catalog: &Catalog, line: u64, name: &[u8]) -> Result<Said, RequestError>
    ensures ok { IfOk result (λ asked. asked_of catalog.now line (InstallOutline name.now) ≡ Ok asked) }
    ensures refused { IfErr result (RefusesAs (asked_of catalog.now line (InstallOutline name.now))) }
{
    let Some(number) = procedure_named(catalog, name) else {
        return Err(RequestError::UnknownTarget { line });
    };
    // Behind the name and before the body, as C16 between C12 and C15.
    let number = taking_bodies(catalog, line, number)?;
    let procedure = section(number)?;
    Ok(Said::Body(procedure))
}

fn asked_of(catalog: &Catalog, line: u64, said: AskedOutline) -> Result<Said, RequestError>
    ensures ok { IfOk result (λ asked. asked_of catalog.now line said ≡ Ok asked) }
    ensures refused { IfErr result (RefusesAs (asked_of catalog.now line said)) }
{
    match said {
        AskedOutline::Call { procedure, args } => call_of(
            catalog,
            line,
            procedure.as_slice(),
            args,
        ),
        AskedOutline::Push {
            stream,
            source,
            seq,
            rows,
        } => push_of(catalog, line, stream.as_slice(), source, seq, rows),
        AskedOutline::Install { procedure } => body_for(catalog, line, procedure.as_slice()),
    }
}

/// What a value on this line says to a catalogue, or its first refusal for its shape, its name or its values.
#[tactic(auto, unfolding(crate::specs::Requests::said_of))]
fn said_of(
    alloc: Global,
    catalog: &Catalog,
    line: u64,
    value: &Json,
) -> Result<SaidRequest, RequestError>
    ensures ok { IfOk result (λ said. said_of catalog.now line (view value.now) ≡ Ok said) }
    ensures refused { IfErr result (RefusesAs (said_of catalog.now line (view value.now))) }
{
    let said = match read_request(alloc, value) {
        Ok(said) => said,
        Err(ReadError::Fault(_)) => return Err(RequestError::Shape { line }),
        Err(ReadError::NoMemory) => return Err(RequestError::NoMemory),
    };
    let what = asked_of(catalog, line, said.what)?;
    Ok(SaidRequest {
        client: said.client,
        what,
    })
}

// ---- bodies to be installed

/// The value at `body`, which has at most as many levels as the whole.
fn value_at_body(value: &Json) -> Option<&Json>
    ensures at { option_map (λ v. view v.now) result ≡ get (codes "body") (view value.now) }
    ensures levels { IfSome result (λ v. depth (view v.now) ≤ depth (view value.now)) }
{
    value.get("body")
}

/// C15: the body of a procedure that the value at `body` is, or the first thing that is wrong with it.
fn body_at(
    alloc: Global,
    catalog: &Catalog,
    line: u64,
    procedure: u16,
    value: &Json,
) -> Result<Body, RequestError>
    requires levels { depth (view value.now) ≤ max_depth }
    requires was_read { WasNested catalog.now }
    ensures ok { IfOk result (BodyAt catalog.now procedure (view value.now)) }
    ensures may_have { IfOk result (λ body. MayHave catalog.now procedure body.steps) }
    ensures refused { IfErr result (RefusesInstall catalog.now line (view value.now) procedure) }
{
    // Where it was read as an install, the value is there.
    let Some(body) = value_at_body(value) else {
        return Err(RequestError::NoMemory);
    };
    match read_nested_body(alloc, catalog, procedure, body) {
        Ok(body) => Ok(body),
        Err(CatalogError::NoMemory) => Err(RequestError::NoMemory),
        Err(fault) => Err(RequestError::BadBody { line, fault }),
    }
}

/// The most bytes that the compact text of a body may have.
const LONGEST_BODY: usize = 1_048_576;

/// C11 again, for the length of the body's text, which is asked for only of a body that is right.
fn short_body_at(
    alloc: Global,
    catalog: &Catalog,
    line: u64,
    procedure: u16,
    value: &Json,
) -> Result<Body, RequestError>
    requires levels { depth (view value.now) ≤ max_depth }
    requires was_read { WasNested catalog.now }
    ensures ok { IfOk result (BodyAt catalog.now procedure (view value.now)) }
    ensures short { IfOk result (λ body. length body.text ≤ 1048576) }
    ensures may_have { IfOk result (λ body. MayHave catalog.now procedure body.steps) }
    ensures refused { IfErr result (RefusesInstall catalog.now line (view value.now) procedure) }
{
    let body = body_at(alloc, catalog, line, procedure, value)?;
    if body.text.len() <= LONGEST_BODY {
        Ok(body)
    } else {
        Err(RequestError::Shape { line })
    }
}

/// Adds the body of a procedure to the catalogue, and answers what asks for it.
fn ask_for(
    alloc: Global,
    catalog: &mut Catalog,
    procedure: u16,
    body: Body,
) -> Result<Asked, NoMemory>
    requires spares { OtherBodies catalog.old }
    requires may_have { MayHave catalog.old procedure body.steps }
    ensures asks { IfOk result (λ what. what ≡ Asked.Install procedure body.text) }
    ensures has { OnOk result (has_body catalog.new procedure body.text ≡ true) }
    ensures added { OnOk result (catalog.new ≡ with_added catalog.old procedure body) }
    ensures same { catalog.new ≡ with_spares catalog.old catalog.new.spares }
    ensures goes_on { GoesOnWith catalog.old catalog.new.spares }
    ensures err { OnErr result (catalog.new ≡ catalog.old) }
{
    // Copied before the body is added, so that nothing is added where there is no memory for it.
    let text = body.text.duplicate(alloc)?;
    add_spare(alloc, catalog, procedure, body)?;
    Ok(Asked::Install { procedure, text })
}

/// What an install asks for, whose body is added to the catalogue, or the first refusal of the body.
fn install(
    alloc: Global,
    catalog: &mut Catalog,
    line: u64,
    procedure: u16,
    value: &Json,
) -> Result<Asked, RequestError>
    requires levels { depth (view value.now) ≤ max_depth }
    requires was_read { WasNested catalog.old }
    requires spares { OtherBodies catalog.old }
    requires takes { takes_bodies (slice_get catalog.old.procedures procedure) ≡ true }
    ensures asks { IfOk result (AsksFor catalog.old (view value.now) (Said.Body procedure)) }
    ensures refused { IfErr result (RefusesInstall catalog.old line (view value.now) procedure) }
    ensures added { IfOk result (AddsAsked catalog.old catalog.new) }
    ensures same { catalog.new ≡ with_spares catalog.old catalog.new.spares }
    ensures goes_on { GoesOnWith catalog.old catalog.new.spares }
    ensures err { OnErr result (catalog.new ≡ catalog.old) }
    ensures fits { IfOk result (λ what. (client : ℕ) → client < 8 → fits_entry catalog.new (asked_entry client 0 what) ≡ true) }
{
    let body = short_body_at(alloc, catalog, line, procedure, value)?;
    match ask_for(alloc, catalog, procedure, body) {
        Ok(asked) => Ok(asked),
        Err(_) => Err(RequestError::NoMemory),
    }
}

// ---- the whole

/// What a value on this line asks of a catalogue, or its first refusal.
///
/// Refuses `Shape` (C11), then `UnknownTarget` (C12), then `Arguments` (C13), then `TooManyRows` (C14), each for the
/// whole value before the next; an install behind C12 `Nested` (C16), then `BadBody` (C15), and last `Shape` again,
/// where the body's text is too long. The crate's page says when.
///
/// The body of an install is added to those that may be installed in the catalogue, unless it has it already. Nothing
/// else of the catalogue changes, nothing at all where there is an error or another request, and the catalogue goes on
/// with these bodies (`GoesOnWith`). Which bodies may be installed makes no difference to the answer. The value has to
/// have at most 127 levels, as each value has that is read from a text, and the catalogue to be one that was read, with
/// bodies to be installed that its procedures may have.
///
/// Takes time and memory linear in the value, and for the name one walk over the catalogue's procedures, or over its
/// streams and its procedures' inputs. A text is copied once. An install costs as much as reading the catalogue from
/// its text.
pub fn request_of(
    alloc: Global,
    catalog: &mut Catalog,
    line: u64,
    value: &Json,
) -> Result<Request, RequestError>
    requires levels { depth (view value.now) ≤ max_depth }
    requires was_read { WasNested catalog.old }
    requires spares { OtherBodies catalog.old }
    ensures asks { IfOk result (Asks catalog.old line (view value.now)) }
    ensures refused { IfErr result (RefusesRequest catalog.old line (view value.now)) }
    ensures added { IfOk result (λ r. AddsAsked catalog.old catalog.new r.what) }
    ensures same { catalog.new ≡ with_spares catalog.old catalog.new.spares }
    ensures goes_on { GoesOnWith catalog.old catalog.new.spares }
    ensures stays_read { WasNested catalog.new }
    ensures stand { OtherBodies catalog.new }
    ensures err { OnErr result (catalog.new ≡ catalog.old) }
    ensures others { IfOk result (λ r. is_install r.what ≡ false → catalog.new ≡ catalog.old) }
    ensures fits { IfOk result (λ r. fits_entry catalog.new (asked_entry r.client 0 r.what) ≡ true) }
    ensures line { IfOk result (λ r. r.line ≡ line) }
{
    let said = said_of(alloc, catalog, line, value)?;
    let client = said.client;
    let what = match said.what {
        Said::Whole(asked) => asked,
        Said::Body(procedure) => install(alloc, catalog, line, procedure, value)?,
    };
    Ok(Request { line, client, what })
}
