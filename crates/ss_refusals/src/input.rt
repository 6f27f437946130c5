//! An input: a catalogue on its first line, and then a request on each line.

ghost use Rattle.std.specs.Prelude.{◌≡◌, ◌≤◌, ◌+◌, [], IfOk, IfErr, IfSome, OnOk, true};
ghost use Rattle.std.specs.List.{list_all};
ghost use Rattle.std.specs.Io.KnownBytes.{IsAtEnd};
ghost use Rattle.serde_json.specs.Data.{depth};
ghost use Rattle.serde_json.specs.Read.{max_depth};
ghost use Rattle.serde_json.specs.View.{view};
ghost use Rattle.ss_lines.specs.Causes.{TakesAtMost};
ghost use Rattle.ss_lines.specs.Lines.{max_input};
ghost use Rattle.ss_model.specs.Database.{fits_entry};
ghost use Rattle.ss_model.specs.Report.{asked_entries, asked_entry};
ghost use Rattle.ss_model.specs.SparesAside.{GoesOnWith, with_spares};
ghost use Rattle.ss_catalog_requests.specs.Answers.{Asks, RefusesRequest};
ghost use Rattle.ss_recover.specs.Recovering.{IsOwnCatalog};
ghost use Rattle.ss_refusals.specs.Starts.{SaysCatalog, AsksFor, AskInOrder, StartLines, Starts};
ghost use Rattle.ss_refusals.specs.Refused.{RefusesFirst, RefusesLater, RefusesAmong, RefusesLines, ComesOfLines, IsRefusedBy};
ghost use Rattle.ss_refusals.specs.Sinks.{LeavesOfRefusedSource, TellsReading};
ghost use Rattle.ss_snapshot.specs.Bodies.{GrowsTo};

use serde_json::Value as Json;
use ss_catalog_requests::{RequestError, a_request_has_one_answer, request_of};
use ss_lines::{Line, LineError, Source, line_value, read_lines};
use ss_model::{Catalog, Request};
use ss_model_laws::spares_aside;
use ss_nest::{NestError, read_nested};
use ss_value::Seq;
use std::alloc::Global;

/// Why an input isn't read.
#[derive(Drop)]
pub enum InputError {
    /// A line, or the whole input, is refused before a value is looked at; or the source failed; or out of memory.
    Line(LineError),
    /// There is no line, and so no catalogue.
    NoCatalog,
    /// The value of the first line isn't a catalogue; or out of memory.
    Catalog {
        /// The line's number.
        line: u64,
        error: NestError,
    },
    /// The value of a later line isn't a request of the catalogue; or out of memory.
    Request(RequestError),
}

/// What an input asks for: a catalogue, and requests in order.
#[derive(Drop)]
pub struct ParsedInput {
    /// The catalogue that the first line is read as, with the bodies that the requests install.
    pub catalog: Catalog,
    pub requests: Seq<Request>,
}

/// The catalogue of the first line, which has no bodies to be installed, or the line's first refusal. Costs what
/// `read_nested` costs.
pub fn catalog_at(alloc: Global, line: &Line) -> Result<Catalog, InputError>
    ensures ok { IfOk result (SaysCatalog line.now) }
    ensures own { IfOk result IsOwnCatalog }
    ensures refused { IfErr result (RefusesFirst line.now) }
    ensures others { IfErr result ComesOfLines }
{
    let value = match line_value(alloc, line) {
        Ok(value) => value,
        Err(error) => return Err(InputError::Line(error)),
    };
    read_nested(alloc, value).map_err(|error| InputError::Catalog {
        line: line.number,
        error,
    })
}

/// What a value on this line asks of a catalogue, or its first refusal, as `request_of` tells them.
///
/// The body that it installs is added to the catalogue, which stays one that recovery may be given, and goes on with it.
/// Costs what `request_of` costs.
pub fn request_in(
    alloc: Global,
    catalog: &mut Catalog,
    line: u64,
    value: &Json,
) -> Result<Request, RequestError>
    requires levels { depth (view value.now) ≤ max_depth }
    requires own { IsOwnCatalog catalog.old }
    ensures asks { IfOk result (Asks catalog.old line (view value.now)) }
    ensures refused { IfErr result (RefusesRequest catalog.old line (view value.now)) }
    ensures fits { IfOk result (λ r. fits_entry catalog.new (asked_entry r.client 0 r.what) ≡ true) }
    ensures grows { GrowsTo catalog.old catalog.new }
    ensures goes_on { GoesOnWith catalog.old catalog.new.spares }
{
    // Law: with more bodies to be installed a catalogue stays accepted.
    spares_aside();
    request_of(alloc, catalog, line, value)
}

/// The request that a later line asks for, or the line's first refusal.
fn request_at(alloc: Global, catalog: &mut Catalog, line: &Line) -> Result<Request, InputError>
    requires own { IsOwnCatalog catalog.old }
    ensures ok { IfOk result (AsksFor catalog.old line.now) }
    ensures fits { IfOk result (λ r. fits_entry catalog.new (asked_entry r.client 0 r.what) ≡ true) }
    ensures refused { IfErr result (RefusesLater catalog.old line.now) }
    ensures others { IfErr result ComesOfLines }
    ensures grows { GrowsTo catalog.old catalog.new }
    ensures goes_on { GoesOnWith catalog.old catalog.new.spares }
{
    let value = match line_value(alloc, line) {
        Ok(value) => value,
        Err(error) => return Err(InputError::Line(error)),
    };
    request_in(alloc, catalog, line.number, &value).map_err(InputError::Request)
}

/// The requests of all later lines, whose bodies are added to the catalogue, or the first refusal.
fn requests_at(
    alloc: Global,
    catalog: &mut Catalog,
    lines: &[Line],
) -> Result<Seq<Request>, InputError>
    requires own { IsOwnCatalog catalog.old }
    ensures ok { IfOk result (AskInOrder catalog.old lines.now) }
    ensures fit { IfOk result (λ requests. list_all (fits_entry catalog.new) (asked_entries requests) ≡ true) }
    ensures refused { IfErr result (RefusesAmong catalog.old lines.now) }
    ensures others { IfErr result ComesOfLines }
    ensures grows { OnOk result (GrowsTo catalog.old catalog.new) }
    ensures goes_on { OnOk result (GoesOnWith catalog.old catalog.new.spares) }
{
    // Law: which bodies may be installed already makes no difference to a request.
    a_request_has_one_answer();
    let mut requests = Seq::new(alloc);
    for line in lines {
        let request = request_at(alloc, catalog, line)?;
        // Out of memory is reported alike by each kind of `InputError` that has it.
        if requests.push(request).is_err() {
            return Err(InputError::Line(LineError::NoMemory));
        }
    }
    Ok(requests)
}

/// What the lines ask for, with the bodies that they install in the catalogue.
///
/// The lines are read in order: the first is the catalogue's, each other a request's. The first refusal of all is the
/// answer. Of one line it is that it is too long, then that it is no JSON, then that its value is refused as a
/// catalogue or a request; nothing is said of a later line. The lines are there already, so neither a fault of the source
/// nor an input that is too long is answered here.
///
/// Costs what `read_nested` and `request_of` cost, and time linear in the bytes of the lines.
fn parse_input(alloc: Global, lines: &[Line]) -> Result<ParsedInput, InputError>
    ensures ok { IfOk result (λ p. StartLines lines.now (with_spares p.catalog []) p.requests) }
    ensures bare { IfOk result (λ p. IsOwnCatalog (with_spares p.catalog [])) }
    ensures own { IfOk result (λ p. IsOwnCatalog p.catalog) }
    ensures goes_on { IfOk result (λ p. GoesOnWith (with_spares p.catalog []) p.catalog.spares) }
    ensures fit { IfOk result (λ p. list_all (fits_entry p.catalog) (asked_entries p.requests) ≡ true) }
    ensures refused { IfErr result (RefusesLines lines.now) }
    ensures others { IfErr result ComesOfLines }
{
    let Some((first, rest)) = lines.split_first() else {
        return Err(InputError::NoCatalog);
    };
    let mut catalog = catalog_at(alloc, first)?;
    let requests = requests_at(alloc, &mut catalog, rest)?;
    Ok(ParsedInput { catalog, requests })
}

/// Reads a source to its end, and answers what its bytes ask for, or their first refusal.
///
/// The catalogue has the bodies that the requests install, each as the one of its text, so that all requests fit it; without
/// them it is what the first line is read as. A fault of the source and an input that is too long come before anything is said of a line. The lines are freed when it
/// returns, before the run. Takes their memory and that of the values. Costs what `read_nested` and
/// `request_of` cost, and time linear in the bytes.
pub fn read_input<S: Source>(alloc: Global, source: &mut S) -> Result<ParsedInput, InputError>
    ensures taken { TakesAtMost (max_input + 1) (S.kind.left source.old) (S.kind.left source.new) }
    ensures counts { S.kind.faults source.old ≤ S.kind.faults source.new }
    ensures told { TellsReading result (S.kind.faults source.old) (S.kind.faults source.new) }
    ensures end { OnOk result (IsAtEnd (S.kind.left source.new)) }
    ensures ok { IfOk result (λ p. IfSome (S.kind.left source.old) (λ input. Starts input (with_spares p.catalog []) p.requests)) }
    ensures bare { IfOk result (λ p. IsOwnCatalog (with_spares p.catalog [])) }
    ensures own { IfOk result (λ p. IsOwnCatalog p.catalog) }
    ensures goes_on { IfOk result (λ p. GoesOnWith (with_spares p.catalog []) p.catalog.spares) }
    ensures fit { IfOk result (λ p. list_all (fits_entry p.catalog) (asked_entries p.requests) ≡ true) }
    ensures refused { IfErr result (λ e. IfSome (S.kind.left source.old) (λ input. IsRefusedBy input e)) }
    ensures leaves { IfErr result (λ e. LeavesOfRefusedSource e (S.kind.faults source.old) (S.kind.faults source.new)
        (S.kind.left source.old) (S.kind.left source.new)) }
{
    let lines = match read_lines(alloc, source) {
        Ok(lines) => lines,
        Err(e) => return Err(InputError::Line(e)),
    };
    parse_input(alloc, lines.as_slice())
}
