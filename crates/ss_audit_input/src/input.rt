//! The lines of an input with a script and a report.

ghost use Rattle.std.specs.Prelude.{◌≡◌, ◌≤◌, ◌<◌, ◌^◌, IfOk, IfErr, IfNone, IfSome, MatchOption, OnOk, length, drop, true};
ghost use Rattle.std.specs.List.{AllByRecursion, list_all};
ghost use Rattle.std.specs.Option.{SomeIff};
ghost use Rattle.ss_model.specs.Accepted.{Accepted};
ghost use Rattle.ss_model.specs.Database.{fits_entry};
ghost use Rattle.ss_model.specs.Report.{asked_entries, asked_entry};
ghost use Rattle.ss_model.specs.SparesAside.{GoesOnWith};
ghost use Rattle.ss_snapshot.specs.Bodies.{GrowsTo};
ghost use Rattle.ss_recover.specs.Recovering.{IsOwnCatalog};
ghost use Rattle.ss_refusals.specs.Refused.{ComesOfLines};
ghost use Rattle.ss_refusals.specs.Starts.{AsksFor};
ghost use Rattle.ss_audit_input.specs.Audits.{AreScript, BeginsReport, HasValue, number_behind};
ghost use Rattle.ss_audit_input.specs.Refused.{RefusesAsked, RefusesAudit, RefusesReport, RefusesScript, RefusesTold};
ghost use Rattle.ss_audit_input.specs.Told.{IsVerdict, IsVerdictOf};

use ss_audit::{Verdict, audit};
use ss_catalog_requests::a_request_has_one_answer;
use ss_lines::{Line, LineError, line_value};
use ss_model::{Catalog, Request};
use ss_refusals::{InputError, catalog_at, request_in};
use ss_value::{NoMemory, Seq};
use std::alloc::Global;

/// The request that a line asks for, whose body is added to the catalogue, or None where its value is an array, and so the
/// first line of a report.
fn asked_at(
    alloc: Global,
    catalog: &mut Catalog,
    line: &Line,
) -> Result<Option<Request>, InputError>
    requires own { IsOwnCatalog catalog.old }
    ensures ok { IfOk result (λ r. MatchOption r (BeginsReport line.now) (AsksFor catalog.old line.now)) }
    ensures fits { IfOk result (λ r. IfSome r (λ x. fits_entry catalog.new (asked_entry x.client 0 x.what) ≡ true)) }
    ensures stays { IfOk result (λ r. IfNone r (catalog.new ≡ catalog.old)) }
    ensures refused { IfErr result (RefusesAsked catalog.old line.now) }
    ensures others { IfErr result ComesOfLines }
    ensures grows { GrowsTo catalog.old catalog.new }
    ensures goes_on { GoesOnWith catalog.old catalog.new.spares }
{
    let value = match line_value(alloc, line) {
        Ok(value) => value,
        Err(error) => return Err(InputError::Line(error)),
    };
    if value.is_array() {
        return Ok(None);
    }
    match request_in(alloc, catalog, line.number, &value) {
        Ok(request) => Ok(Some(request)),
        Err(error) => Err(InputError::Request(error)),
    }
}

/// The requests that lines begin with, up to the first line of a report; their bodies are added to the catalogue. Costs what
/// `request_of` costs, and is linear in the bytes.
fn script_at(
    alloc: Global,
    catalog: &mut Catalog,
    lines: &[Line],
) -> Result<Seq<Request>, InputError>
    requires own { IsOwnCatalog catalog.old }
    ensures few { IfOk result (λ rs. length rs ≤ length lines.now) }
    ensures ok { IfOk result (λ rs. AreScript catalog.old lines.now rs (drop (length rs) lines.now)) }
    ensures fit { IfOk result (λ rs. list_all (fits_entry catalog.new) (asked_entries rs) ≡ true) }
    ensures refused { IfErr result (RefusesScript catalog.old lines.now) }
    ensures others { IfErr result ComesOfLines }
    ensures grows { OnOk result (GrowsTo catalog.old catalog.new) }
    ensures goes_on { OnOk result (GoesOnWith catalog.old catalog.new.spares) }
{
    // Law: which bodies may be installed already makes no difference to a request.
    a_request_has_one_answer();
    let mut requests = Seq::new(alloc);
    for line in lines {
        let asked = asked_at(alloc, catalog, line)?;
        let Some(request) = asked else {
            return Ok(requests);
        };
        // Out of memory is reported alike by each kind of `InputError` that has it.
        if requests.push(request).is_err() {
            return Err(InputError::Line(LineError::NoMemory));
        }
    }
    Ok(requests)
}

/// Checks that a line of a report has a value. Linear in its bytes.
fn value_there(alloc: Global, line: &Line) -> Result<(), InputError>
    ensures ok { OnOk result (HasValue line.now) }
    ensures refused { IfErr result (RefusesTold line.now) }
    ensures others { IfErr result ComesOfLines }
{
    match line_value(alloc, line) {
        Ok(_) => Ok(()),
        Err(error) => Err(InputError::Line(error)),
    }
}

/// Checks that each line of a report has a value. Linear in their bytes, with memory for one value at a time.
fn values_at(alloc: Global, lines: &[Line]) -> Result<(), InputError>
    ensures ok { OnOk result (AllByRecursion HasValue lines.now) }
    ensures refused { IfErr result (RefusesReport lines.now) }
    ensures others { IfErr result ComesOfLines }
{
    for line in lines {
        value_there(alloc, line)?;
    }
    Ok(())
}

/// The number that a line behind these would have; None where that is past 64 bits, and no memory holds so many lines.
fn number_behind(lines: &[Line]) -> Option<u64>
    ensures { SomeIff result (number_behind lines.now < 2 ^ 64) (number_behind lines.now) }
{
    let Some((last, _)) = lines.split_last() else {
        return Some(1);
    };
    last.number.checked_add(1)
}

/// What an audit of a report says, which is the end of these lines, behind a script of these requests. Costs what `audit` costs.
fn verdict_of(
    alloc: Global,
    catalog: &Catalog,
    requests: &[Request],
    lines: &[Line],
    report: &[Line],
) -> Result<Verdict, NoMemory>
    requires { Accepted catalog.now }
    ensures { IfOk result (IsVerdictOf catalog.now requests.now report.now (number_behind lines.now)) }
{
    let Some(end) = number_behind(lines) else {
        return Err(NoMemory);
    };
    audit(alloc, catalog, requests, report, end)
}

/// What an audit of these lines answers, or their first refusal.
///
/// Costs what `read_nested`, `request_of` and `audit` cost, and time linear in the bytes.
pub(crate) fn audit_lines(alloc: Global, lines: &[Line]) -> Result<Verdict, InputError>
    ensures ok { IfOk result (IsVerdict lines.now) }
    ensures refused { IfErr result (RefusesAudit lines.now) }
    ensures others { IfErr result ComesOfLines }
{
    let Some((first, rest)) = lines.split_first() else {
        return Err(InputError::NoCatalog);
    };
    let mut catalog = catalog_at(alloc, first)?;
    let requests = script_at(alloc, &mut catalog, rest)?;
    let (_, report) = rest.split_at(requests.len());
    values_at(alloc, report)?;
    match verdict_of(alloc, &catalog, requests.as_slice(), lines, report) {
        Ok(verdict) => Ok(verdict),
        Err(_) => Err(InputError::Line(LineError::NoMemory)),
    }
}
