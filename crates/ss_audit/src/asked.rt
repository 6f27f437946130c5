//! What clients ask for, found by client and index.

ghost use Rattle.std.specs.Prelude.{◌≡◌, ◌≤◌, ℕ, [], IfOk, Some, length, option_map};
ghost use Rattle.std.specs.Str.{bytes_eq};
ghost use Rattle.serde_json.specs.View.{view};
ghost use Rattle.ss_lines.specs.declared.line.Line.{Line};
ghost use Rattle.ss_model.specs.Report.{asked_entry};
ghost use Rattle.ss_model.specs.Accepted.{Accepted};
ghost use Rattle.ss_report_lines.specs.Said.{said};
ghost use Rattle.ss_audit_laws.specs.Shape.{line_kind};
ghost use Rattle.ss_audit_laws.specs.Checks.{asked_as, in_turn, meant, procedure_named};
ghost use Rattle.ss_audit.specs.Clients.{number_of};
ghost use Rattle.ss_audit.specs.Asked.{FindsAsked, step_as};
ghost use Rattle.ss_audit.specs.Positions.{asked_by, placed_requests};

use crate::per_client::{PerClient, next_of};
use crate::positions::{Placed, Positions, position};
use crate::shape::text_at;
use serde_json::Value as Json;
use ss_model::{Catalog, Entry, Procedure, Request, asked_entry};
use ss_report_lines::{LineKind, kind_of};
use ss_value::{Copies, NoMemory};
use std::alloc::Global;

/// The requests in their order, each with its index among its client's. Linear in them.
pub(crate) fn placed_requests(alloc: Global, requests: &[Request]) -> Result<Vec<Placed>, NoMemory>
    ensures { IfOk result (λ placed. placed.items ≡ placed_requests [] requests.now) }
{
    let mut counts = PerClient::zeros();
    let mut placed = Vec::new(alloc);
    for (position, request) in requests.iter().enumerate() {
        let client = request.client;
        let index = counts.get(client);
        placed.push(Placed {
            client,
            index,
            position,
        })?;
        let more = next_of(index)?;
        counts.set(client, more);
    }
    Ok(placed)
}

/// The requests of a script, with the place of each by client and index.
#[derive(Drop)]
pub(crate) struct Asked<'a> {
    pub requests: &'a [Request],
    pub first: Positions,
}

impl<'a> Asked<'a> {
    /// A client's request of this index, if there is one. Logarithmic in the requests.
    fn get(&self, client: u8, index: u64) -> Option<&'a Request>
        requires { FindsAsked self.now }
        ensures { option_map (λ r. asked_entry client index r.now.what) result ≡ asked_as self.now.requests.now client index }
    {
        match position(&self.first, client, index) {
            Some(at) => self.requests.get(at),
            None => None,
        }
    }
}

/// Whether a procedure has this name.
fn is_named(procedure: &Procedure, name: &str) -> bool
    ensures { result ≡ bytes_eq procedure.now.name name.now }
{
    procedure.name.as_str() == name
}

/// The number of the first procedure of this name. Linear in the procedures.
fn procedure_named(name: &str, procedures: &[Procedure]) -> Option<u16>
    requires { length procedures.now ≤ 65536 }
    ensures { result ≡ procedure_named name.now procedures.now }
{
    for (number, procedure) in procedures.iter().enumerate() {
        if is_named(procedure, name) {
            return Some(number as u16);
        }
    }
    None
}

/// The entry of a client's request of this index, if there is one and it is in turn. Linear in what it carries, which is copied.
fn in_turn(
    alloc: Global,
    asked: &Asked,
    turns: &PerClient,
    client: u8,
    index: u64,
) -> Result<Option<Entry>, NoMemory>
    requires { FindsAsked asked.now }
    ensures { IfOk result (λ e. e ≡ in_turn (number_of turns.now) client index (asked_as asked.now.requests.now client index)) }
{
    if turns.get(client) <= index {
        match asked.get(client, index) {
            Some(request) => {
                let what = request.what.duplicate(alloc)?;
                Ok(Some(asked_entry(client, index, what)))
            }
            None => Ok(None),
        }
    } else {
        Ok(None)
    }
}

/// The client and the index of the request that a line of this kind is about.
pub(crate) fn asked_by(kind: Option<LineKind>) -> Option<(u8, u64)>
    ensures { result ≡ asked_by kind }
{
    match kind {
        Some(
            LineKind::Call { client, index }
            | LineKind::Push { client, index }
            | LineKind::Install { client, index },
        ) => Some((client, index)),
        _ => None,
    }
}

/// The step that a line of this kind is about, of the first procedure of this name. Linear in the procedures.
fn step_as(catalog: &Catalog, name: &str, kind: Option<LineKind>) -> Option<Entry>
    requires { Accepted catalog.now }
    ensures { result ≡ step_as catalog.now name.now kind }
{
    let Some(LineKind::Step { batch }) = kind else {
        return None;
    };
    match procedure_named(name, catalog.procedures.as_slice()) {
        Some(procedure) => Some(Entry::Step { procedure, batch }),
        None => None,
    }
}

/// The entry that the value of a line is about, if it is about one: one that its client asks for, in turn, or a step. Linear in what
/// the entry carries, which is copied, and in the procedures.
pub(crate) fn meant(
    alloc: Global,
    catalog: &Catalog,
    asked: &Asked,
    turns: &PerClient,
    value: &Json,
) -> Result<Option<Entry>, NoMemory>
    requires accepted { Accepted catalog.now }
    requires found { FindsAsked asked.now }
    ensures { IfOk result (λ e. (line : Line) → said line.bytes ≡ Some (view value.now)
        → e ≡ meant catalog.now asked.now.requests.now (number_of turns.now) line (line_kind line)) }
{
    let kind = kind_of(value);
    match asked_by(kind) {
        Some((client, index)) => in_turn(alloc, asked, turns, client, index),
        None => Ok(step_as(catalog, text_at(2, value), kind)),
    }
}
