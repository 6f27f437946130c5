//! The second check: replies are what the printed entries call for.

ghost use Rattle.std.specs.Prelude.{◌≡◌, ◌<◌, ◌++◌, [], ◌∷◌, map, IfOk, IfErr, IfSome, Ok, OnOk, Some, false, length, option_map, slice_get};
ghost use Rattle.serde_json.specs.View.{view};
ghost use Rattle.serde_json.specs.Written.{has_float};
ghost use Rattle.ss_audit_laws.specs.Checks.{all_say, called_replies, called_reply, first_by, item_at};
ghost use Rattle.ss_audit.specs.declared.positions.Placed.{Placed};
ghost use Rattle.ss_audit.specs.Breaks.{BreaksAs};
ghost use Rattle.ss_audit.specs.Positions.{Finds, behind_placed, placed_lines, placed_requests, said_at};

use crate::asked::asked_by;
use crate::broken::Broken;
use crate::positions::{Placed, Positions, first_positions, position};
use crate::says::{behind_said, line_kind, nothing_left};
use serde_json::Value as Json;
use ss_lines::{Field, Line, line_json};
use ss_model::Request;
use ss_report_lines::said;
use ss_value::NoMemory;
use std::alloc::{AllocError, Global};

/// Notes at the end which request the line at this position is about, if it is about one.
fn place(placed: &mut Vec<Placed>, position: usize, by: Option<(u8, u64)>) -> Result<(), NoMemory>
    ensures { OnOk result (placed.new.items ≡ placed.old.items ++ behind_placed position by []) }
{
    match by {
        Some((client, index)) => {
            placed.push(Placed {
                client,
                index,
                position,
            })?;
            Ok(())
        }
        None => Ok(()),
    }
}

/// The requests that these entries are about, each where its line stands. Linear in the lines' bytes.
fn placed_lines(alloc: Global, entries: &[Line]) -> Result<Vec<Placed>, NoMemory>
    ensures { IfOk result (λ placed. placed.items ≡ placed_lines 0 entries.now) }
{
    let mut placed = Vec::new(alloc);
    for (position, line) in entries.iter().enumerate() {
        let kind = line_kind(alloc, line)?;
        place(&mut placed, position, asked_by(kind))?;
    }
    Ok(placed)
}

/// What the line at this position says, if it is there. Linear in the line.
fn said_at(alloc: Global, lines: &[Line], position: usize) -> Result<Option<Json>, NoMemory>
    ensures says { IfOk result (λ value. option_map view value ≡ said_at lines.now (Some position)) }
    ensures whole { IfOk result (λ value. IfSome value (λ v. has_float (view v) ≡ false)) }
{
    match lines.get(position) {
        Some(line) => {
            let value = said(alloc, line.bytes.as_slice())?;
            Ok(value)
        }
        None => Ok(None),
    }
}

/// What the first entry says that is about a client's request of this index. Linear in its line, and logarithmic in the entries.
fn first_by(
    alloc: Global,
    first: &Positions,
    entries: &[Line],
    client: u8,
    index: u64,
) -> Result<Option<Json>, NoMemory>
    requires { Finds (placed_lines 0 entries.now) first.now }
    ensures says { IfOk result (λ value. option_map view value ≡ first_by client index entries.now) }
    ensures whole { IfOk result (λ value. IfSome value (λ v. has_float (view v) ≡ false)) }
{
    match position(first, client, index) {
        Some(at) => {
            let value = said_at(alloc, entries, at)?;
            Ok(value)
        }
        None => Ok(None),
    }
}

/// A copy of the item of this number.
fn item_at(value: &Json, number: usize) -> Result<Json, AllocError>
    ensures { IfOk result (λ item. view item ≡ item_at number (view value.now)) }
{
    match value.get(number) {
        Some(item) => item.clone(),
        None => Ok(Json::Null),
    }
}

/// Adds a copy of the item of this number of a line.
fn push_copy(items: &mut Vec<Json>, value: &Json, number: usize) -> Result<(), AllocError>
    ensures { OnOk result (map view items.new.items ≡ map view items.old.items ++ item_at number (view value.now) ∷ []) }
{
    let item = item_at(value, number)?;
    items.push(item)?;
    Ok(())
}

/// The reply to a request whose entry has this line: its place and its outcome.
fn reply_to(alloc: Global, line: u64, entry: &Json) -> Result<Json, AllocError>
    ensures { IfOk result (λ reply. view reply ≡ called_reply line (Some (view entry.now))) }
{
    let kind = Json::try_from_str(alloc, "reply")?;
    let mut items = Vec::with_capacity(alloc, 4)?;
    items.push_reserved(kind);
    items.push_reserved(Json::from(line));
    push_copy(&mut items, entry, 1)?;
    push_copy(&mut items, entry, 4)?;
    Ok(Json::Array(items))
}

/// The reply that a printed entry calls for: its place and its outcome; and where there is none, that there was no memory.
fn called_reply(alloc: Global, line: u64, entry: &Option<Json>) -> Result<Json, AllocError>
    ensures { IfOk result (λ reply. view reply ≡ called_reply line (option_map view entry.now)) }
{
    match entry {
        Some(entry) => reply_to(alloc, line, entry),
        None => {
            let fields = [Field::Number(line), Field::Text("no_memory")];
            line_json(alloc, "reply", &fields)
        }
    }
}

/// The reply to a client's request of this index that the entries call for. Linear in the line of its entry, and logarithmic in the
/// entries.
fn reply_of(
    alloc: Global,
    first: &Positions,
    entries: &[Line],
    request: &Request,
    index: u64,
) -> Result<Json, NoMemory>
    requires { Finds (placed_lines 0 entries.now) first.now }
    ensures says { IfOk result (λ reply. view reply ≡ called_reply request.now.line (first_by request.now.client index entries.now)) }
    ensures whole { IfOk result (λ reply. has_float (view reply) ≡ false) }
{
    let entry = first_by(alloc, first, entries, request.client, index)?;
    let reply = called_reply(alloc, request.line, &entry)?;
    Ok(reply)
}

/// The index of the request at this position.
fn index_at(placed: &[Placed], position: usize) -> u64
    requires { position < length placed.now }
    ensures { (p : Placed) → slice_get placed.now position ≡ Some p → result ≡ p.index }
{
    placed[position].index
}

/// Checks that these lines are the replies that the entries call for, one to each request in order, where it is known which entry is
/// the first about each request.
fn all_replied(
    alloc: Global,
    requests: &[Request],
    placed: &[Placed],
    replies: &[Line],
    entries: &[Line],
    first: &Positions,
    end: u64,
) -> Result<(), Broken>
    requires placed { placed.now ≡ placed_requests [] requests.now }
    requires found { Finds (placed_lines 0 entries.now) first.now }
    ensures ok { OnOk result (all_say end (called_replies entries.now [] requests.now) replies.now ≡ Ok tt) }
    ensures broken { IfErr result (BreaksAs (all_say end (called_replies entries.now [] requests.now) replies.now)) }
{
    let mut rest = replies;
    for (at, request) in requests.iter().enumerate() {
        let index = index_at(placed, at);
        let reply = reply_of(alloc, first, entries, request, index)?;
        let behind = behind_said(alloc, &reply, rest, end)?;
        rest = behind;
    }
    nothing_left(rest)
}

/// Checks that these lines are the replies that the entries call for, one to each request in order.
///
/// Linear in the lines, and logarithmic in the entries for each request. The requests have their indices beside them.
pub(crate) fn check_replies(
    alloc: Global,
    requests: &[Request],
    placed: &[Placed],
    replies: &[Line],
    entries: &[Line],
    end: u64,
) -> Result<(), Broken>
    requires { placed.now ≡ placed_requests [] requests.now }
    ensures ok { OnOk result (all_say end (called_replies entries.now [] requests.now) replies.now ≡ Ok tt) }
    ensures broken { IfErr result (BreaksAs (all_say end (called_replies entries.now [] requests.now) replies.now)) }
{
    let lines = placed_lines(alloc, entries)?;
    let first = first_positions(alloc, lines.as_slice())?;
    all_replied(alloc, requests, placed, replies, entries, &first, end)
}
