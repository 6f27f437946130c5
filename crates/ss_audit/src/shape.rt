//! The first check: the lines of a report, one after another.

ghost use Rattle.std.specs.Prelude.{◌≡◌, IfOk, IfErr, None, cond, length};
ghost use Rattle.std.specs.Str.{bytes_eq};
ghost use Rattle.serde_json.specs.View.{view};
ghost use Rattle.ss_report_lines.specs.Kinds.{kind_of};
ghost use Rattle.ss_audit_laws.specs.Shape.{text_at, head_rows, is_reply_to, is_entry, rows_of_table, is_row_of, is_done_line, behind_replies, behind_rows, behind_table, behind_tables, the_end, first_entries};
ghost use Rattle.ss_audit.specs.Breaks.{BreaksAs};
ghost use Rattle.ss_audit.specs.Lent.{names_of};

use crate::broken::Broken;
use crate::says::line_kind;
use serde_json::Value as Json;
use ss_lines::Line;
use ss_model::Request;
use ss_report::ByName;
use ss_report_lines::{LineKind, kind_of, said};
use ss_value::NoMemory;
use std::alloc::Global;

/// The text of the item of this number, and the empty text where there is none.
pub(crate) fn text_at(number: usize, value: &Json) -> &str
    ensures { result.now ≡ text_at number (view value.now) }
{
    match value.get(number) {
        Some(item) => match item.as_str() {
            Some(text) => text,
            None => "",
        },
        None => "",
    }
}

/// Whether a line is a reply to the request on this line of the input.
fn is_reply_to(line: u64, kind: Option<LineKind>) -> bool
    ensures { result ≡ is_reply_to line kind }
{
    match kind {
        Some(LineKind::Reply { line: other }) => line == other,
        _ => false,
    }
}

/// Whether a line is an entry.
fn is_entry(kind: Option<LineKind>) -> bool
    ensures { result ≡ is_entry kind }
{
    match kind {
        Some(
            LineKind::Call { .. }
            | LineKind::Push { .. }
            | LineKind::Install { .. }
            | LineKind::Step { .. },
        ) => true,
        _ => false,
    }
}

/// How many rows a line announces, where it is the head of a table.
fn head_rows(kind: Option<LineKind>) -> Option<u64>
    ensures { result ≡ head_rows kind }
{
    match kind {
        Some(LineKind::Table { rows }) => Some(rows),
        _ => None,
    }
}

/// How many rows a value announces, where it is the head of the table of this name.
fn announced(name: &str, value: &Json) -> Option<u64>
    ensures { result ≡ cond (bytes_eq (text_at 1 (view value.now)) name.now) (head_rows (kind_of (view value.now))) None }
{
    if text_at(1, value) == name {
        head_rows(kind_of(value))
    } else {
        None
    }
}

/// How many rows a line announces, where it is the head of the table of this name.
fn rows_of_table(alloc: Global, name: &str, line: &Line) -> Result<Option<u64>, NoMemory>
    ensures { IfOk result (λ rows. rows ≡ rows_of_table name.now line.now) }
{
    let Some(value) = said(alloc, line.bytes.as_slice())? else {
        return Ok(None);
    };
    Ok(announced(name, &value))
}

/// Whether a line is a row of the table of this name.
fn is_row_of(alloc: Global, name: &str, line: &Line) -> Result<bool, NoMemory>
    ensures { IfOk result (λ is. is ≡ is_row_of name.now line.now) }
{
    let Some(value) = said(alloc, line.bytes.as_slice())? else {
        return Ok(false);
    };
    match kind_of(&value) {
        Some(LineKind::Row) => Ok(text_at(1, &value) == name),
        _ => Ok(false),
    }
}

/// The lines behind the replies: one to each request, in order.
pub(crate) fn behind_replies<'a>(
    alloc: Global,
    requests: &[Request],
    lines: &'a [Line],
    end: u64,
) -> Result<&'a [Line], Broken>
    ensures ok { IfOk result (λ rest. behind_replies end requests.now lines.now ≡ Ok rest.now) }
    ensures broken { IfErr result (BreaksAs (behind_replies end requests.now lines.now)) }
{
    let mut rest = lines;
    for request in requests {
        let Some((line, behind)) = rest.split_first() else {
            return Err(Broken::Line(end));
        };
        if !is_reply_to(request.line, line_kind(alloc, line)?) {
            return Err(Broken::Line(line.number));
        }
        rest = behind;
    }
    Ok(rest)
}

/// How many entries lines begin with.
pub(crate) fn entry_count(alloc: Global, lines: &[Line]) -> Result<usize, NoMemory>
    ensures { IfOk result (λ count. count ≡ length (first_entries lines.now)) }
{
    let mut count = 0;
    for line in lines {
        if !is_entry(line_kind(alloc, line)?) {
            return Ok(count);
        }
        count += 1;
    }
    Ok(count)
}

/// The lines behind this many rows of the table of this name.
fn behind_rows<'a>(
    alloc: Global,
    name: &str,
    rows: u64,
    lines: &'a [Line],
    end: u64,
) -> Result<&'a [Line], Broken>
    ensures ok { IfOk result (λ rest. behind_rows end name.now rows lines.now ≡ Ok rest.now) }
    ensures broken { IfErr result (BreaksAs (behind_rows end name.now rows lines.now)) }
{
    let mut rest = lines;
    let mut left = rows;
    while left > 0 {
        let Some((line, behind)) = rest.split_first() else {
            return Err(Broken::Line(end));
        };
        if !is_row_of(alloc, name, line)? {
            return Err(Broken::Line(line.number));
        }
        rest = behind;
        left -= 1;
    }
    Ok(rest)
}

/// The lines behind the table of this name, with as many rows as its head announces.
pub(crate) fn behind_table<'a>(
    alloc: Global,
    name: &str,
    lines: &'a [Line],
    end: u64,
) -> Result<&'a [Line], Broken>
    ensures ok { IfOk result (λ rest. behind_table end name.now lines.now ≡ Ok rest.now) }
    ensures broken { IfErr result (BreaksAs (behind_table end name.now lines.now)) }
{
    let Some((line, behind)) = lines.split_first() else {
        return Err(Broken::Line(end));
    };
    match rows_of_table(alloc, name, line)? {
        Some(rows) => behind_rows(alloc, name, rows, behind, end),
        None => Err(Broken::Line(line.number)),
    }
}

/// The lines behind these tables, each with as many rows as its head announces.
pub(crate) fn behind_tables<'a>(
    alloc: Global,
    tables: &ByName,
    lines: &'a [Line],
    end: u64,
) -> Result<&'a [Line], Broken>
    ensures ok { IfOk result (λ rest. behind_tables end (names_of tables.now) lines.now ≡ Ok rest.now) }
    ensures broken { IfErr result (BreaksAs (behind_tables end (names_of tables.now) lines.now)) }
{
    let mut rest = lines;
    for defined in tables.values() {
        let behind = behind_table(alloc, defined.def.name.as_str(), rest, end)?;
        rest = behind;
    }
    Ok(rest)
}

/// The end, behind which nothing stands.
pub(crate) fn the_end<'a>(alloc: Global, lines: &'a [Line], end: u64) -> Result<&'a Line, Broken>
    ensures ok { IfOk result (λ last. the_end end lines.now ≡ Ok last.now) }
    ensures broken { IfErr result (BreaksAs (the_end end lines.now)) }
{
    let Some((line, behind)) = lines.split_first() else {
        return Err(Broken::Line(end));
    };
    let Some(LineKind::Done { .. }) = line_kind(alloc, line)? else {
        return Err(Broken::Line(line.number));
    };
    match behind.split_first() {
        Some((more, _)) => Err(Broken::Line(more.number)),
        None => Ok(line),
    }
}
