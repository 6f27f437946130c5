//! Lines that have to say something.

ghost use Rattle.std.specs.Prelude.{◌≡◌, ℕ, [], ◌∷◌, IfOk, IfErr, Ok, OnOk, false};
ghost use Rattle.serde_json.specs.View.{view};
ghost use Rattle.serde_json.specs.Written.{has_float};
ghost use Rattle.ss_audit_laws.specs.Shape.{line_kind};
ghost use Rattle.ss_audit_laws.specs.Checks.{all_say, says};
ghost use Rattle.ss_audit.specs.Breaks.{BreaksAs};
ghost use Rattle.ss_audit.specs.Saying.{LeavesBehind, BreaksWithin};

use crate::broken::Broken;
use serde_json::Value as Json;
use ss_lines::Line;
use ss_report_lines::{LineKind, is_text_of, kind_of, said};
use ss_value::NoMemory;
use std::alloc::Global;

/// The kind of a line, where it is a line of a report. Linear in its bytes.
pub(crate) fn line_kind(alloc: Global, line: &Line) -> Result<Option<LineKind>, NoMemory>
    ensures { IfOk result (λ kind. kind ≡ line_kind line.now) }
{
    match said(alloc, line.bytes.as_slice())? {
        Some(value) => Ok(kind_of(&value)),
        None => Ok(None),
    }
}

/// Whether a line is the text of a value, which has no float. Linear in both.
pub(crate) fn says(alloc: Global, value: &Json, line: &Line) -> Result<bool, NoMemory>
    requires { has_float (view value.now) ≡ false }
    ensures { IfOk result (λ is. is ≡ says (view value.now) line.now) }
{
    is_text_of(alloc, value, line.bytes.as_slice())
}

/// The lines behind the first one, which has to say this value; this has no float. Linear in the value and in that line.
pub(crate) fn behind_said<'a>(
    alloc: Global,
    value: &Json,
    lines: &'a [Line],
    end: u64,
) -> Result<&'a [Line], Broken>
    requires { has_float (view value.now) ≡ false }
    ensures ok { IfOk result (λ rest. LeavesBehind end (view value.now ∷ []) lines.now rest.now) }
    ensures broken { IfErr result (BreaksWithin end (view value.now ∷ []) lines.now) }
{
    let Some((line, behind)) = lines.split_first() else {
        return Err(Broken::Line(end));
    };
    if !says(alloc, value, line)? {
        return Err(Broken::Line(line.number));
    }
    Ok(behind)
}

/// Checks that no line is left.
pub(crate) fn nothing_left(lines: &[Line]) -> Result<(), Broken>
    ensures ok { OnOk result ((end : ℕ) → all_say end [] lines.now ≡ Ok tt) }
    ensures broken { IfErr result (λ e. (end : ℕ) → BreaksAs (all_say end [] lines.now) e) }
{
    match lines.split_first() {
        Some((line, _)) => Err(Broken::Line(line.number)),
        None => Ok(()),
    }
}
