//! The text of a line that tells of a refusal.

ghost use Rattle.std.specs.Prelude.{◌≡◌, [], false, IfOk, string_bytes};
ghost use Rattle.serde_json.specs.View.{view};
ghost use Rattle.serde_json.specs.Written.{has_float};
ghost use Rattle.ss_lines.specs.Fields.{line_data};
ghost use Rattle.ss_model.specs.ReportLines.{line_text};

use serde_json::Value as Json;
use ss_lines::{Field, line_json};
use std::alloc::{AllocError, Global};

/// A value as compact JSON, with its line feed.
fn line_text(alloc: Global, value: &Json) -> Result<String, AllocError>
    requires { has_float (view value.now) ≡ false }
    ensures { IfOk result (λ text. string_bytes text ≡ line_text (view value.now)) }
{
    let mut text = value.to_string(alloc)?;
    text.push('\n')?;
    Ok(text)
}

/// A line of this kind with these fields, as compact JSON with its line feed. Linear in the fields' texts; errs where there is no
/// memory for it.
pub fn line_of(alloc: Global, kind: &str, fields: &[Field]) -> Result<String, AllocError>
    ensures { IfOk result (λ text. string_bytes text ≡ line_text (line_data kind.now fields.now [])) }
{
    let value = line_json(alloc, kind, fields)?;
    line_text(alloc, &value)
}
