//! Lines to write, as JSON: each an array of a word for its kind, its plain fields and, where it has one, a last value.

ghost use Rattle.std.specs.Prelude.{◌≡◌, ◌++◌, [], ◌∷◌, map, IfOk, OnOk};
ghost use Rattle.serde_json.specs.Data.{string};
ghost use Rattle.serde_json.specs.View.{view};
ghost use Rattle.ss_lines.specs.Fields.{field_data, line_data};

use serde_json::Value as Json;
use std::alloc::{AllocError, Global};

/// A plain field of a line, lent and not copied.
///
/// A line is made of a slice of them in one loop, and not by a `json!` of its own: that has two ways out at each item, on
/// which all that was made before is let go.
#[derive(Clone, Copy, Drop)]
pub enum Field<'x> {
    /// A text.
    Text(&'x str),
    /// A number.
    Number(u64),
}

/// A field as JSON: a text as a string, a number as a number.
fn field_json(alloc: Global, field: Field) -> Result<Json, AllocError>
    ensures { IfOk result (λ v. view v ≡ field_data field.entry) }
{
    match field {
        Field::Text(text) => Json::try_from_str(alloc, text),
        Field::Number(number) => Ok(Json::from(number)),
    }
}

/// Adds a field to the items of a line.
fn push_field(alloc: Global, items: &mut Vec<Json>, field: Field) -> Result<(), AllocError>
    ensures { OnOk result (map view items.new.items ≡ map view items.old.items ++ field_data field.entry ∷ []) }
{
    let item = field_json(alloc, field)?;
    items.push(item)?;
    Ok(())
}

/// The items of a line but for a last value, for which there is room.
fn items_json(alloc: Global, kind: &str, fields: &[Field]) -> Result<Vec<Json>, AllocError>
    ensures { IfOk result (λ items. map view items.items ≡ string kind.now ∷ map field_data fields.now) }
{
    let mut items = Vec::with_capacity(alloc, fields.len().saturating_add(2))?;
    push_field(alloc, &mut items, Field::Text(kind))?;
    for field in fields {
        push_field(alloc, &mut items, *field)?;
    }
    Ok(items)
}

/// A line of plain fields alone. Linear in their texts, which are copied.
///
/// Answers `AllocError` where there is no memory for it.
pub fn line_json(alloc: Global, kind: &str, fields: &[Field]) -> Result<Json, AllocError>
    ensures { IfOk result (λ v. view v ≡ line_data kind.now fields.now []) }
{
    Ok(Json::Array(items_json(alloc, kind, fields)?))
}

/// A line of plain fields with a last value behind them, which is moved and not copied. Linear in the fields' texts.
///
/// Answers `AllocError` where there is no memory for it; the last value is let go then.
pub fn line_json_with(
    alloc: Global,
    kind: &str,
    fields: &[Field],
    last: Json,
) -> Result<Json, AllocError>
    ensures { IfOk result (λ v. view v ≡ line_data kind.now fields.now (view last ∷ [])) }
{
    let mut items = items_json(alloc, kind, fields)?;
    items.push(last)?;
    Ok(Json::Array(items))
}
