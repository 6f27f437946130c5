//! The texts of the procedures' own bodies.

ghost use Rattle.std.specs.Prelude.{◌≡◌, ◌≤◌, false, IfOk};
ghost use Rattle.serde_json.specs.Data.{depth, items_depth};
ghost use Rattle.serde_json.specs.Read.{max_depth};
ghost use Rattle.serde_json.specs.View.{view, items_view};
ghost use Rattle.serde_json.specs.Written.{has_float, items_have_float};
ghost use Rattle.ss_catalog.specs.Texts.{procedure_values, body_text, each_body_text, body_texts};

use crate::resolve::text_of;
use serde_json::Value as Json;
use ss_value::{NoMemory, Seq};
use std::alloc::Global;

/// The values of the procedures of a catalogue's value.
fn procedure_values(value: &Json) -> &[Json]
    ensures { items_view result.now ≡ procedure_values (view value.now) }
{
    match value.get("procedures").and_then(Json::as_array) {
        Some(procedures) => procedures.as_slice(),
        None => &[],
    }
}

/// The compact text of the body of a procedure's value, empty where it has no body. Linear in the body.
fn body_text(alloc: Global, procedure: &Json) -> Result<Seq<u8>, NoMemory>
    requires levels { depth (view procedure.now) ≤ max_depth }
    requires no_float { has_float (view procedure.now) ≡ false }
    ensures { IfOk result (λ text. text ≡ body_text (view procedure.now)) }
{
    match procedure.get("body") {
        Some(body) => text_of(alloc, body),
        None => Ok(Seq::new(alloc)),
    }
}

/// The same of some procedures' values, in order. Linear in them.
fn each_body_text(alloc: Global, procedures: &[Json]) -> Result<Seq<Seq<u8>>, NoMemory>
    requires levels { items_depth (items_view procedures.now) ≤ max_depth }
    requires no_float { items_have_float (items_view procedures.now) ≡ false }
    ensures { IfOk result (λ texts. texts ≡ each_body_text (items_view procedures.now)) }
{
    let mut texts = Seq::new(alloc);
    for procedure in procedures {
        let text = body_text(alloc, procedure)?;
        texts.push(text)?;
    }
    Ok(texts)
}

/// The compact texts of the bodies of a catalogue's value, by the numbers of the procedures. Linear in the value.
pub fn body_texts(alloc: Global, value: &Json) -> Result<Seq<Seq<u8>>, NoMemory>
    requires levels { depth (view value.now) ≤ max_depth }
    requires no_float { has_float (view value.now) ≡ false }
    ensures { IfOk result (λ texts. texts ≡ body_texts (view value.now)) }
{
    each_body_text(alloc, procedure_values(value))
}
