//! The value of a catalogue without its nests.

ghost use Rattle.std.specs.Prelude.{◌≡◌, is_some};
ghost use Rattle.serde_json.specs.Find.{get};
ghost use Rattle.serde_json.specs.View.{view};
ghost use Rattle.ss_nest.specs.Outlines.{nests_key, plain_value};

use serde_json::Value as Json;

/// Whether a value has the key `nests`. One look-up.
pub(crate) fn has_nests(value: &Json) -> bool
    ensures { result ≡ is_some (get nests_key (view value.now)) }
{
    value.get("nests").is_some()
}

/// The value without its key `nests`, which is let go. Takes no memory.
pub(crate) fn without_nests(value: Json) -> Json
    ensures { view result ≡ plain_value (view value) }
{
    match value {
        Json::Object(mut members) => {
            let _section = members.remove("nests");
            Json::Object(members)
        }
        other => other,
    }
}
