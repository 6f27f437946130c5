//! A whole catalogue as JSON.

ghost use Rattle.std.specs.Prelude.{◌≡◌, Ok, IfOk, IfErr};
ghost use Rattle.serde_json.specs.View.{view};
ghost use Rattle.ss_catalog_json.specs.Readings.{FaultsAs};
ghost use Rattle.ss_catalog_outline.specs.Outlines.{read_section, read_outline};

use crate::procedures::ProcedureReader;
use crate::tables::{StreamReader, TableReader, TriggerReader, WindowReader};
use crate::types::Outline;
use serde_json::Value as Json;
use ss_catalog_json::{ArrayOf, ItemCount, ReadError, Reader, object_of, read_key_or};
use ss_value::Seq;
use std::alloc::Global;

fn read_section<R: Reader + Drop>(
    alloc: Global,
    value: &Json,
    key: &str,
    of: R,
) -> Result<Seq<R::Read>, ReadError>
where
    R::Read: Drop,
    ensures ok { IfOk result (λ xs. read_section key.now (R.reading of) (view value.now) ≡ Ok xs) }
    ensures refused { IfErr result (FaultsAs (read_section key.now (R.reading of) (view value.now))) }
{
    let items = ArrayOf {
        many: ItemCount::Any,
        of,
    };
    read_key_or(alloc, value, key, &items, Seq::new(alloc))
}

/// What a catalogue says, as it is written: names aren't looked up, and SQL isn't parsed.
///
/// Answers `Fault` exactly where the value has a fault, with the way to the first one. The sections are read in the
/// order tables, streams, windows, triggers, procedures, each in written order.
///
/// Linear in the value, in time and in the memory of the outline.
pub fn read_outline(alloc: Global, value: &Json) -> Result<Outline, ReadError>
    ensures ok { IfOk result (λ outline. read_outline (view value.now) ≡ Ok outline) }
    ensures refused { IfErr result (FaultsAs (read_outline (view value.now))) }
{
    object_of(
        alloc,
        value,
        &["tables", "streams", "windows", "triggers", "procedures"],
    )?;
    let tables = read_section(alloc, value, "tables", TableReader)?;
    let streams = read_section(alloc, value, "streams", StreamReader)?;
    let windows = read_section(alloc, value, "windows", WindowReader)?;
    let triggers = read_section(alloc, value, "triggers", TriggerReader)?;
    let procedures = read_section(alloc, value, "procedures", ProcedureReader)?;
    Ok(Outline {
        tables,
        streams,
        windows,
        triggers,
        procedures,
    })
}
