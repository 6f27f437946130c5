//! The accepted catalogue of a base, and the bodies that may be installed in it.

ghost use Rattle.std.specs.Prelude.{◌<◌, length, IfOk, OnOk};
ghost use Rattle.ss_model.specs.Accepted.{Accepted};
ghost use Rattle.ss_nest.specs.Reads.{WasNested};

use crate::entries::{body_at, install_in};
use serde_json::Value as Json;
use ss_case_files::{Wrong, text_of};
use ss_catalog::add_spare;
use ss_model::Catalog;
use ss_model_laws::spares_aside;
use ss_nest::{nested_body_of, read_nested};
use std::alloc::{AllocError, Global};

/// The catalogue of a base that has no marks any more.
fn read_base(alloc: Global, text: &str) -> Result<Catalog, Wrong>
    ensures accepted { IfOk result Accepted }
    ensures read { IfOk result WasNested }
{
    let Ok(value) = Json::from_str(alloc, text) else {
        return Err(Wrong::text(alloc, "the base is no JSON"));
    };
    match read_nested(alloc, value) {
        Ok(catalog) => Ok(catalog),
        Err(_) => Err(Wrong::text(alloc, "the base is no accepted catalogue")),
    }
}

/// The catalogue of a base, whose marks are taken for what they mean. Wrong where the base is no JSON or is refused. It costs
/// what `read_nested` does.
pub fn catalog_of(alloc: Global, base: &str) -> Result<Catalog, Wrong>
    ensures { IfOk result Accepted }
{
    let text = text_of(alloc, base)?;
    read_base(alloc, text.as_str())
}

/// The body with this text may be installed for the procedure; nothing changes where it is the text of none.
fn add_body(alloc: Global, catalog: &mut Catalog, procedure: u16, text: &str) -> Result<(), Wrong>
    requires accepted { Accepted catalog.old }
    requires was_read { WasNested catalog.old }
    requires within { procedure < length catalog.old.procedures }
    ensures accepted { OnOk result (Accepted catalog.new) }
    ensures read { OnOk result (WasNested catalog.new) }
{
    // A law: with a body more a catalogue stays accepted.
    spares_aside();
    match nested_body_of(alloc, catalog, procedure, text.as_bytes())? {
        Some(body) => Ok(add_spare(alloc, catalog, procedure, body)?),
        None => Ok(()),
    }
}

/// The body that an entry installs may be installed. Nothing changes where it installs none, or for no procedure.
fn add_body_of(alloc: Global, catalog: &mut Catalog, asked: &str) -> Result<(), Wrong>
    requires accepted { Accepted catalog.old }
    requires was_read { WasNested catalog.old }
    ensures accepted { OnOk result (Accepted catalog.new) }
    ensures read { OnOk result (WasNested catalog.new) }
{
    let Some(given) = install_in(asked) else {
        return Ok(());
    };
    let (procedure, text) = body_at(alloc, catalog, given)?;
    if usize::from(procedure) < catalog.procedures.len() {
        add_body(alloc, catalog, procedure, text)
    } else {
        Ok(())
    }
}

/// The entries of lines that install a body.
pub fn installs_in<'a>(alloc: Global, lines: &'a str) -> Result<Vec<&'a str>, AllocError> {
    let mut installs = Vec::new(alloc);
    for line in lines.split('\n') {
        let (asked, _) = line.split_once(" -> ").unwrap_or((line, ""));
        if install_in(asked).is_some() {
            installs.push(asked)?;
        }
    }
    Ok(installs)
}

/// The catalogue of a base that has no marks any more, in which the bodies may be installed that entries install. What is
/// the text of no body is passed over. Wrong where the base is no JSON or is refused, and where an install names no
/// procedure. It costs what `read_nested` does, and as much again for each install.
pub fn catalog_with_bodies(alloc: Global, base: &str, entries: &[&str]) -> Result<Catalog, Wrong>
    ensures { IfOk result Accepted }
{
    let mut catalog = read_base(alloc, base)?;
    for asked in entries {
        add_body_of(alloc, &mut catalog, asked)?;
    }
    Ok(catalog)
}

/// The catalogue of a base, in which the bodies may be installed that the lines of a block install. The marks of both are
/// taken for what they mean. Wrong where the base is no JSON or is refused, and where an install names no procedure. It
/// costs what `read_nested` does, and as much again for each install.
pub fn catalog_of_lines(alloc: Global, base: &str, lines: &[String]) -> Result<Catalog, Wrong>
    ensures { IfOk result Accepted }
{
    let base = text_of(alloc, base)?;
    let lines = text_of(alloc, lines.join(alloc, "␤")?.as_str())?;
    let installs = installs_in(alloc, lines.as_str())?;
    catalog_with_bodies(alloc, base.as_str(), installs.as_slice())
}
