//! The outline of a value, and the checks of what is written.

ghost use Rattle.std.specs.Prelude.{◌≡◌, ◌++◌, codes, false, None, IfOk, OnOk, IfErr};
ghost use Rattle.serde_json.specs.Data.{Data};
ghost use Rattle.serde_json.specs.View.{view};
ghost use Rattle.ss_model.specs.declared.catalog.Catalog.{Catalog};
ghost use Rattle.ss_catalog_outline.specs.Limits.{is_too_many_to_number, over_limit};
ghost use Rattle.ss_catalog_outline.specs.Twice.{name_twice};
ghost use Rattle.ss_catalog_outline.specs.Unknown.{name_unknown};
ghost use Rattle.ss_catalog.specs.Checks.{IsShaped, HasDistinctNames, HasKnownNames, IsNumbered, HasRightOwners};
ghost use Rattle.ss_catalog.specs.Reads.{Refuses};

use crate::error::{CatalogError, Word};
use serde_json::Value as Json;
use ss_catalog_json::ReadError;
use ss_catalog_names::{name_twice, name_unknown};
use ss_catalog_outline::{Outline, is_too_many_to_number, over_limit, read_outline};
use ss_value::NoMemory;
use std::alloc::Global;

/// The path to a fault, from the way to it: `$` stands for the whole value.
fn path_of(alloc: Global, way: &Word) -> Result<Word, NoMemory>
    ensures { IfOk result (λ path. path ≡ codes "$" ++ way.now) }
{
    let way = way.as_str();
    let path = format!(in alloc; "${way}")?;
    Ok(Word::from_string(path))
}

/// C1: the outline of a value, or the path to its first fault.
pub fn read_shape(alloc: Global, value: &Json) -> Result<Outline, CatalogError>
    ensures ok { IfOk result (IsShaped (view value.now)) }
    ensures refused { IfErr result (Refuses (view value.now)) }
{
    match read_outline(alloc, value) {
        Ok(outline) => Ok(outline),
        Err(ReadError::NoMemory) => Err(CatalogError::NoMemory),
        Err(ReadError::Fault(way)) => {
            let path = path_of(alloc, &way)?;
            Err(CatalogError::Shape(path))
        }
    }
}

/// C2: no name is a duplicate.
fn check_names_once(alloc: Global, outline: &Outline) -> Result<(), CatalogError>
    ensures ok { OnOk result (name_twice outline.now ≡ None) }
    ensures refused { (d : Data) → IsShaped d outline.now → IfErr result (Refuses d) }
{
    match name_twice(alloc, outline)? {
        Some(name) => Err(CatalogError::Twice(name)),
        None => Ok(()),
    }
}

/// C3: each name in a field is known.
fn check_names_known(alloc: Global, outline: &Outline) -> Result<(), CatalogError>
    ensures ok { OnOk result (name_unknown outline.now ≡ None) }
    ensures refused { (d : Data) → HasDistinctNames d outline.now → IfErr result (Refuses d) }
{
    match name_unknown(alloc, outline)? {
        Some(name) => Err(CatalogError::Unknown(name)),
        None => Ok(()),
    }
}

/// C10, as far as it comes before SQL is read: no list is too long for the numbers of typed trees.
#[tactic(auto, using(crate::proofs::Limits::too_many_is_over))]
fn check_numbering(outline: &Outline) -> Result<(), CatalogError>
    ensures ok { OnOk result (is_too_many_to_number outline.now ≡ false) }
    ensures refused { (d : Data) → HasKnownNames d outline.now → IfErr result (Refuses d) }
{
    if !is_too_many_to_number(outline) {
        return Ok(());
    }
    match over_limit(outline) {
        Some(counted) => Err(CatalogError::Limit(counted)),
        // What can't be numbered is over its limit.
        None => unreachable!(),
    }
}

/// The checks of what is written, before any SQL is read, in the order of `read_catalog`.
pub fn check_outline(alloc: Global, outline: &Outline) -> Result<(), CatalogError>
    ensures ok { (d : Data) → IsShaped d outline.now → OnOk result (IsNumbered d outline.now) }
    ensures few { OnOk result (is_too_many_to_number outline.now ≡ false) }
    ensures refused { (d : Data) → IsShaped d outline.now → IfErr result (Refuses d) }
{
    check_names_once(alloc, outline)?;
    check_names_known(alloc, outline)?;
    // Before any SQL is read: the numbers in typed trees have 16 bits, and those of columns 8.
    check_numbering(outline)
}

/// C10: no count is over its limit.
pub fn check_counts(outline: &Outline) -> Result<(), CatalogError>
    ensures ok { OnOk result (over_limit outline.now ≡ None) }
    ensures refused { (d : Data) (c : Catalog) → HasRightOwners d outline.now c → IfErr result (Refuses d) }
{
    match over_limit(outline) {
        Some(over) => Err(CatalogError::Limit(over)),
        None => Ok(()),
    }
}
