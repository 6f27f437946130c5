//! The catalogue of a JSON value with its nests.

ghost use Rattle.std.specs.Prelude.{◌≡◌, ◌≤◌, ◌++◌, Ok, None, codes, IfOk, OnOk, IfErr, IsUtf8};
ghost use Rattle.serde_json.specs.Data.{Data, depth};
ghost use Rattle.serde_json.specs.Find.{get};
ghost use Rattle.serde_json.specs.Read.{max_depth};
ghost use Rattle.serde_json.specs.View.{view};
ghost use Rattle.ss_model.specs.Accepted.{Accepted};
ghost use Rattle.ss_nest.specs.Outlines.{nests_key};
ghost use Rattle.ss_nest.specs.Members.{twice_in};
ghost use Rattle.ss_nest.specs.Told.{IsReadOf, ShapeAs};
ghost use Rattle.ss_nest.specs.Joinable.{open_nest, nest_of_two_touches, nest_with_batches};
ghost use Rattle.ss_nest.specs.Reads.{IsReadPlain, HasKnownMembers, HasDistinctMembers, HasClosedNests, HasTouchingNests, HasRightNests, ReadsNested, RefusesNested};

use crate::error::NestError;
use crate::joinable::{nest_of_two_touches, nest_with_batches, open_nest};
use crate::joined::join_catalog;
use crate::members::nests_of;
use crate::outline::{NestOutline, read_nests};
use crate::twice::twice_in;
use crate::without::{has_nests, without_nests};
use serde_json::Value as Json;
use ss_catalog::{Catalog, CatalogError, Word, read_catalog, text_of};
use ss_catalog_json::ReadError;
use ss_model::Nest;
use ss_nest_laws::nested_is_accepted;
use ss_value::{Copies, NoMemory, Seq};
use std::alloc::Global;

// ---- the checks, each over all nests

/// C1 to C10: the catalogue of a value without its nests.
fn read_plain(alloc: Global, value: Json) -> Result<Catalog, NestError>
    requires { depth (view value) ≤ max_depth }
    ensures ok { IfOk result (IsReadPlain (view value)) }
    ensures accepted { IfOk result Accepted }
    ensures refused { IfErr result (RefusesNested (view value)) }
{
    let rest = without_nests(value);
    match read_catalog(alloc, &rest) {
        Ok(plain) => Ok(plain),
        Err(CatalogError::NoMemory) => Err(NestError::NoMemory),
        Err(fault) => Err(NestError::Catalog(fault)),
    }
}

/// The path to a fault, from the way to it: `$` stands for the whole value.
fn path_of(alloc: Global, way: &Word) -> Result<Word, NoMemory>
    ensures { IfOk result (λ path. path ≡ codes "$" ++ way.now) }
{
    let way = way.as_str();
    let path = format!(in alloc; "${way}")?;
    Ok(Word::from_string(path))
}

/// N1: the nests as they are written, or the path to the first fault in them.
fn shaped(
    alloc: Global,
    read: Result<Seq<NestOutline>, ReadError>,
) -> Result<Seq<NestOutline>, NestError>
    ensures ok { IfOk result (λ outlines. read ≡ Ok outlines) }
    ensures refused { IfErr result (ShapeAs read) }
{
    match read {
        Ok(outlines) => Ok(outlines),
        Err(ReadError::NoMemory) => Err(NestError::NoMemory),
        Err(ReadError::Fault(way)) => {
            let path = path_of(alloc, &way)?;
            Err(NestError::Shape(path))
        }
    }
}

/// N3: nothing stands twice.
fn check_twice(alloc: Global, plain: &Catalog, nests: &[Nest]) -> Result<(), NestError>
    ensures ok { OnOk result (twice_in plain.now nests.now ≡ None) }
    ensures refused { (d : Data) → HasKnownMembers d plain.now nests.now → IfErr result (RefusesNested d) }
{
    match twice_in(alloc, plain, nests)? {
        Some(name) => Err(NestError::Twice(name)),
        None => Ok(()),
    }
}

/// N4: each nest is closed.
fn check_closed(alloc: Global, plain: &Catalog, nests: &[Nest]) -> Result<(), NestError>
    ensures ok { OnOk result (open_nest plain.now nests.now ≡ None) }
    ensures refused { (d : Data) → HasDistinctMembers d plain.now nests.now → IfErr result (RefusesNested d) }
{
    match open_nest(plain, nests) {
        Some(nest) => {
            let name = nest.name.duplicate(alloc)?;
            Err(NestError::NotClosed(name))
        }
        None => Ok(()),
    }
}

/// N5: the members of each nest have one touch set.
fn check_touch(alloc: Global, plain: &Catalog, nests: &[Nest]) -> Result<(), NestError>
    ensures ok { OnOk result (nest_of_two_touches plain.now nests.now ≡ None) }
    ensures refused { (d : Data) → HasClosedNests d plain.now nests.now → IfErr result (RefusesNested d) }
{
    match nest_of_two_touches(plain, nests) {
        Some(nest) => {
            let name = nest.name.duplicate(alloc)?;
            Err(NestError::Touch(name))
        }
        None => Ok(()),
    }
}

/// N6: no member owns a window of batches.
fn check_windows(alloc: Global, plain: &Catalog, nests: &[Nest]) -> Result<(), NestError>
    ensures ok { OnOk result (nest_with_batches plain.now nests.now ≡ None) }
    ensures refused { (d : Data) → HasTouchingNests d plain.now nests.now → IfErr result (RefusesNested d) }
{
    match nest_with_batches(plain, nests) {
        Some(nest) => {
            let name = nest.name.duplicate(alloc)?;
            Err(NestError::Window(name))
        }
        None => Ok(()),
    }
}

/// N3 to N6, in this order.
fn check_nests(alloc: Global, plain: &Catalog, nests: &[Nest]) -> Result<(), NestError>
    ensures ok { (d : Data) → HasKnownMembers d plain.now nests.now → OnOk result (HasRightNests d plain.now nests.now) }
    ensures refused { (d : Data) → HasKnownMembers d plain.now nests.now → IfErr result (RefusesNested d) }
{
    check_twice(alloc, plain, nests)?;
    check_closed(alloc, plain, nests)?;
    check_touch(alloc, plain, nests)?;
    check_windows(alloc, plain, nests)
}

// ---- the whole

/// The nests of a catalogue that was read from the rest of a value, as they were read beside it; or the first thing that is
/// wrong with them.
fn right_nests(
    alloc: Global,
    plain: &Catalog,
    read: Result<Seq<NestOutline>, ReadError>,
) -> Result<Seq<Nest>, NestError>
    ensures ok { (d : Data) → IsReadPlain d plain.now → IsReadOf d read → IfOk result (HasRightNests d plain.now) }
    ensures refused { (d : Data) → IsReadPlain d plain.now → IsReadOf d read → IfErr result (RefusesNested d) }
{
    let outlines = shaped(alloc, read)?;
    let nests = nests_of(alloc, plain, outlines.as_slice())?;
    check_nests(alloc, plain, nests.as_slice())?;
    Ok(nests)
}

/// The catalogue of a value without the key `nests`, or the first thing that is wrong with it.
fn read_alone(alloc: Global, value: &Json) -> Result<Catalog, NestError>
    requires levels { depth (view value.now) ≤ max_depth }
    requires missing { get nests_key (view value.now) ≡ None }
    ensures ok { IfOk result (ReadsNested (view value.now)) }
    ensures accepted { IfOk result Accepted }
    ensures utf8 { IfOk result (λ catalog. IsUtf8 catalog.text) }
    ensures refused { IfErr result (RefusesNested (view value.now)) }
{
    match read_catalog(alloc, value) {
        Ok(catalog) => Ok(catalog),
        Err(CatalogError::NoMemory) => Err(NestError::NoMemory),
        Err(fault) => Err(NestError::Catalog(fault)),
    }
}

/// The catalogue of a value with the key `nests`, or the first thing that is wrong with it.
fn read_joined(alloc: Global, value: Json) -> Result<Catalog, NestError>
    requires { depth (view value) ≤ max_depth }
    ensures ok { IfOk result (ReadsNested (view value)) }
    ensures accepted { IfOk result Accepted }
    ensures utf8 { IfOk result (λ catalog. IsUtf8 catalog.text) }
    ensures refused { IfErr result (RefusesNested (view value)) }
{
    let text = text_of(alloc, &value)?;
    let read = read_nests(alloc, &value);
    let plain = read_plain(alloc, value)?;
    let nests = right_nests(alloc, &plain, read)?;
    nested_is_accepted();
    let joined = join_catalog(alloc, plain, nests.as_slice(), text)?;
    Ok(joined)
}

/// The catalogue of a value with its nests, or the first thing that is wrong with it.
///
/// The value without its key `nests` is read first, as `read_catalog` does (C1 to C10). Then the nests are checked, each
/// check over all of them: shape (N1); names of border and interior procedures (N2); what stands twice (N3); closed
/// streams (N4); one touch set (N5); no windows of batches (N6). In the catalogue that is answered each nest stands as one
/// procedure in the place of its first listed member, and the other members are gone (`nested_catalog`). Its text is that
/// of the whole value. What is read is accepted. The value, of at most 127 levels, is taken, since its section of nests is
/// taken out of it.
///
/// A value without the key costs what `read_catalog` costs. One with it costs its text and a copy of the procedures and
/// windows more, and for each nest the bodies of its members, times the streams.
pub fn read_nested(alloc: Global, value: Json) -> Result<Catalog, NestError>
    requires { depth (view value) ≤ max_depth }
    ensures ok { IfOk result (ReadsNested (view value)) }
    ensures accepted { IfOk result Accepted }
    ensures utf8 { IfOk result (λ catalog. IsUtf8 catalog.text) }
    ensures refused { IfErr result (RefusesNested (view value)) }
{
    if has_nests(&value) {
        read_joined(alloc, value)
    } else {
        read_alone(alloc, &value)
    }
}
