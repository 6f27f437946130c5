//! Bodies for the procedures of a catalogue with nests.
//!
//! A body is checked as if it stood in the catalogue without nests, in the place of the own body of the procedure of the
//! same name. A nest is no procedure there, and has no body but its own.

ghost use Rattle.std.specs.Prelude.{◌≡◌, ◌≤◌, ◌<◌, length, unwrap_or, IfOk, IfErr, IfSome};
ghost use Rattle.std.specs.Str.{bytes_eq};
ghost use Rattle.serde_json.specs.Data.{depth};
ghost use Rattle.serde_json.specs.Read.{max_depth};
ghost use Rattle.serde_json.specs.View.{view};
ghost use Rattle.ss_catalog.specs.Bodies.{MayHave};
ghost use Rattle.ss_catalog.specs.Checks.{procedure_name};
ghost use Rattle.ss_nest.specs.Reads.{WasNested};
ghost use Rattle.ss_nest.specs.Bodies.{number_named, IsPlainOf, NestedBodyReads, RefusesNestedBody, IsNestedBodyIfAny};

use crate::laws::a_nested_body_has_one_answer;
use crate::without::{has_nests, without_nests};
use serde_json::Value as Json;
use ss_catalog::{
    Body, Catalog, CatalogError, a_value_has_one_answer, body_of, read_body, read_catalog,
};
use ss_value::NoMemory;
use std::alloc::Global;

/// The catalogue without its nests, read again from the text of the whole; none where the text has no nests, and the
/// catalogue is its own. Costs what `read_catalog` costs, or the reading of the JSON alone where there are no nests.
fn plain_again(alloc: Global, catalog: &Catalog) -> Result<Option<Catalog>, NoMemory>
    ensures { IfOk result (λ found. IsPlainOf catalog.now (unwrap_or found catalog.now)) }
{
    a_value_has_one_answer();
    // What was read once is read again, so both errors are out of memory.
    let Ok(value) = Json::from_slice(alloc, catalog.text.as_slice()) else {
        return Err(NoMemory);
    };
    if !has_nests(&value) {
        return Ok(None);
    }
    let rest = without_nests(value);
    match read_catalog(alloc, &rest) {
        Ok(plain) => Ok(Some(plain)),
        Err(_) => Err(NoMemory),
    }
}

/// Whether the procedure of this number has this name; where there is none, whether the name is empty.
fn is_named(catalog: &Catalog, name: &[u8], procedure: usize) -> bool
    ensures { result ≡ bytes_eq (procedure_name catalog.now procedure) name.now }
{
    match catalog.procedures.get(procedure) {
        Some(found) => found.name.as_bytes() == name,
        None => name.is_empty(),
    }
}

/// The number of the first procedure of this name. Linear in the procedures.
fn number_named(catalog: &Catalog, name: &[u8]) -> Option<usize>
    ensures { result ≡ number_named catalog.now name.now }
{
    (0..catalog.procedures.len()).find(|procedure| is_named(catalog, name, *procedure))
}

/// The name of a procedure, empty where there is none of the number.
fn name_of(catalog: &Catalog, procedure: u16) -> &[u8]
    ensures { result.now ≡ procedure_name catalog.now procedure }
{
    match catalog.procedures.get(usize::from(procedure)) {
        Some(found) => found.name.as_bytes(),
        None => &[],
    }
}

/// The number that a procedure has in the catalogue without nests, and none where it is a nest.
fn plain_number(catalog: &Catalog, plain: &Catalog, procedure: u16) -> Result<Option<u16>, NoMemory>
    ensures number { IfOk result (λ found. found ≡ number_named plain.now (procedure_name catalog.now procedure)) }
    ensures within { IfOk result (λ found. IfSome found (λ n. n < length plain.now.procedures)) }
{
    match number_named(plain, name_of(catalog, procedure)) {
        Some(number) => match u16::try_from(number) {
            Ok(number) => Ok(Some(number)),
            // In an accepted catalogue each number fits.
            Err(_) => Err(NoMemory),
        },
        None => Ok(None),
    }
}

/// The body of a procedure that a value is, by the catalogue without nests.
fn read_body_in(
    alloc: Global,
    catalog: &Catalog,
    plain: &Catalog,
    procedure: u16,
    value: &Json,
) -> Result<Body, CatalogError>
    requires levels { depth (view value.now) ≤ max_depth }
    requires was_read { WasNested catalog.now }
    requires is_plain { IsPlainOf catalog.now plain.now }
    ensures ok { IfOk result (NestedBodyReads catalog.now procedure (view value.now)) }
    ensures refused { IfErr result (RefusesNestedBody catalog.now procedure (view value.now)) }
{
    let Some(number) = plain_number(catalog, plain, procedure)? else {
        // Callers rule out nests.
        return Err(CatalogError::NoMemory);
    };
    read_body(alloc, plain, number, value)
}

/// The body of a procedure that a value is, or the first thing that is wrong with it.
///
/// A body is refused exactly where `read_catalog` refuses the value of the catalogue without nests and with this body in
/// place of the procedure's own, and with the same error: in the paths of shapes the procedure has its written number.
/// The procedure may have the body (`MayHave`) beside the nests, too. The catalogue has to be one that was read by
/// `read_nested`, with whatever bodies to be installed, and the procedure no nest; the value has at most 127 levels.
///
/// Costs what `read_catalog` costs, and as much again where the catalogue has nests.
pub fn read_nested_body(
    alloc: Global,
    catalog: &Catalog,
    procedure: u16,
    value: &Json,
) -> Result<Body, CatalogError>
    requires levels { depth (view value.now) ≤ max_depth }
    requires was_read { WasNested catalog.now }
    ensures ok { IfOk result (NestedBodyReads catalog.now procedure (view value.now)) }
    ensures may_have { IfOk result (λ body. MayHave catalog.now procedure body.steps) }
    ensures refused { IfErr result (RefusesNestedBody catalog.now procedure (view value.now)) }
{
    a_nested_body_has_one_answer();
    match plain_again(alloc, catalog)? {
        Some(plain) => read_body_in(alloc, catalog, &plain, procedure, value),
        None => read_body_in(alloc, catalog, catalog, procedure, value),
    }
}

/// The body of a procedure whose text this is, by the catalogue without nests.
fn body_of_in(
    alloc: Global,
    catalog: &Catalog,
    plain: &Catalog,
    procedure: u16,
    text: &[u8],
) -> Result<Option<Body>, NoMemory>
    requires was_read { WasNested catalog.now }
    requires is_plain { IsPlainOf catalog.now plain.now }
    ensures { IfOk result (IsNestedBodyIfAny catalog.now procedure text.now) }
{
    let Some(number) = plain_number(catalog, plain, procedure)? else {
        return Ok(None);
    };
    body_of(alloc, plain, number, text)
}

/// The body of a procedure whose text this is, and none exactly where it is the text of none: where the procedure is a
/// nest, where the text isn't the compact one of a value, or where `read_nested_body` refuses the value.
///
/// Costs what `read_nested_body` costs.
pub fn nested_body_of(
    alloc: Global,
    catalog: &Catalog,
    procedure: u16,
    text: &[u8],
) -> Result<Option<Body>, NoMemory>
    requires was_read { WasNested catalog.now }
    ensures ok { IfOk result (IsNestedBodyIfAny catalog.now procedure text.now) }
    ensures may_have { IfOk result (λ found. IfSome found (λ body. MayHave catalog.now procedure body.steps)) }
{
    a_nested_body_has_one_answer();
    match plain_again(alloc, catalog)? {
        Some(plain) => body_of_in(alloc, catalog, &plain, procedure, text),
        None => body_of_in(alloc, catalog, catalog, procedure, text),
    }
}
