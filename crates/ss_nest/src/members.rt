//! Which procedures are the members of nests.
//!
//! A name is looked up by a walk over the catalogue, which has at most 64 procedures.

ghost use Rattle.std.specs.Prelude.{◌≡◌, Ok, Some, None, IfOk, IfErr};
ghost use Rattle.ss_model.specs.Database.{is_streaming};
ghost use Rattle.ss_nest.specs.Members.{is_member_named, member_named, member_of, members_of, nest_of, nests_of};
ghost use Rattle.ss_nest.specs.Told.{UnknownAs};

use crate::error::NestError;
use crate::outline::NestOutline;
use ss_catalog::{Catalog, Word};
use ss_model::{Nest, ProcedureKind};
use ss_value::{Copies, Seq};
use std::alloc::Global;

/// Whether procedures of this kind take batches.
fn is_streaming(kind: ProcedureKind) -> bool
    ensures { result ≡ is_streaming kind }
{
    match kind {
        ProcedureKind::Call => false,
        ProcedureKind::Border => true,
        ProcedureKind::Interior => true,
    }
}

/// Whether the procedure of this number is a border or an interior one of this name.
fn is_member_named(catalog: &Catalog, name: &[u8], procedure: usize) -> bool
    ensures { result ≡ is_member_named catalog.now name.now procedure }
{
    match catalog.procedures.get(procedure) {
        Some(found) => is_streaming(found.kind) && found.name.as_bytes() == name,
        None => false,
    }
}

/// The number of the first border or interior procedure of this name.
fn member_named(catalog: &Catalog, name: &[u8]) -> Option<usize>
    ensures { result ≡ member_named catalog.now name.now }
{
    (0..catalog.procedures.len()).find(|procedure| is_member_named(catalog, name, *procedure))
}

/// N2: the number of the border or interior procedure of this name.
fn member_of(alloc: Global, catalog: &Catalog, name: &Word) -> Result<u16, NestError>
    ensures ok { IfOk result (λ q. member_of catalog.now name.now ≡ Ok q) }
    ensures refused { IfErr result (UnknownAs (member_of catalog.now name.now)) }
{
    match member_named(catalog, name.as_slice()) {
        Some(number) => match u16::try_from(number) {
            Ok(number) => Ok(number),
            // In an accepted catalogue each number fits.
            Err(_) => Err(NestError::NoMemory),
        },
        None => Err(NestError::Unknown(Word::of(alloc, name.as_str())?)),
    }
}

/// N2: the numbers of the procedures of these names, in order.
fn members_of(alloc: Global, catalog: &Catalog, names: &[Word]) -> Result<Seq<u16>, NestError>
    ensures ok { IfOk result (λ members. members_of catalog.now names.now ≡ Ok members) }
    ensures refused { IfErr result (UnknownAs (members_of catalog.now names.now)) }
{
    let mut members = Seq::new(alloc);
    for name in names {
        let member = member_of(alloc, catalog, name)?;
        members.push(member)?;
    }
    Ok(members)
}

/// N2: a nest with its procedures by number.
fn nest_of(alloc: Global, catalog: &Catalog, outline: &NestOutline) -> Result<Nest, NestError>
    ensures ok { IfOk result (λ nest. nest_of catalog.now outline.now ≡ Ok nest) }
    ensures refused { IfErr result (UnknownAs (nest_of catalog.now outline.now)) }
{
    let members = members_of(alloc, catalog, outline.procedures.as_slice())?;
    let name = outline.name.duplicate(alloc)?;
    Ok(Nest { name, members })
}

/// N2: nests with their procedures by number, in order; or the first name that is no border or interior procedure's.
/// For each name linear in the procedures.
pub(crate) fn nests_of(
    alloc: Global,
    catalog: &Catalog,
    outlines: &[NestOutline],
) -> Result<Seq<Nest>, NestError>
    ensures ok { IfOk result (λ nests. nests_of catalog.now outlines.now ≡ Ok nests) }
    ensures refused { IfErr result (UnknownAs (nests_of catalog.now outlines.now)) }
{
    let mut nests = Seq::new(alloc);
    for outline in outlines {
        let nest = nest_of(alloc, catalog, outline)?;
        nests.push(nest)?;
    }
    Ok(nests)
}
