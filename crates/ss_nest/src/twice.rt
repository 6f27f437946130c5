//! What stands twice in nests.
//!
//! Looked up by walks: an accepted catalogue has at most 64 procedures, and no more of them stand in nests before one
//! stands there twice.

ghost use Rattle.std.specs.Prelude.{◌≡◌, ◌++◌, take, IfOk, IfNone};
ghost use Rattle.std.specs.List.{list_any};
ghost use Rattle.std.specs.Option.{option_map};
ghost use Rattle.std.specs.Str.{bytes_eq};
ghost use Rattle.ss_catalog.specs.Checks.{procedure_name};
ghost use Rattle.ss_nest.specs.Members.{stands_in, again, all_members, is_taken, member_again, twice_in};

use ss_catalog::Catalog;
use ss_model::{Nest, Procedure};
use ss_value::{Copies, Name, NoMemory, Seq};
use std::alloc::Global;

/// Whether a number is one of these.
pub(crate) fn stands_in(numbers: &[u16], procedure: usize) -> bool
    ensures { result ≡ stands_in numbers.now procedure }
{
    numbers
        .iter()
        .any(|number| usize::from(*number) == procedure)
}

/// Adds these procedures to those before them, up to the first that is one of those, which is answered.
fn add_members(before: &mut Seq<u16>, members: &[u16]) -> Result<Option<u16>, NoMemory>
    ensures found { IfOk result (λ found. found ≡ again before.old members.now) }
    ensures added { IfOk result (λ found. IfNone found (before.new ≡ before.old ++ members.now)) }
{
    for member in members {
        if stands_in(before.as_slice(), usize::from(*member)) {
            return Ok(Some(*member));
        }
        before.push(*member)?;
    }
    Ok(None)
}

/// Whether a procedure has this name.
fn is_named(procedure: &Procedure, name: &[u8]) -> bool
    ensures { result ≡ bytes_eq procedure.now.name name.now }
{
    procedure.name.as_bytes() == name
}

/// Whether a nest has this name.
fn is_nest_named(nest: &Nest, name: &[u8]) -> bool
    ensures { result ≡ bytes_eq nest.now.name name.now }
{
    nest.name.as_bytes() == name
}

/// Whether some procedure has this name.
fn names_procedure(catalog: &Catalog, name: &[u8]) -> bool
    ensures { result ≡ list_any (λ p. bytes_eq p.name name.now) catalog.now.procedures }
{
    catalog
        .procedures
        .as_slice()
        .iter()
        .any(|procedure| is_named(procedure, name))
}

/// Whether one of these nests has this name.
fn names_nest(nests: &[Nest], name: &[u8]) -> bool
    ensures { result ≡ list_any (λ n. bytes_eq n.name name.now) nests.now }
{
    nests.iter().any(|nest| is_nest_named(nest, name))
}

/// Whether a name is that of a procedure, or of one of these nests.
fn is_taken(catalog: &Catalog, before: &[Nest], name: &[u8]) -> bool
    ensures { result ≡ is_taken catalog.now before.now name.now }
{
    names_procedure(catalog, name) || names_nest(before, name)
}

/// The name of a procedure. `NoMemory` is the answer also where nothing has the number, but no member has such a number.
fn procedure_name(alloc: Global, catalog: &Catalog, procedure: u16) -> Result<Name, NoMemory>
    ensures { IfOk result (λ name. name ≡ procedure_name catalog.now procedure) }
{
    match catalog.procedures.get(usize::from(procedure)) {
        Some(found) => found.name.copy(alloc),
        None => Err(NoMemory),
    }
}

/// The name of the first procedure of a nest that is one of these before, or that the nest has twice; they join those.
fn member_again(
    alloc: Global,
    catalog: &Catalog,
    before: &mut Seq<u16>,
    nest: &Nest,
) -> Result<Option<Name>, NoMemory>
    ensures found { IfOk result (λ found. found ≡ option_map (procedure_name catalog.now) (again before.old nest.now.members)) }
    ensures added { IfOk result (λ found. IfNone found (before.new ≡ before.old ++ nest.now.members)) }
{
    match add_members(before, nest.members.as_slice())? {
        Some(member) => {
            let name = procedure_name(alloc, catalog, member)?;
            Ok(Some(name))
        }
        None => Ok(None),
    }
}

/// N3: the first name that stands twice: by nests, of each its own before those of its procedures.
///
/// A nest's name may be no other nest's and no procedure's; a procedure may stand once in all nests.
#[tactic(auto, using(crate::proofs::TwiceSteps::taken_first, crate::proofs::TwiceSteps::member_first, crate::proofs::TwiceSteps::goes_on, crate::proofs::TwiceSteps::members_more))]
pub(crate) fn twice_in(
    alloc: Global,
    catalog: &Catalog,
    nests: &[Nest],
) -> Result<Option<Name>, NoMemory>
    ensures { IfOk result (λ found. found ≡ twice_in catalog.now nests.now) }
{
    let mut before = Seq::new(alloc);
    for (number, nest) in nests.iter().enumerate() {
        if is_taken(catalog, &nests[..number], nest.name.as_bytes()) {
            return Ok(Some(nest.name.duplicate(alloc)?));
        }
        if let Some(name) = member_again(alloc, catalog, &mut before, nest)? {
            return Ok(Some(name));
        }
    }
    Ok(None)
}
