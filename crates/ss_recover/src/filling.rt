//! The bodies that a store's entries and the given catalogue name.
//!
//! An entry names a body by its text alone, so before the entries are replayed the catalogue gets each body that they name. What is no body
//! of any catalogue with this text isn't added, and the entry that names it doesn't replay: whatever bodies a catalogue has, none gets
//! past it.

ghost use Rattle.std.specs.Prelude.{◌≡◌, ◌⊎◌, [], ◌∷◌, true, OnOk, IfSome};
ghost use Rattle.ss_model.specs.Accepted.{Accepted};
ghost use Rattle.ss_model.specs.Database.{has_body};
ghost use Rattle.ss_snapshot.specs.Bodies.{HasNoBody};
ghost use Rattle.ss_snapshot.specs.Own.{IsReadFromItsText};
ghost use Rattle.ss_recover.specs.Loading.{AreBodies, AreNamed, AreSpares, HasGivenBodies, HasMore};

use ss_catalog::add_spare;
use ss_model::{Body, Catalog, Entry};
use ss_model_laws::spares_aside;
use ss_nest::{a_nested_body_has_one_answer, a_nested_value_has_one_answer, nested_body_of};
use ss_value::{NoMemory, Seq};
use std::alloc::Global;

/// Adds the body of a procedure with this text to those that may be installed, unless the catalogue has it, or there is none.
///
/// Costs as much as reading the catalogue where it hasn't.
fn fill_body(
    alloc: Global,
    catalog: &mut Catalog,
    procedure: u16,
    text: &[u8],
) -> Result<(), NoMemory>
    requires own { IsReadFromItsText catalog.old }
    requires accepted { Accepted catalog.old }
    ensures more { OnOk result (HasMore catalog.old catalog.new) }
    ensures named { OnOk result ((has_body catalog.new procedure text.now ≡ true) ⊎ HasNoBody catalog.new procedure text.now) }
{
    a_nested_body_has_one_answer();
    a_nested_value_has_one_answer();
    spares_aside();
    let number = usize::from(procedure);
    if number >= catalog.procedures.len() || catalog.has_body(number, text) {
        return Ok(());
    }
    match nested_body_of(alloc, catalog, procedure, text)? {
        None => Ok(()),
        Some(body) => {
            add_spare(alloc, catalog, procedure, body)?;
            Ok(())
        }
    }
}

/// Adds the body that an entry installs.
fn fill_entry(alloc: Global, catalog: &mut Catalog, entry: &Entry) -> Result<(), NoMemory>
    requires own { IsReadFromItsText catalog.old }
    requires accepted { Accepted catalog.old }
    ensures more { OnOk result (HasMore catalog.old catalog.new) }
    ensures named { OnOk result (AreNamed catalog.new (entry.now ∷ [])) }
{
    match entry {
        Entry::Install {
            procedure,
            text,
            ..
        } => fill_body(alloc, catalog, *procedure, text.as_slice()),
        _ => Ok(()),
    }
}

/// Adds the bodies that the entries install.
///
/// Costs as much as reading the catalogue for each text that the catalogue hasn't yet.
pub(crate) fn fill_installs(
    alloc: Global,
    catalog: &mut Catalog,
    entries: &[Entry],
) -> Result<(), NoMemory>
    requires own { IsReadFromItsText catalog.old }
    requires accepted { Accepted catalog.old }
    ensures more { OnOk result (HasMore catalog.old catalog.new) }
    ensures named { OnOk result (AreNamed catalog.new entries.now) }
{
    for entry in entries {
        fill_entry(alloc, catalog, entry)?;
    }
    Ok(())
}

/// Adds the bodies of one procedure that may be installed in a catalogue with the same text.
fn fill_bodies(
    alloc: Global,
    catalog: &mut Catalog,
    procedure: u16,
    bodies: &[Body],
) -> Result<(), NoMemory>
    requires own { IsReadFromItsText catalog.old }
    requires accepted { Accepted catalog.old }
    ensures more { OnOk result (HasMore catalog.old catalog.new) }
    ensures named { OnOk result (AreBodies catalog.new procedure bodies.now) }
{
    for body in bodies {
        fill_body(alloc, catalog, procedure, body.text.as_slice())?;
    }
    Ok(())
}

/// Adds the bodies that may be installed in a catalogue with the same text, by the numbers of the procedures.
fn fill_spares(alloc: Global, catalog: &mut Catalog, spares: &[Seq<Body>]) -> Result<(), NoMemory>
    requires own { IsReadFromItsText catalog.old }
    requires accepted { Accepted catalog.old }
    ensures more { OnOk result (HasMore catalog.old catalog.new) }
    ensures named { OnOk result (AreSpares catalog.new spares.now) }
{
    for (number, bodies) in spares.iter().enumerate() {
        // A catalogue has no more procedures than that.
        let Ok(procedure) = u16::try_from(number) else {
            return Err(NoMemory);
        };
        fill_bodies(alloc, catalog, procedure, bodies.as_slice())?;
    }
    Ok(())
}

/// Adds the bodies that may be installed in the given catalogue, where there is one that has the same text.
///
/// They are read again from their texts, since nothing copies a body, and each costs as much as reading the catalogue.
pub(crate) fn fill_given(
    alloc: Global,
    catalog: &mut Catalog,
    given: &Option<Catalog>,
) -> Result<(), NoMemory>
    requires own { IsReadFromItsText catalog.old }
    requires accepted { Accepted catalog.old }
    requires given { IfSome given.now IsReadFromItsText }
    ensures more { OnOk result (HasMore catalog.old catalog.new) }
    ensures bodies { OnOk result (HasGivenBodies catalog.new given.now) }
{
    a_nested_body_has_one_answer();
    a_nested_value_has_one_answer();
    let Some(given) = given else {
        return Ok(());
    };
    if given.text.as_slice() != catalog.text.as_slice() {
        return Ok(());
    }
    fill_spares(alloc, catalog, given.spares.as_slice())
}
