//! Installs, and the body that a procedure has in a database.

ghost use Rattle.std.specs.Prelude.{◌≡◌, [], get_or, IfOk, OnErr, IfNone};
ghost use Rattle.std.specs.Option.{option_map};
ghost use Rattle.ss_model.specs.Database.{apply_install, install_fits, has_body, body_text, present};
ghost use Rattle.ss_model_computed.specs.Databases.{database_of, applied_of};

use crate::entries::calls::CLIENT_LIMIT;
use crate::entries::database::{Applied, Database};
use crate::lists::set_at;
use ss_model::{Catalog, Outcome, Procedure, Step};
use ss_value::{Copies, NoMemory, Seq};
use std::alloc::Global;

/// The text of a body has at most so many bytes.
const TEXT_LIMIT: usize = 1_048_576;

/// The steps of the body that a procedure has in a database.
pub fn present_steps<'a>(
    catalog: &'a Catalog,
    database: &Database,
    number: u16,
    procedure: &'a Procedure,
) -> &'a Seq<Step>
    ensures { result.now ≡ (present catalog.now (database_of database.now) number procedure.now).body }
{
    match database.bodies.get(usize::from(number)) {
        Some(text) => catalog.steps_named(usize::from(number), text.as_slice(), procedure),
        None => catalog.steps_named(usize::from(number), &[], procedure),
    }
}

/// Whether an install has a client below 8, a procedure that is no nest, and the text of a body that it may have.
fn install_fits(catalog: &Catalog, client: u8, number: u16, text: &Seq<u8>) -> bool
    ensures { result ≡ install_fits catalog.now client number text.now }
{
    client < CLIENT_LIMIT
        && catalog.takes_bodies(usize::from(number))
        && text.len() <= TEXT_LIMIT
        && catalog.has_body(usize::from(number), text.as_slice())
}

/// Applies an install: the procedure has the body with this text from then on.
pub fn apply_install(
    alloc: Global,
    catalog: &Catalog,
    database: &mut Database,
    client: u8,
    number: u16,
    text: &Seq<u8>,
) -> Result<Option<Applied>, NoMemory>
    ensures ok { IfOk result (λ applied.
        apply_install catalog.now (database_of database.old) client number text.now ≡ option_map (applied_of database.new) applied) }
    ensures refused { IfOk result (λ applied. IfNone applied (database.new ≡ database.old)) }
    ensures err { OnErr result (database.new ≡ database.old) }
{
    if !install_fits(catalog, client, number, text) {
        return Ok(None);
    }
    let installed = text.duplicate(alloc)?;
    set_at(&mut database.bodies, usize::from(number), installed);
    Ok(Some(Applied {
        outcome: Outcome::Done(Seq::new(alloc)),
        emitted: Seq::new(alloc),
    }))
}
