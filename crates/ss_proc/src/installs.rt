//! Installs, which run no body.

ghost use Rattle.std.specs.Prelude.{◌≡◌, [], true};
ghost use Rattle.ss_model.specs.declared.entry.Outcome.TheVariants.{Done};
ghost use Rattle.ss_model.specs.Database.{has_body};
ghost use Rattle.ss_proc.specs.Entries.{Installs};

use crate::runner::Executed;
use ss_model::{Catalog, Outcome};
use ss_shard::{Shard, body_number};
use ss_value::Seq;
use std::alloc::Global;

/// Runs an install: the procedure is to have the body with this text from the commit on. It is done, and changes nothing else.
///
/// Linear in the texts of the bodies that the procedure may have; takes no memory.
pub fn run_install(
    alloc: Global,
    catalog: &Catalog,
    shard: &mut Shard,
    procedure: u16,
    text: &[u8],
) -> Executed
    requires { has_body catalog.now procedure text.now ≡ true }
    ensures outcome { result.outcome ≡ Done [] }
    ensures emitted { result.emitted ≡ [] }
    ensures installs { Installs catalog.now procedure text.now shard.old shard.new }
{
    let Some(number) = body_number(catalog, procedure, text) else {
        unreachable!()
    };
    shard.install(procedure, number);
    Executed {
        outcome: Outcome::Done(Seq::new(alloc)),
        emitted: Seq::new(alloc),
    }
}
