//! Runs a ready procedure on its next batch.

ghost use Rattle.std.specs.Prelude.{◌≡◌, true, length, IfSome, IfNone};
ghost use Rattle.ss_model.specs.Accepted.{Accepted};
ghost use Rattle.ss_model.specs.Replays.{after};
ghost use Rattle.ss_model.specs.Settling.{is_ready_now};
ghost use Rattle.ss_run.specs.BySteps.{NextJoined};
ghost use Rattle.ss_run.specs.Stands.{IsAt};

use crate::entry::{Store, list_entry};
use crate::origin::Origin;
use ss_model::{Catalog, Entry};
use std::alloc::Global;

/// Runs a ready procedure on its next batch, and puts this step at the end of the list. Answers its place.
///
/// Costs what `list_entry` costs. None means out of memory: then list and database are as they were.
pub fn run_step<O: Origin>(
    alloc: Global,
    catalog: &Catalog,
    store: &mut Store,
    procedure: u16,
) -> Option<u64>
    requires accepted { Accepted catalog.now }
    requires at { IsAt catalog.now O.opening store.old }
    requires ready { is_ready_now catalog.now (after catalog.now O.opening store.old.list) procedure ≡ true }
    ensures at { IsAt catalog.now O.opening store.new }
    ensures some { IfSome result (λ place. (place ≡ length store.old.list) × NextJoined catalog.now O.opening store.old.list store.new.list procedure) }
    ensures none { IfNone result (store.new.list ≡ store.old.list) }
{
    let batch = store.database.whole.cursors()[usize::from(procedure)];
    let entry = Entry::Step { procedure, batch };
    list_entry::<O>(alloc, catalog, store, entry)
}
