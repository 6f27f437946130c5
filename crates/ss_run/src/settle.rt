//! Settling: runs steps until no procedure is ready.

ghost use Rattle.std.specs.Prelude.{◌≡◌, OnOk};
ghost use Rattle.ss_model.specs.Accepted.{Accepted};
ghost use Rattle.ss_model.specs.Replays.{after};
ghost use Rattle.ss_model.specs.Settling.{Drained};
ghost use Rattle.ss_run.specs.BySteps.{GoesOnBySteps, SettledBy};
ghost use Rattle.ss_run.specs.Stands.{IsAt};

use crate::entry::Store;
use crate::origin::Origin;
use crate::steps::run_step;
use ss_model::Catalog;
use ss_sched::{Ranks, next_ranked};
use ss_value::NoMemory;
use std::alloc::Global;

/// Runs the ready procedure of least rank, and of those the one of least number, until none is ready.
///
/// These are just the steps of the definition, in its order, as many as were pending. Each costs what `run_step` costs, and
/// a look at each input of each procedure. At out of memory the steps so far are in the list.
pub fn settle<O: Origin>(
    alloc: Global,
    catalog: &Catalog,
    store: &mut Store,
) -> Result<(), NoMemory>
    requires accepted { Accepted catalog.now }
    requires at { IsAt catalog.now O.opening store.old }
    ensures at { IsAt catalog.now O.opening store.new }
    ensures by_steps { GoesOnBySteps store.old.list store.new.list }
    ensures ok { OnOk result (SettledBy catalog.now O.opening store.old.list store.new.list) }
    ensures drained { OnOk result (Drained catalog.now (after catalog.now O.opening store.new.list)) }
{
    // Ranks are the catalogue's, so they are made once for all steps.
    let ranks = Ranks::of(catalog);
    while let Some(procedure) = next_ranked(
        catalog,
        &ranks,
        store.database.whole.cursors(),
        &store.database.streams,
    ) {
        let Some(_place) = run_step::<O>(alloc, catalog, store, procedure) else {
            return Err(NoMemory);
        };
    }
    Ok(())
}
