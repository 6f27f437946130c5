//! Settling behind a list: steps, until no procedure is ready.

ghost use Rattle.std.specs.Prelude.{◌≡◌, ◌≤◌, ◌+◌, ◌^◌, length, map, IfOk, OnOk};
ghost use Rattle.ss_model.specs.Accepted.{Accepted};
ghost use Rattle.ss_model.specs.Database.{Database as Model};
ghost use Rattle.ss_sched.specs.Ranks.{AreRanks};
ghost use Rattle.ss_shard.specs.Databases.{IsWhole};
ghost use Rattle.ss_shard.specs.Parts.{dealing_of};
ghost use Rattle.ss_replay.specs.Replaying.{IsOnAt};
ghost use Rattle.ss_weak_replay.specs.WeakReplaying.{GoesOnFrom, SettlesBehind};

use crate::entry::list_entry;
use ss_model::{Catalog, Entry};
use ss_proc::Runner;
use ss_replay::{LAST_PLACE, Replayed};
use ss_sched::{Ranks, next_ranked};
use ss_value::NoMemory;
use ss_weak_lists::loops_pass_last;
use std::alloc::Global;

/// Runs what settling runs, each step as the next entry of the list, and answers whether all of it has places.
///
/// Each step costs what `list_entry` costs, and a look at each input of each procedure.
pub(crate) fn settle_behind<N: Runner>(
    alloc: Global,
    catalog: &Catalog,
    runner: &N,
    ranks: &Ranks,
    first: u64,
    so_far: &mut Replayed,
) -> Result<bool, NoMemory>
    requires accepted { Accepted catalog.now }
    requires ranks { AreRanks catalog.now ranks.now }
    requires whole { IsWhole catalog.now so_far.old.database }
    requires placed { first + length so_far.old.list ≤ 2 ^ 60 }
    requires on { (d : Model) × IsOnAt catalog.now so_far.old.database (first + length so_far.old.list) d }
    ensures settled { IfOk result (λ all. (d : Model) → IsOnAt catalog.now so_far.old.database (first + length so_far.old.list) d
        → SettlesBehind catalog.now d (first + length so_far.old.list) so_far.old.list so_far.new.list so_far.new.database all) }
    ensures behind { OnOk result (GoesOnFrom so_far.old.list so_far.new.list) }
    ensures placed { OnOk result (first + length so_far.new.list ≤ 2 ^ 60) }
    ensures whole { OnOk result (IsWhole catalog.now so_far.new.database) }
    ensures dealt { OnOk result (map dealing_of so_far.new.database.whole.tables ≡ map dealing_of so_far.old.database.whole.tables) }
{
    loops_pass_last();
    while let Some(procedure) = next_ranked(
        catalog,
        ranks,
        so_far.database.whole.cursors(),
        &so_far.database.streams,
    ) {
        if first + so_far.list.len() as u64 >= LAST_PLACE {
            return Ok(false);
        }
        let batch = so_far.database.whole.cursor(procedure);
        let entry = Entry::Step { procedure, batch };
        list_entry(alloc, catalog, runner, so_far, entry)?;
    }
    Ok(true)
}
