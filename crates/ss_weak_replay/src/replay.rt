//! Calls, pushes and installs, one after another, with what each sets off.

ghost use Rattle.std.specs.Prelude.{◌≡◌, ◌≤◌, ◌+◌, ◌^◌, [], length, map, IfOk, IfErr, OnOk};
ghost use Rattle.ss_model.specs.Accepted.{Accepted};
ghost use Rattle.ss_model.specs.Asked.{asked_of};
ghost use Rattle.ss_model.specs.Database.{Database as Model};
ghost use Rattle.ss_sched.specs.Ranks.{AreRanks};
ghost use Rattle.ss_shard.specs.Databases.{IsWhole};
ghost use Rattle.ss_shard.specs.Parts.{dealing_of};
ghost use Rattle.ss_replay.specs.Replaying.{IsOnAt};
ghost use Rattle.ss_weak_replay.specs.WeakReplaying.{GoesOnFrom, IsWeaklyReplayed, RunsBehind, StopsWeaklyAsSaid};

use crate::asked::first_asked;
use crate::entry::list_entry;
use crate::error::WeakError;
use crate::settling::settle_behind;
use ss_model::{Catalog, Entry};
use ss_model_laws::settling_terminates;
use ss_proc::Runner;
use ss_replay::{Replayed, replays};
use ss_sched::Ranks;
use ss_shard::Database;
use ss_value::{NoMemory, Seq};
use ss_weak_lists::{weak_lists_grow, weak_lists_hold_asked};
use std::alloc::Global;

/// Runs an entry as the next one of the list, and behind it what settling runs. Answers whether it replays: it has a value, and
/// it and its steps have places.
///
/// Costs its execution and its commit, and the same for each step.
fn run_entry<N: Runner>(
    alloc: Global,
    catalog: &Catalog,
    runner: &N,
    ranks: &Ranks,
    first: u64,
    so_far: &mut Replayed,
    entry: Entry,
) -> Result<bool, NoMemory>
    requires accepted { Accepted catalog.now }
    requires ranks { AreRanks catalog.now ranks.now }
    requires whole { IsWhole catalog.now so_far.old.database }
    requires placed { first + length so_far.old.list ≤ 2 ^ 60 }
    requires on { (d : Model) × IsOnAt catalog.now so_far.old.database (first + length so_far.old.list) d }
    ensures runs { IfOk result (λ all. (d : Model) → IsOnAt catalog.now so_far.old.database (first + length so_far.old.list) d
        → RunsBehind catalog.now d (first + length so_far.old.list) entry so_far.old.list so_far.new.list so_far.new.database all) }
    ensures behind { OnOk result (GoesOnFrom so_far.old.list so_far.new.list) }
    ensures placed { OnOk result (first + length so_far.new.list ≤ 2 ^ 60) }
    ensures whole { OnOk result (IsWhole catalog.now so_far.new.database) }
    ensures dealt { OnOk result (map dealing_of so_far.new.database.whole.tables ≡ map dealing_of so_far.old.database.whole.tables) }
{
    settling_terminates();
    let place = first + so_far.list.len() as u64;
    if !replays(catalog, &so_far.database, place, &entry) {
        return Ok(false);
    }
    list_entry(alloc, catalog, runner, so_far, entry)?;
    settle_behind(alloc, catalog, runner, ranks, first, so_far)
}

/// Runs these calls, pushes and installs behind an empty list, from a place on.
///
/// The database is lent, and not taken as by `replay_weakly`, so that a refusal lets it go in one place and not in each.
fn replay_on<N: Runner>(
    alloc: Global,
    catalog: &Catalog,
    runner: &N,
    first: u64,
    entries: Seq<Entry>,
    so_far: &mut Replayed,
) -> Result<(), WeakError>
    requires accepted { Accepted catalog.now }
    requires whole { IsWhole catalog.now so_far.old.database }
    requires none { so_far.old.list ≡ [] }
    requires asked { asked_of entries ≡ entries }
    requires first { first ≤ 2 ^ 60 }
    requires on { (d : Model) × IsOnAt catalog.now so_far.old.database first d }
    ensures replayed { OnOk result ((d : Model) → IsOnAt catalog.now so_far.old.database first d
        → IsWeaklyReplayed catalog.now d first entries so_far.new.list so_far.new.database) }
    ensures whole { OnOk result (IsWhole catalog.now so_far.new.database) }
    ensures dealt { OnOk result (map dealing_of so_far.new.database.whole.tables ≡ map dealing_of so_far.old.database.whole.tables) }
    ensures refused { IfErr result (λ e. (d : Model) → IsOnAt catalog.now so_far.old.database first d
        → StopsWeaklyAsSaid catalog.now d first entries e) }
{
    weak_lists_grow();
    weak_lists_hold_asked();
    // Ranks are the catalogue's, so they are made once for all steps.
    let ranks = Ranks::of(catalog);
    if !settle_behind(alloc, catalog, runner, &ranks, first, so_far)? {
        return Err(WeakError::Unsettled);
    }
    let mut before = 0;
    for entry in entries.into_vec() {
        if !run_entry(alloc, catalog, runner, &ranks, first, so_far, entry)? {
            let list = std::mem::replace(&mut so_far.list, Seq::new(alloc));
            return Err(WeakError::Foreign {
                before: first_asked(alloc, list, before)?,
            });
        }
        before += 1;
    }
    Ok(())
}

/// Runs entries of clients in their order on a database, from a place on, with the triggers between executions on: what
/// was pending runs before the first of them, and behind each of them what it sets off, in the order of settling. Gives the
/// list of all of it, and the database behind it.
///
/// Refuses `Unsettled` exactly where the steps before the first entry would pass the last place, and `Foreign` exactly where an
/// entry has no value on the database before it, or it and the steps behind it would pass the last place, with those
/// before the first such one.
///
/// Linear in the entries, and costs what each costs to run and to commit, and the same for each step. Entries are moved into
/// the list, and none is copied. Room for the list is made as it grows, since no record counts the steps. A refusal moves the
/// entries before it into a list of their own, and answers `NoMemory` where there is no room for it.
pub fn replay_weakly<N: Runner>(
    alloc: Global,
    catalog: &Catalog,
    runner: &N,
    database: Database,
    first: u64,
    entries: Seq<Entry>,
) -> Result<Replayed, WeakError>
    requires accepted { Accepted catalog.now }
    requires whole { IsWhole catalog.now database }
    requires asked { asked_of entries ≡ entries }
    requires first { first ≤ 2 ^ 60 }
    requires on { (d : Model) × IsOnAt catalog.now database first d }
    ensures replayed { IfOk result (λ r. (d : Model) → IsOnAt catalog.now database first d → IsWeaklyReplayed catalog.now d first entries r.list r.database) }
    ensures whole { IfOk result (λ r. IsWhole catalog.now r.database) }
    ensures dealt { IfOk result (λ r. map dealing_of r.database.whole.tables ≡ map dealing_of database.whole.tables) }
    ensures refused { IfErr result (λ e. (d : Model) → IsOnAt catalog.now database first d → StopsWeaklyAsSaid catalog.now d first entries e) }
{
    let mut so_far = Replayed {
        list: Seq::new(alloc),
        database,
    };
    replay_on(alloc, catalog, runner, first, entries, &mut so_far)?;
    Ok(so_far)
}
