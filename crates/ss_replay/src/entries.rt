//! A list of entries, one after another.

ghost use Rattle.std.specs.Prelude.{◌≡◌, ◌≤◌, ◌+◌, ◌^◌, length, map, IfOk, OnOk, IfErr};
ghost use Rattle.ss_model.specs.Accepted.{Accepted};
ghost use Rattle.ss_model.specs.Database.{Database as Model};
ghost use Rattle.ss_shard.specs.Databases.{IsWhole};
ghost use Rattle.ss_shard.specs.Parts.{dealing_of};
ghost use Rattle.ss_replay.specs.Replaying.{IsOnAt, IsReplayed, StopsAsSaid};

use crate::entry::replay_entry;
use crate::values::replays;
use ss_model::{Catalog, Entry, Listed};
use ss_proc::Runner;
use ss_shard::Database;
use ss_value::{Reserved, Seq};
use std::alloc::Global;

/// What a replay comes to.
#[derive(Drop)]
pub struct Replayed {
    /// The entries in their order, each with its outcome.
    pub list: Seq<Listed>,
    /// The database behind them.
    pub database: Database,
}

/// Why entries don't replay.
///
/// Out of memory leaves no database, instead of the one before the entry, because half a log is no store. An entry that
/// doesn't replay hands back the list before it, by which its record is found.
#[derive(Drop)]
pub enum ReplayError {
    /// Out of memory, which says nothing of the entries.
    NoMemory,
    /// An entry doesn't replay: those before the first such one, each with its outcome.
    Foreign { before: Seq<Listed> },
}

/// Runs these entries in their order on a database, from a place on, and gives the list of them.
///
/// The database is lent, and not taken as by `replay`, so that a refusal lets it go in one place and not in each.
fn replay_on<N: Runner>(
    alloc: Global,
    catalog: &Catalog,
    runner: &N,
    database: &mut Database,
    first: u64,
    entries: Seq<Entry>,
) -> Result<Seq<Listed>, ReplayError>
    requires accepted { Accepted catalog.now }
    requires whole { IsWhole catalog.now database.old }
    requires first { first ≤ 2 ^ 60 }
    requires on { (d : Model) × IsOnAt catalog.now database.old first d }
    ensures entries { IfOk result (λ list. map (λ l. l.entry) list ≡ entries) }
    ensures placed { IfOk result (λ list. first + length list ≤ 2 ^ 60) }
    ensures replayed { IfOk result (λ list. (d : Model) → IsOnAt catalog.now database.old first d → IsReplayed catalog.now d list database.new) }
    ensures whole { OnOk result (IsWhole catalog.now database.new) }
    ensures dealt { OnOk result (map dealing_of database.new.whole.tables ≡ map dealing_of database.old.whole.tables) }
    ensures foreign { IfErr result (λ e. (d : Model) → IsOnAt catalog.now database.old first d → StopsAsSaid catalog.now d first entries e) }
{
    let mut list = Reserved::new(alloc);
    // Their number is known. So an entry is committed where it stands, and moves into the list behind that.
    let Ok(()) = list.reserve(entries.len()) else {
        return Err(ReplayError::NoMemory);
    };
    for entry in entries.into_vec() {
        if !replays(catalog, database, first + list.len() as u64, &entry) {
            return Err(ReplayError::Foreign {
                before: list.into_seq(),
            });
        }
        let Ok(outcome) = replay_entry(alloc, catalog, runner, database, &entry) else {
            return Err(ReplayError::NoMemory);
        };
        list.add(Listed { entry, outcome });
    }
    Ok(list.into_seq())
}

/// Runs these entries in their order on a database, from a place on, with the triggers between executions off: a step runs
/// only where it is an entry. Gives the list and the database behind it.
///
/// Refuses `Foreign` exactly where an entry doesn't replay on the database that those before it leave, with those before
/// the first such one: what it names isn't in the catalogue or not of its kind, what it carries doesn't fit, it is a step that
/// isn't the next one of its procedure or has no batch on an input, or it would stand at place 2^60.
///
/// Linear in the entries, and costs what each costs to run and to commit. Entries are moved into the list, and none is
/// copied; room for the list is made once, before the first entry runs.
pub fn replay<N: Runner>(
    alloc: Global,
    catalog: &Catalog,
    runner: &N,
    database: Database,
    first: u64,
    entries: Seq<Entry>,
) -> Result<Replayed, ReplayError>
    requires accepted { Accepted catalog.now }
    requires whole { IsWhole catalog.now database }
    requires first { first ≤ 2 ^ 60 }
    requires on { (d : Model) × IsOnAt catalog.now database first d }
    ensures entries { IfOk result (λ r. map (λ l. l.entry) r.list ≡ entries) }
    ensures placed { IfOk result (λ r. first + length r.list ≤ 2 ^ 60) }
    ensures replayed { IfOk result (λ r. (d : Model) → IsOnAt catalog.now database first d → IsReplayed catalog.now d r.list r.database) }
    ensures whole { IfOk result (λ r. IsWhole catalog.now r.database) }
    ensures dealt { IfOk result (λ r. map dealing_of r.database.whole.tables ≡ map dealing_of database.whole.tables) }
    ensures foreign { IfErr result (λ e. (d : Model) → IsOnAt catalog.now database first d → StopsAsSaid catalog.now d first entries e) }
{
    let mut database = database;
    let list = replay_on(alloc, catalog, runner, &mut database, first, entries)?;
    Ok(Replayed { list, database })
}
