//! One entry: it runs, joins the list, and only then is committed.

ghost use Rattle.std.specs.Prelude.{◌≡◌, ◌≤◌, ◌<◌, ◌+◌, ◌^◌, true, false, length, IfSome, IfNone};
ghost use Rattle.ss_model.specs.Accepted.{Accepted};
ghost use Rattle.ss_model.specs.Database.{fits_entry, is_ready_entry};
ghost use Rattle.ss_model.specs.Replays.{after};
ghost use Rattle.ss_shard.specs.ShardValue.{ShardValue};
ghost use Rattle.ss_run.specs.Stands.{CanBeListed, IsAt, Joined, JoinedAs, with_entry};

use crate::origin::Origin;
use ss_flow::{advance, make_room};
use ss_model::{Catalog, Entry, Listed, Outcome};
use ss_proc::{Executed, PlainRunner, commit, execute_entry, rollback};
use ss_shard::Database;
use ss_value::{Copies, Seq};
use std::alloc::Global;

/// The most places: one more entry is answered as at out of memory.
///
/// No memory holds as many, and the limit bounds every count of batches, so none leaves its machine type.
const MOST_PLACES: u64 = 1 << 60;

/// A database with the list that led to it from the opening on.
pub struct Store {
    /// Tables, windows, counts, next numbers and streams.
    pub database: Database,
    /// The entries with their outcomes, in the order in which they ran.
    pub list: Seq<Listed>,
    /// How many entries had led to the opening, on which the list begins: 0 where that is the empty database.
    pub first: u64,
}

// By hand, so that letting it go is one call and not one for each of its parts.
impl Drop for Store {
    fn drop(self) {
        let Store {
            database: _,
            list: _,
            first: _,
        } = self;
    }
}

impl Store {
    /// The database and the list alone.
    pub(crate) fn into_parts(self) -> (Database, Seq<Listed>)
        ensures database { result.0 ≡ self.database }
        ensures list { result.1 ≡ self.list }
    {
        let Store {
            database,
            list,
            first: _,
        } = self;
        (database, list)
    }

    /// Whether one more entry has its place.
    fn has_place(&self) -> bool
        requires { self.now.first ≤ 2 ^ 60 }
        ensures place { result ≡ true → self.now.first + length self.now.list < 2 ^ 60 }
        ensures none { result ≡ false → 2 ^ 60 ≤ self.now.first + length self.now.list }
    {
        (self.list.len() as u64) < MOST_PLACES - self.first
    }
}

/// Puts an entry that has run at the end of the list, and only then commits what it changed. Answers its place.
///
/// Costs what `commit` costs, and a move of its batches. None means out of memory, for its batches or for its place in the
/// list: then the entry is rolled back, and list and database are as they were before it ran.
fn join_list<O: Origin>(
    catalog: &Catalog,
    store: &mut Store,
    entry: Entry,
    executed: Executed,
) -> Option<u64>
    requires accepted { Accepted catalog.now }
    requires ran { (before : ShardValue) × CanBeListed catalog.now O.opening before store.old entry executed }
    ensures at { IsAt catalog.now O.opening store.new }
    ensures some { IfSome result (λ place. (place ≡ length store.old.list) × (store.new.list ≡ with_entry store.old.list entry executed.outcome)) }
    ensures none { IfNone result (store.new.list ≡ store.old.list) }
{
    let Executed { outcome, emitted } = executed;
    let place = store.list.len();
    // All that takes memory comes before the commit, and a rollback takes none: so the entry is in the list with its
    // changes, or neither is there.
    if !store.has_place() {
        rollback(&mut store.database.whole);
        return None;
    }
    let Ok(()) = make_room(&mut store.database.streams, emitted.as_slice()) else {
        rollback(&mut store.database.whole);
        return None;
    };
    let Ok(()) = store.list.push(Listed { entry, outcome }) else {
        rollback(&mut store.database.whole);
        return None;
    };
    // Entry and outcome have moved into the list, and are lent from there.
    let listed = store.list.at(place);
    commit(&mut store.database.whole, &listed.entry, &listed.outcome);
    advance(catalog, &mut store.database.streams, &listed.entry, emitted);
    Some(place as u64)
}

/// Runs an entry that is ready and puts it at the end of the list. Answers its place.
///
/// Costs its execution and its commit. None means out of memory: then list and database are as they were.
pub fn list_entry<O: Origin>(
    alloc: Global,
    catalog: &Catalog,
    store: &mut Store,
    entry: Entry,
) -> Option<u64>
    requires accepted { Accepted catalog.now }
    requires fits { fits_entry catalog.now entry ≡ true }
    requires at { IsAt catalog.now O.opening store.old }
    requires ready { is_ready_entry catalog.now (after catalog.now O.opening store.old.list) entry ≡ true }
    ensures at { IsAt catalog.now O.opening store.new }
    ensures some { IfSome result (λ place. (place ≡ length store.old.list) × Joined store.old.list store.new.list entry) }
    ensures none { IfNone result (store.new.list ≡ store.old.list) }
{
    let Ok(executed) = execute_entry(
        alloc,
        catalog,
        &PlainRunner,
        &mut store.database.whole,
        &store.database.streams,
        &entry,
    ) else {
        return None;
    };
    join_list::<O>(catalog, store, entry, executed)
}

/// Runs an entry that is ready and puts it at the end of the list. Answers its place, and a copy of its outcome.
///
/// The copy is linear in the reply. None means out of memory: then list and database are as they were.
pub fn answer_entry<O: Origin>(
    alloc: Global,
    catalog: &Catalog,
    store: &mut Store,
    entry: Entry,
) -> Option<(u64, Outcome)>
    requires accepted { Accepted catalog.now }
    requires fits { fits_entry catalog.now entry ≡ true }
    requires at { IsAt catalog.now O.opening store.old }
    requires ready { is_ready_entry catalog.now (after catalog.now O.opening store.old.list) entry ≡ true }
    ensures at { IsAt catalog.now O.opening store.new }
    ensures some { IfSome result (JoinedAs store.old.list store.new.list entry) }
    ensures none { IfNone result (store.new.list ≡ store.old.list) }
{
    let Ok(executed) = execute_entry(
        alloc,
        catalog,
        &PlainRunner,
        &mut store.database.whole,
        &store.database.streams,
        &entry,
    ) else {
        return None;
    };
    // The copy for the client comes before the commit, behind which nothing can be rolled back.
    let Ok(outcome) = executed.outcome.duplicate(alloc) else {
        rollback(&mut store.database.whole);
        return None;
    };
    match join_list::<O>(catalog, store, entry, executed) {
        Some(place) => Some((place, outcome)),
        None => None,
    }
}
