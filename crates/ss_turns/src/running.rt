//! A run on the parts in hand: an entry runs and is committed, and the run ends as its commit was answered. `execution` calls
//! all three, `asking` the commit and `stepping` the run. The commit alone takes the commit log's lock.

ghost use Rattle.std.specs.Prelude.{◌≡◌, ◌≤◌, ℕ, true, IfOk, OnErr};
ghost use Rattle.ss_model.specs.Accepted.{Accepted};
ghost use Rattle.ss_model.specs.Database.{fits_entry};
ghost use Rattle.ss_proc.specs.Entries.{IsNext, IsCountable};
ghost use Rattle.ss_shard.specs.Shards.{IsCommitted};
ghost use Rattle.ss_commitlog.specs.Meaning.{HasClientBelow};
ghost use Rattle.ss_commitlog.specs.Right.{IsRight};
ghost use Rattle.ss_commitlog.specs.Tokens.{Covers, roles_of};
ghost use Rattle.ss_turns.specs.Commits.{CommitsListed};
ghost use Rattle.ss_turns.specs.Runs.{HasRun, HasStayed, MayEnd, HasEnded};

use crate::works::Works;
use ss_commitlog::{Marks, Placed, Unlisted};
use ss_model::{Emitted, Entry, Life, Listed, copy_listed};
use ss_plan::{Batches, Inputs};
use ss_proc::{Executed, Runner, commit, rollback, runs_on_parts};
use ss_shard::Shard;
use ss_value::{NoMemory, Seq};
use std::sync::Wait;

/// Runs an entry with its batches on a shard that has the parts that it touches. The caller then ends the run by `end`.
///
/// Costs the execution. After an error the shard has what it had, and nothing is left to end.
pub(crate) fn run<I: Life, N: Runner, R: Wait>(
    works: &Works<I, N, R>,
    shard: &mut Shard,
    batches: &Batches,
    entry: &Entry,
) -> Result<Executed, NoMemory>
    requires accepted { Accepted I.catalog }
    requires fits { fits_entry I.catalog entry.now ≡ true }
    requires next { IsNext entry.now shard.old × IsCountable entry.now }
    requires committed { IsCommitted I.catalog shard.old }
    ensures ok { IfOk result (λ x. (n : ℕ) → 1 ≤ n
        → HasRun I.catalog n shard.old shard.new (record { entry = entry.now; outcome = x.outcome }) batches.now x.emitted) }
    ensures err { OnErr result ((n : ℕ) → HasStayed I.catalog n shard.old shard.new) }
{
    runs_on_parts();
    // Only a trigger is given inserted rows, and an entry begins with its body.
    let no_row = Seq::new(works.alloc);
    let inputs = Inputs {
        batches,
        inserted: no_row.as_slice(),
    };
    works
        .runner
        .execute(works.alloc, works.catalog, shard, &inputs, entry)
}

/// Commits an entry that ran, under the marks of all that it concerns.
///
/// The entry is copied for the answer before the commit; so whoever is told that it is listed gets it. Takes the log's lock once.
pub(crate) fn commit_listed<I: Life, N: Runner, R: Wait>(
    works: &Works<I, N, R>,
    marks: &mut Marks<I>,
    listed: Listed,
    emitted: Seq<Emitted>,
) -> Result<Placed, Unlisted>
    requires covers { Covers I.catalog I.parts (roles_of marks.old) listed.entry }
    requires client { HasClientBelow I.clients listed.entry }
    requires right { IsRight I.catalog I.parts I.opening marks.old listed emitted }
    ensures { CommitsListed I.catalog I.parts I.first I.limit marks.old listed marks.new result }
{
    let Ok(copy) = copy_listed(works.alloc, &listed) else {
        return Err(Unlisted::NoMemory);
    };
    match works
        .log
        .commit(works.rt, works.catalog, marks, listed, emitted)
    {
        Ok(place) => Ok(Placed {
            place,
            listed: copy,
        }),
        Err(unlisted) => Err(unlisted),
    }
}

/// Commits a run whose entry has a place in the list, and rolls each other one back. Linear in its changes; takes no memory.
pub(crate) fn end(shard: &mut Shard, said: &Result<Placed, Unlisted>)
    requires { MayEnd shard.old said.now }
    ensures { HasEnded shard.old shard.new said.now }
{
    match said {
        Ok(placed) => commit(shard, &placed.listed.entry, &placed.listed.outcome),
        Err(_) => rollback(shard),
    }
}
