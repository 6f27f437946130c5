//! The batches of a step, each copied under the commit log's lock, and its run on them. `execution` calls it.

ghost use Rattle.std.specs.Prelude.{◌≡◌, ◌≤◌, ◌<◌, ◌^◌, ℕ, true, [], IfOk, IfSome, OnErr, get_or, length};
ghost use Rattle.std.specs.List.{AllByRecursion};
ghost use Rattle.ss_model.specs.Accepted.{Accepted};
ghost use Rattle.ss_model.specs.Database.{fits_entry};
ghost use Rattle.ss_model.specs.Orders.{procedure_takes};
ghost use Rattle.ss_proc.specs.Entries.{IsNext, IsCountable};
ghost use Rattle.ss_shard.specs.Shards.{IsCommitted};
ghost use Rattle.ss_commitlog.specs.Growing.{GoesOn};
ghost use Rattle.ss_commitlog.specs.Right.{known_database};
ghost use Rattle.ss_turns.specs.Runs.{HasRun, HasStayed};
ghost use Rattle.ss_turns.specs.Stepping.{EachGoesOn, AreFound, AreFoundFor};

use crate::running::run;
use crate::works::Works;
use ss_commitlog::{Mark, Marks};
use ss_model::{Entry, Life};
use ss_plan::Batches;
use ss_proc::{Executed, Runner};
use ss_shard::Shard;
use ss_value::{NoMemory, Rows, Seq};
use std::sync::Wait;

/// The most batches that a procedure takes: past them there is no step. No memory holds as many.
const MOST_BATCHES: u64 = 1 << 60;

/// The number of the next batch of a procedure, where a step can be counted.
pub(crate) fn next_batch(shard: &Shard, procedure: u16) -> Option<u64>
    ensures { IfSome result (λ r. (get_or shard.now.cursors procedure 0 ≡ r) × (r < 2 ^ 60)) }
{
    let r = shard.cursor(procedure);
    if r < MOST_BATCHES { Some(r) } else { None }
}

/// Copies of the batches with this number of these streams, as they stand in the list that the mark then knows, or None where
/// some stream has none for the procedure.
///
/// Takes the log's lock once for each stream, up to the first that has no such batch.
fn look_each<I: Life, N: Runner, R: Wait>(
    works: &Works<I, N, R>,
    mark: &mut Mark<I>,
    streams: &[u16],
    procedure: u16,
    r: u64,
) -> Result<Option<Seq<Rows>>, NoMemory>
    requires takes { AllByRecursion (λ s. procedure_takes I.catalog procedure s ≡ true) streams.now }
    ensures mark { GoesOn I.catalog I.parts mark.old mark.new }
    ensures found { AreFound (known_database I.catalog I.opening mark.new) procedure r streams.now result }
{
    let mut batches = Seq::new(works.alloc);
    for stream in streams {
        let looked = works
            .log
            .look(works.rt, works.alloc, mark, *stream, procedure, r)?;
        let Some(batch) = looked else {
            return Ok(None);
        };
        batches.push(batch)?;
    }
    Ok(Some(batches))
}

/// Copies of the batches that a step takes, by one of the marks, or None where some input of the procedure has none for it.
///
/// Takes the log's lock once for each input, up to the first that has no batch.
pub(crate) fn look_for<I: Life, N: Runner, R: Wait>(
    works: &Works<I, N, R>,
    marks: &mut Marks<I>,
    procedure: u16,
    r: u64,
) -> Result<Option<Seq<Rows>>, NoMemory>
    requires there { procedure < length I.catalog.procedures }
    requires some { marks.old ≡ [] → ⊥ }
    ensures marks { EachGoesOn I.catalog I.parts marks.old marks.new }
    ensures found { AreFoundFor I.catalog I.opening marks.new procedure r result }
{
    let streams = works
        .catalog
        .procedures
        .at(usize::from(procedure))
        .inputs
        .as_slice();
    let Some(mark) = marks.get_mut(0) else {
        unreachable!()
    };
    look_each(works, mark, streams, procedure, r)
}

/// Runs a step on its batches. The caller then ends the run. After an error the shard has what it had.
pub(crate) fn run_step<I: Life, N: Runner, R: Wait>(
    works: &Works<I, N, R>,
    shard: &mut Shard,
    rows: &Seq<Rows>,
    entry: &Entry,
) -> Result<Executed, NoMemory>
    requires accepted { Accepted I.catalog }
    requires fits { fits_entry I.catalog entry.now ≡ true }
    requires next { IsNext entry.now shard.old × IsCountable entry.now }
    requires committed { IsCommitted I.catalog shard.old }
    ensures ok { IfOk result (λ x. (n : ℕ) → 1 ≤ n
        → HasRun I.catalog n shard.old shard.new (record { entry = entry.now; outcome = x.outcome }) rows.now x.emitted) }
    ensures err { OnErr result ((n : ℕ) → HasStayed I.catalog n shard.old shard.new) }
{
    let batches = Batches::all(works.alloc, rows.as_slice());
    run(works, shard, &batches, entry)
}
