//! Executions on the parts in hand: an entry runs, joins the log's list, and only then is committed. `serve` and `follow` of
//! `ss_engine` call it, and `ss_settle` for steps of the close.

ghost use Rattle.std.specs.Prelude.{◌≡◌, true, get_or};
ghost use Rattle.ss_model.specs.declared.entry.Entry.TheVariants.{Step as StepEntry};
ghost use Rattle.ss_model.specs.Accepted.{Accepted};
ghost use Rattle.ss_model.specs.Database.{fits_entry};
ghost use Rattle.ss_commitlog.specs.Meaning.{HasClientBelow};
ghost use Rattle.ss_proc.specs.Entries.{IsNext, IsCountable};
ghost use Rattle.ss_turns.specs.Runs.{AreGiven};
ghost use Rattle.ss_turns.specs.Stepping.{LacksWhereNotReady, stepped_of};
ghost use Rattle.ss_turns.specs.Executed.{IsOfRole, HoldsFor, StaysInHand, RanAsked, IsStepped};

use crate::asking::commit_asked;
use crate::running::{commit_listed, end, run};
use crate::stepping::{look_for, next_batch, run_step};
use crate::works::Works;
use ss_commitlog::{Mark, Placed, Unlisted};
use ss_hand::Hand;
use ss_model::{Entry, Life, Listed};
use ss_plan::Batches;
use ss_proc::{Executed, Runner};
use ss_value::{Rows, Seq};
use std::sync::Wait;

/// Runs what a client asks for on the parts in hand, and commits it under their marks and the client's.
///
/// What has no place in the list is rolled back. Costs the execution and its commit, and a copy of the entry; takes the log's lock
/// once, for the commit.
pub fn execute_asked<I: Life, N: Runner, R: Wait>(
    works: &Works<I, N, R>,
    hand: &mut Hand<I>,
    mark: &mut Mark<I>,
    entry: Entry,
) -> Result<Placed, Unlisted>
    requires accepted { Accepted I.catalog }
    requires fits { fits_entry I.catalog entry ≡ true }
    requires role { IsOfRole mark.old.role entry }
    requires client { HasClientBelow I.clients entry }
    requires holds { HoldsFor I.catalog I.parts I.opening hand.old entry }
    ensures in_hand { StaysInHand I.catalog I.parts I.opening hand.old hand.new }
    ensures ran { RanAsked I.catalog I.parts I.first I.limit entry hand.old.marks mark.old hand.new.marks mark.new result }
{
    let nothing = Batches::new(works.alloc);
    let Ok(executed) = run(works, &mut hand.shard, &nothing, &entry) else {
        return Err(Unlisted::NoMemory);
    };
    let Executed { outcome, emitted } = executed;
    let listed = Listed { entry, outcome };
    let said = commit_asked(works, &mut hand.marks, mark, listed, emitted);
    end(&mut hand.shard, &said);
    said
}

/// Runs the next step of a procedure on the parts in hand, and commits it under their marks. None where some input of the
/// procedure has no batch for it.
///
/// What has no place in the list is rolled back. Costs copies of its batches, the execution and its commit, and a copy of the
/// entry; takes the log's lock once for each input, up to the first that has no batch, and once for the commit.
pub fn execute_step<I: Life, N: Runner, R: Wait>(
    works: &Works<I, N, R>,
    hand: &mut Hand<I>,
    procedure: u16,
) -> Result<Option<Placed>, Unlisted>
    requires accepted { Accepted I.catalog }
    requires fits { fits_entry I.catalog (StepEntry procedure 0) ≡ true }
    requires holds { HoldsFor I.catalog I.parts I.opening hand.old (StepEntry procedure 0) }
    ensures in_hand { StaysInHand I.catalog I.parts I.opening hand.old hand.new }
    ensures stepped { IsStepped I.catalog I.parts I.first I.limit procedure hand.old.marks hand.new.marks result }
    ensures not_ready { LacksWhereNotReady I.catalog I.opening hand.new.marks procedure (get_or hand.old.shard.cursors procedure 0) result }
{
    let Some(r) = next_batch(&hand.shard, procedure) else {
        return Err(Unlisted::NoMemory);
    };
    match look_for(works, &mut hand.marks, procedure, r) {
        Ok(Some(rows)) => execute_found(works, hand, procedure, r, rows).map(Some),
        Ok(None) => Ok(None),
        Err(_) => Err(Unlisted::NoMemory),
    }
}

/// The same with the number of the next batch, and the batches at hand.
fn execute_found<I: Life, N: Runner, R: Wait>(
    works: &Works<I, N, R>,
    hand: &mut Hand<I>,
    procedure: u16,
    r: u64,
    rows: Seq<Rows>,
) -> Result<Placed, Unlisted>
    requires accepted { Accepted I.catalog }
    requires fits { fits_entry I.catalog (StepEntry procedure r) ≡ true }
    requires next { IsNext (StepEntry procedure r) hand.old.shard × IsCountable (StepEntry procedure r) }
    requires holds { HoldsFor I.catalog I.parts I.opening hand.old (StepEntry procedure r) }
    requires given { AreGiven I.catalog I.opening hand.old.marks (StepEntry procedure r) rows }
    ensures in_hand { StaysInHand I.catalog I.parts I.opening hand.old hand.new }
    ensures stepped { IsStepped I.catalog I.parts I.first I.limit procedure hand.old.marks hand.new.marks (stepped_of result) }
{
    let entry = Entry::Step {
        procedure,
        batch: r,
    };
    let Ok(executed) = run_step(works, &mut hand.shard, &rows, &entry) else {
        return Err(Unlisted::NoMemory);
    };
    let Executed { outcome, emitted } = executed;
    let listed = Listed { entry, outcome };
    let said = commit_listed(works, &mut hand.marks, listed, emitted);
    end(&mut hand.shard, &said);
    said
}
