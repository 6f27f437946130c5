//! The whole body of a procedure.

ghost use Rattle.std.specs.Prelude.{◌≡◌, ◌≤◌, None, length, IfOk, OnErr, IfErr};
ghost use Rattle.std.specs.List.{AllByRecursion};
ghost use Rattle.std.specs.Option.{option_map};
ghost use Rattle.ss_value.specs.Rows.{Row, column_value};
ghost use Rattle.ss_model.specs.Bodies.{run_body};
ghost use Rattle.ss_model.specs.Database.{split_value_for};
ghost use Rattle.ss_model.specs.Stops.{StopsAs};
ghost use Rattle.ss_shard.specs.Contents.{contents_of};
ghost use Rattle.ss_shard.specs.Shards.{IsOf, Changed, CanRollBack, Same, IsCommitted};
ghost use Rattle.ss_proc.specs.Executions.{context_of, MayRun, MayRunOn, StepRuns};
ghost use Rattle.ss_proc.specs.Meanings.{BodyDone, BodyLeaves};

use crate::row_lists::RowLists;
use crate::so_far::run_steps;
use crate::windows::close_owned;
use crate::work::{Given, Work, empty_work};
use ss_model::{Outcome, RunError, Step, Touch};
use ss_shard::Shard;
use ss_value::NoMemory;
use std::alloc::Global;

/// What a body leaves beside its shard: its outcome, and its batch for each stream.
#[derive(Drop)]
pub struct BodyResult {
    /// The outcome.
    pub outcome: Outcome,
    /// The batches, by stream.
    pub emitted: RowLists,
}

/// The argument whose value limits what an execution sees of split tables, in a procedure that touches the partition
/// of an argument.
pub fn touched_argument(touch: &Touch) -> Option<u8>
    ensures { (args : Row) → option_map (λ arg. column_value args arg) result ≡ split_value_for touch.now args }
{
    match touch {
        Touch::Arg(arg) => Some(*arg),
        Touch::Part(_) | Touch::Multi(_) | Touch::All => None,
    }
}

/// Runs the steps of a body, and then closes the procedure's windows of batches, in written order.
///
/// Aborts as the model's `run_body` does. What was changed by then is noted in the shard.
fn run_and_close(
    alloc: Global,
    given: &Given,
    body: &[Step],
    shard: &mut Shard,
) -> Result<Work, RunError>
    requires may_run { MayRunOn given.now.catalog.now shard.old }
    requires fits { AllByRecursion (StepRuns given.now.catalog.now) body.now }
    requires few { length given.now.catalog.now.windows ≤ 32 }
    ensures ok { IfOk result (BodyDone given.now body.now shard.old shard.new) }
    ensures stops { IfErr result (StopsAs (run_body (context_of given.now) body.now (contents_of shard.old))) }
    ensures changed { Changed shard.old shard.new }
{
    let mut work = empty_work(alloc, given.catalog);
    run_steps(alloc, given, body, shard, &mut work)?;
    close_owned(alloc, given, shard, &mut work)?;
    Ok(work)
}

/// Runs the body of a procedure on a shard between executions, all of it or nothing.
///
/// Answers what the body comes to: done with its reply and batches, or an abort, which leaves the tables and windows from
/// before and empty batches. Out of memory leaves the shard as it was. Costs what the steps and their triggers cost, and for
/// an abort at most as much again.
///
/// It rolls its own abort back, as it does at out of memory, instead of leaving that to its caller: so behind it the
/// tables are those that the entry leaves, whatever the outcome.
///
/// Source: transaction executions of S-Store (Meehan et al., PVLDB 8, 2015, section 2).
pub fn run_body(
    alloc: Global,
    given: &Given,
    body: &[Step],
    shard: &mut Shard,
) -> Result<BodyResult, NoMemory>
    requires committed { IsCommitted given.now.catalog.now shard.old }
    requires runs { MayRun given.now.catalog.now }
    requires fits { AllByRecursion (StepRuns given.now.catalog.now) body.now }
    requires few { length given.now.catalog.now.windows ≤ 32 }
    ensures ok { IfOk result (BodyLeaves given.now body.now shard.old shard.new) }
    ensures of_catalog { IsOf given.now.catalog.now shard.new }
    ensures back { IfOk result (λ left. CanRollBack shard.old shard.new) }
    ensures none { IfOk result (λ left. shard.new.coming ≡ None) }
    ensures err { OnErr result (Same shard.old shard.new) }
    ensures committed { OnErr result (IsCommitted given.now.catalog.now shard.new) }
{
    match run_and_close(alloc, given, body, shard) {
        Ok(work) => Ok(BodyResult {
            outcome: Outcome::Done(work.reply),
            emitted: work.emitted,
        }),
        Err(RunError::Abort(reason)) => {
            shard.rollback();
            // After an abort too each stream gets a batch, an empty one, so that streams stay in step with counts.
            Ok(BodyResult {
                outcome: Outcome::Aborted(reason),
                emitted: RowLists::new(alloc, given.catalog.streams.len()),
            })
        }
        Err(RunError::NoMemory) => {
            shard.rollback();
            Err(NoMemory)
        }
    }
}
