//! The steps of a body, each on the batches so far: those of the inputs, and behind them those of the inner streams, to which earlier
//! steps have added rows.
//!
//! A step sees the inner batches as they stood when it began. So they are out of the work and lent to it while it runs, and to one
//! that adds rows to a batch while its query runs. No row of them is copied. A procedure without inner streams sees the
//! batches that it is given, and nothing else is done.

ghost use Rattle.std.specs.Prelude.{◌≡◌, [], ◌++◌, map, get_or, false, IfOk};
ghost use Rattle.std.specs.List.{AllByRecursion};
ghost use Rattle.ss_model.specs.declared.catalog.Step.TheVariants.{Local};
ghost use Rattle.ss_model.specs.Results.{try_fold};
ghost use Rattle.ss_model.specs.Bodies.{execute_step};
ghost use Rattle.ss_proc.specs.Executions.{adds_rows, context_of, MayRunOn, StepRuns};
ghost use Rattle.ss_proc.specs.Meanings.{Does};

use crate::emits::emit_rows;
use crate::row_lists::RowLists;
use crate::statements::execution_query;
use crate::steps::run_step_on;
use crate::work::{Given, Work};
use ss_model::{RunError, Step};
use ss_plan::Batches;
use ss_shard::Shard;
use ss_sql_trees::Query;
use ss_value::NoMemory;
use std::alloc::Global;

/// The batches that a step sees where these are given and those emitted so far: the ones that are given, and behind them that of each
/// inner stream. Takes the memory of a reference for each.
fn batches_so_far<'a>(
    alloc: Global,
    batches: &Batches<'a>,
    inner: &[u16],
    emitted: &'a RowLists,
) -> Result<Batches<'a>, NoMemory>
    ensures { IfOk result (λ seen. seen ≡ batches.now ++ map (λ s. get_or emitted.now s []) inner.now) }
{
    let mut seen = batches.again(alloc)?;
    for stream in inner {
        seen.push(emitted.list(*stream))?;
    }
    Ok(seen)
}

/// Runs a step that adds no row to a batch. The batches so far are out of the work meanwhile, since they are lent to it.
fn run_apart(
    alloc: Global,
    given: &Given,
    step: &Step,
    shard: &mut Shard,
    work: &mut Work,
) -> Result<(), RunError>
    requires may_run { MayRunOn given.now.catalog.now shard.old }
    requires fits { StepRuns given.now.catalog.now step.now }
    requires apart { adds_rows step.now ≡ false }
    ensures { Does (execute_step (context_of given.now) step.now) result shard.old work.old shard.new work.new }
{
    let emitted = std::mem::replace(&mut work.emitted, RowLists::new(alloc, 0));
    {
        let seen = batches_so_far(alloc, given.batches, given.inner, &emitted)?;
        let on = Given {
            catalog: given.catalog,
            procedure: given.procedure,
            args: given.args,
            arg: given.arg,
            batches: &seen,
            inner: given.inner,
        };
        run_step_on(alloc, &on, step, shard, work)?;
    }
    work.emitted = emitted;
    Ok(())
}

/// Adds the rows of a query of the body to the batch of a stream, an inner one or another, and runs the stream's triggers on them.
fn add_rows(
    alloc: Global,
    given: &Given,
    stream: u16,
    query: &Query,
    shard: &mut Shard,
    work: &mut Work,
) -> Result<(), RunError>
    requires may_run { MayRunOn given.now.catalog.now shard.old }
    ensures { Does (execute_step (context_of given.now) (Local stream query.now)) result shard.old work.old shard.new work.new }
{
    let emitted = std::mem::replace(&mut work.emitted, RowLists::new(alloc, 0));
    let rows = {
        let seen = batches_so_far(alloc, given.batches, given.inner, &emitted)?;
        let on = Given {
            catalog: given.catalog,
            procedure: given.procedure,
            args: given.args,
            arg: given.arg,
            batches: &seen,
            inner: given.inner,
        };
        execution_query(alloc, &on, given.args, query, shard)?
    };
    work.emitted = emitted;
    // The triggers see no batch, so that they may run on those that are given.
    emit_rows(alloc, given, stream, rows, shard, work)
}

/// Runs a step of a body, whose parameters are the arguments.
///
/// Aborts exactly where the model's step does, and with the same reason. Beside what the step costs, one of a procedure with inner
/// streams costs a look at each of its inputs and inner streams.
fn run_step(
    alloc: Global,
    given: &Given,
    step: &Step,
    shard: &mut Shard,
    work: &mut Work,
) -> Result<(), RunError>
    requires may_run { MayRunOn given.now.catalog.now shard.old }
    requires fits { StepRuns given.now.catalog.now step.now }
    ensures { Does (execute_step (context_of given.now) step.now) result shard.old work.old shard.new work.new }
{
    if given.inner.is_empty() {
        return run_step_on(alloc, given, step, shard, work);
    }
    match step {
        Step::Emit { stream, query } => add_rows(alloc, given, *stream, query, shard, work),
        Step::Local { stream, query } => add_rows(alloc, given, *stream, query, shard, work),
        _ => run_apart(alloc, given, step, shard, work),
    }
}

/// Runs the steps of a body in order, up to the first abort.
pub fn run_steps(
    alloc: Global,
    given: &Given,
    steps: &[Step],
    shard: &mut Shard,
    work: &mut Work,
) -> Result<(), RunError>
    requires may_run { MayRunOn given.now.catalog.now shard.old }
    requires fits { AllByRecursion (StepRuns given.now.catalog.now) steps.now }
    ensures { Does (try_fold (execute_step (context_of given.now)) steps.now) result shard.old work.old shard.new work.new }
{
    for step in steps {
        run_step(alloc, given, step, shard, work)?;
    }
    Ok(())
}
