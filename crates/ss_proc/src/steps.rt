//! A step of a body, on batches that stay as they are while it runs.

ghost use Rattle.std.specs.List.{AllByRecursion};
ghost use Rattle.ss_model.specs.declared.catalog.Step.TheVariants.{Emit, Return};
ghost use Rattle.ss_model.specs.Bodies.{execute_inner, step_on};
ghost use Rattle.ss_proc.specs.Executions.{context_of, MayRunOn, InnerRuns, StepRuns};
ghost use Rattle.ss_model.specs.Depths.{inner_steps, steps_of_input, steps_of_rows};
ghost use Rattle.ss_proc.specs.Meanings.{Does};

use crate::cascade::run_body_statement;
use crate::conditions::abort_if;
use crate::emits::{emit_rows, reply_rows};
use crate::statements::execution_query;
use crate::work::{Given, Work};
use ss_model::{Inner, RunError, Step};
use ss_shard::Shard;
use ss_sql_trees::Query;
use ss_value::Row;
use std::alloc::Global;

/// Runs a step of a `for_each` on the current row, whose columns are the parameters.
fn run_inner(
    alloc: Global,
    given: &Given,
    current: &Row,
    inner: &Inner,
    shard: &mut Shard,
    work: &mut Work,
) -> Result<(), RunError>
    requires may_run { MayRunOn given.now.catalog.now shard.old }
    requires fits { InnerRuns given.now.catalog.now inner.now }
    ensures { Does (execute_inner (context_of given.now) current.now inner.now) result shard.old work.old shard.new work.new }
{
    match inner {
        Inner::Sql(statement) => run_body_statement(alloc, given, current, statement, shard, work),
        Inner::AbortIf { test, code } => abort_if(alloc, given, current, test, *code, shard),
    }
}

/// Runs the steps of a `for_each` on one row, in order, up to the first abort.
fn run_inners(
    alloc: Global,
    given: &Given,
    current: &Row,
    body: &[Inner],
    shard: &mut Shard,
    work: &mut Work,
) -> Result<(), RunError>
    requires may_run { MayRunOn given.now.catalog.now shard.old }
    requires fits { AllByRecursion (InnerRuns given.now.catalog.now) body.now }
    ensures { Does (inner_steps (context_of given.now) current.now body.now) result shard.old work.old shard.new work.new }
{
    for inner in body {
        run_inner(alloc, given, current, inner, shard, work)?;
    }
    Ok(())
}

/// Runs the steps of a `for_each` on each row of a batch, in order, up to the first abort.
fn for_each(
    alloc: Global,
    given: &Given,
    body: &[Inner],
    rows: &[Row],
    shard: &mut Shard,
    work: &mut Work,
) -> Result<(), RunError>
    requires may_run { MayRunOn given.now.catalog.now shard.old }
    requires fits { AllByRecursion (InnerRuns given.now.catalog.now) body.now }
    ensures { Does (steps_of_rows (context_of given.now) body.now rows.now) result shard.old work.old shard.new work.new }
{
    for row in rows {
        run_inners(alloc, given, row, body, shard, work)?;
    }
    Ok(())
}

/// Runs the steps of a `for_each` on each row of the batch of an input, and none where there is no such input.
fn for_each_of(
    alloc: Global,
    given: &Given,
    input: u16,
    body: &[Inner],
    shard: &mut Shard,
    work: &mut Work,
) -> Result<(), RunError>
    requires may_run { MayRunOn given.now.catalog.now shard.old }
    requires fits { AllByRecursion (InnerRuns given.now.catalog.now) body.now }
    ensures { Does (steps_of_input (context_of given.now) body.now input) result shard.old work.old shard.new work.new }
{
    match given.batches.get(usize::from(input)) {
        Some(rows) => for_each(alloc, given, body, rows.as_slice(), shard, work),
        None => Ok(()),
    }
}

/// Emits the rows of a query of the body.
fn emit(
    alloc: Global,
    given: &Given,
    stream: u16,
    query: &Query,
    shard: &mut Shard,
    work: &mut Work,
) -> Result<(), RunError>
    requires may_run { MayRunOn given.now.catalog.now shard.old }
    ensures { Does (step_on (context_of given.now) (Emit stream query.now)) result shard.old work.old shard.new work.new }
{
    let rows = execution_query(alloc, given, given.args, query, shard)?;
    emit_rows(alloc, given, stream, rows, shard, work)
}

/// Adds the rows of a query of the body to the reply.
fn reply(
    alloc: Global,
    given: &Given,
    query: &Query,
    shard: &Shard,
    work: &mut Work,
) -> Result<(), RunError>
    requires may_run { MayRunOn given.now.catalog.now shard.now }
    ensures { Does (step_on (context_of given.now) (Return query.now)) result shard.now work.old shard.now work.new }
{
    let rows = execution_query(alloc, given, given.args, query, shard)?;
    reply_rows(rows, &mut work.reply)
}

/// Runs a step of a body, whose parameters are the arguments, on the batches that are given. A step on an inner stream does what an
/// emit does.
///
/// Aborts exactly where the model's step does, and with the same reason.
pub fn run_step_on(
    alloc: Global,
    given: &Given,
    step: &Step,
    shard: &mut Shard,
    work: &mut Work,
) -> Result<(), RunError>
    requires may_run { MayRunOn given.now.catalog.now shard.old }
    requires fits { StepRuns given.now.catalog.now step.now }
    ensures { Does (step_on (context_of given.now) step.now) result shard.old work.old shard.new work.new }
{
    match step {
        Step::Sql(statement) => {
            run_body_statement(alloc, given, given.args, statement, shard, work)
        }
        Step::AbortIf { test, code } => { abort_if(alloc, given, given.args, test, *code, shard) }
        Step::ForEach { input, body } => {
            for_each_of(alloc, given, *input, body.as_slice(), shard, work)
        }
        Step::Emit { stream, query } => emit(alloc, given, *stream, query, shard, work),
        Step::Local { stream, query } => emit(alloc, given, *stream, query, shard, work),
        Step::Return(query) => reply(alloc, given, query, shard, work),
    }
}
