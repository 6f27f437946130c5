//! The steps of a body.

ghost use Rattle.std.specs.Prelude.{◌≡◌, OnOk, IfOk, IfErr, Ok};
ghost use Rattle.ss_model.specs.Results.{try_fold};
ghost use Rattle.ss_model.specs.Bodies.{batches_so_far, execute_inner, execute_step, step_on};
ghost use Rattle.ss_model.specs.Stops.{StopsAs};
ghost use Rattle.ss_model_computed.specs.State.{context_of, execution_of};
ghost use Rattle.ss_model_computed.specs.Steps.{reply_rows};
ghost use Rattle.ss_model.specs.Depths.{inner_steps, steps_of_rows};
ghost use Rattle.ss_model_computed.specs.Meanings.{Brings, StepStops, body_query};

use crate::bodies::conditions::execute_abort_if;
use crate::bodies::emit::emit_rows;
use crate::bodies::limits::exceeds_row_limit;
use crate::contents::{Context, Execution};
use crate::lists::{add_rows, copy_at};
use crate::statements::{context_query, execute_statement};
use ss_model::{Inner, Reason, RunError, Step};
use ss_sql_trees::Query;
use ss_value::{Copies, NoMemory, Row, Rows, Seq};
use std::alloc::Global;

/// Runs a step of a `for_each` on the current row, whose columns are the parameters.
fn execute_inner(
    alloc: Global,
    context: &Context,
    current: &Row,
    inner: &Inner,
    execution: &mut Execution,
) -> Result<(), RunError>
    ensures ok { OnOk result (execute_inner (context_of context.now) current.now inner.now (execution_of execution.old) ≡ Ok (execution_of execution.new)) }
    ensures stops { IfErr result (StopsAs (execute_inner (context_of context.now) current.now inner.now (execution_of execution.old))) }
{
    match inner {
        Inner::Sql(statement) => {
            let nothing = Seq::new(alloc);
            execute_statement(alloc, context, &nothing, current, statement, execution)
        }
        Inner::AbortIf { test, code } => {
            execute_abort_if(alloc, context, current, test, *code, execution)
        }
    }
}

/// Runs the steps of a `for_each` on one row, in order, up to the first abort.
fn execute_inners(
    alloc: Global,
    context: &Context,
    current: &Row,
    body: &[Inner],
    execution: &mut Execution,
) -> Result<(), RunError>
    ensures ok { OnOk result (Brings (inner_steps (context_of context.now) current.now body.now) execution.old execution.new) }
    ensures stops { IfErr result (StepStops (inner_steps (context_of context.now) current.now body.now) execution.old) }
{
    for inner in body {
        execute_inner(alloc, context, current, inner, execution)?;
    }
    Ok(())
}

/// Runs the steps of a `for_each` on each row, in order, up to the first abort.
fn for_each(
    alloc: Global,
    context: &Context,
    body: &[Inner],
    rows: &[Row],
    execution: &mut Execution,
) -> Result<(), RunError>
    ensures ok { OnOk result (Brings (steps_of_rows (context_of context.now) body.now rows.now) execution.old execution.new) }
    ensures stops { IfErr result (StepStops (steps_of_rows (context_of context.now) body.now rows.now) execution.old) }
{
    for row in rows {
        execute_inners(alloc, context, row, body, execution)?;
    }
    Ok(())
}

/// Adds copies of rows to the reply. Aborts with `ReplyFull` where it would have more than 1,024.
fn reply_rows(alloc: Global, rows: &Rows, execution: &mut Execution) -> Result<(), RunError>
    ensures ok { OnOk result (reply_rows rows.now (execution_of execution.old) ≡ Ok (execution_of execution.new)) }
    ensures stops { IfErr result (StopsAs (reply_rows rows.now (execution_of execution.old))) }
{
    if exceeds_row_limit(&execution.reply, rows) {
        return Err(RunError::Abort(Reason::ReplyFull));
    }
    add_rows(alloc, &mut execution.reply, rows)?;
    Ok(())
}

/// The rows of a query of the body, whose parameters are the arguments.
fn body_query(
    alloc: Global,
    context: &Context,
    query: &Query,
    execution: &Execution,
) -> Result<Rows, RunError>
    ensures ok { IfOk result (λ rows. body_query context.now query.now execution.now ≡ Ok rows) }
    ensures stops { IfErr result (StopsAs (body_query context.now query.now execution.now)) }
{
    let nothing = Seq::new(alloc);
    context_query(
        alloc,
        context,
        &nothing,
        context.args,
        query,
        &execution.contents,
    )
}

/// Runs a step of a body, on the context's batches.
fn step_on(
    alloc: Global,
    context: &Context,
    step: &Step,
    execution: &mut Execution,
) -> Result<(), RunError>
    ensures ok { OnOk result (step_on (context_of context.now) step.now (execution_of execution.old) ≡ Ok (execution_of execution.new)) }
    ensures stops { IfErr result (StopsAs (step_on (context_of context.now) step.now (execution_of execution.old))) }
{
    match step {
        Step::Sql(statement) => {
            let nothing = Seq::new(alloc);
            execute_statement(alloc, context, &nothing, context.args, statement, execution)
        }
        Step::AbortIf { test, code } => {
            execute_abort_if(alloc, context, context.args, test, *code, execution)
        }
        Step::ForEach { input, body } => {
            let rows = copy_at(alloc, context.batches, usize::from(*input))?;
            for_each(alloc, context, body.as_slice(), rows.as_slice(), execution)
        }
        Step::Emit { stream, query } => {
            let rows = body_query(alloc, context, query, execution)?;
            emit_rows(alloc, context, *stream, &rows, execution)
        }
        Step::Local { stream, query } => {
            let rows = body_query(alloc, context, query, execution)?;
            emit_rows(alloc, context, *stream, &rows, execution)
        }
        Step::Return(query) => {
            let rows = body_query(alloc, context, query, execution)?;
            reply_rows(alloc, &rows, execution)
        }
    }
}

/// Copies of the batches that the steps of a procedure read: those of its inputs, and behind them those of its inner
/// streams, so far.
fn batches_so_far(
    alloc: Global,
    context: &Context,
    execution: &Execution,
) -> Result<Seq<Rows>, NoMemory>
    ensures { IfOk result (λ batches. batches ≡ batches_so_far (context_of context.now) (execution_of execution.now)) }
{
    let mut batches = context.batches.duplicate(alloc)?;
    for stream in context.inner.as_slice() {
        let rows = copy_at(alloc, &execution.emitted, usize::from(*stream))?;
        batches.push(rows)?;
    }
    Ok(batches)
}

/// Runs a step of a body. Linear in the batches that it may read, beside what the step costs.
pub fn execute_step(
    alloc: Global,
    context: &Context,
    step: &Step,
    execution: &mut Execution,
) -> Result<(), RunError>
    ensures ok { OnOk result (execute_step (context_of context.now) step.now (execution_of execution.old) ≡ Ok (execution_of execution.new)) }
    ensures stops { IfErr result (StopsAs (execute_step (context_of context.now) step.now (execution_of execution.old))) }
{
    let batches = batches_so_far(alloc, context, execution)?;
    let seen = Context {
        catalog: context.catalog,
        procedure: context.procedure,
        args: context.args,
        batches: &batches,
        inner: context.inner,
        split_value: context.split_value,
    };
    step_on(alloc, &seen, step, execution)
}

/// Runs the steps of a body in order, up to the first abort.
pub fn execute_steps(
    alloc: Global,
    context: &Context,
    steps: &[Step],
    execution: &mut Execution,
) -> Result<(), RunError>
    ensures ok { OnOk result (try_fold (execute_step (context_of context.now)) steps.now (execution_of execution.old) ≡ Ok (execution_of execution.new)) }
    ensures stops { IfErr result (StopsAs (try_fold (execute_step (context_of context.now)) steps.now (execution_of execution.old))) }
{
    for step in steps {
        execute_step(alloc, context, step, execution)?;
    }
    Ok(())
}
