//! How windows move, and the triggers that this sets off.
//!
//! What a trigger stages may move another window, so these functions call one another. `depth` is how deep the
//! triggers of windows may still nest: it falls where the triggers of a window run, and at 0 none do. It starts at the
//! number of windows, since in an accepted catalogue no chain of triggers comes to one window twice.

ghost use Rattle.std.specs.Prelude.{◌≡◌, IfErr, OnOk, Ok};
ghost use Rattle.ss_model.specs.Statements.{cascade_to_depth};
ghost use Rattle.ss_model.specs.Stops.{StopsAs};
ghost use Rattle.ss_model_computed.specs.State.{execution_of, context_of};
ghost use Rattle.ss_model_computed.specs.Firing.{waits_for};
ghost use Rattle.ss_model.specs.Depths.{close_to_depth, stage_to_depth, stage_all_to_depth, run_to_depth, run_all_to_depth, close_and_fire, fire_stream};
ghost use Rattle.ss_model_computed.specs.Meanings.{Brings, StepStops, fire_to_depth};

use crate::contents::{Context, Execution};
use crate::effects::{Effect, statement_effect};
use crate::lists::one_item;
use crate::windows::{append_unit, join_unit, units_count, visible_end, window_unit};
use ss_model::{On, Reason, RunError};
use ss_sql_trees::Statement;
use ss_value::{Copies, Row, Rows, Seq, Unit};
use std::alloc::Global;

/// The most units that a window ever has: 2^62.
pub const WINDOW_UNIT_LIMIT: usize = 4_611_686_018_427_387_904;

/// Whether a trigger on `trigger` waits for `on`.
fn waits_for(on: On, trigger: On) -> bool
    ensures { result ≡ waits_for on trigger }
{
    match (on, trigger) {
        (On::Stream(n), On::Stream(m)) => n == m,
        (On::Window(n), On::Window(m)) => n == m,
        _ => false,
    }
}

/// Runs the triggers of a window whose end moved, nested as deep as `depth`.
#[cycle(cascade)]
fn cascade(
    alloc: Global,
    depth: usize,
    context: &Context,
    window: u16,
    execution: &mut Execution,
) -> Result<(), RunError>
    ensures ok { OnOk result (cascade_to_depth depth (context_of context.now) window (execution_of execution.old) ≡ Ok (execution_of execution.new)) }
    ensures stops { IfErr result (λ stop. StopsAs (cascade_to_depth depth (context_of context.now) window (execution_of execution.old)) stop) }
{
    if depth == 0 {
        return Ok(());
    }
    let nothing = Seq::new(alloc);
    run_triggers(
        alloc,
        depth - 1,
        context,
        On::Window(window),
        &nothing,
        execution,
    )
}

/// Closes a unit of a window, and runs the window's triggers, nested as deep as `depth`, if this moves the end of what
/// the window shows.
#[cycle(cascade)]
#[tactic(auto, unfolding(ss_model::specs::Statements::close_unit))]
fn close_to_depth(
    alloc: Global,
    depth: usize,
    context: &Context,
    window: u16,
    unit: Rows,
    execution: &mut Execution,
) -> Result<(), RunError>
    ensures ok { OnOk result (Brings (close_to_depth depth (context_of context.now) window unit) execution.old execution.new) }
    ensures stops { IfErr result (StepStops (close_to_depth depth (context_of context.now) window unit) execution.old) }
{
    let count = units_count(&execution.contents, window);
    if count >= WINDOW_UNIT_LIMIT {
        return Err(RunError::Abort(Reason::WindowFull(window)));
    }
    append_unit(window, unit, &mut execution.contents)?;
    let before = visible_end(context.catalog, window, count);
    // The test above keeps `count + 1` in its type.
    let after = visible_end(context.catalog, window, count + 1);
    if before == after {
        return Ok(());
    }
    cascade(alloc, depth, context, window, execution)
}

/// Stages a row in a window: as a unit of its own, or one row more for the unit that is open.
#[cycle(cascade)]
fn stage_row(
    alloc: Global,
    depth: usize,
    context: &Context,
    window: u16,
    row: Row,
    execution: &mut Execution,
) -> Result<(), RunError>
    ensures ok { OnOk result (Brings (stage_to_depth depth (context_of context.now) window row) execution.old execution.new) }
    ensures stops { IfErr result (StepStops (stage_to_depth depth (context_of context.now) window row) execution.old) }
{
    match window_unit(context.catalog, window) {
        Unit::Rows => {
            let unit = one_item(alloc, row)?;
            close_to_depth(alloc, depth, context, window, unit, execution)
        }
        Unit::Batches => {
            join_unit(window, row, &mut execution.open_units)?;
            Ok(())
        }
    }
}

/// Stages copies of rows in a window, one after another, each with the triggers that it sets off, up to the first abort.
#[cycle(cascade)]
fn stage_rows(
    alloc: Global,
    depth: usize,
    context: &Context,
    window: u16,
    rows: &[Row],
    execution: &mut Execution,
) -> Result<(), RunError>
    ensures ok { OnOk result (Brings (stage_all_to_depth depth (context_of context.now) window rows.now) execution.old execution.new) }
    ensures stops { IfErr result (StepStops (stage_all_to_depth depth (context_of context.now) window rows.now) execution.old) }
{
    for row in rows {
        let row = row.duplicate(alloc)?;
        stage_row(alloc, depth, context, window, row, execution)?;
    }
    Ok(())
}

/// Runs a statement, and the triggers of the windows that it moves, nested as deep as `depth`.
#[cycle(cascade)]
pub(crate) fn execute_to_depth(
    alloc: Global,
    depth: usize,
    context: &Context,
    inserted: &Rows,
    params: &Row,
    statement: &Statement,
    execution: &mut Execution,
) -> Result<(), RunError>
    ensures ok { OnOk result (Brings (run_to_depth depth (context_of context.now) inserted.now params.now statement.now) execution.old execution.new) }
    ensures stops { IfErr result (StepStops (run_to_depth depth (context_of context.now) inserted.now params.now statement.now) execution.old) }
{
    let effect = statement_effect(
        alloc,
        context,
        inserted,
        params,
        statement,
        &mut execution.contents,
    )?;
    match effect {
        Effect::Wrote => Ok(()),
        Effect::Staged { window, rows } => {
            stage_rows(alloc, depth, context, window, rows.as_slice(), execution)
        }
    }
}

/// Runs the statements of a trigger in written order, up to the first abort.
#[cycle(cascade)]
fn run_statements(
    alloc: Global,
    depth: usize,
    context: &Context,
    inserted: &Rows,
    statements: &[Statement],
    execution: &mut Execution,
) -> Result<(), RunError>
    ensures ok { OnOk result (Brings (run_all_to_depth depth (context_of context.now) inserted.now statements.now) execution.old execution.new) }
    ensures stops { IfErr result (StepStops (run_all_to_depth depth (context_of context.now) inserted.now statements.now) execution.old) }
{
    let nothing = Seq::new(alloc);
    for statement in statements {
        execute_to_depth(
            alloc, depth, context, inserted, &nothing, statement, execution,
        )?;
    }
    Ok(())
}

/// Runs the triggers that wait for `on` in written order, where these rows were just inserted.
#[cycle(cascade)]
fn run_triggers(
    alloc: Global,
    depth: usize,
    context: &Context,
    on: On,
    inserted: &Rows,
    execution: &mut Execution,
) -> Result<(), RunError>
    ensures ok { OnOk result (Brings (fire_to_depth depth context.now inserted.now on) execution.old execution.new) }
    ensures stops { IfErr result (StepStops (fire_to_depth depth context.now inserted.now on) execution.old) }
{
    for trigger in context.catalog.triggers.as_slice() {
        if waits_for(on, trigger.on) {
            run_statements(
                alloc,
                depth,
                context,
                inserted,
                trigger.statements.as_slice(),
                execution,
            )?;
        }
    }
    Ok(())
}

/// Runs the triggers of a stream in written order, on these rows.
///
/// Aborts where a statement of a trigger does. After an abort or out of memory the execution's state is unspecified.
pub fn run_stream_triggers(
    alloc: Global,
    context: &Context,
    stream: u16,
    rows: &Rows,
    execution: &mut Execution,
) -> Result<(), RunError>
    ensures ok { OnOk result (Brings (fire_stream (context_of context.now) rows.now stream) execution.old execution.new) }
    ensures stops { IfErr result (StepStops (fire_stream (context_of context.now) rows.now stream) execution.old) }
{
    let depth = context.catalog.windows.len();
    run_triggers(alloc, depth, context, On::Stream(stream), rows, execution)
}

/// Closes a unit of a window, and runs the window's triggers if this moves the end of what it shows.
///
/// Aborts with `WindowFull` where the window has had 2^62 units, and where a trigger does. After an abort or out of
/// memory the execution's state is unspecified.
pub fn close_unit(
    alloc: Global,
    context: &Context,
    window: u16,
    unit: Rows,
    execution: &mut Execution,
) -> Result<(), RunError>
    ensures ok { OnOk result (Brings (close_and_fire (context_of context.now) window unit) execution.old execution.new) }
    ensures stops { IfErr result (StepStops (close_and_fire (context_of context.now) window unit) execution.old) }
{
    let depth = context.catalog.windows.len();
    close_to_depth(alloc, depth, context, window, unit, execution)
}
