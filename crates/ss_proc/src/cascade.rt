//! How windows move, and the triggers that this sets off.
//!
//! What a trigger stages may move another window, so these functions call one another. `depth` is how deep the triggers
//! of windows may still nest: it falls by one where the triggers of a window run, and at 0 none run. In an accepted catalogue
//! the number of windows is depth enough (law `depth_is_enough` of `ss_model_laws`), since no chain of triggers meets a
//! window twice. So no rank of windows is needed.

ghost use Rattle.std.specs.Prelude.{◌≡◌, ◌<◌, [], ◌∷◌, length, IfOk};
ghost use Rattle.std.specs.List.{AllByRecursion};
ghost use Rattle.ss_model.specs.Contents.{window_def};
ghost use Rattle.ss_model.specs.Statements.{cascade_to_depth};
ghost use Rattle.ss_plan.specs.Statements.{FitsTables};
ghost use Rattle.ss_proc.specs.Executions.{context_of, MayRunOn};
ghost use Rattle.ss_model.specs.Depths.{close_to_depth, stage_to_depth, stage_all_to_depth, run_to_depth, run_all_to_depth};
ghost use Rattle.ss_proc.specs.Meanings.{Does, fire_to_depth};
ghost use Rattle.ss_model.specs.Depths.{close_and_fire, run_and_fire, fire_stream};

use crate::firings::{TriggerEvent, firings};
use crate::statements::statement_effect;
use crate::work::{Given, Work};
use ss_model::{Catalog, RunError};
use ss_plan::Wrote;
use ss_shard::Shard;
use ss_sql_trees::Statement;
use ss_value::{NoMemory, Row, Rows, Seq, Unit};
use std::alloc::Global;

/// What a window counts, and rows where there is no such window.
fn window_unit(catalog: &Catalog, window: u16) -> Unit
    ensures { result ≡ (window_def catalog.now window).unit }
{
    match catalog.windows.get(usize::from(window)) {
        Some(def) => def.unit,
        None => Unit::Rows,
    }
}

/// The list of one row.
fn one_row(alloc: Global, row: Row) -> Result<Rows, NoMemory>
    ensures { IfOk result (λ rows. rows ≡ row ∷ []) }
{
    let mut rows = Seq::new(alloc);
    rows.push(row)?;
    Ok(rows)
}

/// Runs the triggers of a window of which the end of what it shows has moved, nested to this depth.
#[cycle(cascade)]
fn cascade(
    alloc: Global,
    depth: usize,
    given: &Given,
    window: u16,
    shard: &mut Shard,
    work: &mut Work,
) -> Result<(), RunError>
    requires may_run { MayRunOn given.now.catalog.now shard.old }
    ensures { Does (cascade_to_depth depth (context_of given.now) window) result shard.old work.old shard.new work.new }
{
    if depth == 0 {
        return Ok(());
    }
    let nothing = Seq::new(alloc);
    let event = TriggerEvent::Moved(window);
    run_triggers(
        alloc,
        depth - 1,
        given,
        event,
        nothing.as_slice(),
        shard,
        work,
    )
}

/// Closes a unit of a window, and runs the window's triggers, nested to this depth, if this moves the end of what it shows.
#[cycle(cascade)]
fn close_to_depth(
    alloc: Global,
    depth: usize,
    given: &Given,
    window: u16,
    unit: Rows,
    shard: &mut Shard,
    work: &mut Work,
) -> Result<(), RunError>
    requires may_run { MayRunOn given.now.catalog.now shard.old }
    requires there { window < length given.now.catalog.now.windows }
    ensures { Does (close_to_depth depth (context_of given.now) window unit) result shard.old work.old shard.new work.new }
{
    if shard.stage_unit(window, unit)? {
        return cascade(alloc, depth, given, window, shard, work);
    }
    Ok(())
}

/// Stages a row in a window: as a unit of its own in a window of rows, and in a window of batches as one row more of the unit
/// that is open, which sets nothing off until it closes.
#[cycle(cascade)]
fn stage_row(
    alloc: Global,
    depth: usize,
    given: &Given,
    window: u16,
    row: Row,
    shard: &mut Shard,
    work: &mut Work,
) -> Result<(), RunError>
    requires may_run { MayRunOn given.now.catalog.now shard.old }
    requires there { window < length given.now.catalog.now.windows }
    ensures { Does (stage_to_depth depth (context_of given.now) window row) result shard.old work.old shard.new work.new }
{
    match window_unit(given.catalog, window) {
        Unit::Rows => {
            let unit = one_row(alloc, row)?;
            close_to_depth(alloc, depth, given, window, unit, shard, work)
        }
        Unit::Batches => {
            work.open_units.join(window, row)?;
            Ok(())
        }
    }
}

/// Stages rows in a window, one after another, each with the triggers that it sets off before the next, up to the first abort.
/// No row is copied.
#[cycle(cascade)]
fn stage_rows(
    alloc: Global,
    depth: usize,
    given: &Given,
    window: u16,
    rows: Rows,
    shard: &mut Shard,
    work: &mut Work,
) -> Result<(), RunError>
    requires may_run { MayRunOn given.now.catalog.now shard.old }
    requires there { window < length given.now.catalog.now.windows }
    ensures { Does (stage_all_to_depth depth (context_of given.now) window rows) result shard.old work.old shard.new work.new }
{
    for row in rows.into_vec() {
        stage_row(alloc, depth, given, window, row, shard, work)?;
    }
    Ok(())
}

/// Runs a statement, with the triggers of the windows that it moves nested to this depth.
#[cycle(cascade)]
fn run_to_depth(
    alloc: Global,
    depth: usize,
    given: &Given,
    inserted: &[Row],
    params: &Row,
    statement: &Statement,
    shard: &mut Shard,
    work: &mut Work,
) -> Result<(), RunError>
    requires may_run { MayRunOn given.now.catalog.now shard.old }
    requires fits { FitsTables given.now.catalog.now statement.now }
    ensures { Does (run_to_depth depth (context_of given.now) inserted.now params.now statement.now) result shard.old work.old shard.new work.new }
{
    match statement_effect(alloc, given, inserted, params, statement, shard)? {
        Wrote::Tables => Ok(()),
        Wrote::Stage { window, rows } => {
            stage_rows(alloc, depth, given, window, rows, shard, work)
        }
    }
}

/// Runs the statements of a trigger in written order, up to the first abort.
#[cycle(cascade)]
fn run_statements(
    alloc: Global,
    depth: usize,
    given: &Given,
    inserted: &[Row],
    statements: &[Statement],
    shard: &mut Shard,
    work: &mut Work,
) -> Result<(), RunError>
    requires may_run { MayRunOn given.now.catalog.now shard.old }
    requires fits { AllByRecursion (FitsTables given.now.catalog.now) statements.now }
    ensures { Does (run_all_to_depth depth (context_of given.now) inserted.now statements.now) result shard.old work.old shard.new work.new }
{
    let nothing = Seq::new(alloc);
    for statement in statements {
        run_to_depth(
            alloc, depth, given, inserted, &nothing, statement, shard, work,
        )?;
    }
    Ok(())
}

/// Runs the triggers that an event sets off, in written order. `inserted` are the rows of the emit, and none where a window
/// moved.
#[cycle(cascade)]
fn run_triggers(
    alloc: Global,
    depth: usize,
    given: &Given,
    event: TriggerEvent,
    inserted: &[Row],
    shard: &mut Shard,
    work: &mut Work,
) -> Result<(), RunError>
    requires may_run { MayRunOn given.now.catalog.now shard.old }
    ensures { Does (fire_to_depth depth given.now event inserted.now) result shard.old work.old shard.new work.new }
{
    let fired = firings(given.catalog, event);
    for (n, trigger) in given.catalog.triggers.as_slice().iter().enumerate() {
        if fired.has(n as u8) {
            run_statements(
                alloc,
                depth,
                given,
                inserted,
                trigger.statements.as_slice(),
                shard,
                work,
            )?;
        }
    }
    Ok(())
}

/// Runs the triggers of a stream in written order, on these rows, with all that they set off. Aborts as they do.
pub fn run_stream_triggers(
    alloc: Global,
    given: &Given,
    stream: u16,
    rows: &[Row],
    shard: &mut Shard,
    work: &mut Work,
) -> Result<(), RunError>
    requires may_run { MayRunOn given.now.catalog.now shard.old }
    ensures { Does (fire_stream (context_of given.now) rows.now stream) result shard.old work.old shard.new work.new }
{
    let depth = given.catalog.windows.len();
    let event = TriggerEvent::Emitted(stream);
    run_triggers(alloc, depth, given, event, rows, shard, work)
}

/// Closes a unit of a window, and runs the window's triggers if this moves the end of what it shows.
///
/// Aborts with `WindowFull` where the window has had as many units as it may ever have, and as the triggers do.
pub fn close_unit(
    alloc: Global,
    given: &Given,
    window: u16,
    unit: Rows,
    shard: &mut Shard,
    work: &mut Work,
) -> Result<(), RunError>
    requires may_run { MayRunOn given.now.catalog.now shard.old }
    requires there { window < length given.now.catalog.now.windows }
    ensures { Does (close_and_fire (context_of given.now) window unit) result shard.old work.old shard.new work.new }
{
    let depth = given.catalog.windows.len();
    close_to_depth(alloc, depth, given, window, unit, shard, work)
}

/// Runs a statement of a body, with the triggers of the windows that it moves. Aborts as the statement and the triggers do.
pub fn run_body_statement(
    alloc: Global,
    given: &Given,
    params: &Row,
    statement: &Statement,
    shard: &mut Shard,
    work: &mut Work,
) -> Result<(), RunError>
    requires may_run { MayRunOn given.now.catalog.now shard.old }
    requires fits { FitsTables given.now.catalog.now statement.now }
    ensures { Does (run_and_fire (context_of given.now) [] params.now statement.now) result shard.old work.old shard.new work.new }
{
    let depth = given.catalog.windows.len();
    let nothing = Seq::new(alloc);
    run_to_depth(
        alloc,
        depth,
        given,
        nothing.as_slice(),
        params,
        statement,
        shard,
        work,
    )
}
