//! Cycles of windows and their triggers.

ghost use Rattle.std.specs.Prelude.{◌≡◌, ◌++◌, ◌&&◌, map, get_or, false, length, slice_get, IfOk, OnOk};
ghost use Rattle.std.specs.Bool.{Decides};
ghost use Rattle.std.specs.List.{flat_map, list_any, range_with_len};
ghost use Rattle.ss_catalog_checks.specs.Cascades.{counts_batches, goes_back, LeadsBack, IsOnTriggerCycle, target_windows, statement_windows, inserted_windows, trigger_edges, window_edges};
ghost use Rattle.ss_catalog_checks.specs.Firsts.{IsFirst};
ghost use Rattle.ss_catalog_checks.specs.Graphs.{edge, IsGraphOf};

use crate::graph::{Edge, add_edge, graph_from, is_set, reached_nodes};
use ss_model::{Catalog, On, TriggerDef};
use ss_sql_trees::{Statement, Target};
use ss_value::{NoMemory, Seq, Unit};
use std::alloc::Global;

/// Whether the unit of a window is a batch; there is none past the last window.
fn counts_batches(catalog: &Catalog, window: usize) -> bool
    ensures { result ≡ counts_batches catalog.now window }
{
    match catalog.windows.get(window) {
        Some(window) => match window.unit {
            Unit::Rows => false,
            Unit::Batches => true,
        },
        None => false,
    }
}

/// Whether a cascade that leads from what a trigger waits for into a window goes back: into the same window, or from a
/// window of batches into one that isn't later.
fn goes_back(catalog: &Catalog, on: On, window: usize) -> bool
    ensures { result ≡ goes_back catalog.now on window }
{
    match on {
        On::Stream(_) => false,
        On::Window(own) => {
            let own = usize::from(own);
            own == window
                || (counts_batches(catalog, own)
                    && counts_batches(catalog, window)
                    && window <= own)
        }
    }
}

/// Adds the target, if it is a window.
fn add_target(target: Target, windows: &mut Seq<usize>) -> Result<(), NoMemory>
    ensures { OnOk result (windows.new ≡ windows.old ++ target_windows target) }
{
    match target {
        Target::Table(_) => Ok(()),
        Target::Window(window) => {
            windows.push(usize::from(window))?;
            Ok(())
        }
    }
}

/// Adds the window that a statement inserts into, if there is one.
fn add_window(statement: &Statement, windows: &mut Seq<usize>) -> Result<(), NoMemory>
    ensures { OnOk result (windows.new ≡ windows.old ++ statement_windows statement.now) }
{
    match statement {
        Statement::InsertValues { target, .. } => add_target(*target, windows),
        Statement::InsertQuery { target, .. } => add_target(*target, windows),
        Statement::Update { .. } => Ok(()),
        Statement::Delete { .. } => Ok(()),
    }
}

/// The windows that statements insert into, in their order.
fn inserted_windows(alloc: Global, statements: &[Statement]) -> Result<Seq<usize>, NoMemory>
    ensures { IfOk result (λ windows. windows ≡ flat_map statement_windows statements.now) }
{
    let mut windows = Seq::new(alloc);
    for statement in statements {
        add_window(statement, &mut windows)?;
    }
    Ok(windows)
}

/// Adds the edges from a window to these.
fn add_edges(from: usize, windows: &[usize], edges: &mut Seq<Edge>) -> Result<(), NoMemory>
    ensures { OnOk result (edges.new ≡ edges.old ++ map (edge from) windows.now) }
{
    for window in windows {
        add_edge(from, *window, edges)?;
    }
    Ok(())
}

/// Adds the edges from a trigger's window to those that it inserts into.
fn add_trigger(alloc: Global, trigger: &TriggerDef, edges: &mut Seq<Edge>) -> Result<(), NoMemory>
    ensures { OnOk result (edges.new ≡ edges.old ++ trigger_edges trigger.now) }
{
    match trigger.on {
        // No statement inserts into a stream, so that no cascade comes back to such a trigger.
        On::Stream(_) => Ok(()),
        On::Window(window) => {
            let windows = inserted_windows(alloc, trigger.statements.as_slice())?;
            add_edges(usize::from(window), windows.as_slice(), edges)
        }
    }
}

/// The edges from each window to those that its triggers insert into.
fn window_edges(alloc: Global, triggers: &[TriggerDef]) -> Result<Seq<Edge>, NoMemory>
    ensures { IfOk result (λ edges. edges ≡ flat_map trigger_edges triggers.now) }
{
    let mut edges = Seq::new(alloc);
    for trigger in triggers {
        add_trigger(alloc, trigger, &mut edges)?;
    }
    Ok(edges)
}

/// Whether a cascade into some window that is reached goes back.
fn any_back(catalog: &Catalog, on: On, seen: &Seq<bool>) -> bool
    ensures { result ≡ list_any (λ k. get_or seen.now k false && goes_back catalog.now on k) (range_with_len 0 (length seen.now)) }
{
    (0..seen.len()).any(|window| is_set(seen, window) && goes_back(catalog, on, window))
}

/// Whether an INSERT of a trigger of a window leads back to it.
fn leads_back(
    alloc: Global,
    catalog: &Catalog,
    graph: &Seq<Seq<usize>>,
    trigger: usize,
) -> Result<bool, NoMemory>
    requires { IsGraphOf (window_edges catalog.now) graph.now }
    ensures { IfOk result (λ found. Decides found (IsOnTriggerCycle catalog.now trigger)) }
{
    match catalog.triggers.get(trigger) {
        Some(found) => match found.on {
            On::Stream(_) => Ok(false),
            On::Window(_) => {
                let windows = inserted_windows(alloc, found.statements.as_slice())?;
                let seen = reached_nodes(alloc, graph, windows.as_slice())?;
                Ok(any_back(catalog, found.on, &seen))
            }
        },
        None => Ok(false),
    }
}

/// The first trigger one of whose INSERTs leads, at once or through the triggers of further windows, back to its own
/// window, or from its own window of batches to a window of batches that isn't later in the catalogue: each of these has
/// to close after all that feed it. None where there is no such trigger.
///
/// For each trigger linear in the windows and in the INSERTs of all triggers. Takes memory linear in these.
pub fn trigger_cycle(alloc: Global, catalog: &Catalog) -> Result<Option<usize>, NoMemory>
    ensures { IfOk result (λ found. IsFirst (IsOnTriggerCycle catalog.now) found) }
{
    let edges = window_edges(alloc, catalog.triggers.as_slice())?;
    let graph = graph_from(alloc, edges.as_slice())?;
    for trigger in 0..catalog.triggers.len() {
        let found = leads_back(alloc, catalog, &graph, trigger)?;
        if found {
            return Ok(Some(trigger));
        }
    }
    Ok(None)
}
