//! Cycles of workflows.

ghost use Rattle.std.specs.Prelude.{◌≡◌, ◌<◌, ◌^◌, ◌++◌, map, length, slice_get, IfOk, OnOk};
ghost use Rattle.std.specs.Bool.{Decides};
ghost use Rattle.std.specs.List.{flat_map};
ghost use Rattle.ss_catalog_checks.specs.Firsts.{IsFirst};
ghost use Rattle.ss_catalog_checks.specs.Graphs.{IsGraphOf};
ghost use Rattle.ss_catalog_checks.specs.Workflows.{IsOnCycle, emit_edges, take_edge, procedure_edges, workflow_edges};

use crate::graph::{Edge, add_edge, graph_from, is_set, reached_nodes};
use ss_model::{Catalog, Procedure, Step};
use ss_value::{NoMemory, Seq};
use std::alloc::Global;

/// Adds the edge from a procedure to the stream that a step emits to. The node of a procedure is its number, and the
/// nodes of streams come behind those of the procedures, of which there are `count`.
fn add_emit(
    count: usize,
    procedure: usize,
    step: &Step,
    edges: &mut Seq<Edge>,
) -> Result<(), NoMemory>
    requires { count < 2 ^ 63 }
    ensures { OnOk result (edges.new ≡ edges.old ++ emit_edges count procedure step.now) }
{
    match step {
        Step::Emit { stream, .. } => add_edge(procedure, count + usize::from(*stream), edges),
        Step::Sql(_) => Ok(()),
        Step::AbortIf { .. } => Ok(()),
        Step::ForEach { .. } => Ok(()),
        Step::Local { .. } => Ok(()),
        Step::Return(_) => Ok(()),
    }
}

/// Adds the edges from a procedure to the streams that its body emits to.
fn add_emits(
    count: usize,
    procedure: usize,
    body: &[Step],
    edges: &mut Seq<Edge>,
) -> Result<(), NoMemory>
    requires { count < 2 ^ 63 }
    ensures { OnOk result (edges.new ≡ edges.old ++ flat_map (emit_edges count procedure) body.now) }
{
    for step in body {
        add_emit(count, procedure, step, edges)?;
    }
    Ok(())
}

/// Adds the edges to a procedure from its inputs.
fn add_takes(
    count: usize,
    procedure: usize,
    inputs: &[u16],
    edges: &mut Seq<Edge>,
) -> Result<(), NoMemory>
    requires { count < 2 ^ 63 }
    ensures { OnOk result (edges.new ≡ edges.old ++ map (take_edge count procedure) inputs.now) }
{
    for stream in inputs {
        add_edge(count + usize::from(*stream), procedure, edges)?;
    }
    Ok(())
}

/// Adds the edges of the procedure of this number.
fn add_procedure(
    catalog: &Catalog,
    count: usize,
    procedure: usize,
    edges: &mut Seq<Edge>,
) -> Result<(), NoMemory>
    requires { count < 2 ^ 63 }
    ensures { OnOk result (edges.new ≡ edges.old ++ procedure_edges count procedure (slice_get catalog.now.procedures procedure)) }
{
    match catalog.procedures.get(procedure) {
        Some(found) => {
            add_emits(count, procedure, found.body.as_slice(), edges)?;
            add_takes(count, procedure, found.inputs.as_slice(), edges)
        }
        None => Ok(()),
    }
}

/// The edges of each procedure: to the streams that it emits to, and from those that it takes.
fn workflow_edges(alloc: Global, catalog: &Catalog) -> Result<Seq<Edge>, NoMemory>
    ensures { IfOk result (λ edges. edges ≡ workflow_edges catalog.now) }
{
    let count = catalog.procedures.as_slice().len();
    let mut edges = Seq::new(alloc);
    for procedure in 0..count {
        add_procedure(catalog, count, procedure, &mut edges)?;
    }
    Ok(edges)
}

/// Whether a procedure leads to itself.
fn is_on_cycle(
    alloc: Global,
    catalog: &Catalog,
    graph: &Seq<Seq<usize>>,
    procedure: usize,
) -> Result<bool, NoMemory>
    requires graph { IsGraphOf (workflow_edges catalog.now) graph.now }
    requires within { procedure < length catalog.now.procedures }
    ensures { IfOk result (λ found. Decides found (IsOnCycle catalog.now procedure)) }
{
    match graph.get(procedure) {
        Some(next) => {
            // From where its edges lead, and not from itself, since a search always reaches its starts.
            let seen = reached_nodes(alloc, graph, next.as_slice())?;
            Ok(is_set(&seen, procedure))
        }
        None => Ok(false),
    }
}

/// The first procedure that leads to itself: it emits to a stream that is taken by itself, or by a procedure that leads
/// to it. None where no procedure does.
///
/// For each procedure linear in the procedures, the streams, and the emits and inputs of all procedures. Takes memory
/// linear in these.
///
/// Source: workflows are directed acyclic graphs, S-Store (Meehan et al., PVLDB 8, 2015), section 2.
pub fn workflow_cycle(alloc: Global, catalog: &Catalog) -> Result<Option<usize>, NoMemory>
    ensures { IfOk result (λ found. IsFirst (IsOnCycle catalog.now) found) }
{
    let edges = workflow_edges(alloc, catalog)?;
    let graph = graph_from(alloc, edges.as_slice())?;
    for procedure in 0..catalog.procedures.len() {
        let found = is_on_cycle(alloc, catalog, &graph, procedure)?;
        if found {
            return Ok(Some(procedure));
        }
    }
    Ok(None)
}
