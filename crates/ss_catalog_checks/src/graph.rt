//! Graphs by their edges, and the search for what is reached in them.

ghost use Rattle.std.specs.Prelude.{◌≡◌, ◌<◌, ◌≤◌, ◌++◌, ◌∷◌, ℕ, List, set, get_or, replicate, length, [], false, true, IfOk, OnOk};
ghost use Rattle.ss_catalog_checks.specs.Graphs.{edge, has_edge, is_among, IsGraphOf, IsClosed, StartsWithin, with_flag, newly, fresh, FlagsReached};

use ss_value::{NoMemory, Seq};
use std::alloc::Global;

/// An edge from one node to another.
#[derive(Clone, Copy, Debug, PartialEq, Eq, Drop)]
pub(crate) struct Edge {
    pub from: usize,
    pub to: usize,
}

/// Adds an edge to a list.
pub(crate) fn add_edge(from: usize, to: usize, edges: &mut Seq<Edge>) -> Result<(), NoMemory>
    ensures { OnOk result (edges.new ≡ edges.old ++ edge from to ∷ []) }
{
    edges.push(Edge { from, to })?;
    Ok(())
}

/// Adds empty rows until this node has a row.
fn add_rows(alloc: Global, graph: &mut Seq<Seq<usize>>, node: usize) -> Result<(), NoMemory>
    ensures ok { OnOk result ((n : ℕ) → get_or graph.new n [] ≡ get_or graph.old n []) }
    ensures grown { OnOk result (length graph.old ≤ length graph.new) }
    ensures there { OnOk result (node < length graph.new) }
{
    'rows: while graph.len() <= node {
        graph.push(Seq::new(alloc))?;
    }
    Ok(())
}

/// Adds a node to the row of another, which is there.
fn add_to_row(
    alloc: Global,
    graph: &mut Seq<Seq<usize>>,
    from: usize,
    to: usize,
) -> Result<(), NoMemory>
    requires { from < length graph.old }
    ensures { OnOk result (graph.new ≡ set graph.old from (get_or graph.old from [] ++ to ∷ [])) }
{
    let mut row = graph.put(from, Seq::new(alloc));
    row.push(to)?;
    let _empty = graph.put(from, row);
    Ok(())
}

/// Adds an edge to a graph, with the rows that its nodes lack.
fn join(alloc: Global, graph: &mut Seq<Seq<usize>>, edge: Edge) -> Result<(), NoMemory>
    ensures { (edges : List Edge) → IsGraphOf edges graph.old → OnOk result (IsGraphOf (edges ++ edge ∷ []) graph.new) }
{
    add_rows(alloc, graph, edge.from)?;
    // So that the graph is closed, and a search has a flag for each node that it meets.
    add_rows(alloc, graph, edge.to)?;
    add_to_row(alloc, graph, edge.from, edge.to)
}

/// The graph of these edges: a row for each node up to the greatest, with the nodes that its edges lead to.
///
/// Linear in the edges and in the greatest node. Takes a word an edge, and four a node.
pub(crate) fn graph_from(alloc: Global, edges: &[Edge]) -> Result<Seq<Seq<usize>>, NoMemory>
    ensures { IfOk result (λ graph. IsGraphOf edges.now graph) }
{
    let mut graph = Seq::new(alloc);
    for edge in edges {
        join(alloc, &mut graph, *edge)?;
    }
    Ok(graph)
}

/// Whether the flag of a node is set; past the last flag none is.
pub(crate) fn is_set(flags: &Seq<bool>, node: usize) -> bool
    ensures { result ≡ get_or flags.now node false }
{
    match flags.get(node) {
        Some(flag) => *flag,
        None => false,
    }
}

/// This many flags, none of them set.
fn no_flags(alloc: Global, count: usize) -> Result<Seq<bool>, NoMemory>
    ensures { IfOk result (λ flags. flags ≡ replicate count false) }
{
    let mut flags = Seq::new(alloc);
    for _ in 0..count {
        flags.push(false)?;
    }
    Ok(flags)
}

/// Sets the flag of a node, and adds the node to `todo` where the flag was not set. Past the last flag nothing changes.
fn see(node: usize, seen: &mut Seq<bool>, todo: &mut Seq<usize>) -> Result<(), NoMemory>
    ensures ok { OnOk result (seen.new ≡ set seen.old node true) }
    ensures todo { OnOk result (todo.new ≡ todo.old ++ newly seen.old node) }
{
    if node < seen.len() {
        let before = seen.put(node, true);
        if !before {
            todo.push(node)?;
        }
    }
    Ok(())
}

/// The same for each of these nodes.
fn see_all(nodes: &[usize], seen: &mut Seq<bool>, todo: &mut Seq<usize>) -> Result<(), NoMemory>
    ensures ok { OnOk result (seen.new ≡ with_flag seen.old nodes.now) }
    ensures todo { OnOk result (todo.new ≡ todo.old ++ fresh seen.old nodes.now) }
{
    for node in nodes {
        see(*node, seen, todo)?;
    }
    Ok(())
}

/// The same for the nodes that the edges of a node lead to.
fn follow(
    graph: &Seq<Seq<usize>>,
    node: usize,
    seen: &mut Seq<bool>,
    todo: &mut Seq<usize>,
) -> Result<(), NoMemory>
    ensures ok { OnOk result (seen.new ≡ with_flag seen.old (get_or graph.now node [])) }
    ensures todo { OnOk result (todo.new ≡ todo.old ++ fresh seen.old (get_or graph.now node [])) }
{
    match graph.get(node) {
        Some(next) => see_all(next.as_slice(), seen, todo),
        None => Ok(()),
    }
}

/// Which nodes are reached along the edges from these, with these among them.
///
/// Linear in the nodes, in the edges that are met and in the starts. Takes a byte a node, and a word for each node that
/// is reached.
pub(crate) fn reached_nodes(
    alloc: Global,
    graph: &Seq<Seq<usize>>,
    starts: &[usize],
) -> Result<Seq<bool>, NoMemory>
    requires closed { IsClosed graph.now (length graph.now) }
    requires within { StartsWithin starts.now (length graph.now) }
    ensures { IfOk result (λ seen. FlagsReached (has_edge graph.now) (is_among starts.now) seen) }
{
    let mut seen = no_flags(alloc, graph.len())?;
    let mut todo = Seq::new(alloc);
    see_all(starts, &mut seen, &mut todo)?;
    // A node comes into `todo` only when its flag is set, so that each is followed once and the search ends.
    'search: loop {
        match todo.pop() {
            Some(node) => follow(graph, node, &mut seen, &mut todo)?,
            None => return Ok(seen),
        }
    }
}
