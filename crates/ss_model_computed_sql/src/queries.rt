//! The meaning of a query, in phases: pairs and WHERE; groups; items; sort; the first n.

ghost use Rattle.std.specs.Prelude.{◌≡◌, IfOk, IfErr, Ok};
ghost use Rattle.std.specs.List.{list_any};
ghost use Rattle.ss_sql_trees.specs.WellTyped.{is_aggregate, query_aggregated};
ghost use Rattle.ss_model.specs.Queries.{join_source, query_result};
ghost use Rattle.ss_model.specs.Stops.{StopsAs};
ghost use Rattle.ss_model_computed_sql.specs.Phases.{results_of, ordered_of};

mod extreme;
mod filter;
mod groups;
mod items;
mod join;
mod limit;
mod singles;
mod sort;

pub use crate::columns::column_value;
use crate::queries::filter::passing_tuples;
pub use crate::queries::filter::where_passes;
use crate::queries::groups::query_groups;
use crate::queries::items::group_results;
use crate::queries::join::join_rows;
use crate::queries::limit::take_limit;
use crate::queries::sort::sort_rows;
use ss_model::RunError;
use ss_sql_trees::{Query, SelectItem};
use ss_value::{NoMemory, Row, Rows, Seq};
use std::alloc::Global;

/// Whether an item is COUNT, SUM, MIN or MAX.
fn is_aggregate(item: &SelectItem) -> bool
    ensures { result ≡ is_aggregate item.now }
{
    !matches!(item, SelectItem::Plain(_))
}

/// Whether one of the items is an aggregate.
fn has_aggregate(items: &[SelectItem]) -> bool
    ensures { result ≡ list_any is_aggregate items.now }
{
    items.iter().any(|item| is_aggregate(item))
}

/// Whether a query has an aggregate item or GROUP BY.
fn is_aggregated(query: &Query) -> bool
    ensures { result ≡ query_aggregated query.now }
{
    has_aggregate(query.items.as_slice()) || query.groups.len() >= 1
}

/// A row for each group of these tuples. Aborts as the first group that does.
fn result_rows(
    alloc: Global,
    query: &Query,
    found: &Seq<Rows>,
    params: &Row,
) -> Result<Rows, RunError>
    ensures ok { IfOk result (λ rows. results_of params.now query.now found.now ≡ Ok rows) }
    ensures stops { IfErr result (λ stop. StopsAs (results_of params.now query.now found.now) stop) }
{
    let groups = query_groups(alloc, is_aggregated(query), query.groups.as_slice(), found)?;
    group_results(alloc, query.items.as_slice(), groups.as_slice(), params)
}

/// The rows in the order of ORDER BY, and of those the first ones up to LIMIT.
fn ordered_rows(alloc: Global, query: &Query, results: Rows) -> Result<Rows, NoMemory>
    ensures { IfOk result (λ rows. rows ≡ ordered_of query.now results) }
{
    let sorted = sort_rows(alloc, query.order.as_slice(), results)?;
    Ok(take_limit(query.limit, sorted))
}

/// The rows of a query on the rows of its sources.
///
/// `outer` are the rows of FROM, and `joined` those of the JOIN's source, which are not read where the query has no
/// JOIN. Aborts as the first of these that does: WHERE on all tuples in order, and then the items of the groups in
/// order.
///
/// Makes all pairs of a JOIN, evaluates each item on each tuple, and sorts by insertion: quadratic in the rows.
#[tactic(auto, unfolding(ss_model::specs::Queries::query_result))]
pub fn query_rows(
    alloc: Global,
    query: &Query,
    outer: &Rows,
    joined: &Rows,
    params: &Row,
) -> Result<Rows, RunError>
    ensures ok { IfOk result (λ rows. query_result outer.now (join_source (λ _. joined.now) query.now.joined) params.now query.now ≡ Ok rows) }
    ensures stops { IfErr result (λ stop. StopsAs (query_result outer.now (join_source (λ _. joined.now) query.now.joined) params.now query.now) stop) }
{
    let tuples = join_rows(alloc, outer, &query.joined, joined)?;
    let found = passing_tuples(alloc, &query.test, tuples.as_slice(), params)?;
    let results = result_rows(alloc, query, &found, params)?;
    Ok(ordered_rows(alloc, query, results)?)
}
