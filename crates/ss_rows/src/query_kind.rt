//! Which queries are aggregated.

ghost use Rattle.std.specs.Prelude.{◌≡◌};
ghost use Rattle.std.specs.List.{list_any};
ghost use Rattle.ss_sql_trees.specs.WellTyped.{is_aggregate, query_aggregated};

use ss_sql_trees::{Query, SelectItem};

/// Whether one of these items is COUNT, SUM, MIN or MAX.
fn has_aggregate(items: &[SelectItem]) -> bool
    ensures { result ≡ list_any is_aggregate items.now }
{
    items
        .iter()
        .any(|item| !matches!(item, SelectItem::Plain(_)))
}

/// Whether a query has an aggregate item or GROUP BY, so that its rows are those of groups and not of tuples.
pub fn is_aggregated(query: &Query) -> bool
    ensures { result ≡ query_aggregated query.now }
{
    has_aggregate(query.items.as_slice()) || query.groups.len() >= 1
}
