//! Where LIMIT cuts tuples, so that less is walked over or made.
//!
//! LIMIT lets only the first rows through. Where each tuple gives one row, in the order of the tuples, those behind the
//! first ones are of no use. But a test or an item may abort on one of them, and that abort is then what the query comes
//! to: so a query ends early only where nothing in it can abort. And where an ORDER BY needs all tuples, they are sorted
//! and cut before rows are made of them only where no item can abort.

ghost use Rattle.std.specs.Prelude.{◌≡◌, true, IfSome};
ghost use Rattle.ss_rows.specs.Early.{AlwaysHasAnswer, CutsEarly, IsEnoughByLimit};
ghost use Rattle.ss_rows.specs.Lent.{IsLentItem, AreLent, SortsTuples, CutsTuples};

use crate::never_aborts::{always_has_test, is_lent};
use crate::query_kind::is_aggregated;
use ss_sql_trees::{Expr, Query, SelectItem};

/// Whether an item is a literal, a parameter or a column, which have a value for each group.
fn is_lent_item(item: &SelectItem) -> bool
    ensures { result ≡ true → IsLentItem item.now }
{
    match item {
        SelectItem::Plain(tree) => is_lent(tree),
        SelectItem::Count | SelectItem::Sum(_) | SelectItem::Min(_) | SelectItem::Max(_) => false,
    }
}

/// Whether all of these items are literals, parameters or columns.
fn are_lent(items: &[SelectItem]) -> bool
    ensures { result ≡ true → AreLent items.now }
{
    for item in items {
        if !is_lent_item(item) {
            return false;
        }
    }
    true
}

/// Whether there is no WHERE, or one that has an answer on every row.
fn always_has_answer(test: &Option<Expr>) -> bool
    ensures { result ≡ true → AlwaysHasAnswer test.now }
{
    match test {
        None => true,
        Some(tree) => always_has_test(tree),
    }
}

/// Whether no phase of a query needs all tuples, and nothing in it can abort.
fn cuts_early(query: &Query) -> bool
    ensures { result ≡ true → CutsEarly query.now }
{
    if is_aggregated(query) {
        return false;
    }
    if query.order.len() != 0 {
        return false;
    }
    if !always_has_answer(&query.test) {
        return false;
    }
    are_lent(query.items.as_slice())
}

/// How many of the first tuples of a query are enough, and None where all of them are wanted.
pub fn enough_of(query: &Query) -> Option<u64>
    ensures { IfSome result (λ count. IsEnoughByLimit query.now count) }
{
    if cuts_early(query) { query.limit } else { None }
}

/// Whether the tuples of a query can be sorted before rows are made of them: each gives one row, and no item can abort.
fn sorts_tuples(query: &Query) -> bool
    ensures { result ≡ true → SortsTuples query.now }
{
    if is_aggregated(query) {
        return false;
    }
    if query.order.len() == 0 {
        return false;
    }
    are_lent(query.items.as_slice())
}

/// How many tuples LIMIT lets through where they can be sorted before rows are made of them, and None elsewhere.
pub fn tuples_cut(query: &Query) -> Option<u64>
    ensures { IfSome result (λ count. CutsTuples query.now count) }
{
    if sorts_tuples(query) {
        query.limit
    } else {
        None
    }
}
