//! COUNT without a list of what is counted.
//!
//! Where COUNT is all that a query of one source asks for, its rows are tested and counted where they stand, and no tuple is
//! kept.

ghost use Rattle.std.specs.Prelude.{◌≡◌, true, None, replicate, pos, IfOk, IfErr};
ghost use Rattle.std.specs.List.{list_all};
ghost use Rattle.ss_value.specs.declared.value.Value.TheVariants.{Int};
ghost use Rattle.ss_model.specs.Stops.{StopsAs};
ghost use Rattle.ss_rows.specs.Counts.{is_count, CountsAlone, row_passing, CountedOn, CountsPassing, CountedRows};
ghost use Rattle.ss_rows.specs.Meaning.{passing};
ghost use Rattle.ss_rows.specs.Sources.{rows_in};

use crate::aggregates::count_value;
use crate::expressions::passes;
use crate::query_kind::is_aggregated;
use crate::rows_of::RowsOf;
use crate::tuple::Tuple;
use crate::walk::row_at;
use ss_model::RunError;
use ss_sql_trees::{Expr, Query, SelectItem};
use ss_value::{NoMemory, Row, Rows, Seq};
use std::alloc::Global;

/// Whether each of these items is COUNT.
fn are_counts(items: &[SelectItem]) -> bool
    ensures { result ≡ list_all is_count items.now }
{
    items.iter().all(|item| matches!(item, SelectItem::Count))
}

/// Whether COUNT is all that a query asks for, of one source and without GROUP BY.
pub fn counts_alone(query: &Query) -> bool
    ensures { result ≡ true → CountsAlone query.now }
{
    if !is_aggregated(query) {
        return false;
    }
    if !query.groups.is_empty() {
        return false;
    }
    match query.joined {
        Some(_) => false,
        None => are_counts(query.items.as_slice()),
    }
}

/// How many rows are counted, with one more where a row passes WHERE. Aborts as the test does.
///
/// More rows than a `usize` can count are answered as out of memory.
fn count_on<'a>(
    alloc: Global,
    test: &'a Option<Expr>,
    params: &'a Row,
    outer: &'a Row,
    count: usize,
) -> Result<usize, RunError>
    ensures ok { IfOk result (λ more. CountedOn params.now test.now outer.now count more) }
    ensures stops { IfErr result (λ stop. StopsAs (row_passing params.now test.now outer.now) stop) }
{
    let passed = passes(alloc, test, Tuple::Single(outer), params)?;
    if !passed {
        return Ok(count);
    }
    match count.checked_add(1) {
        Some(more) => Ok(more),
        None => Err(RunError::NoMemory),
    }
}

/// How many rows of FROM pass WHERE, in a query without JOIN. Aborts as the first test that aborts.
///
/// A test for each row; takes no memory.
fn passing_count<'a, X: RowsOf>(
    alloc: Global,
    from: &'a X,
    query: &'a Query,
    params: &'a Row,
) -> Result<usize, RunError>
    requires { query.now.joined ≡ None }
    ensures ok { IfOk result (λ count. CountsPassing (λ s. rows_in (X.positioned from.now s)) params.now query.now count) }
    ensures stops { IfErr result (λ stop. StopsAs (passing (λ s. rows_in (X.positioned from.now s)) params.now query.now) stop) }
{
    let mut count: usize = 0;
    let (mut at, mut hint) = from.first(&query.from);
    while let Some(position) = at {
        let outer = row_at(from, &query.from, position);
        count = count_on(alloc, &query.test, params, outer, count)?;
        let (next, near) = from.after(&query.from, position, hint);
        at = next;
        hint = near;
    }
    Ok(count)
}

/// A row of this many columns with this count in each. More than an Int can count is answered as out of memory.
fn count_row(alloc: Global, columns: usize, count: usize) -> Result<Row, NoMemory>
    ensures { IfOk result (λ row. row ≡ replicate columns (Int (pos count))) }
{
    let mut row = Seq::with_capacity(alloc, columns)?;
    for _ in 0..columns {
        row.push(count_value(count)?)?;
    }
    Ok(row)
}

/// The one row of a query that COUNT is all of. Aborts as the first test of WHERE that aborts.
///
/// A test for each row of FROM; takes memory for the one row alone.
pub fn counted_rows<'a, X: RowsOf>(
    alloc: Global,
    from: &'a X,
    query: &'a Query,
    params: &'a Row,
) -> Result<Rows, RunError>
    requires { CountsAlone query.now }
    ensures ok { IfOk result (λ rows. CountedRows (λ s. rows_in (X.positioned from.now s)) params.now query.now rows) }
    ensures stops { IfErr result (λ stop. StopsAs (passing (λ s. rows_in (X.positioned from.now s)) params.now query.now) stop) }
{
    let count = passing_count(alloc, from, query, params)?;
    let row = count_row(alloc, query.items.len(), count)?;
    let mut rows = Seq::with_capacity(alloc, 1)?;
    rows.push(row)?;
    Ok(rows)
}
