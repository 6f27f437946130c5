//! The walk of a query that keeps no tuple: each row that passes WHERE is folded into the states of the items.

ghost use Rattle.std.specs.Prelude.{◌≡◌, [], None, pos, IfOk, IfErr, OnOk};
ghost use Rattle.ss_value.specs.declared.value.Value.TheVariants.{Int};
ghost use Rattle.ss_model.specs.Stops.{StopsAs};
ghost use Rattle.ss_rows.specs.Counts.{row_passing};
ghost use Rattle.ss_rows.specs.Folds.{AreStatesOf, TupleFolded, RowFolded, HasFoldedPassing};
ghost use Rattle.ss_rows.specs.Meaning.{passing};
ghost use Rattle.ss_rows.specs.Sources.{rows_in};
ghost use Rattle.ss_rows.specs.Tuples.{tuple_of};

use crate::expressions::passes;
use crate::item_states::{ItemState, next_state};
use crate::rows_of::RowsOf;
use crate::tuple::Tuple;
use crate::walk::row_at;
use ss_model::RunError;
use ss_sql_trees::{Expr, Query};
use ss_value::{NoMemory, Row, Value};
use std::alloc::Global;

/// Folds a tuple into each of these states. `zero` is lent where the tuple has no such column.
fn fold_tuple<'a>(
    here: Tuple<'a>,
    params: &'a Row,
    zero: &'a Value,
    states: &mut Vec<ItemState<'a>>,
) -> Result<(), NoMemory>
    requires { zero.now ≡ Int (pos 0) }
    ensures { OnOk result (TupleFolded params.now (tuple_of here.entry) states.old.items states.new.items) }
{
    for state in states.iter_mut() {
        *state = next_state(*state, here, params, zero)?;
    }
    Ok(())
}

/// Folds a row into each of these states, where it passes WHERE. Aborts as the test does.
fn fold_row<'a>(
    alloc: Global,
    test: &'a Option<Expr>,
    params: &'a Row,
    zero: &'a Value,
    outer: &'a Row,
    states: &mut Vec<ItemState<'a>>,
) -> Result<(), RunError>
    requires { zero.now ≡ Int (pos 0) }
    ensures ok { OnOk result (RowFolded params.now test.now outer.now states.old.items states.new.items) }
    ensures stops { IfErr result (λ stop. StopsAs (row_passing params.now test.now outer.now) stop) }
{
    let here = Tuple::Single(outer);
    let passed = passes(alloc, test, here, params)?;
    if !passed {
        return Ok(());
    }
    fold_tuple(here, params, zero, states)?;
    Ok(())
}

/// These states with each row of FROM folded in that passes WHERE, in a query without JOIN. Aborts as the first test that
/// aborts.
///
/// A test for each row, and a step of each state for each row that passes; takes no memory.
pub fn folded_states<'a, X: RowsOf>(
    alloc: Global,
    from: &'a X,
    query: &'a Query,
    params: &'a Row,
    zero: &'a Value,
    states: Vec<ItemState<'a>>,
) -> Result<Vec<ItemState<'a>>, RunError>
    requires single { query.now.joined ≡ None }
    requires zero { zero.now ≡ Int (pos 0) }
    requires first { AreStatesOf params.now query.now.items [] states.items }
    ensures ok { IfOk result (λ all. HasFoldedPassing (λ s. rows_in (X.positioned from.now s)) params.now query.now all.items) }
    ensures stops { IfErr result (λ stop. StopsAs (passing (λ s. rows_in (X.positioned from.now s)) params.now query.now) stop) }
{
    let mut states = states;
    let (mut at, mut hint) = from.first(&query.from);
    while let Some(position) = at {
        let outer = row_at(from, &query.from, position);
        fold_row(alloc, &query.test, params, zero, outer, &mut states)?;
        let (next, near) = from.after(&query.from, position, hint);
        at = next;
        hint = near;
    }
    Ok(states)
}
