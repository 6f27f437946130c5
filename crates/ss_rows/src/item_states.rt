//! What aggregated items have come to, tuple by tuple, without a list of the tuples.
//!
//! Only an item whose operand is a literal, a parameter or a column has a state: its evaluation can't abort, and its value
//! stands somewhere already, so that the best one so far is lent and not copied.

ghost use Rattle.std.specs.Prelude.{◌≡◌, ◌++◌, [], ◌∷◌, pos, Ok, IfOk, IfErr, IfSome};
ghost use Rattle.ss_value.specs.declared.value.Value.TheVariants.{Int};
ghost use Rattle.ss_value.specs.Rows.{Row};
ghost use Rattle.ss_model.specs.Extremes.{beats};
ghost use Rattle.ss_model.specs.Queries.{extreme_value};
ghost use Rattle.ss_model.specs.Results.{try_map};
ghost use Rattle.ss_model.specs.Stops.{StopsAs};
ghost use Rattle.ss_rows.specs.Folds.{so_far, outcome, folded_rows, AreStatesOf, IsFirst, IsNext, StartsFolding};
ghost use Rattle.ss_rows.specs.Lent.{IsLent};
ghost use Rattle.ss_rows.specs.Tuples.{tuple_of};

use crate::aggregates::count_value;
use crate::lent_values::lent_value;
use crate::never_aborts::is_lent;
use crate::query_kind::is_aggregated;
use crate::tuple::Tuple;
use ss_model::{Extreme, Reason, RunError, beats, checked_int, int_of};
use ss_sql_trees::{Expr, Query, SelectItem};
use ss_value::{NoMemory, Row, Rows, Seq, Value, compare};
use std::alloc::Global;

/// An aggregated item, and what it has come to so far.
#[derive(Clone, Copy, Drop)]
pub enum ItemState<'a> {
    /// COUNT: how many tuples there were.
    Counted(usize),
    /// SUM: its operand, and the exact total of the operand's values.
    Totalled(&'a Expr, i128),
    /// MIN or MAX: its operand, and the best of the operand's values, where there was a tuple.
    Best(Extreme, &'a Expr, Option<&'a Value>),
}

/// A state where its operand is a literal, a parameter or a column, and None where it isn't.
fn where_lent<'a>(operand: &'a Expr, state: ItemState<'a>) -> Option<ItemState<'a>>
    ensures { IfSome result (λ found. (found ≡ state.entry) × IsLent operand.now) }
{
    if is_lent(operand) { Some(state) } else { None }
}

/// The state of an item before the first tuple, and None for an item that has no state.
fn first_state<'a>(item: &'a SelectItem) -> Option<ItemState<'a>>
    ensures { IfSome result (IsFirst item.now) }
{
    match item {
        SelectItem::Count => Some(ItemState::Counted(0)),
        SelectItem::Sum(tree) => where_lent(tree, ItemState::Totalled(tree, 0)),
        SelectItem::Min(tree) => where_lent(tree, ItemState::Best(Extreme::Least, tree, None)),
        SelectItem::Max(tree) => where_lent(tree, ItemState::Best(Extreme::Greatest, tree, None)),
        SelectItem::Plain(_) => None,
    }
}

/// The states of these items before the first tuple, and None where one of them has no state.
fn first_states<'a>(
    alloc: Global,
    items: &'a [SelectItem],
) -> Result<Option<Vec<ItemState<'a>>>, NoMemory>
    ensures { IfOk result (λ found. IfSome found (λ states. (params : Row) → AreStatesOf params items.now [] states.items)) }
{
    let mut states = Vec::with_capacity(alloc, items.len())?;
    for item in items {
        let Some(state) = first_state(item) else {
            return Ok(None);
        };
        states.push(state)?;
    }
    Ok(Some(states))
}

/// The states of a query's items before the first row, where it has one source, no GROUP BY and aggregates alone, of
/// literals, parameters and columns; and None for any other query.
///
/// Takes memory for these states alone, and none where the query is not aggregated.
pub fn states_of<'a>(
    alloc: Global,
    query: &'a Query,
) -> Result<Option<Vec<ItemState<'a>>>, NoMemory>
    ensures { IfOk result (λ found. IfSome found (λ states. StartsFolding query.now states.items)) }
{
    if !is_aggregated(query) {
        return Ok(None);
    }
    if !query.groups.is_empty() {
        return Ok(None);
    }
    match query.joined {
        Some(_) => Ok(None),
        None => first_states(alloc, query.items.as_slice()),
    }
}

/// Of the best value so far and the next one, the one that the other doesn't beat, the first of equal ones.
fn better<'a>(extreme: Extreme, best: Option<&'a Value>, next: &'a Value) -> &'a Value
    ensures { extreme_value (beats extreme) (so_far best.entry ++ next.now ∷ []) ≡ Ok result.now }
{
    match best {
        Some(best) => {
            if beats(extreme, compare(next, best)) {
                next
            } else {
                best
            }
        }
        None => next,
    }
}

/// A state with one tuple more. A count or a total that leaves its bits is answered as out of memory.
///
/// A comparison for MIN and MAX, and else constant; takes no memory. `zero` is lent where the tuple has no such column.
pub fn next_state<'a>(
    state: ItemState<'a>,
    here: Tuple<'a>,
    params: &'a Row,
    zero: &'a Value,
) -> Result<ItemState<'a>, NoMemory>
    requires { zero.now ≡ Int (pos 0) }
    ensures { IfOk result (λ next. IsNext params.now (tuple_of here.entry) state.entry next) }
{
    match state {
        ItemState::Counted(count) => match count.checked_add(1) {
            Some(more) => Ok(ItemState::Counted(more)),
            None => Err(NoMemory),
        },
        ItemState::Totalled(operand, total) => {
            let value = lent_value(operand, here, params, zero);
            match total.checked_add(i128::from(int_of(value))) {
                Some(more) => Ok(ItemState::Totalled(operand, more)),
                None => Err(NoMemory),
            }
        }
        ItemState::Best(extreme, operand, best) => {
            let value = lent_value(operand, here, params, zero);
            let found = better(extreme, best, value);
            Ok(ItemState::Best(extreme, operand, Some(found)))
        }
    }
}

/// What a state comes to at the end. Copies a best value.
///
/// Aborts with `Overflow` for a total that is no Int, and with `EmptyAggregate` for MIN and MAX where there was no tuple.
fn outcome(alloc: Global, state: ItemState) -> Result<Value, RunError>
    ensures ok { IfOk result (λ value. outcome state.entry ≡ Ok value) }
    ensures stops { IfErr result (λ stop. StopsAs (outcome state.entry) stop) }
{
    match state {
        ItemState::Counted(count) => Ok(count_value(count)?),
        ItemState::Totalled(_, total) => Ok(checked_int(total)?),
        ItemState::Best(_, _, best) => match best {
            Some(best) => Ok(best.copy(alloc)?),
            None => Err(RunError::Abort(Reason::EmptyAggregate)),
        },
    }
}

/// The row of what these states come to. Aborts as the first state that aborts.
///
/// Takes memory for that row alone.
fn outcomes(alloc: Global, states: &[ItemState]) -> Result<Row, RunError>
    ensures ok { IfOk result (λ row. try_map outcome states.now ≡ Ok row) }
    ensures stops { IfErr result (λ stop. StopsAs (try_map outcome states.now) stop) }
{
    let mut row = Seq::with_capacity(alloc, states.len())?;
    for state in states {
        let value = outcome(alloc, *state)?;
        row.push(value)?;
    }
    Ok(row)
}

/// The row of what these states come to, in a list by itself. Aborts as the first state that aborts.
///
/// Takes memory for that row and that list alone.
pub fn folded_rows(alloc: Global, states: &[ItemState]) -> Result<Rows, RunError>
    ensures ok { IfOk result (λ rows. folded_rows states.now ≡ Ok rows) }
    ensures stops { IfErr result (λ stop. StopsAs (folded_rows states.now) stop) }
{
    let row = outcomes(alloc, states)?;
    let mut rows = Seq::with_capacity(alloc, 1)?;
    rows.push(row)?;
    Ok(rows)
}
