//! The fourth phase: the items of each group.

ghost use Rattle.std.specs.Prelude.{◌≡◌, [], get_or, length, pos, IfOk, IfErr, Ok};
ghost use Rattle.ss_value.specs.declared.value.Value.TheVariants.{Int};
ghost use Rattle.ss_model.specs.Results.{try_map};
ghost use Rattle.ss_model.specs.Expressions.{expr_value};
ghost use Rattle.ss_model.specs.Queries.{sum_values, item_value};
ghost use Rattle.ss_model.specs.Stops.{StopsAs};

use crate::expressions::evaluate;
use crate::queries::extreme::extreme_value;
use ss_model::{Extreme, RunError, checked_int, int_of};
use ss_sql_trees::{Expr, SelectItem};
use ss_value::{NoMemory, Row, Rows, Seq, Value};
use std::alloc::Global;

/// The value of an expression on each tuple, in order. Aborts as the first one that does.
fn group_values(
    alloc: Global,
    tree: &Expr,
    group: &[Rows],
    params: &Row,
) -> Result<Seq<Value>, RunError>
    ensures ok { IfOk result (λ vs. try_map (λ here. expr_value here params.now tree.now) group.now ≡ Ok vs) }
    ensures stops { IfErr result (λ stop. StopsAs (try_map (λ here. expr_value here params.now tree.now) group.now) stop) }
{
    let mut values = Seq::new(alloc);
    for here in group {
        let value = evaluate(alloc, tree, here, params)?;
        values.push(value)?;
    }
    Ok(values)
}

/// The exact sum. A sum outside 128 bits is answered as out of memory.
fn sum_values(values: &[Value]) -> Result<i128, NoMemory>
    ensures { IfOk result (λ total. total ≡ sum_values values.now) }
{
    let mut total: i128 = 0;
    for value in values {
        match total.checked_add(i128::from(int_of(value))) {
            Some(more) => total = more,
            None => return Err(NoMemory),
        }
    }
    Ok(total)
}

/// The number of tuples, as an Int. A number that is no Int is answered as out of memory.
fn count(group: &[Rows]) -> Result<Value, NoMemory>
    ensures { IfOk result (λ count. count ≡ Int (pos (length group.now))) }
{
    match i64::try_from(group.len()) {
        Ok(count) => Ok(Value::Int(count)),
        Err(_) => Err(NoMemory),
    }
}

/// The value of an expression on the first tuple, and on the tuple of no row where there is none.
fn first_value(alloc: Global, tree: &Expr, group: &[Rows], params: &Row) -> Result<Value, RunError>
    ensures ok { IfOk result (λ v. expr_value (get_or group.now 0 []) params.now tree.now ≡ Ok v) }
    ensures stops { IfErr result (λ stop. StopsAs (expr_value (get_or group.now 0 []) params.now tree.now) stop) }
{
    match group.first() {
        Some(here) => evaluate(alloc, tree, here, params),
        None => evaluate(alloc, tree, &Seq::new(alloc), params),
    }
}

/// The value of an item for a group.
///
/// Aborts as the first evaluation that does, and then with `Overflow` for a sum that is no Int, and with
/// `EmptyAggregate` for the least or the greatest of no tuple.
fn item_value(
    alloc: Global,
    item: &SelectItem,
    group: &[Rows],
    params: &Row,
) -> Result<Value, RunError>
    ensures ok { IfOk result (λ v. item_value params.now group.now item.now ≡ Ok v) }
    ensures stops { IfErr result (λ stop. StopsAs (item_value params.now group.now item.now) stop) }
{
    match item {
        SelectItem::Count => Ok(count(group)?),
        SelectItem::Sum(tree) => {
            let values = group_values(alloc, tree, group, params)?;
            // All tuples are evaluated before the sum is tested, since an abort of any of them goes before `Overflow`.
            let total = sum_values(values.as_slice())?;
            Ok(checked_int(total)?)
        }
        SelectItem::Min(tree) => {
            let values = group_values(alloc, tree, group, params)?;
            extreme_value(alloc, Extreme::Least, values.as_slice())
        }
        SelectItem::Max(tree) => {
            let values = group_values(alloc, tree, group, params)?;
            extreme_value(alloc, Extreme::Greatest, values.as_slice())
        }
        SelectItem::Plain(tree) => first_value(alloc, tree, group, params),
    }
}

/// The row of a group: its items in order. Aborts as the first item that does.
fn group_row(
    alloc: Global,
    items: &[SelectItem],
    group: &[Rows],
    params: &Row,
) -> Result<Row, RunError>
    ensures ok { IfOk result (λ row. try_map (item_value params.now group.now) items.now ≡ Ok row) }
    ensures stops { IfErr result (λ stop. StopsAs (try_map (item_value params.now group.now) items.now) stop) }
{
    let mut row = Seq::new(alloc);
    for item in items {
        let value = item_value(alloc, item, group, params)?;
        row.push(value)?;
    }
    Ok(row)
}

/// A row for each group, in order. Aborts as the first group that does.
pub fn group_results(
    alloc: Global,
    items: &[SelectItem],
    groups: &[Seq<Rows>],
    params: &Row,
) -> Result<Rows, RunError>
    ensures ok { IfOk result (λ rows. try_map (λ group. try_map (item_value params.now group) items.now) groups.now ≡ Ok rows) }
    ensures stops { IfErr result (λ stop. StopsAs (try_map (λ group. try_map (item_value params.now group) items.now) groups.now) stop) }
{
    let mut rows = Seq::new(alloc);
    for group in groups {
        let row = group_row(alloc, items, group.as_slice(), params)?;
        rows.push(row)?;
    }
    Ok(rows)
}
