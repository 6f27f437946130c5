//! Rows of items whose value stands somewhere already, and ORDER BY and LIMIT before such rows are made.
//!
//! A tuple is a reference or two, and a row of the result is a list of its own with a copy of each value. So where the items
//! are literals, parameters and columns, tuples are sorted by what these are on them, and only the first ones become rows.

ghost use Rattle.std.specs.Prelude.{◌≡◌, [], ◌∷◌, pos, IfOk};
ghost use Rattle.ss_value.specs.declared.value.Value.TheVariants.{Int};
ghost use Rattle.ss_value.specs.Rows.{column_value};
ghost use Rattle.ss_model.specs.Queries.{order_by_cmp};
ghost use Rattle.ss_rows.specs.Lent.{lent_item, lent_row, lent_rows, AreSorted, CutsTuples};
ghost use Rattle.ss_rows.specs.Meaning.{ordered_results};
ghost use Rattle.ss_rows.specs.Tuples.{tuple_of};

use crate::lent_values::lent_value;
use crate::order::compare_values;
use crate::tuple::Tuple;
use ss_sql_trees::{OrderBy, Query, SelectItem};
use ss_value::{NoMemory, Row, Rows, Seq, Value};
use std::alloc::Global;
use std::cmp::Ordering;

/// The value of an item that is a literal, a parameter or a column, where it stands, and `zero` where there is none. Constant.
fn lent_item<'a>(
    item: &'a SelectItem,
    here: Tuple<'a>,
    params: &'a Row,
    zero: &'a Value,
) -> &'a Value
    requires { zero.now ≡ Int (pos 0) }
    ensures { result.now ≡ lent_item params.now (tuple_of here.entry) item.now }
{
    match item {
        SelectItem::Plain(tree) => lent_value(tree, here, params, zero),
        SelectItem::Count | SelectItem::Sum(_) | SelectItem::Min(_) | SelectItem::Max(_) => zero,
    }
}

/// The value in a column of a tuple's row, where it stands, and `zero` past the row's end. Constant.
fn lent_column<'a>(
    items: &'a [SelectItem],
    column: usize,
    here: Tuple<'a>,
    params: &'a Row,
    zero: &'a Value,
) -> &'a Value
    requires { zero.now ≡ Int (pos 0) }
    ensures { result.now ≡ column_value (lent_row params.now items.now here.entry) column }
{
    match items.get(column) {
        Some(item) => lent_item(item, here, params, zero),
        None => zero,
    }
}

/// Which of two tuples' rows comes first by one listed item, which counts from 1: linear in the shorter text.
fn compare_column<'a>(
    order: OrderBy,
    items: &'a [SelectItem],
    params: &'a Row,
    a: Tuple<'a>,
    b: Tuple<'a>,
) -> Ordering
    ensures { result ≡ order_by_cmp (order ∷ []) (lent_row params.now items.now a.entry) (lent_row params.now items.now b.entry) }
{
    let zero = Value::Int(0);
    let column = usize::from(order.item).saturating_sub(1);
    let left = lent_column(items, column, a, params, &zero);
    compare_values(order, left, lent_column(items, column, b, params, &zero))
}

/// Which of two tuples' rows comes first, by the first listed item in which they differ. Makes no row.
fn compare_tuples<'a>(
    order: &[OrderBy],
    items: &'a [SelectItem],
    params: &'a Row,
    a: Tuple<'a>,
    b: Tuple<'a>,
) -> Ordering
    ensures { result ≡ order_by_cmp order.now (lent_row params.now items.now a.entry) (lent_row params.now items.now b.entry) }
{
    for listed in order {
        let found = compare_column(*listed, items, params, a, b);
        if found.is_ne() {
            return found;
        }
    }
    Ordering::Equal
}

/// The tuples by the listed items of their rows, and in their old order where they differ in none.
///
/// Of the order of n log n comparisons for n tuples; takes no memory for up to 20 tuples, and else that of a second list of
/// them while it sorts.
fn sorted_tuples<'a>(
    order: &[OrderBy],
    items: &'a [SelectItem],
    params: &'a Row,
    found: Vec<Tuple<'a>>,
) -> Result<Vec<Tuple<'a>>, NoMemory>
    ensures { IfOk result (λ sorted. AreSorted order.now params.now items.now found.entry.items sorted.items) }
{
    let mut found = found;
    // A stable sort, as that of rows.
    found.sort_by(|a, b| compare_tuples(order, items, params, *a, *b))?;
    Ok(found)
}

/// The row of a tuple, with `zero` for a value that is missing. Copies its values; takes memory for that row alone.
fn row_of<'a>(
    alloc: Global,
    items: &'a [SelectItem],
    params: &'a Row,
    here: Tuple<'a>,
    zero: &'a Value,
) -> Result<Row, NoMemory>
    requires { zero.now ≡ Int (pos 0) }
    ensures { IfOk result (λ row. row ≡ lent_row params.now items.now here.entry) }
{
    let mut row = Seq::with_capacity(alloc, items.len())?;
    for item in items {
        let value = lent_item(item, here, params, zero).copy(alloc)?;
        row.push(value)?;
    }
    Ok(row)
}

/// The row of each tuple, in order, with `zero` for a value that is missing. Takes memory for those rows alone.
fn rows_of<'a>(
    alloc: Global,
    items: &'a [SelectItem],
    params: &'a Row,
    tuples: &[Tuple<'a>],
    zero: &'a Value,
) -> Result<Rows, NoMemory>
    requires { zero.now ≡ Int (pos 0) }
    ensures { IfOk result (λ rows. rows ≡ lent_rows params.now items.now tuples.now) }
{
    let mut rows = Seq::with_capacity(alloc, tuples.len())?;
    for here in tuples {
        let row = row_of(alloc, items, params, *here, zero)?;
        rows.push(row)?;
    }
    Ok(rows)
}

/// The rows of a query's tuples by ORDER BY, and of those the first ones, as many as LIMIT lets through.
///
/// Costs what the sort of the tuples costs, and the rows that it gives. No row is made that LIMIT cuts.
pub fn first_results<'a>(
    alloc: Global,
    query: &'a Query,
    count: u64,
    params: &'a Row,
    found: Vec<Tuple<'a>>,
) -> Result<Rows, NoMemory>
    requires { CutsTuples query.now count }
    ensures { IfOk result (λ rows. rows ≡ ordered_results query.now (lent_rows params.now query.now.items found.entry.items)) }
{
    let zero = Value::Int(0);
    let items = query.items.as_slice();
    let mut sorted = sorted_tuples(query.order.as_slice(), items, params, found)?;
    sorted.truncate(count as usize);
    rows_of(alloc, items, params, sorted.as_slice(), &zero)
}
