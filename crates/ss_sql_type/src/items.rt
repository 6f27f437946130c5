//! Typing of the lists in a query and of the values in a statement.

ghost use Rattle.std.specs.Prelude.{◌≡◌, IsTrue, IfOk, OnOk, None, map, slice_get};
ghost use Rattle.std.specs.List.{flat_map, list_any};
ghost use Rattle.std.specs.Option.{option_map};
ghost use Rattle.ss_sql_type.specs.Refusals.{least_of};
ghost use Rattle.ss_sql_type.specs.Names.{is_narrow};
ghost use Rattle.ss_sql_type.specs.Expressions.{grouping};
ghost use Rattle.ss_sql_lex.specs.declared.tree.ItemTree.TheVariants.{Sum, Min};
ghost use Rattle.ss_sql_type.specs.Items.{item_offset, item_kind, typed_item, item_faults, items_faults, item_limit_faults, is_aggregate, typed_value, values_faults, test_faults, typed_groups, groups_faults, nat_of, typed_order, order_faults};

use crate::expr::{expr_at, kind_of_expr};
use crate::first_fault::{check, record_fault};
use crate::grouped::Grouped;
use crate::kinds::{Needs, ValueKind, first_needs, fits, value_kind};
use crate::names::{Names, resolve};
use crate::scope::TypeError;
use ss_sql_lex::{ColumnTree, ExprTree, ItemTree, OrderTree};
use ss_sql_trees::{ColAt, Expr, OrderBy, SelectItem};
use ss_value::{Column, NoMemory, Seq};
use std::alloc::Global;

/// The offset of an item's first token.
fn item_offset(item: &ItemTree) -> usize
    ensures { result ≡ item_offset item.now }
{
    match item {
        ItemTree::Count { at } => *at,
        ItemTree::Sum { at, .. } => *at,
        ItemTree::Min { at, .. } => *at,
        ItemTree::Max { at, .. } => *at,
        ItemTree::Plain(expr) => expr.offset(),
    }
}

/// The type that an item gives. Takes the time of two hashes at most.
pub fn item_kind(names: &Names, item: &ItemTree) -> Option<ValueKind>
    requires { IsTrue (is_narrow names.now) }
    ensures { result ≡ item_kind names.now item.now }
{
    match item {
        ItemTree::Count { .. } => Some(ValueKind::Int),
        ItemTree::Sum { .. } => Some(ValueKind::Int),
        ItemTree::Min { side, .. } => value_kind(kind_of_expr(names, side)),
        ItemTree::Max { side, .. } => value_kind(kind_of_expr(names, side)),
        ItemTree::Plain(expr) => kind_of_expr(names, expr),
    }
}

/// Types what MIN or MAX works on, of an item that has to be what its context needs.
fn value_side(
    alloc: Global,
    names: &Names,
    needs: Needs,
    at: usize,
    side: &ExprTree,
    found: &mut Option<TypeError>,
) -> Result<Expr, NoMemory>
    requires { IsTrue (is_narrow names.now) }
    ensures ok { IfOk result (λ expr. expr ≡ typed_value names.now side.now) }
    ensures faults { OnOk result (found.new ≡ least_of found.old (item_faults names.now None needs (Min at side.now))) }
{
    let typed = expr_at(alloc, names, None, Needs::Value, side, found)?;
    check(
        found,
        fits(needs, value_kind(typed.kind)),
        TypeError::WrongType(at),
    );
    Ok(typed.expr)
}

/// Types what SUM works on, of an item that has to be what its context needs.
fn sum_side(
    alloc: Global,
    names: &Names,
    needs: Needs,
    at: usize,
    side: &ExprTree,
    found: &mut Option<TypeError>,
) -> Result<Expr, NoMemory>
    requires { IsTrue (is_narrow names.now) }
    ensures ok { IfOk result (λ expr. expr ≡ typed_value names.now side.now) }
    ensures faults { OnOk result (found.new ≡ least_of found.old (item_faults names.now None needs (Sum at side.now))) }
{
    let typed = expr_at(alloc, names, None, Needs::Only(ValueKind::Int), side, found)?;
    check(
        found,
        fits(needs, Some(ValueKind::Int)),
        TypeError::WrongType(at),
    );
    Ok(typed.expr)
}

/// Types an item that has to be what its context needs. Columns inside an aggregate need not be grouped, so its side is
/// typed without `grouped`.
fn item_of(
    alloc: Global,
    names: &Names,
    grouped: Option<&Grouped>,
    needs: Needs,
    item: &ItemTree,
    found: &mut Option<TypeError>,
) -> Result<SelectItem, NoMemory>
    requires { IsTrue (is_narrow names.now) }
    ensures ok { IfOk result (λ typed. typed ≡ typed_item names.now (grouping grouped.entry) item.now) }
    ensures faults { OnOk result (found.new ≡ least_of found.old (item_faults names.now (grouping grouped.entry) needs item.now)) }
{
    match item {
        ItemTree::Count { at } => {
            check(
                found,
                fits(needs, Some(ValueKind::Int)),
                TypeError::WrongType(*at),
            );
            Ok(SelectItem::Count)
        }
        ItemTree::Sum { at, side } => {
            let side = sum_side(alloc, names, needs, *at, side, found)?;
            Ok(SelectItem::Sum(side))
        }
        ItemTree::Min { at, side } => {
            let side = value_side(alloc, names, needs, *at, side, found)?;
            Ok(SelectItem::Min(side))
        }
        ItemTree::Max { at, side } => {
            let side = value_side(alloc, names, needs, *at, side, found)?;
            Ok(SelectItem::Max(side))
        }
        ItemTree::Plain(expr) => {
            let typed = expr_at(alloc, names, grouped, needs, expr, found)?;
            Ok(SelectItem::Plain(typed.expr))
        }
    }
}

/// Types the items of a query, each for the column that it goes into, where there is one.
pub(crate) fn items_of(
    alloc: Global,
    names: &Names,
    grouped: Option<&Grouped>,
    columns: &[Column],
    items: &[ItemTree],
    found: &mut Option<TypeError>,
) -> Result<Seq<SelectItem>, NoMemory>
    requires { IsTrue (is_narrow names.now) }
    ensures ok { IfOk result (λ typed. typed ≡ map (typed_item names.now (grouping grouped.entry)) items.now) }
    ensures faults { OnOk result (found.new ≡ least_of found.old (items_faults names.now (grouping grouped.entry) columns.now items.now)) }
{
    let mut typed = Seq::new(alloc);
    let mut rest = columns;
    for item in items {
        let (needs, others) = first_needs(rest);
        let item = item_of(alloc, names, grouped, needs, item, found)?;
        typed.push(item)?;
        rest = others;
    }
    Ok(typed)
}

/// Finds a 17th item, which is one too many.
pub fn check_item_limit(items: &[ItemTree], found: &mut Option<TypeError>)
    ensures { found.new ≡ least_of found.old (item_limit_faults (slice_get items.now 16)) }
{
    match items.get(16) {
        Some(item) => record_fault(found, TypeError::WrongCount(item_offset(item))),
        None => {}
    }
}

/// Whether an item is COUNT, SUM, MIN or MAX.
pub fn is_aggregate(item: &ItemTree) -> bool
    ensures { result ≡ is_aggregate item.now }
{
    match item {
        ItemTree::Plain(_) => false,
        _ => true,
    }
}

/// Whether one of the items is an aggregate.
pub fn has_aggregate(items: &[ItemTree]) -> bool
    ensures { result ≡ list_any is_aggregate items.now }
{
    items.iter().any(|item| is_aggregate(item))
}

/// Types the values of an INSERT, each for the column that it goes into, where there is one.
pub(crate) fn values_of(
    alloc: Global,
    names: &Names,
    columns: &[Column],
    values: &[ExprTree],
    found: &mut Option<TypeError>,
) -> Result<Seq<Expr>, NoMemory>
    requires { IsTrue (is_narrow names.now) }
    ensures ok { IfOk result (λ typed. typed ≡ map (typed_value names.now) values.now) }
    ensures faults { OnOk result (found.new ≡ least_of found.old (values_faults names.now columns.now values.now)) }
{
    let mut typed = Seq::new(alloc);
    let mut rest = columns;
    for value in values {
        let (needs, others) = first_needs(rest);
        let value = expr_at(alloc, names, None, needs, value, found)?;
        typed.push(value.expr)?;
        rest = others;
    }
    Ok(typed)
}

/// Types the condition behind WHERE, if there is one.
pub(crate) fn test_of(
    alloc: Global,
    names: &Names,
    test: &Option<ExprTree>,
    found: &mut Option<TypeError>,
) -> Result<Option<Expr>, NoMemory>
    requires { IsTrue (is_narrow names.now) }
    ensures ok { IfOk result (λ typed. typed ≡ option_map (typed_value names.now) test.now) }
    ensures faults { OnOk result (found.new ≡ least_of found.old (test_faults names.now test.now)) }
{
    match test {
        Some(test) => {
            let typed = expr_at(
                alloc,
                names,
                None,
                Needs::Only(ValueKind::Bool),
                test,
                found,
            )?;
            Ok(Some(typed.expr))
        }
        None => Ok(None),
    }
}

/// Resolves the columns of GROUP BY. Those that are not known are left out.
pub(crate) fn groups_of(
    alloc: Global,
    names: &Names,
    groups: &[ColumnTree],
    found: &mut Option<TypeError>,
) -> Result<Seq<ColAt>, NoMemory>
    requires { IsTrue (is_narrow names.now) }
    ensures ok { IfOk result (λ typed. typed ≡ typed_groups names.now groups.now) }
    ensures faults { OnOk result (found.new ≡ least_of found.old (groups_faults names.now groups.now)) }
{
    let mut typed = Seq::new(alloc);
    for group in groups {
        match resolve(names, group) {
            Ok(column) => {
                typed.push(column)?;
            }
            Err(fault) => record_fault(found, fault),
        }
    }
    Ok(typed)
}

/// A number, and 0 where it is less than 0.
pub fn nat_of(value: i64) -> u64
    ensures { result ≡ nat_of value }
{
    if value < 0 { 0 } else { value as u64 }
}

/// One column of ORDER BY.
fn order_by(order: &OrderTree) -> OrderBy
    ensures { result ≡ typed_order order.now }
{
    OrderBy {
        // A number over 255 doesn't fit a byte. It is a fault, since there are 16 items at most.
        item: nat_of(order.number.value).min(255) as u8,
        descending: order.descending,
    }
}

/// Types ORDER BY of a query with `count` items.
pub(crate) fn order_of(
    alloc: Global,
    count: usize,
    orders: &[OrderTree],
    found: &mut Option<TypeError>,
) -> Result<Seq<OrderBy>, NoMemory>
    ensures ok { IfOk result (λ typed. typed ≡ map typed_order orders.now) }
    ensures faults { OnOk result (found.new ≡ least_of found.old (flat_map (order_faults count) orders.now)) }
{
    let mut typed = Seq::new(alloc);
    for order in orders {
        let number = nat_of(order.number.value);
        let right = 1 <= number && number <= count as u64;
        check(found, right, TypeError::WrongCount(order.number.at));
        typed.push(order_by(order))?;
    }
    Ok(typed)
}
