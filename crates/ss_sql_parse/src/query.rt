//! Reading queries.

ghost use Rattle.std.specs.Prelude.{◌≡◌, ◌<◌, length, IfOk};
ghost use Rattle.ss_sql_grammar.specs.Grammar.{read};
ghost use Rattle.ss_sql_parse.specs.Gives.{Gives};
ghost use Rattle.ss_sql_parse.specs.Lists.{maybe_read};
ghost use Rattle.ss_sql_parse.specs.Sql.{sql, inner, column, expr};
ghost use Rattle.ss_sql_parse.specs.Statements.{count_item, item_rule, join, groups, orders, limit, where_rule, or_none, order_item, plain, query, in_brackets};

use crate::expr::expr_of;
use crate::lexeme::{Lexemes, Terminal};
use crate::list::{Element, list_of};
use crate::reading::{Read, begins, column_of, name_of, number_of, token};
use ss_sql_lex::{ColumnTree, ExprTree, ItemTree, JoinTree, NumberTree, OrderTree, QueryTree};
use ss_value::Seq;
use std::alloc::Global;

/// Reads an expression in brackets.
fn bracketed_expr<'t>(alloc: Global, tokens: Lexemes<'t>) -> Read<'t, ExprTree>
    ensures read { Gives (λ x. (x.0, x.1.now)) result (read sql inner (in_brackets expr) tokens.now) }
    ensures shorter { IfOk result (λ x. length x.1.now < length tokens.now) }
{
    let (_, rest) = token(tokens, Terminal::Open)?;
    let (tree, rest) = expr_of(alloc, rest)?;
    let (_, rest) = token(rest, Terminal::Close)?;
    Ok((tree, rest))
}

/// Reads `COUNT(*)`.
fn count_of<'t>(tokens: Lexemes<'t>) -> Read<'t, ItemTree>
    ensures read { Gives (λ x. (x.0, x.1.now)) result (read sql inner count_item tokens.now) }
    ensures shorter { IfOk result (λ x. length x.1.now < length tokens.now) }
{
    let (count, rest) = token(tokens, Terminal::Count)?;
    let at = count.from;
    let (_, rest) = token(rest, Terminal::Open)?;
    let (_, rest) = token(rest, Terminal::Star)?;
    let (_, rest) = token(rest, Terminal::Close)?;
    Ok((ItemTree::Count { at }, rest))
}

impl Element for ItemTree {
    ghost reads = { λ ts. read sql inner item_rule ts };

    fn read<'t>(alloc: Global, tokens: Lexemes<'t>) -> Read<'t, ItemTree> {
        if begins(tokens, Terminal::Count) {
            count_of(tokens)
        } else if begins(tokens, Terminal::Sum) {
            let (word, rest) = token(tokens, Terminal::Sum)?;
            let at = word.from;
            let (side, rest) = bracketed_expr(alloc, rest)?;
            Ok((ItemTree::Sum { at, side }, rest))
        } else if begins(tokens, Terminal::Min) {
            let (word, rest) = token(tokens, Terminal::Min)?;
            let at = word.from;
            let (side, rest) = bracketed_expr(alloc, rest)?;
            Ok((ItemTree::Min { at, side }, rest))
        } else if begins(tokens, Terminal::Max) {
            let (word, rest) = token(tokens, Terminal::Max)?;
            let at = word.from;
            let (side, rest) = bracketed_expr(alloc, rest)?;
            Ok((ItemTree::Max { at, side }, rest))
        } else {
            let (tree, rest) = expr_of(alloc, tokens)?;
            Ok((ItemTree::Plain(tree), rest))
        }
    }
}

impl Element for OrderTree {
    ghost reads = { λ ts. read sql inner order_item ts };

    fn read<'t>(_alloc: Global, tokens: Lexemes<'t>) -> Read<'t, OrderTree> {
        let (number, rest) = number_of(tokens)?;
        if begins(rest, Terminal::Asc) {
            let (_, rest) = token(rest, Terminal::Asc)?;
            Ok((
                OrderTree {
                    number,
                    descending: false,
                },
                rest,
            ))
        } else if begins(rest, Terminal::Desc) {
            let (_, rest) = token(rest, Terminal::Desc)?;
            Ok((
                OrderTree {
                    number,
                    descending: true,
                },
                rest,
            ))
        } else {
            Ok((
                OrderTree {
                    number,
                    descending: false,
                },
                rest,
            ))
        }
    }
}

impl Element for ColumnTree {
    ghost reads = { λ ts. read sql inner column ts };

    fn read<'t>(alloc: Global, tokens: Lexemes<'t>) -> Read<'t, ColumnTree> {
        column_of(alloc, tokens)
    }
}

/// Reads JOIN and what belongs to it.
fn join_of<'t>(alloc: Global, tokens: Lexemes<'t>) -> Read<'t, JoinTree>
    ensures read { Gives (λ x. (x.0, x.1.now)) result (read sql inner join tokens.now) }
    ensures shorter { IfOk result (λ x. length x.1.now < length tokens.now) }
{
    let (_, rest) = token(tokens, Terminal::Join)?;
    let (name, rest) = name_of(alloc, rest)?;
    let (_, rest) = token(rest, Terminal::On)?;
    let (left, rest) = column_of(alloc, rest)?;
    let (_, rest) = token(rest, Terminal::Equal)?;
    let (right, rest) = column_of(alloc, rest)?;
    Ok((JoinTree { name, left, right }, rest))
}

/// Reads JOIN and what belongs to it, if it comes next.
fn maybe_join<'t>(alloc: Global, tokens: Lexemes<'t>) -> Read<'t, Option<JoinTree>>
    ensures read { Gives (λ x. (x.0, x.1.now)) result (maybe_read join tokens.now) }
{
    if !begins(tokens, Terminal::Join) {
        return Ok((None, tokens));
    }
    let (tree, rest) = join_of(alloc, tokens)?;
    Ok((Some(tree), rest))
}

/// Reads WHERE and its expression, if it comes next.
pub fn maybe_where<'t>(alloc: Global, tokens: Lexemes<'t>) -> Read<'t, Option<ExprTree>>
    ensures read { Gives (λ x. (x.0, x.1.now)) result (maybe_read where_rule tokens.now) }
{
    if !begins(tokens, Terminal::Where) {
        return Ok((None, tokens));
    }
    let (_, rest) = token(tokens, Terminal::Where)?;
    let (tree, rest) = expr_of(alloc, rest)?;
    Ok((Some(tree), rest))
}

/// Reads GROUP BY and its columns, if it comes next.
fn maybe_groups<'t>(alloc: Global, tokens: Lexemes<'t>) -> Read<'t, Option<Seq<ColumnTree>>>
    ensures read { Gives (λ x. (x.0, x.1.now)) result (maybe_read groups tokens.now) }
{
    if !begins(tokens, Terminal::Group) {
        return Ok((None, tokens));
    }
    let (_, rest) = token(tokens, Terminal::Group)?;
    let (_, rest) = token(rest, Terminal::By)?;
    let (columns, rest) = list_of::<ColumnTree>(alloc, rest)?;
    Ok((Some(columns), rest))
}

/// Reads ORDER BY and its numbers, if it comes next.
fn maybe_orders<'t>(alloc: Global, tokens: Lexemes<'t>) -> Read<'t, Option<Seq<OrderTree>>>
    ensures read { Gives (λ x. (x.0, x.1.now)) result (maybe_read orders tokens.now) }
{
    if !begins(tokens, Terminal::Order) {
        return Ok((None, tokens));
    }
    let (_, rest) = token(tokens, Terminal::Order)?;
    let (_, rest) = token(rest, Terminal::By)?;
    let (orders, rest) = list_of::<OrderTree>(alloc, rest)?;
    Ok((Some(orders), rest))
}

/// Reads LIMIT and its number, if it comes next.
fn maybe_limit<'t>(tokens: Lexemes<'t>) -> Read<'t, Option<NumberTree>>
    ensures read { Gives (λ x. (x.0, x.1.now)) result (maybe_read limit tokens.now) }
{
    if !begins(tokens, Terminal::Limit) {
        return Ok((None, tokens));
    }
    let (_, rest) = token(tokens, Terminal::Limit)?;
    let (number, rest) = number_of(rest)?;
    Ok((Some(number), rest))
}

/// A list that was left out as the empty one.
fn or_none<E: Drop>(alloc: Global, items: Option<Seq<E>>) -> Seq<E>
    ensures { result ≡ or_none items }
{
    match items {
        Some(items) => items,
        None => Seq::new(alloc),
    }
}

/// Reads SELECT with its items, and FROM with its name: a query with nothing behind them.
fn plain_of<'t>(alloc: Global, tokens: Lexemes<'t>) -> Read<'t, QueryTree>
    ensures read { Gives (λ x. (x.0, x.1.now)) result (read sql inner plain tokens.now) }
{
    let (select, rest) = token(tokens, Terminal::Select)?;
    let at = select.from;
    let (items, rest) = list_of::<ItemTree>(alloc, rest)?;
    let (_, rest) = token(rest, Terminal::From)?;
    let (from, rest) = name_of(alloc, rest)?;
    Ok((
        QueryTree {
            at,
            items,
            from,
            joined: None,
            test: None,
            groups: Seq::new(alloc),
            order: Seq::new(alloc),
            limit: None,
        },
        rest,
    ))
}

/// Reads a query from the front. Linear in its tokens and the bytes of its leaves.
pub fn query_of<'t>(alloc: Global, tokens: Lexemes<'t>) -> Read<'t, QueryTree>
    ensures read { Gives (λ x. (x.0, x.1.now)) result (read sql inner query tokens.now) }
{
    // What was read so far stands in one tree, so that each `?` lets go of one value.
    let (mut query, rest) = plain_of(alloc, tokens)?;
    let (joined, rest) = maybe_join(alloc, rest)?;
    query.joined = joined;
    let (test, rest) = maybe_where(alloc, rest)?;
    query.test = test;
    let (groups, rest) = maybe_groups(alloc, rest)?;
    query.groups = or_none(alloc, groups);
    let (order, rest) = maybe_orders(alloc, rest)?;
    query.order = or_none(alloc, order);
    let (limit, rest) = maybe_limit(rest)?;
    query.limit = limit;
    Ok((query, rest))
}

impl Element for QueryTree {
    ghost reads = { λ ts. read sql inner query ts };

    fn read<'t>(alloc: Global, tokens: Lexemes<'t>) -> Read<'t, QueryTree> {
        query_of(alloc, tokens)
    }
}
