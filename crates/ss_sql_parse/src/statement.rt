//! Reading statements and conditions.

ghost use Rattle.std.specs.Prelude.{◌≡◌, ◌<◌, length, IfOk};
ghost use Rattle.ss_sql_grammar.specs.Grammar.{read};
ghost use Rattle.ss_sql_parse.specs.Gives.{Gives};
ghost use Rattle.ss_sql_parse.specs.Sql.{sql, inner, expr};
ghost use Rattle.ss_sql_parse.specs.Statements.{statement, insert, condition, delete, update, set_rule, list, in_brackets};

use crate::expr::{expr_of, sum_of};
use crate::lexeme::{Lexemes, Terminal};
use crate::list::{Element, list_of};
use crate::operators::cmp_of;
use crate::query::{maybe_where, query_of};
use crate::reading::{Read, begins, name_of, token};
use ss_sql_lex::{ConditionTree, ExprTree, SetTree, StatementTree};
use ss_value::Seq;
use std::alloc::Global;

impl Element for ExprTree {
    ghost reads = { λ ts. read sql inner expr ts };

    fn read<'t>(alloc: Global, tokens: Lexemes<'t>) -> Read<'t, ExprTree> {
        expr_of(alloc, tokens)
    }
}

impl Element for SetTree {
    ghost reads = { λ ts. read sql inner set_rule ts };

    fn read<'t>(alloc: Global, tokens: Lexemes<'t>) -> Read<'t, SetTree> {
        let (column, rest) = name_of(alloc, tokens)?;
        let (_, rest) = token(rest, Terminal::Equal)?;
        let (value, rest) = expr_of(alloc, rest)?;
        Ok((SetTree { column, value }, rest))
    }
}

fn delete_of<'t>(alloc: Global, tokens: Lexemes<'t>) -> Read<'t, StatementTree>
    ensures read { Gives (λ x. (x.0, x.1.now)) result (read sql inner delete tokens.now) }
{
    let (delete, rest) = token(tokens, Terminal::Delete)?;
    let at = delete.from;
    let (_, rest) = token(rest, Terminal::From)?;
    let (table, rest) = name_of(alloc, rest)?;
    let (test, rest) = maybe_where(alloc, rest)?;
    Ok((StatementTree::Delete { at, table, test }, rest))
}

fn update_of<'t>(alloc: Global, tokens: Lexemes<'t>) -> Read<'t, StatementTree>
    ensures read { Gives (λ x. (x.0, x.1.now)) result (read sql inner update tokens.now) }
{
    let (update, rest) = token(tokens, Terminal::Update)?;
    let at = update.from;
    let (table, rest) = name_of(alloc, rest)?;
    let (_, rest) = token(rest, Terminal::Set)?;
    let (sets, rest) = list_of::<SetTree>(alloc, rest)?;
    let (test, rest) = maybe_where(alloc, rest)?;
    Ok((
        StatementTree::Update {
            at,
            table,
            sets,
            test,
        },
        rest,
    ))
}

/// Reads a list of expressions in brackets.
fn values_of<'t>(alloc: Global, tokens: Lexemes<'t>) -> Read<'t, Seq<ExprTree>>
    ensures read { Gives (λ x. (x.0, x.1.now)) result (read sql inner (in_brackets (list expr)) tokens.now) }
{
    let (_, rest) = token(tokens, Terminal::Open)?;
    let (values, rest) = list_of::<ExprTree>(alloc, rest)?;
    let (_, rest) = token(rest, Terminal::Close)?;
    Ok((values, rest))
}

/// Reads either INSERT: which one it is, the token behind the target decides.
fn insert_of<'t>(alloc: Global, tokens: Lexemes<'t>) -> Read<'t, StatementTree>
    ensures read { Gives (λ x. (x.0, x.1.now)) result (read sql inner insert tokens.now) }
{
    let (insert, rest) = token(tokens, Terminal::Insert)?;
    let at = insert.from;
    let (_, rest) = token(rest, Terminal::Into)?;
    let (target, rest) = name_of(alloc, rest)?;
    if begins(rest, Terminal::Values) {
        let (_, rest) = token(rest, Terminal::Values)?;
        let (values, rest) = values_of(alloc, rest)?;
        Ok((StatementTree::InsertValues { at, target, values }, rest))
    } else {
        let (query, rest) = query_of(alloc, rest)?;
        Ok((StatementTree::InsertQuery { at, target, query }, rest))
    }
}

/// Reads a statement from the front. Linear in its tokens and the bytes of its leaves.
pub fn statement_of<'t>(alloc: Global, tokens: Lexemes<'t>) -> Read<'t, StatementTree>
    ensures read { Gives (λ x. (x.0, x.1.now)) result (read sql inner statement tokens.now) }
{
    if begins(tokens, Terminal::Insert) {
        insert_of(alloc, tokens)
    } else if begins(tokens, Terminal::Update) {
        update_of(alloc, tokens)
    } else {
        delete_of(alloc, tokens)
    }
}

/// Reads a condition from the front. Linear in its tokens and the bytes of its leaves.
pub fn condition_of<'t>(alloc: Global, tokens: Lexemes<'t>) -> Read<'t, ConditionTree>
    ensures read { Gives (λ x. (x.0, x.1.now)) result (read sql inner condition tokens.now) }
{
    let (open, rest) = token(tokens, Terminal::Open)?;
    let at = open.from;
    let (query, rest) = query_of(alloc, rest)?;
    let (_, rest) = token(rest, Terminal::Close)?;
    let (cmp, rest) = cmp_of(rest)?;
    let (right, rest) = sum_of(alloc, rest)?;
    Ok((
        ConditionTree {
            at,
            query,
            cmp,
            right,
        },
        rest,
    ))
}

impl Element for StatementTree {
    ghost reads = { λ ts. read sql inner statement ts };

    fn read<'t>(alloc: Global, tokens: Lexemes<'t>) -> Read<'t, StatementTree> {
        statement_of(alloc, tokens)
    }
}

impl Element for ConditionTree {
    ghost reads = { λ ts. read sql inner condition ts };

    fn read<'t>(alloc: Global, tokens: Lexemes<'t>) -> Read<'t, ConditionTree> {
        condition_of(alloc, tokens)
    }
}
