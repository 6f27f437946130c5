//! Reading expressions.
//!
//! An operand is read first, and then the operators that stand behind it, level by level. So an
//! opening bracket costs five nested calls, and not one for each level of operators.

ghost use Rattle.std.specs.Prelude.{◌≡◌, ◌<◌, ◌≤◌, length, IfOk, IfErr};
ghost use Rattle.ss_sql_grammar.specs.Grammar.{act, read};
ghost use Rattle.ss_sql_parse.specs.Gives.{Gives};
ghost use Rattle.ss_sql_lex.specs.Trees.{with_offset};
ghost use Rattle.ss_sql_parse.specs.Nodes.{binary_tree, number_leaf, text_leaf, param_leaf, column_leaf};
ghost use Rattle.ss_sql_lex.specs.declared.tree.ExprTree.TheVariants.{Unary};
ghost use Rattle.ss_sql_parse.specs.Sql.{sql, inner, number, text, parameter, column, primary, unary, sum, test, not_rule, expr};
ghost use Rattle.ss_sql_parse.specs.Sql.Nest.{InExpr, InNot, InUnary};
ghost use Rattle.ss_sql_parse.specs.Levels.{side_rule, tail};
ghost use Rattle.ss_sql_parse.specs.declared.stop.Stop.TheVariants.{Memory};

use crate::lexeme::{Lexemes, Terminal};
use crate::operators::{Level, begins_cmp, begins_operator, cmp_of, operator_of};
use crate::reading::{
    NAME, NUMBER, PARAM, Read, TEXT, begins, begins_kind, column_of, number_of, param_of, text_of,
    token,
};
use crate::stop::Stop;
use ss_sql_lex::{ColumnTree, ExprTree};
use ss_sql_trees::{BinaryOp, UnaryOp};
use ss_value::Boxed;
use std::alloc::Global;

/// The node of an operator between its sides.
fn join(
    alloc: Global,
    left: Boxed<ExprTree>,
    op: BinaryOp,
    right: Boxed<ExprTree>,
) -> Result<Boxed<ExprTree>, Stop>
    ensures ok { IfOk result (λ tree. tree ≡ binary_tree left (op, right)) }
    ensures refused { IfErr result (λ e. e ≡ Memory) }
{
    let at = left.get().offset();
    let tree = Boxed::new(
        alloc,
        ExprTree::Binary {
            at,
            op,
            left,
            right,
        },
    )?;
    Ok(tree)
}

/// The node of an operator before its side.
fn prefix(
    alloc: Global,
    at: usize,
    op: UnaryOp,
    side: Boxed<ExprTree>,
) -> Result<Boxed<ExprTree>, Stop>
    ensures ok { IfOk result (λ tree. tree ≡ Unary at op side) }
    ensures refused { IfErr result (λ e. e ≡ Memory) }
{
    let tree = Boxed::new(alloc, ExprTree::Unary { at, op, side })?;
    Ok(tree)
}

/// The node of a bracketed expression, which has the offset of the bracket.
fn in_brackets(alloc: Global, at: usize, tree: Boxed<ExprTree>) -> Result<Boxed<ExprTree>, Stop>
    ensures ok { IfOk result (λ moved_tree. moved_tree ≡ with_offset at tree) }
    ensures refused { IfErr result (λ e. e ≡ Memory) }
{
    let tree = Boxed::new(alloc, tree.into_inner().with_offset(at))?;
    Ok(tree)
}

/// The node of a column.
fn column_leaf(column: ColumnTree) -> ExprTree
    ensures { result ≡ column_leaf column }
{
    let at = match &column.source {
        Some(source) => source.at,
        None => column.name.at,
    };
    ExprTree::Column { at, column }
}

/// Reads a number as an expression.
fn number_expr<'t>(alloc: Global, tokens: Lexemes<'t>) -> Read<'t, Boxed<ExprTree>>
    ensures read { Gives (λ x. (x.0, x.1.now)) result (read sql inner (act number_leaf number) tokens.now) }
    ensures shorter { IfOk result (λ x. length x.1.now < length tokens.now) }
{
    let (number, rest) = number_of(tokens)?;
    let tree = Boxed::new(
        alloc,
        ExprTree::Number {
            at: number.at,
            number,
        },
    )?;
    Ok((tree, rest))
}

/// Reads a text as an expression.
fn text_expr<'t>(alloc: Global, tokens: Lexemes<'t>) -> Read<'t, Boxed<ExprTree>>
    ensures read { Gives (λ x. (x.0, x.1.now)) result (read sql inner (act text_leaf text) tokens.now) }
    ensures shorter { IfOk result (λ x. length x.1.now < length tokens.now) }
{
    let (text, rest) = text_of(alloc, tokens)?;
    let tree = Boxed::new(alloc, ExprTree::Text { at: text.at, text })?;
    Ok((tree, rest))
}

/// Reads a parameter as an expression.
fn param_expr<'t>(alloc: Global, tokens: Lexemes<'t>) -> Read<'t, Boxed<ExprTree>>
    ensures read { Gives (λ x. (x.0, x.1.now)) result (read sql inner (act param_leaf parameter) tokens.now) }
    ensures shorter { IfOk result (λ x. length x.1.now < length tokens.now) }
{
    let (param, rest) = param_of(alloc, tokens)?;
    let tree = Boxed::new(
        alloc,
        ExprTree::Param {
            at: param.at,
            param,
        },
    )?;
    Ok((tree, rest))
}

/// Reads a column as an expression.
fn column_expr<'t>(alloc: Global, tokens: Lexemes<'t>) -> Read<'t, Boxed<ExprTree>>
    ensures read { Gives (λ x. (x.0, x.1.now)) result (read sql inner (act column_leaf column) tokens.now) }
    ensures shorter { IfOk result (λ x. length x.1.now < length tokens.now) }
{
    let (column, rest) = column_of(alloc, tokens)?;
    let tree = Boxed::new(alloc, column_leaf(column))?;
    Ok((tree, rest))
}

/// Reads a leaf, or an expression in brackets.
#[cycle(expression)]
fn primary_of<'t>(alloc: Global, tokens: Lexemes<'t>) -> Read<'t, Boxed<ExprTree>>
    ensures read { Gives (λ x. (x.0, x.1.now)) result (read sql inner primary tokens.now) }
    ensures shorter { IfOk result (λ x. length x.1.now < length tokens.now) }
{
    if begins_kind(tokens, NUMBER) {
        number_expr(alloc, tokens)
    } else if begins_kind(tokens, TEXT) {
        text_expr(alloc, tokens)
    } else if begins_kind(tokens, PARAM) {
        param_expr(alloc, tokens)
    } else if begins_kind(tokens, NAME) {
        column_expr(alloc, tokens)
    } else {
        let (open, rest) = token(tokens, Terminal::Open)?;
        let at = open.from;
        let (tree, rest) = nested_expr(alloc, rest)?;
        let (_, rest) = token(rest, Terminal::Close)?;
        Ok((in_brackets(alloc, at, tree)?, rest))
    }
}

/// Reads an operand with the minus signs before it.
#[cycle(expression)]
fn unary_of<'t>(alloc: Global, tokens: Lexemes<'t>) -> Read<'t, Boxed<ExprTree>>
    ensures read { Gives (λ x. (x.0, x.1.now)) result (read sql inner unary tokens.now) }
    ensures shorter { IfOk result (λ x. length x.1.now < length tokens.now) }
{
    if begins(tokens, Terminal::Minus) {
        let (minus, rest) = token(tokens, Terminal::Minus)?;
        let at = minus.from;
        let (side, rest) = nested_unary(alloc, rest)?;
        Ok((prefix(alloc, at, UnaryOp::Negate, side)?, rest))
    } else {
        primary_of(alloc, tokens)
    }
}

/// Reads a sum, or a comparison of two.
#[cycle(expression)]
fn test_of<'t>(alloc: Global, tokens: Lexemes<'t>) -> Read<'t, Boxed<ExprTree>>
    ensures read { Gives (λ x. (x.0, x.1.now)) result (read sql inner test tokens.now) }
    ensures shorter { IfOk result (λ x. length x.1.now < length tokens.now) }
{
    let (left, rest) = unary_of(alloc, tokens)?;
    let (left, rest) = tail_of(alloc, Level::Mul, left, rest)?;
    let (left, rest) = tail_of(alloc, Level::Add, left, rest)?;
    if begins_cmp(rest) {
        let (cmp, rest) = cmp_of(rest)?;
        let (right, rest) = nested_sum(alloc, rest)?;
        Ok((join(alloc, left, BinaryOp::Compare(cmp), right)?, rest))
    } else {
        Ok((left, rest))
    }
}

/// Reads a test with the NOTs before it.
#[cycle(expression)]
fn not_of<'t>(alloc: Global, tokens: Lexemes<'t>) -> Read<'t, Boxed<ExprTree>>
    ensures read { Gives (λ x. (x.0, x.1.now)) result (read sql inner not_rule tokens.now) }
    ensures shorter { IfOk result (λ x. length x.1.now < length tokens.now) }
{
    if begins(tokens, Terminal::Not) {
        let (not, rest) = token(tokens, Terminal::Not)?;
        let at = not.from;
        let (side, rest) = nested_not(alloc, rest)?;
        Ok((prefix(alloc, at, UnaryOp::Not, side)?, rest))
    } else {
        test_of(alloc, tokens)
    }
}

/// Reads an operand behind a minus sign. A function of its own, as `nested_not` and `nested_expr` are: its contract speaks
/// of what fills the grammar's hole (`inner`), and that of `unary_of` of the rule.
#[cycle(expression)]
fn nested_unary<'t>(alloc: Global, tokens: Lexemes<'t>) -> Read<'t, Boxed<ExprTree>>
    ensures read { Gives (λ x. (x.0, x.1.now)) result (inner InUnary tokens.now) }
    ensures shorter { IfOk result (λ x. length x.1.now < length tokens.now) }
{
    unary_of(alloc, tokens)
}

/// Reads what stands behind a NOT.
#[cycle(expression)]
fn nested_not<'t>(alloc: Global, tokens: Lexemes<'t>) -> Read<'t, Boxed<ExprTree>>
    ensures read { Gives (λ x. (x.0, x.1.now)) result (inner InNot tokens.now) }
    ensures shorter { IfOk result (λ x. length x.1.now < length tokens.now) }
{
    not_of(alloc, tokens)
}

/// Reads what stands between the operators of a level.
#[cycle(expression)]
fn side_of<'t>(alloc: Global, level: Level, tokens: Lexemes<'t>) -> Read<'t, Boxed<ExprTree>>
    ensures read { Gives (λ x. (x.0, x.1.now)) result (read sql inner (side_rule level) tokens.now) }
    ensures shorter { IfOk result (λ x. length x.1.now < length tokens.now) }
{
    match level {
        Level::Or => {
            let (left, rest) = not_of(alloc, tokens)?;
            tail_of(alloc, Level::And, left, rest)
        }
        Level::And => not_of(alloc, tokens),
        Level::Add => {
            let (left, rest) = unary_of(alloc, tokens)?;
            tail_of(alloc, Level::Mul, left, rest)
        }
        Level::Mul => unary_of(alloc, tokens),
    }
}

/// Reads the operators of a level that stand behind a left side, with their right sides.
#[cycle(expression)]
fn tail_of<'t>(
    alloc: Global,
    level: Level,
    left: Boxed<ExprTree>,
    tokens: Lexemes<'t>,
) -> Read<'t, Boxed<ExprTree>>
    ensures read { Gives (λ x. (x.0, x.1.now)) result (tail level left tokens.now) }
    ensures within { IfOk result (λ x. length x.1.now ≤ length tokens.now) }
{
    let mut left = left;
    // A slice of its own, which the loop moves on.
    let (_, mut rest) = tokens.split_at(0);
    // Each turn reads an operator at least, so there are no more turns than tokens.
    for _ in 0..tokens.len() {
        if !begins_operator(rest, level) {
            return Ok((left, rest));
        }
        let (op, after) = operator_of(rest, level)?;
        let (right, after) = side_of(alloc, level, after)?;
        left = join(alloc, left, op, right)?;
        rest = after;
    }
    Ok((left, rest))
}

/// Reads a sum, as it stands on the right of a comparison.
#[cycle(expression)]
fn nested_sum<'t>(alloc: Global, tokens: Lexemes<'t>) -> Read<'t, Boxed<ExprTree>>
    ensures read { Gives (λ x. (x.0, x.1.now)) result (read sql inner sum tokens.now) }
    ensures shorter { IfOk result (λ x. length x.1.now < length tokens.now) }
{
    let (left, rest) = side_of(alloc, Level::Add, tokens)?;
    tail_of(alloc, Level::Add, left, rest)
}

/// Reads an expression, as it stands in brackets.
#[cycle(expression)]
fn nested_expr<'t>(alloc: Global, tokens: Lexemes<'t>) -> Read<'t, Boxed<ExprTree>>
    ensures read { Gives (λ x. (x.0, x.1.now)) result (inner InExpr tokens.now) }
    ensures shorter { IfOk result (λ x. length x.1.now < length tokens.now) }
{
    let (left, rest) = not_of(alloc, tokens)?;
    let (left, rest) = tail_of(alloc, Level::And, left, rest)?;
    tail_of(alloc, Level::Or, left, rest)
}

/// Reads an expression from the front. Linear in its tokens and the bytes of its leaves.
pub fn expr_of<'t>(alloc: Global, tokens: Lexemes<'t>) -> Read<'t, ExprTree>
    ensures read { Gives (λ x. (x.0, x.1.now)) result (read sql inner expr tokens.now) }
    ensures shorter { IfOk result (λ x. length x.1.now < length tokens.now) }
{
    let (tree, rest) = nested_expr(alloc, tokens)?;
    Ok((tree.into_inner(), rest))
}

/// Reads a sum from the front. Linear in its tokens and the bytes of its leaves.
pub fn sum_of<'t>(alloc: Global, tokens: Lexemes<'t>) -> Read<'t, ExprTree>
    ensures read { Gives (λ x. (x.0, x.1.now)) result (read sql inner sum tokens.now) }
    ensures shorter { IfOk result (λ x. length x.1.now < length tokens.now) }
{
    let (tree, rest) = nested_sum(alloc, tokens)?;
    Ok((tree.into_inner(), rest))
}
