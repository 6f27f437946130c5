//! The meaning of an expression: a value or a test, or the first abort.

ghost use Rattle.std.specs.Prelude.{◌≡◌, IfOk, IfErr, Ok};
ghost use Rattle.ss_model.specs.Expressions.{expr_value, expr_test};
ghost use Rattle.ss_model.specs.Stops.{StopsAs};

use crate::columns::{column_value, source_column};
use ss_model::{RunError, apply_binary, cmp_holds, int_of, negation};
use ss_sql_trees::{BinaryOp, ColAt, Expr};
use ss_value::{Row, Rows, Value, compare};
use std::alloc::Global;

/// The value of an expression on a tuple `here`, one row per source, with these parameters.
///
/// Aborts as the first of its operators does, where the left side goes first, then the right side, then the operator.
/// Linear in the tree, in the bytes of the texts at its leaves, and in the texts that it joins; the stack is as deep as
/// the tree.
pub fn evaluate(alloc: Global, tree: &Expr, here: &Rows, params: &Row) -> Result<Value, RunError>
    ensures ok { IfOk result (λ v. expr_value here.now params.now tree.now ≡ Ok v) }
    ensures stops { IfErr result (λ stop. StopsAs (expr_value here.now params.now tree.now) stop) }
{
    match tree {
        Expr::Lit(value) => Ok(value.copy(alloc)?),
        Expr::Param(n) => Ok(column_value(alloc, params, usize::from(*n))?),
        Expr::Col { source, column } => {
            let at = ColAt {
                source: *source,
                column: *column,
            };
            Ok(source_column(alloc, here, at)?)
        }
        Expr::Unary { op: _, side } => {
            let value = evaluate(alloc, side.get(), here, params)?;
            Ok(negation(int_of(&value))?)
        }
        Expr::Binary { op, left, right } => {
            let left = evaluate(alloc, left.get(), here, params)?;
            let right = evaluate(alloc, right.get(), here, params)?;
            apply_binary(alloc, *op, &left, &right)
        }
    }
}

/// Whether an expression holds on a tuple `here`, one row per source, with these parameters.
///
/// AND and OR evaluate their right side only where the left one does not decide, so that it can't abort elsewhere.
/// Costs as `evaluate` does.
pub fn holds(alloc: Global, tree: &Expr, here: &Rows, params: &Row) -> Result<bool, RunError>
    ensures ok { IfOk result (λ b. expr_test here.now params.now tree.now ≡ Ok b) }
    ensures stops { IfErr result (λ stop. StopsAs (expr_test here.now params.now tree.now) stop) }
{
    match tree {
        // What is no test counts as false, as the definitions have it; no well typed expression asks.
        Expr::Lit(_) | Expr::Param(_) | Expr::Col { .. } => Ok(false),
        Expr::Unary { op: _, side } => {
            let side = holds(alloc, side.get(), here, params)?;
            Ok(!side)
        }
        Expr::Binary { op, left, right } => match op {
            BinaryOp::And => {
                if !holds(alloc, left.get(), here, params)? {
                    return Ok(false);
                }
                holds(alloc, right.get(), here, params)
            }
            BinaryOp::Or => {
                if holds(alloc, left.get(), here, params)? {
                    return Ok(true);
                }
                holds(alloc, right.get(), here, params)
            }
            BinaryOp::Compare(cmp) => {
                let left = evaluate(alloc, left.get(), here, params)?;
                let right = evaluate(alloc, right.get(), here, params)?;
                Ok(cmp_holds(*cmp, compare(&left, &right)))
            }
            BinaryOp::Add
            | BinaryOp::Sub
            | BinaryOp::Concat
            | BinaryOp::Mul
            | BinaryOp::Div
            | BinaryOp::Rem => Ok(false),
        },
    }
}
