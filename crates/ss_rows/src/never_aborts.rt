//! Which expressions never abort: enough of them to end a query early, and no more than can be told from the tree.

ghost use Rattle.std.specs.Prelude.{◌≡◌, true};
ghost use Rattle.ss_rows.specs.Certainty.{AlwaysHasTest};
ghost use Rattle.ss_rows.specs.Lent.{IsLent};

use ss_sql_trees::{BinaryOp, Expr};

/// Whether an expression is a literal, a parameter or a column, which have a value on every row. Constant.
pub fn is_lent(tree: &Expr) -> bool
    ensures { result ≡ true → IsLent tree.now }
{
    match tree {
        Expr::Lit(_) => true,
        Expr::Param(_) => true,
        Expr::Col { .. } => true,
        Expr::Unary { .. } | Expr::Binary { .. } => false,
    }
}

/// Whether an expression is made of comparisons of literals, parameters and columns, with AND, OR and NOT, and so has an
/// answer on every row.
///
/// Linear in the tree; the stack is as deep as the tree.
pub fn always_has_test(tree: &Expr) -> bool
    ensures { result ≡ true → AlwaysHasTest tree.now }
{
    match tree {
        // As a test, an expression that is none is false, and nothing in it is evaluated; so it is with the operators below.
        Expr::Lit(_) | Expr::Param(_) | Expr::Col { .. } => true,
        Expr::Unary { op: _, side } => always_has_test(side.get()),
        Expr::Binary { op, left, right } => match op {
            BinaryOp::And | BinaryOp::Or => {
                always_has_test(left.get()) && always_has_test(right.get())
            }
            BinaryOp::Compare(_) => { is_lent(left.get()) && is_lent(right.get()) }
            BinaryOp::Add
            | BinaryOp::Sub
            | BinaryOp::Concat
            | BinaryOp::Mul
            | BinaryOp::Div
            | BinaryOp::Rem => true,
        },
    }
}
