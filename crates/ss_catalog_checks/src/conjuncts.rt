//! The conjunct by which a WHERE limits a source to one value of its split column.

ghost use Rattle.std.specs.Prelude.{◌≡◌};
ghost use Rattle.ss_model.specs.Conjuncts.{has_conjunct};
ghost use Rattle.ss_catalog_checks.specs.Localities.{known_of};

use ss_sql_trees::{BinaryOp, Cmp, Expr};

/// The conjunct `column = :argument`, with the column of this source.
#[derive(Clone, Copy, Debug, PartialEq, Eq, Drop)]
pub(crate) struct WantedConjunct {
    pub source: u8,
    pub column: u8,
    pub argument: u8,
}

/// Whether an expression is the column.
fn is_column(wanted: WantedConjunct, tree: &Expr) -> bool
    ensures { result ≡ (known_of wanted.source wanted.column wanted.argument tree.now).is_column }
{
    match tree {
        Expr::Col { source, column } => *source == wanted.source && *column == wanted.column,
        Expr::Lit(_) => false,
        Expr::Param(_) => false,
        Expr::Unary { .. } => false,
        Expr::Binary { .. } => false,
    }
}

/// Whether an expression is the argument.
fn is_argument(wanted: WantedConjunct, tree: &Expr) -> bool
    ensures { result ≡ (known_of wanted.source wanted.column wanted.argument tree.now).is_argument }
{
    match tree {
        Expr::Param(number) => *number == wanted.argument,
        Expr::Lit(_) => false,
        Expr::Col { .. } => false,
        Expr::Unary { .. } => false,
        Expr::Binary { .. } => false,
    }
}

/// Whether an expression is the conjunct, or AND joins it with others. Linear in the tree's ANDs.
fn has_conjunct_in(wanted: WantedConjunct, tree: &Expr) -> bool
    ensures { result ≡ (known_of wanted.source wanted.column wanted.argument tree.now).found }
{
    match tree {
        Expr::Lit(_) => false,
        Expr::Param(_) => false,
        Expr::Col { .. } => false,
        Expr::Unary { .. } => false,
        Expr::Binary { op, left, right } => match op {
            // Only under AND: under OR or NOT the conjunct limits nothing.
            BinaryOp::And => has_conjunct_in(wanted, left.get())
                || has_conjunct_in(wanted, right.get()),
            BinaryOp::Compare(cmp) => match cmp {
                Cmp::Eq => is_column(wanted, left.get()) && is_argument(wanted, right.get()),
                Cmp::Ne => false,
                Cmp::Lt => false,
                Cmp::Le => false,
                Cmp::Gt => false,
                Cmp::Ge => false,
            },
            BinaryOp::Or => false,
            BinaryOp::Add => false,
            BinaryOp::Sub => false,
            BinaryOp::Concat => false,
            BinaryOp::Mul => false,
            BinaryOp::Div => false,
            BinaryOp::Rem => false,
        },
    }
}

/// Whether a WHERE has the conjunct at its top level, the column on the left. Linear in its ANDs.
pub(crate) fn has_conjunct(wanted: WantedConjunct, test: &Option<Expr>) -> bool
    ensures { result ≡ has_conjunct wanted.source wanted.column wanted.argument test.now }
{
    match test {
        Some(tree) => has_conjunct_in(wanted, tree),
        None => false,
    }
}
