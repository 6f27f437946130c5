//! Values that are lent where they stand, and what is lent where a row or a tuple has none.

ghost use Rattle.std.specs.Prelude.{◌≡◌, pos};
ghost use Rattle.ss_value.specs.declared.value.Value.TheVariants.{Int};
ghost use Rattle.ss_value.specs.Rows.{column_value};
ghost use Rattle.ss_rows.specs.Lent.{lent_value};
ghost use Rattle.ss_rows.specs.Operands.{value_or_zero};
ghost use Rattle.ss_rows.specs.Tuples.{tuple_of};

use crate::tuple::Tuple;
use ss_sql_trees::{ColAt, Expr};
use ss_value::{Row, Value};

/// A value that is lent, and `zero` where there is none.
pub fn lent_or<'a>(value: Option<&'a Value>, zero: &'a Value) -> &'a Value
    requires { zero.now ≡ Int (pos 0) }
    ensures { result.now ≡ value_or_zero value.entry }
{
    match value {
        Some(value) => value,
        None => zero,
    }
}

/// The value in a column of a row, and `zero` past the row's end.
pub fn column_or<'a>(row: &'a Row, column: usize, zero: &'a Value) -> &'a Value
    requires { zero.now ≡ Int (pos 0) }
    ensures { result.now ≡ column_value row.now column }
{
    match row.get(column) {
        Some(value) => value,
        None => zero,
    }
}

/// The value of a literal, a parameter or a column, where it stands, and `zero` where there is none. Constant.
pub fn lent_value<'a>(
    tree: &'a Expr,
    here: Tuple<'a>,
    params: &'a Row,
    zero: &'a Value,
) -> &'a Value
    requires { zero.now ≡ Int (pos 0) }
    ensures { result.now ≡ lent_value params.now (tuple_of here.entry) tree.now }
{
    match tree {
        Expr::Lit(value) => value,
        Expr::Param(n) => column_or(params, usize::from(*n), zero),
        Expr::Col { source, column } => {
            let at = ColAt {
                source: *source,
                column: *column,
            };
            lent_or(here.column(at), zero)
        }
        Expr::Unary { .. } | Expr::Binary { .. } => zero,
    }
}
