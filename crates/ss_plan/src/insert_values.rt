//! The row of an INSERT with VALUES.

ghost use Rattle.std.specs.Prelude.{◌≡◌, [], IfOk, IfErr, Ok};
ghost use Rattle.ss_model.specs.Results.{try_map};
ghost use Rattle.ss_model.specs.Expressions.{expr_value};
ghost use Rattle.ss_model.specs.Stops.{StopsAs};

use ss_model::RunError;
use ss_rows::{Tuple, evaluate};
use ss_sql_trees::Expr;
use ss_value::{Row, Seq};
use std::alloc::Global;

/// The row that VALUES gives: its expressions from left to right, each on no row, since VALUES names no column. Aborts as the
/// first of them that aborts.
pub fn given_row<'a>(alloc: Global, values: &'a [Expr], params: &'a Row) -> Result<Row, RunError>
    ensures ok { IfOk result (λ row. try_map (expr_value [] params.now) values.now ≡ Ok row) }
    ensures stops { IfErr result (λ stop. StopsAs (try_map (expr_value [] params.now) values.now) stop) }
{
    let mut row = Seq::with_capacity(alloc, values.len())?;
    for tree in values {
        let value = evaluate(alloc, tree, Tuple::Empty, params)?.into_value(alloc)?;
        row.push(value)?;
    }
    Ok(row)
}
