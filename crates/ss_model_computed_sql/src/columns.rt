//! The values in columns of rows and of tuples.
//!
//! The functions that answer a reference take the `zero` that they may answer: a value of their own would not outlive
//! the call.

ghost use Rattle.std.specs.Prelude.{◌≡◌, IfOk, [], get_or, pos};
ghost use Rattle.ss_value.specs.declared.value.Value.TheVariants.{Int};
ghost use Rattle.ss_value.specs.Rows.{column_value};
ghost use Rattle.ss_model.specs.Queries.{source_column};

use ss_sql_trees::ColAt;
use ss_value::{NoMemory, Row, Rows, Value};
use std::alloc::Global;

/// The value in a column of a row, and `zero` past the row's end. Constant time.
pub fn column_or<'a>(row: &'a Row, column: usize, zero: &'a Value) -> &'a Value
    requires { zero.now ≡ Int (pos 0) }
    ensures { result.now ≡ column_value row.now column }
{
    match row.get(column) {
        Some(value) => value,
        None => zero,
    }
}

/// The value in a column of a tuple `here`, one row per source, and `zero` past the last source or the row's end.
/// Constant time.
pub fn source_column_or<'a>(here: &'a Rows, at: ColAt, zero: &'a Value) -> &'a Value
    requires { zero.now ≡ Int (pos 0) }
    ensures { result.now ≡ source_column at here.now }
{
    match here.get(usize::from(at.source)) {
        Some(row) => column_or(row, usize::from(at.column), zero),
        None => zero,
    }
}

/// A copy of the value in a column of a row, and of 0 past the row's end. Linear in the value's bytes.
pub fn column_value(alloc: Global, row: &Row, column: usize) -> Result<Value, NoMemory>
    ensures { IfOk result (λ value. value ≡ column_value row.now column) }
{
    let zero = Value::Int(0);
    column_or(row, column, &zero).copy(alloc)
}

/// A copy of the value in a column of a tuple, and of 0 past the last source or the row's end. Linear in the value's
/// bytes.
pub fn source_column(alloc: Global, here: &Rows, at: ColAt) -> Result<Value, NoMemory>
    ensures { IfOk result (λ value. value ≡ source_column at here.now) }
{
    let zero = Value::Int(0);
    source_column_or(here, at, &zero).copy(alloc)
}
