//! Columns, and which rows fit them.

ghost use Rattle.std.specs.Prelude.{◌≡◌, length, IsTrue, ◌↔◌};
ghost use Rattle.std.specs.List.{list_all, zip};
ghost use Rattle.ss_value.specs.Fit.{fits_kind, fits_schema};

use crate::seq::Seq;
use crate::text::Name;
use crate::value::{Row, Value};

/// The type of a column's values.
#[derive(Clone, Copy, Debug, PartialEq, Eq, Drop)]
pub enum ColType {
    Int,
    Text,
}

/// A column of a table, stream, window or argument list.
#[derive(Drop)]
pub struct Column {
    pub name: Name,
    pub kind: ColType,
}

/// Columns in order.
pub type Schema = Seq<Column>;

/// Whether a value is of this type.
pub fn is_of(kind: ColType, value: &Value) -> bool
    ensures { result ≡ fits_kind kind value.now }
{
    match (kind, value) {
        (ColType::Int, Value::Int(_)) => true,
        (ColType::Text, Value::Text(_)) => true,
        _ => false,
    }
}

fn each_fits(schema: &[Column], row: &[Value]) -> bool
    ensures { result ≡ list_all (λ p. fits_kind p.0.kind p.1) (zip schema.now row.now) }
{
    schema
        .iter()
        .zip(row)
        .all(|(column, value)| is_of(column.kind, value))
}

/// Whether a row has one value of the right type for each column, and no other. Linear in the columns.
pub fn fits(schema: &Schema, row: &Row) -> bool
    ensures { result ≡ fits_schema schema.now row.now }
{
    // A zip ends with the shorter list, so the lengths are compared too.
    schema.len() == row.len() && each_fits(schema.as_slice(), row.as_slice())
}
