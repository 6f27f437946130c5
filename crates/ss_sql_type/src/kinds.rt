//! Types of expressions.

ghost use Rattle.std.specs.Prelude.{◌≡◌};
ghost use Rattle.ss_sql_type.specs.Kinds.{kind_of, may_be, may_be_value, may_compare, fits, first_needs, others, sign_kind, gives, value_kind};

use ss_sql_trees::{BinaryOp, UnaryOp};
use ss_value::{ColType, Column};

/// The type of an expression.
#[derive(Clone, Copy, Debug, PartialEq, Eq, Drop)]
pub enum ValueKind {
    /// A number.
    Int,
    /// A text.
    Text,
    /// True or false; no value has it.
    Bool,
}

/// The type of a column's values.
pub fn kind_of(column: ColType) -> ValueKind
    ensures { result ≡ kind_of column }
{
    match column {
        ColType::Int => ValueKind::Int,
        ColType::Text => ValueKind::Text,
    }
}

/// Whether an expression has this type, or none that is known.
pub fn may_be(kind: ValueKind, found: Option<ValueKind>) -> bool
    ensures { result ≡ may_be kind found }
{
    match (kind, found) {
        (_, None) => true,
        (ValueKind::Int, Some(ValueKind::Int)) => true,
        (ValueKind::Text, Some(ValueKind::Text)) => true,
        (ValueKind::Bool, Some(ValueKind::Bool)) => true,
        _ => false,
    }
}

/// Whether an expression is an Int or a Text, or has no type that is known.
pub fn may_be_value(found: Option<ValueKind>) -> bool
    ensures { result ≡ may_be_value found }
{
    may_be(ValueKind::Int, found) || may_be(ValueKind::Text, found)
}

/// Whether two sides can be compared: both are Ints, or both Texts, as far as their types are known.
pub fn may_compare(left: Option<ValueKind>, right: Option<ValueKind>) -> bool
    ensures { result ≡ may_compare left right }
{
    let ints = may_be(ValueKind::Int, left) && may_be(ValueKind::Int, right);
    let texts = may_be(ValueKind::Text, left) && may_be(ValueKind::Text, right);
    ints || texts
}

/// What the context of an expression needs.
#[derive(Clone, Copy, Debug, PartialEq, Eq, Drop)]
pub enum Needs {
    /// An Int or a Text.
    Value,
    /// This type and no other.
    Only(ValueKind),
}

/// Whether an expression has what its context needs.
pub fn fits(needs: Needs, found: Option<ValueKind>) -> bool
    ensures { result ≡ fits needs found }
{
    match needs {
        Needs::Value => may_be_value(found),
        Needs::Only(kind) => may_be(kind, found),
    }
}

/// What the first of these columns needs, any value where there is none, and the columns behind it.
pub fn first_needs(columns: &[Column]) -> (Needs, &[Column])
    ensures first { result.0 ≡ first_needs columns.now }
    ensures others { result.1.now ≡ others columns.now }
{
    match columns.split_first() {
        Some((column, others)) => (Needs::Only(kind_of(column.kind)), others),
        None => (Needs::Value, columns),
    }
}

/// The type that an operator before its side takes and gives.
pub fn sign_kind(op: UnaryOp) -> ValueKind
    ensures { result ≡ sign_kind op }
{
    match op {
        UnaryOp::Not => ValueKind::Bool,
        UnaryOp::Negate => ValueKind::Int,
    }
}

/// The type that an operator between its sides gives, and takes unless it compares.
pub fn gives(op: BinaryOp) -> ValueKind
    ensures { result ≡ gives op }
{
    match op {
        BinaryOp::Or | BinaryOp::And | BinaryOp::Compare(_) => ValueKind::Bool,
        BinaryOp::Concat => ValueKind::Text,
        BinaryOp::Add | BinaryOp::Sub | BinaryOp::Mul | BinaryOp::Div | BinaryOp::Rem =>
            ValueKind::Int,
    }
}

/// The type that MIN and MAX give over an expression of this type. Of a Bool they have none, which is reported as the
/// expression's fault already.
pub fn value_kind(kind: Option<ValueKind>) -> Option<ValueKind>
    ensures { result ≡ value_kind kind }
{
    match kind {
        Some(ValueKind::Bool) => None,
        _ => kind,
    }
}
