//! Laws of the order, each the contract of a function that does nothing.

ghost use Rattle.std.specs.Cmp.{IsTotalOrder};
ghost use Rattle.std.specs.FinMap.{IsAntisymmetric};
ghost use Rattle.ss_value.specs.Order.{value_cmp, row_cmp};

/// The order of values is total, and only equal values tie.
pub fn value_order_is_total()
    ensures total { IsTotalOrder value_cmp }
    ensures ties { IsAntisymmetric value_cmp }
{}

/// The order of rows is total, and only equal rows tie.
pub fn row_order_is_total()
    ensures total { IsTotalOrder row_cmp }
    ensures ties { IsAntisymmetric row_cmp }
{}
