//! When a value replaces the best one so far, for MIN and for MAX.

ghost use Rattle.std.specs.Prelude.{◌≡◌};
ghost use Rattle.ss_model.specs.Extremes.{beats};

use std::cmp::Ordering;

/// Which of some values is sought.
#[derive(Clone, Copy, Debug, PartialEq, Eq, Drop)]
pub enum Extreme {
    /// The least one, of MIN.
    Least,
    /// The greatest one, of MAX.
    Greatest,
}

/// Whether a value that compares so with the best one so far replaces it. An equal one doesn't: the first stays.
pub fn beats(extreme: Extreme, order: Ordering) -> bool
    ensures { result ≡ beats extreme order }
{
    match extreme {
        Extreme::Least => order.is_lt(),
        Extreme::Greatest => order.is_gt(),
    }
}
