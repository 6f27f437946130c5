//! The least and the greatest of values.

ghost use Rattle.std.specs.Prelude.{◌≡◌, ◌∷◌, fold, cond, IfOk, IfErr, Ok};
ghost use Rattle.ss_value.specs.Order.{value_cmp};
ghost use Rattle.ss_model.specs.Queries.{extreme_value};
ghost use Rattle.ss_model.specs.Stops.{StopsAs};
ghost use Rattle.ss_model.specs.Extremes.{beats};

use ss_model::{Extreme, Reason, RunError, beats};
use ss_value::{Value, compare};
use std::alloc::Global;

/// The first of `first` and these values that no other one beats.
fn best_value<'a>(extreme: Extreme, first: &'a Value, values: &'a [Value]) -> &'a Value
    ensures { result.now ≡ fold (λ best v. cond (beats extreme (value_cmp v best)) v best) first.now values.now }
{
    let mut best = first;
    for value in values {
        if beats(extreme, compare(value, best)) {
            best = value;
        }
    }
    best
}

/// A copy of the value that no other one beats, the first of equal ones. Aborts with `EmptyAggregate` where there is
/// no value.
pub fn extreme_value(alloc: Global, extreme: Extreme, values: &[Value]) -> Result<Value, RunError>
    ensures ok { IfOk result (λ v. extreme_value (beats extreme) values.now ≡ Ok v) }
    ensures stops { IfErr result (λ stop. StopsAs (extreme_value (beats extreme) values.now) stop) }
{
    match values.split_first() {
        Some((first, rest)) => Ok(best_value(extreme, first, rest).copy(alloc)?),
        None => Err(RunError::Abort(Reason::EmptyAggregate)),
    }
}
