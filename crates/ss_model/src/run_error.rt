//! The error of evaluations, and what becomes one.

use crate::Reason;
use ss_value::NoMemory;
use std::alloc::AllocFailed;

/// Why an evaluation ends without a result.
#[derive(Clone, Copy, Debug, PartialEq, Eq, Drop)]
pub enum RunError {
    /// Out of memory, which says nothing of what the evaluation means.
    NoMemory,
    /// The abort that is what the evaluation means.
    Abort(Reason),
}

impl From<NoMemory> for RunError {
    ghost use Rattle.std.specs.Prelude.{◌≡◌};
    ghost use Rattle.ss_model.specs.declared.run_error.RunError.TheVariants.{NoMemory as OutOfMemory};

    ghost from_gives = { λ _ stop. stop ≡ OutOfMemory };

    fn from(_: NoMemory) -> RunError {
        RunError::NoMemory
    }
}

impl<T: Drop> From<AllocFailed<T>> for RunError {
    ghost use Rattle.std.specs.Prelude.{◌≡◌};
    ghost use Rattle.ss_model.specs.declared.run_error.RunError.TheVariants.{NoMemory as OutOfMemory};

    ghost from_gives = { λ _ stop. stop ≡ OutOfMemory };

    fn from(_: AllocFailed<T>) -> RunError {
        RunError::NoMemory
    }
}

/// A push that finds no memory answers the item too; the conversion drops it, so that `?` serves there.
impl<T: Drop> From<(NoMemory, T)> for RunError {
    ghost use Rattle.std.specs.Prelude.{◌≡◌};
    ghost use Rattle.ss_model.specs.declared.run_error.RunError.TheVariants.{NoMemory as OutOfMemory};

    ghost from_gives = { λ _ stop. stop ≡ OutOfMemory };

    fn from(_: (NoMemory, T)) -> RunError {
        RunError::NoMemory
    }
}

impl From<Reason> for RunError {
    ghost use Rattle.std.specs.Prelude.{◌≡◌};
    ghost use Rattle.ss_model.specs.declared.run_error.RunError.TheVariants.{Abort};

    ghost from_gives = { λ reason stop. stop ≡ Abort reason };

    fn from(reason: Reason) -> RunError {
        RunError::Abort(reason)
    }
}
