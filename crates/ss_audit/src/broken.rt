//! Why a check stops.

use ss_value::NoMemory;
use std::alloc::AllocError;

/// Why a check stops.
#[derive(Drop)]
pub enum Broken {
    /// Out of memory, which says nothing of the lines.
    NoMemory,
    /// The line of this number breaks the check.
    Line(u64),
}

impl From<NoMemory> for Broken {
    ghost use Rattle.std.specs.Prelude.{◌≡◌};
    ghost use Rattle.ss_audit.specs.declared.broken.Broken.TheVariants.{NoMemory as OutOfMemory};

    ghost from_gives = { λ _ broken. broken ≡ OutOfMemory };

    fn from(_: NoMemory) -> Broken {
        Broken::NoMemory
    }
}

impl From<AllocError> for Broken {
    ghost use Rattle.std.specs.Prelude.{◌≡◌};
    ghost use Rattle.ss_audit.specs.declared.broken.Broken.TheVariants.{NoMemory as OutOfMemory};

    ghost from_gives = { λ _ broken. broken ≡ OutOfMemory };

    fn from(_: AllocError) -> Broken {
        Broken::NoMemory
    }
}
