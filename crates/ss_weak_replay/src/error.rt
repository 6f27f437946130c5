//! Why calls, pushes and installs don't replay.

use ss_model::Listed;
use ss_value::{NoMemory, Seq};

/// Why calls, pushes and installs don't replay.
///
/// Nothing leaves a database, because half a log is no store. An entry that doesn't replay hands back those before it, by which
/// its record is found.
#[derive(Drop)]
pub enum WeakError {
    /// Out of memory, which says nothing of them.
    NoMemory,
    /// Settling what is before the first of them would pass the last place.
    Unsettled,
    /// One of them doesn't replay: it has no value, or it and its steps would pass the last place. Those before the first such
    /// one, each with its outcome, and without the steps between them.
    Foreign { before: Seq<Listed> },
}

impl From<NoMemory> for WeakError {
    ghost use Rattle.std.specs.Prelude.{◌≡◌};
    ghost use Rattle.ss_weak_replay.specs.declared.error.WeakError.TheVariants.{NoMemory as OutOfMemory};

    ghost from_gives = { λ _ e. e ≡ OutOfMemory };

    fn from(_: NoMemory) -> WeakError {
        WeakError::NoMemory
    }
}
