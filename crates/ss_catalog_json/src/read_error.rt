//! Why a value isn't read.

use crate::word::Word;
use ss_value::NoMemory;

/// Why a value isn't read.
#[derive(Drop)]
pub enum ReadError {
    /// Out of memory.
    NoMemory,
    /// The way from the value to its first fault.
    Fault(Word),
}

impl From<NoMemory> for ReadError {
    ghost use Rattle.std.specs.Prelude.{◌≡◌};
    ghost use Rattle.ss_catalog_json.specs.declared.read_error.ReadError.TheVariants.{NoMemory as OutOfMemory};

    ghost from_gives = { λ _ e. e ≡ OutOfMemory };

    fn from(_: NoMemory) -> ReadError {
        ReadError::NoMemory
    }
}

// `Seq::push` answers the item that it refused with `NoMemory`; `?` drops the item.
impl<T: Drop> From<(NoMemory, T)> for ReadError {
    ghost use Rattle.std.specs.Prelude.{◌≡◌};
    ghost use Rattle.ss_catalog_json.specs.declared.read_error.ReadError.TheVariants.{NoMemory as OutOfMemory};

    ghost from_gives = { λ _ e. e ≡ OutOfMemory };

    fn from(_: (NoMemory, T)) -> ReadError {
        ReadError::NoMemory
    }
}
