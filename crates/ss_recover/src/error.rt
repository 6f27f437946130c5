//! Why nothing is recovered.

use ss_model::Mode;
use ss_value::{NoMemory, Seq};

/// Why nothing is recovered.
#[derive(Drop)]
pub enum RecoverError {
    /// Out of memory.
    NoMemory,
    /// The disk failed, and counted it, in this call.
    DiskFault,
    /// The disk is neither empty nor a store: the file's number, and in it the first byte that can't be.
    Foreign { file: u8, at: u64 },
    /// The store is of the other mode than the one that is asked.
    OtherMode { stored: Mode },
    /// The store is of another catalogue: both texts.
    OtherCatalog { stored: Seq<u8>, given: Seq<u8> },
    /// The disk is empty, and no catalogue is given.
    Nothing,
}

impl From<NoMemory> for RecoverError {
    ghost use Rattle.std.specs.Prelude.{◌≡◌};
    ghost use Rattle.ss_recover.specs.declared.error.RecoverError.TheVariants.{NoMemory as OutOfMemory};

    ghost from_gives = { λ _ e. e ≡ OutOfMemory };

    fn from(_: NoMemory) -> RecoverError {
        RecoverError::NoMemory
    }
}
