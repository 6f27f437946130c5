//! Why bytes are no image.

use ss_value::NoMemory;

/// Why bytes aren't read as an image.
#[derive(Clone, Copy, Debug, PartialEq, Eq, Drop)]
pub enum ImageError {
    /// Want of memory, which says nothing of the bytes.
    NoMemory,
    /// They are no image: the first byte that can't be, counted from 0.
    Foreign { at: u64 },
}

impl From<NoMemory> for ImageError {
    ghost use Rattle.std.specs.Prelude.{◌≡◌};
    ghost use Rattle.ss_snapshot.specs.declared.error.ImageError.TheVariants.{NoMemory as OutOfMemory};

    ghost from_gives = { λ _ e. e ≡ OutOfMemory };

    fn from(_: NoMemory) -> ImageError {
        ImageError::NoMemory
    }
}
