//! Why a catalogue with nests is refused.

use ss_catalog::{CatalogError, Word};
use ss_value::{Name, NoMemory};

/// Why a catalogue with nests is refused. The variants after `Catalog` are N1 to N6, and carry what is reported.
#[derive(Drop)]
pub enum NestError {
    /// Out of memory.
    NoMemory,
    /// C1 to C10: the value without its nests is refused; never for want of memory.
    Catalog(CatalogError),
    /// N1: the section of nests hasn't its shape, or a nest has fewer than two or more than eight procedures; the path
    /// to the first fault, from `$`.
    Shape(Word),
    /// N2: a name that is no border or interior procedure's.
    Unknown(Word),
    /// N3: a procedure that stands twice in all nests, or a nest's name that is another nest's or a procedure's.
    Twice(Name),
    /// N4: a nest of which a later member takes what no earlier one emits, or a stream of a member has both members and
    /// others as consumers.
    NotClosed(Name),
    /// N5: a nest of which two members have different touch sets.
    Touch(Name),
    /// N6: a nest of which a member owns a window of batches.
    Window(Name),
}

impl From<NoMemory> for NestError {
    ghost use Rattle.std.specs.Prelude.{◌≡◌};
    ghost use Rattle.ss_nest.specs.declared.error.NestError.TheVariants.{NoMemory as OutOfMemory};

    ghost from_gives = { λ _ e. e ≡ OutOfMemory };

    fn from(_: NoMemory) -> NestError {
        NestError::NoMemory
    }
}

// `Seq::push` answers the item that it refused with `NoMemory`; `?` drops the item.
impl<T: Drop> From<(NoMemory, T)> for NestError {
    ghost use Rattle.std.specs.Prelude.{◌≡◌};
    ghost use Rattle.ss_nest.specs.declared.error.NestError.TheVariants.{NoMemory as OutOfMemory};

    ghost from_gives = { λ _ e. e ≡ OutOfMemory };

    fn from(_: (NoMemory, T)) -> NestError {
        NestError::NoMemory
    }
}
