//! Why reading stops.

ghost use Rattle.std.specs.Prelude.{◌≡◌};
ghost use Rattle.ss_sql_parse.specs.declared.stop.Stop.TheVariants.{Memory};

use ss_value::NoMemory;

/// Why reading stops.
#[derive(Clone, Copy, Debug, PartialEq, Eq, Drop)]
pub enum Stop {
    /// Out of memory.
    Memory,
    /// The first token that is not expected, by how many tokens are left from it on.
    Left(usize),
}

impl From<NoMemory> for Stop {
    ghost from_gives = { λ _ e. e ≡ Memory };

    fn from(_e: NoMemory) -> Stop {
        Stop::Memory
    }
}

impl<T: Drop> From<(NoMemory, T)> for Stop {
    ghost from_gives = { λ _ e. e ≡ Memory };

    fn from(_: (NoMemory, T)) -> Stop {
        Stop::Memory
    }
}
