//! Where SQL is refused, and why.

use ss_value::{Name, NoMemory};

/// A fault of a SQL text: its code, S1 to S9, and its offset. The values of an `insert` step, which has no text, are
/// refused as S8 or S6 at offset 0.
#[derive(Clone, Copy, Debug, PartialEq, Eq, Drop)]
pub struct SqlFault {
    /// From 1 to 9, for S1 to S9.
    pub code: u8,
    /// The offset, in bytes from the start of the text.
    pub at: usize,
}

/// A fault in a body or in the statements of a trigger.
#[derive(Clone, Copy, Debug, PartialEq, Eq, Drop)]
pub struct BodyFault {
    /// The number of the step or statement, from 0 in document order; a `for_each` comes before its inner steps.
    pub number: usize,
    pub fault: SqlFault,
}

/// A fault in the SQL of a catalogue.
#[derive(Drop)]
pub struct SqlSite {
    /// The procedure or the trigger.
    pub name: Name,
    /// The number of its step or statement.
    pub number: usize,
    pub fault: SqlFault,
}

/// Why an outline isn't resolved.
#[derive(Drop)]
pub enum ResolveError {
    /// Out of memory.
    NoMemory,
    /// The first fault in its SQL.
    Fault(SqlSite),
}

impl From<NoMemory> for ResolveError {
    ghost use Rattle.std.specs.Prelude.{◌≡◌};
    ghost use Rattle.ss_catalog_resolve.specs.declared.fault.ResolveError.TheVariants.{NoMemory as OutOfMemory};

    ghost from_gives = { λ _ e. e ≡ OutOfMemory };

    fn from(_: NoMemory) -> ResolveError {
        ResolveError::NoMemory
    }
}

/// Why a piece of an outline isn't resolved: a text, a body, or all bodies, whose fault is an `F`.
#[derive(Drop)]
pub enum SqlRefusal<F> {
    /// Out of memory.
    NoMemory,
    /// The first fault in its SQL.
    Fault(F),
}

impl<F> From<NoMemory> for SqlRefusal<F> {
    ghost use Rattle.std.specs.Prelude.{◌≡◌};
    ghost use Rattle.ss_catalog_resolve.specs.declared.fault.SqlRefusal.TheVariants.{NoMemory as OutOfMemory};

    ghost from_gives = { λ _ e. e ≡ OutOfMemory };

    fn from(_: NoMemory) -> SqlRefusal<F> {
        SqlRefusal::NoMemory
    }
}

// `Seq::push` answers the item that it refused with `NoMemory`; `?` drops the item.
impl<T: Drop, F> From<(NoMemory, T)> for SqlRefusal<F> {
    ghost use Rattle.std.specs.Prelude.{◌≡◌};
    ghost use Rattle.ss_catalog_resolve.specs.declared.fault.SqlRefusal.TheVariants.{NoMemory as OutOfMemory};

    ghost from_gives = { λ _ e. e ≡ OutOfMemory };

    fn from(_: (NoMemory, T)) -> SqlRefusal<F> {
        SqlRefusal::NoMemory
    }
}

impl From<SqlRefusal<SqlSite>> for ResolveError {
    ghost use Rattle.std.specs.Prelude.{◌≡◌};
    ghost use Rattle.ss_catalog_resolve.specs.Refusals.{resolve_error_of};

    ghost from_gives = { λ refused e. e ≡ resolve_error_of refused };

    fn from(refused: SqlRefusal<SqlSite>) -> ResolveError {
        match refused {
            SqlRefusal::NoMemory => ResolveError::NoMemory,
            SqlRefusal::Fault(site) => ResolveError::Fault(site),
        }
    }
}
