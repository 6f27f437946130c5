//! What the names of a SQL text may refer to, and why a tree is refused.

use ss_sql_trees::SourceId;
use ss_value::{Name, NoMemory, Schema, Seq};

/// The names in scope of a SQL text.
#[derive(Drop)]
pub struct Scope {
    /// What queries may read.
    pub sources: Seq<Named>,
    /// What statements may change: INSERT tables and windows, UPDATE and DELETE only tables.
    pub targets: Seq<Named>,
    /// The parameters, by position.
    pub params: Schema,
    /// The columns of the stream that a query is emitted to; None elsewhere.
    pub out: Option<Schema>,
}

/// A table, a window or a list of rows that has a name.
#[derive(Drop)]
pub struct Named {
    /// Its name.
    pub name: Name,
    /// Which one it is.
    pub source: SourceId,
    /// Its columns, 256 at most.
    pub schema: Schema,
    /// The positions of a table's key columns; empty elsewhere.
    pub key: Seq<u8>,
}

/// Why a tree is refused. All but `NoMemory` have the offset of the fault. S5 to S9 are the codes by which refusals are
/// reported.
#[derive(Clone, Copy, Debug, PartialEq, Eq, Drop)]
pub enum TypeError {
    /// Out of memory for the typed tree.
    NoMemory,
    /// S5: a name that refers to nothing in scope, or to two columns.
    UnknownName(usize),
    /// S6: an expression of another type than its context needs.
    WrongType(usize),
    /// S7: SET of a key column.
    KeyIsSet(usize),
    /// S8: a number of values or items that is not allowed, a second SET of one column, or a number behind ORDER BY that is
    /// no item's.
    WrongCount(usize),
    /// S9: a column that is not grouped, in an item that is no aggregate.
    NotAggregated(usize),
}

impl From<NoMemory> for TypeError {
    ghost use Rattle.std.specs.Prelude.{◌≡◌};
    ghost use Rattle.ss_sql_type.specs.declared.scope.TypeError.TheVariants.{NoMemory as OutOfMemory};

    ghost from_gives = { λ _ e. e ≡ OutOfMemory };

    fn from(_: NoMemory) -> TypeError {
        TypeError::NoMemory
    }
}
