//! Values, rows and the lists that hold them: the types on which every other crate stands.
//!
//! Contracts see each type here as the plain mathematical value that a reader has in mind: a `Seq` as its
//! list, a `Boxed` as what it holds, a `Text` or a `Name` as its bytes, a `PartSet` as the number with its
//! bits. So the types of the program are the types of the definitions, and "equal" means equal.
//!
//! - `seq`, `reserved`: lists, and lists whose spare room a contract can speak of
//! - `boxed`: a box, for types that hold themselves
//! - `text`, `value`, `schema`: texts and names, values and rows, columns; `chars`: where the bytes of a text stand
//! - `order`: the order of values and rows; `laws`: what holds of it
//! - `partition`: the partition of a value
//! - `copies`: exact copies at any depth
//! - `sets`: small sets of partitions and of procedures
//!
//! Every call that takes `alloc` may answer `NoMemory` in place of its answer. A call is constant in time unless its
//! comment says otherwise.
#![tactic(auto)]

mod boxed;
mod chars;
mod copies;
mod laws;
mod order;
mod partition;
mod reserved;
mod schema;
mod seq;
mod sets;
mod text;
mod value;

pub use boxed::Boxed;
pub use copies::Copies;
pub use laws::{row_order_is_total, value_order_is_total};
pub use order::{compare, compare_rows};
pub use partition::value_partition;
pub use reserved::Reserved;
pub use schema::{ColType, Column, Schema, fits, is_of};
pub use seq::Seq;
pub use sets::{PartSet, ProcSet};
use std::alloc::{AllocError, AllocFailed};
pub use text::{Name, Text, ValueError, name_of, text_of};
pub use value::{Row, Rows, Slot, Value, copy_row};

/// Out of memory: the one answer that may come in place of any other.
#[derive(Clone, Copy, Debug, PartialEq, Eq, Drop)]
pub struct NoMemory;

impl From<AllocError> for NoMemory {
    fn from(_refused: AllocError) -> NoMemory {
        NoMemory
    }
}

impl<T: Drop> From<AllocFailed<T>> for NoMemory {
    fn from(_refused: AllocFailed<T>) -> NoMemory {
        NoMemory
    }
}

impl<T: Drop> From<(NoMemory, T)> for NoMemory {
    fn from(_refused: (NoMemory, T)) -> NoMemory {
        NoMemory
    }
}

/// A call to the outside (input, output or disk) that failed.
#[derive(Clone, Copy, Debug, PartialEq, Eq, Drop)]
pub struct Failed;

/// What a window counts.
///
/// Source: S-Store (Meehan et al., PVLDB 8, 2015), section 2, "Windows": tuple-based and batch-based windows.
#[derive(Clone, Copy, Debug, PartialEq, Eq, Drop)]
pub enum Unit {
    /// Each row is a unit.
    Rows,
    /// All rows that one execution of the owner inserts are a unit.
    Batches,
}
