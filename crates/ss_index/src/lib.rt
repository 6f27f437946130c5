//! Indexes: the slots of a table's rows by the values of some columns.
//!
//! A *pair* is a row's values in an index's columns, with the row's slot. Contracts see an `Index` as how often each
//! pair occurs in it, so a pair that is added and dropped leaves the very same index.
//!
//! - `index_entry`: pairs, as an index holds them
//! - `search`: how pairs compare to each other, to a row's pair, and to the ends of a range
//! - `part`: the pairs of one part, over entries in chunks; `parts`: those of the parts beside the first
//! - `merge`: the entries of several parts in one order
//! - `index`: one index, of one part or of several
//! - `table_indexes`: the indexes of one table, each of whose calls changes every one, or none
//!
//! What adds a pair, what lists slots, and what takes in a part may answer `NoMemory`; what drops a pair, and what gives
//! a part back, takes no memory.
#![tactic(auto)]

mod index;
mod index_entry;
mod merge;
mod part;
mod parts;
mod search;
mod table_indexes;

pub use index::Index;
pub use table_indexes::Indexes;
