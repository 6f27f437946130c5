//! Names, each of which is sought by its hash.
//!
//! - `named`: what has a name
//! - `set`: names without repeats
//! - `index`: a list of names, in which each has its first position
//!
//! A set or an index borrows its names' bytes. Making one takes time and memory linear in the names, and a look-up
//! takes the time of a hash, as far as hashes spread the names; the hasher's seed is fixed. Any call that allocates may
//! answer `NoMemory` instead.
#![tactic(auto)]

mod index;
mod named;
mod set;

pub use index::NameIndex;
pub use named::Named;
pub use set::{NameSet, add_all, names_of};
