//! The checks of the names in a catalogue's outline, before any SQL is read: no name is a duplicate, and each name in a
//! field names something.
//!
//! - `twice`: `name_twice`, the first duplicate name
//! - `unknown`: `name_unknown`, the first unknown name
//!
//! The definitions of both are in `ss_catalog_outline`. Names are looked up by hash, so each call takes time and memory
//! linear in the outline, as far as hashes spread the names. Every call that takes `alloc` may answer `NoMemory`, which
//! says nothing about the names.
#![tactic(auto)]

mod twice;
mod unknown;

pub use twice::{HasInnerNames, name_twice};
pub use unknown::name_unknown;
