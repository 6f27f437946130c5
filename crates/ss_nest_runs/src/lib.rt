//! That a nest of a catalogue that was read runs as its members do; no code.
//!
//! - `laws`: the contract of a function that does nothing
//!
//! `specs/Runs` states it, of what `read_nested` of `ss_nest` returns.
//!
//! # Promises
//!
//! - The catalogue that a value reads as without its nests is accepted, and what stands in its section of nests may be one each
//!   (`ReadNestsMayBe`). So the laws of `ss_nest_laws` hold of each catalogue that is read, with no premise left.
//! - In each database, an entry of such a nest comes to what its members come to, one after another, and none other stands between
//!   them (`ReadNestsRunMembers`).
//!
//! # Choices
//!
//! - It is a crate of its own because the laws of nests are about definitions, and stand below the reader; and what is read is a
//!   relation of the reader's.
#![tactic(auto)]

mod laws;

pub use laws::nests_that_are_read_run_as_members;
