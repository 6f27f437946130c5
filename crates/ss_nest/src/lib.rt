//! Reads a catalogue with its nests from its JSON value, or reports the first thing that is wrong with it.
//!
//! A nest is several procedures of a workflow as one: one transaction, one execution, one entry of the list. The section
//! `nests` names their members; without it a value reads as `ss_catalog` reads it. What is read has each nest as one
//! procedure, so that nothing behind this crate joins anything (`specs/Nests` of `ss_model` says what a nest means).
//!
//! - `read`: `read_nested`, the catalogue of a value, with the checks in their order
//! - `bodies`: `read_nested_body` and `nested_body_of`, the body of a value and of a text, for a procedure that is no nest
//! - `error`: `NestError`, why a value is refused
//! - `outline`: the section as it is written; `without`: the value without it
//! - `members`, `twice`, `joinable`: which procedures are members, what stands twice, and which nests can't be joined
//! - `joined`: the catalogue with its nests joined; `moved`: the steps of a member as steps of its nest
//! - `laws`: a value has one answer, as a catalogue and as a body
//!
//! Every call that takes `alloc` may answer `NoMemory`, which says nothing about the value.
#![tactic(auto)]

mod bodies;
mod error;
mod joinable;
mod joined;
mod laws;
mod members;
mod moved;
mod outline;
mod read;
mod twice;
mod without;

pub use bodies::{nested_body_of, read_nested_body};
pub use error::NestError;
pub use laws::{a_nested_body_has_one_answer, a_nested_value_has_one_answer};
pub use outline::NestOutline;
pub use read::read_nested;
