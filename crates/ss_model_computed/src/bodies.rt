//! What a procedure's body does to tables and windows, what it emits, and what it replies.
//!
//! - `steps`: the steps, one after another, and those of a `for_each`
//! - `conditions`: the test of an `abort_if`
//! - `emit`: rows join a batch, and the stream's triggers run
//! - `limits`: batches and replies of at most 1,024 rows
//! - `open_units`: the owner's windows of batches, which close after the steps
//! - `runs`: a whole body, and what it leaves

mod conditions;
mod emit;
pub(crate) mod limits;
mod open_units;
pub mod runs;
mod steps;
