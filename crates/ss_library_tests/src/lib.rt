//! Tests of the crates below the program: sources and sinks over readers and writers, backups, and reports that no case
//! makes.
//!
//! The libraries are proved, so these tests ask what no proof does: whether a call succeeds at all, and whether a clause
//! says what a person means. Expected values are decided by hand.
//!
//! The crate has tests alone, since a crate with tests is proved twice:
//!
//! - `lines`: one input through each source and sink, and what a caller can prove of it
//! - `report`: the report of a stop, and the summary of votes
//! - `upstream`: what a backup keeps and lets go, and where a client goes on
#![tactic(auto)]

#[cfg(test)]
mod tests;
