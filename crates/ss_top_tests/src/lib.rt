//! Tests of `ss_top` that no case file can say: sources and sinks that fail, an input at its limit of bytes, lists that are full,
//! stores, and executions at the same time. Inputs with what is printed for them are case files of `ss_cases`.
//!
//! The crate has tests alone, since a crate with tests is proved twice:
//!
//! - `scripts`: what the tables of faults and of crashes run, and when a prefix of it was recovered
//! - `faults`: a source, a sink and a disk that fail, one call of a run after another; sinks that are full
//! - `edges`: an input at its limit of bytes, and one of a byte more
//! - `full`: lists that have as many entries as they may
//! - `restarts`: disks that fail, again and again, and are opened again
//! - `stores`: runs that go on from a store, what a crash leaves in each call of a run, stores that are damaged
//! - `older`: stores of the older forms, each moment of their renewal, and installs on them
//! - `gates`: an execution that is held until another one is over, which only threads can do
#![tactic(auto)]

#[cfg(test)]
mod tests;
