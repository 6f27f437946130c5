//! Tests of the commit log: two threads that add to one list and look at it.
//!
//! The crate has tests alone:
//!
//! - `catalog`: a workflow of one step, a call beside it, and what the clients of the test ask for
//! - `clients`: what each client does on a thread of its own
//! - `two_threads`: the test
#![tactic(auto)]

#[cfg(test)]
mod tests;
