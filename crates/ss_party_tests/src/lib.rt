//! Tests of the bays: what the calls give on one thread, and that two threads lose and double nothing.
//!
//! The contracts of `ss_party` say what comes out of a bay. That a full bay is found full, that an empty one is found
//! empty, and that a thread that waits is woken, no contract says; these tests show it.
//!
//! The crate has tests alone:
//!
//! - `counters`: what the bays of the tests have; `one_thread`, `two_threads`: the tests
#![tactic(auto)]

#[cfg(test)]
mod tests;
