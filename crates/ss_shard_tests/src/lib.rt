//! A shard that two threads hand to and fro.
//!
//! The contracts of `ss_shard` and `ss_party` say what a shard stands for then. That threads wake each other, no contract says;
//! this test shows it. What else is tried of shards are cases of `ss_execution_cases`.
//!
//! The crate has tests alone:
//!
//! - `catalog`: the catalogue of the test
//! - `two_threads`: the test
#![tactic(auto)]

#[cfg(test)]
mod tests;
