//! Lemmas on the types of the standard library, `Bool`, `Option`, `Result` and `List`, which more than one crate needs or
//! which speak of no type of this repository. The crate has no code; what the standard library's own lemmas say isn't
//! said again.
//!
//! - `Bools`: conjunctions, disjunctions, and tests of all numbers below one or of all items of a list.
//! - `Numbers`, `Orderings`: tests of numbers, and what a test of an ordering says.
//! - `Results`: options and results, case by case.
//! - `LoopItem`: the item at hand of a loop, and what comes before and behind it.
//! - `EachOf`: what holds of each item of a list; `Mapped`: a list whose items are changed one after another.
//! - `Counts`, `Filtered`, `Firsts`, `Positions`: how many items of a list pass a test, which, and the first of them.
//! - `PartitionPoint`: where a binary search ends.
#![tactic(auto)]
