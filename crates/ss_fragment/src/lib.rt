//! Fragments: the rows of one part of a table by key, whose changes can be rolled back without memory.
//!
//! A row stands in a *slot*, a number that it keeps until it is purged. A deleted row stays in its slot as a
//! *dead* one, out of sight, so that taking the delete back writes one cell.
//!
//! - `cell`: what a slot holds, and the steps on one cell
//! - `mark`: the prefix of a key as a number, by which most keys are compared without a look at their rows
//! - `search`: what a search looks for, and which marks stand before it
//! - `order`: all slots with a row, by key, in chunks
//! - `fragment`: the calls, over cells and their order; `fragment/links`: its searches and changes of the order
//!
//! Of a fragment's calls only `put_new` takes memory and may fail for want of it. The page of `Fragment` says what each
//! costs.
#![tactic(auto)]

mod cell;
mod fragment;
mod mark;
mod order;
mod search;

pub use fragment::{Fragment, Hint};
