//! Tables with their indexes, of several parts: how they take in those of another part, and give them back.
//!
//! - `indexed`: one table with its indexes
//! - `tables`: all tables, one by one; `lists`: the same of lists

mod indexed;
mod lists;
mod tables;

pub use lists::{absorb_lists, release_lists};
