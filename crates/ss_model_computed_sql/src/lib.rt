//! Expressions and queries, evaluated as plainly as their definitions read.
//!
//! The contracts of these functions are the definitions of the model's `Expressions` and `Queries`. The functions
//! copy what they need, walk lists from their first item, and keep nothing between calls. They are no part of the
//! engine: they let a person try examples on the definitions, and a fast evaluation is compared with them. They are
//! total as the definitions are: a column past the end of a row is 0, and a text counts as 0 where a number is asked
//! for.
//!
//! - `columns`: the values in columns
//! - `expressions`: expressions as values and as tests
//! - `queries`: queries in phases, each in a module of its own: `join`, `filter`, `groups`, `items` (with `extreme`),
//!   `sort` and `limit`
//!
//! Every call that takes `alloc` may answer that it is out of memory in place of its answer, and costs time linear in
//! the values that it is given, unless its page says otherwise. A number that would leave its machine type is answered
//! as out of memory too: it takes more rows than any memory holds.
#![tactic(auto)]

pub mod columns;
mod expressions;
pub mod queries;

pub use columns::{column_or, source_column, source_column_or};
pub use expressions::{evaluate, holds};
pub use queries::{query_rows, where_passes};
