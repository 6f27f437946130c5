//! Typed trees of SQL texts: what a typer makes of a statement, a query or a condition, and what an engine runs.
//!
//! - `typed`: the trees, with numbers in place of names
//! - `copies`: their exact copies
//!
//! `specs/WellTyped.antt` says what it is for a typed statement, query and condition to be well typed, where the
//! columns of the sources, of the targets and of the parameters are given. The typing calls give no other trees,
//! and an engine that runs typed trees may take it as a premise.
//!
//! The crate stands apart from tokens and plain trees (`ss_sql_lex`), since what a catalogue means is said with typed trees
//! alone: a change of how texts are read is none of what they mean.
//!
//! Every call that takes `alloc` may answer `NoMemory`.
#![tactic(auto)]

mod copies;
mod typed;

pub use copies::{copy_expr, copy_test};
pub use typed::{
    BinaryOp, Cmp, ColAt, Condition, Expr, Joined, OrderBy, Query, SelectItem, SetTo, SourceId,
    Statement, Target, UnaryOp,
};
