//! Statements and queries, run on the shard that holds their rows.
//!
//! `run_statement` and `query_shard` are what an execution calls. Both see a shard as a source of rows (`ShardRows`), which
//! passes over the rows that the execution doesn't see. A `Plan` says how the rows are found that may pass WHERE: by a walk
//! over the table, by their key, or by a range of one of the table's indexes.
//!
//! Whatever the plan is, the same rows pass in the same order, or the same test aborts. Only the front of WHERE is looked
//! at for a plan: its conjuncts from the left, as far as each compares columns, literals and parameters alone. None of
//! these can abort, so a row that fails one of them fails WHERE, whatever stands behind. A row that is found is tested by
//! the whole WHERE, as in a walk. A JOIN walks.
//!
//! - `statement`: the statements; `insert`, `update`, `delete`: their changes of rows; `insert_values`: the row of VALUES
//! - `chosen_rows`: the rows that UPDATE and DELETE choose; `passing`: their slots
//! - `query`: queries over the rows that an execution sees
//! - `inputs`: the rows at hand, of batches and emits; `batches`: batches lent from where they stand
//! - `visible`: which rows of a table an execution sees, in the order of their keys; `listed`: rows by their number;
//!   `visible_rows`: all these as the sources of a query
//! - `bounds`: by what the front of WHERE bounds a column; `plan`: the plan for a WHERE
//! - `scan`: rows by a walk; `key`: by a key; `range`: by a range of an index, in the order of their keys (`ordered`);
//!   `found`: what was found by a key or a range, as a source; `found_slots`: the slots of what a plan finds
//! - `laws`: why what a plan finds is enough
//!
//! Every call whose error is or has `NoMemory` may answer that in place of any other answer, and a call costs time linear in
//! what it is given, unless its page says otherwise. Where a call's page says how it aborts, it aborts nowhere else.
//!
//! # Promises
//!
//! - `query_shard` and `run_statement` are exactly the model's queries and statements (`ok`), abort for abort
//!   (`stops`), over tables, windows, batches and the rows of an emit. Both need the tables and windows of the
//!   catalogue (`HasTables`, `HasWindows`), and that each table which is split is split by a column of its key
//!   (`SplitByKeys`): the model tells by its key whether an execution sees a row, and this crate by the row.
//! - `plan_of` is exactly the plan that its page says. `slots_of` gives the slots of what a plan finds, and none is
//!   missing of a row that may pass (`ok`).
//! - A row that fails the front of WHERE fails WHERE, which doesn't abort on it (`the_front_decides`); so what a plan
//!   finds is enough (`found_rows_are_enough`).
#![tactic(auto)]

mod batches;
mod bounds;
mod chosen_rows;
mod delete;
mod found;
mod found_slots;
mod inputs;
mod insert;
mod insert_values;
mod key;
mod laws;
mod listed;
mod ordered;
mod passing;
mod plan;
mod query;
mod range;
mod scan;
mod statement;
mod update;
mod visible;
mod visible_rows;

pub use batches::Batches;
pub use bounds::{RangeEnd, Side, first_bound};
pub use found_slots::slots_of;
pub use inputs::Inputs;
pub use laws::{found_rows_are_enough, the_front_decides};
pub use plan::{Plan, plan_of, planned_positions, planned_rows, rows_by_plan};
pub use query::query_shard;
pub use statement::{Wrote, run_statement};
