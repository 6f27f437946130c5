//! Resolves an outline to a catalogue: names become numbers, and SQL texts become typed trees.
//!
//! - `resolve`: the call `resolve`, which gives the catalogue of an outline, or the first fault in its SQL
//! - `references`: numbers for names, in what triggers wait for and in what procedures take and touch
//! - `definitions`: tables, streams and windows with numbers for the names in them
//! - `outline_index`: `OutlineIndex`, an outline whose names are indexed
//! - `scopes`, `texts`: the names in scope of a SQL text, and the typed tree of the text in that scope
//! - `in_order`: `ItemReader`, how the items of a list are read in order, up to the first fault
//! - `insert_steps`: `Body`, a procedure whose own names are indexed; `steps`: the steps of a body
//! - `procedures`, `triggers`: procedures and triggers with their SQL
//! - `fault`: where SQL is refused, and why; `refusals`: the refusal of a text as one of the step and of the procedure
//!   or trigger that has it
//!
//! A name that isn't there gets the number 0: the calls are for outlines without unknown names (`ss_catalog_names`).
//!
//! Every call that takes `alloc` may answer `NoMemory`, which says nothing about the outline, and takes time linear in
//! what it is given, as far as hashes spread the names, unless its page says otherwise.
#![tactic(auto)]

mod definitions;
mod fault;
mod in_order;
mod insert_steps;
mod outline_index;
mod procedures;
mod references;
mod refusals;
pub mod resolve;
mod scopes;
mod steps;
mod texts;
mod triggers;

pub use fault::{BodyFault, ResolveError, SqlFault, SqlRefusal, SqlSite};
