//! What a database is and what an entry does to it, computed as the definitions say.
//!
//! The contracts are the model's own definitions, of `Contents`, `Statements`, `Bodies` and `Database`. The functions
//! are no part of the engine: they let a person try examples on the definitions, and the engine on the same ones. They
//! are total as the definitions are: past the last table, window or stream there is nothing to see, and nothing to
//! change.
//!
//! - `table`: the rows of one table; `contents`: what executions read and write, and what they are given
//! - `stored_rows`: what SQL sees and changes of a table; `windows`: what it sees of a window
//! - `queries`: the rows of a query; `edits`: UPDATE and DELETE; `effects`: what a statement makes of tables, or stages
//! - `statements`: whole statements; `triggers`: how windows move, and the triggers that this sets off
//! - `bodies`: what a procedure's body does; `entries`: databases, and what an entry does to one
//! - `lists`: lists, read and changed at an index
//!
//! The program `ss_model_cases` runs all of this on lists of entries.
//!
//! Every call that takes `alloc` may answer that it is out of memory in place of its answer. Each call copies what it
//! needs, so it costs time linear in the values that it reads, unless its page says otherwise. A number that would leave
//! its machine type is answered as out of memory too: no list in memory is that long.
#![tactic(auto)]

pub mod bodies;
mod contents;
mod edits;
mod effects;
pub mod entries;
mod lists;
mod queries;
mod statements;
mod stored_rows;
mod table;
mod triggers;
mod windows;

pub use contents::{Contents, Context, Execution};
pub use entries::apply;
pub use statements::{context_query, execute_statement};
pub use table::{Entry, Table};
pub use triggers::{WINDOW_UNIT_LIMIT, close_unit, run_stream_triggers};
pub use windows::visible_rows;
