//! The checks of a catalogue whose names are resolved and whose SQL is typed.
//!
//! Each check is a public function over the whole catalogue. It answers the number of the first procedure, trigger,
//! stream or window that it refuses, or the site of the first SQL, and None where it refuses nothing. They are meant to
//! run in this order:
//!
//! - `cycles`: workflows have no cycle; `cascades`: triggers of windows have no cycle
//! - `locality`: SQL names only the tables that its procedure's touch set allows, and of a split table under a touch set
//!   by argument only the rows of that argument (`allowed`, `conjuncts`)
//! - `stream_ends`: streams have the right ends, and the inputs of a procedure are of one workflow (`tallies`, `workflows`)
//! - `owners`: the owner of a window is a streaming procedure, and SQL that names the window runs in it alone
//!
//! The checks share `graph`, a graph by its edges and what is reached along them, and `procedures`, what procedures are,
//! emit to and own. `laws` says what holds of a catalogue that no check refuses, in the words of an accepted catalogue.
//!
//! Every call that takes `alloc` may answer `NoMemory`, which says nothing about the catalogue. The page of each check
//! says what it costs.
#![tactic(auto)]

mod allowed;
mod cascades;
mod conjuncts;
mod cycles;
mod graph;
mod laws;
mod locality;
mod owners;
mod procedures;
mod stream_ends;
mod tallies;
mod workflows;

pub use cascades::trigger_cycle;
pub use cycles::workflow_cycle;
pub use laws::{
    acyclic_workflows_have_levels, unrefused_sql_is_local, unrefused_streams_end_well,
    unrefused_windows_are_owned, unreturning_batches_go_forward, unreturning_triggers_have_ranks,
};
pub use locality::{Site, refused_site};
pub use owners::refused_window;
pub use stream_ends::refused_stream;
