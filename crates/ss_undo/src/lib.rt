//! Rolls changes of tables, their indexes and windows back, or makes them final, without memory.
//!
//! Each change of a table, and each unit that is staged in a window, is noted once it is made. Then either all of them
//! are rolled back, and tables and windows are as before the first; or they are committed, and what only a rollback would
//! need is freed: the slots of deleted rows, and the units that no slide can show again. Neither needs memory: a deleted
//! row stays in its slot until then, a replaced one in the note of its change, what was staged in a window is taken off
//! its end again, and the room for a note is made before the change. The indexes of the tables follow: the pairs of a
//! row are held as long as the row is, live or dead or in a note. A row that is put in place of one with the same pairs is
//! *amended*: these stay, and no index is touched, by the change, by its commit or by its rollback.
//!
//! - `undo`: `Undo`, the list of notes, with `commit` and `rollback`
//! - `change`: `Change`, the note of one change of a table or a window
//! - `completion`: what rolls one change back, and what makes it final
//! - `laws`: what holds of lists of changes; `index_laws`: what the indexes of a table hold, change by change
//!
//! Only `Undo::room` takes memory and may answer `NoMemory`.
#![tactic(auto)]

mod change;
mod completion;
mod index_laws;
mod laws;
mod undo;

pub use change::Change;
pub use index_laws::{
    changes_are_followed, changes_get_final, changes_go_back, hold_at_first, rows_are_there,
};
pub use laws::{
    a_note_more, a_staging_more, changes_complete, committed_at_first, one_table_changed,
    one_window_staged, stagings_complete,
};
pub use undo::Undo;
