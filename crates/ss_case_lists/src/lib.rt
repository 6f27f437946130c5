//! Catalogues, rows and entries of cases, and lists of entries replayed on the definitions.
//!
//! - `catalogs`: the accepted catalogue of a base, and the bodies that may be installed in it
//! - `rows`, `names`, `entries`: rows in JSON, the numbers of what a catalogue names, and entries from words
//! - `replay`: lists of entries on the definitions, computed, and what they leave
//!
//! Each call may answer that it is out of memory. Any other `Wrong` says in words what of a case can't be read, or where it
//! comes out differently. Reading takes time and memory linear in what is read, and a name is sought from the first definition
//! on, unless a page says otherwise.
#![tactic(auto)]

mod catalogs;
mod entries;
mod names;
mod replay;
mod rows;

pub use catalogs::{catalog_of, catalog_of_lines, catalog_with_bodies};
pub use entries::{Asker, entry_of, number_of};
pub use names::{procedure_number, stream_number, table_number, window_number};
pub use replay::{outcome_words, replayed};
pub use rows::batches_in;
