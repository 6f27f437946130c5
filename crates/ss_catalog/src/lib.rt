//! Reads a catalogue, or a body for one of its procedures, from its JSON value, or reports the first thing that is wrong
//! with it.
//!
//! - `read`: `read_catalog`, the catalogue of a value
//! - `bodies`: `read_body` and `body_of`, the body of a value and of a text; `add_spare`, which adds one to be installed
//! - `error`: `CatalogError`, why a value is refused
//! - `outline_checks`: the outline of a value, and the checks of what is written, before any SQL is read
//! - `resolve`: the catalogue that an outline resolves to, and the text of a value; `own_texts`: the texts of its bodies
//! - `checks`: the checks of this catalogue
//! - `names`: the names that refusals report
//! - `laws`: a value has one answer, as a catalogue and as a body
//!
//! The checks run one after another, each over the whole catalogue, and the first refusal is reported. What passes them
//! all is accepted (`Accepted` of `ss_model`). The work is done in the crates `ss_catalog_*`; this crate puts it in order
//! and makes each refusal one of C1 to C10.
//!
//! Every call that takes `alloc` may answer `NoMemory`, which says nothing about the value.
#![tactic(auto)]

mod bodies;
mod checks;
mod error;
mod laws;
mod names;
mod outline_checks;
mod own_texts;
mod read;
mod resolve;

pub use bodies::{add_spare, body_of, read_body};
pub use error::{CatalogError, Counted, SqlFault, Word};
pub use laws::{a_body_has_one_answer, a_value_has_one_answer};
pub use read::{read_catalog, what_reads_is_accepted};
pub use resolve::text_of;
pub use ss_model::{Body, Catalog};
