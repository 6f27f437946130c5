//! A catalogue as it is written in JSON, read into an outline: names aren't looked up, and SQL isn't parsed.
//!
//! - `types`: `Outline` and its parts, which are what a catalogue says; `named`: the names of its elements
//! - `tables`, `steps`, `procedures`: the readers of the sections, and `read_steps`, which reads a body alone; `read`:
//!   `read_outline`, which reads the whole
//! - `limits`: the counts that have limits
//!
//! Which names are duplicates, and which are unknown, is defined here (`specs/Twice`, `specs/Unknown`) and computed in
//! `ss_catalog_names`.
//!
//! Every call that takes `alloc` may answer `NoMemory`, which says nothing about the value, and takes time linear in
//! what it is given, unless its page says otherwise.
#![tactic(auto)]

mod limits;
mod named;
mod procedures;
mod read;
mod steps;
mod tables;
mod types;

pub use limits::{Counted, is_too_many_to_number, over_limit};
pub use read::read_outline;
pub use steps::read_steps;
pub use types::{
    GivenOutline, InnerOutline, Outline, PlacementOutline, ProcedureOutline, StepOutline,
    StreamOutline, TableOutline, TouchOutline, TriggerOutline, WindowOutline,
};
