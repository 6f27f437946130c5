//! Fronts: what a crash leaves of a run's list, by how its store is had again.
//!
//! A strong store has the list of all executions, and what a crash leaves stands for a first part of it. A weak store has what
//! clients asked for, the requests (calls, pushes and installs), behind an image; what a crash leaves is read as a database of
//! the run's history and as the requests from there on, up to some place. `FrontStands` is either, by the run's `Recovery`,
//! and the laws here are of both: so whoever writes a log, closes an engine or tells a headline says it once.
//!
//! - `specs/WeakReads`, `specs/WeakFronts`: what a weak store is read as, and fronts of a history
//! - `specs/Fronts`: fronts in both modes, what a generation has of a list, and how much files have at least
//! - `specs/Laws`: how fronts go on; `specs/WeakLaws`: what a weak store stands for, and what recovering a front comes to
//! - `laws`: that this is so. Each is the contract of a function that does nothing; `proofs/worked` meets their premises
//!
//! # Choices
//!
//! - The history of a weak run begins at an *origin*: the database and the place that its store is read as, and the list that
//!   the entries there led to. The run's own list stands behind that one, so that one position tells of entries of both.
//! - How much files have at least (`AtLeast`) is told in strong mode by executions, and in weak mode by requests, since
//!   no record says how many steps ran behind the last of these.
//! - Fronts are of generations of both forms, the new one and the older ones without bodies, and no law here asks which it is:
//!   what is read is read alike, and a generation that has an install in the older form is none that files stand for. What may
//!   be written to a log is no matter of what it has of a list; a log knows its form where its disk tells nothing as well.
#![tactic(auto)]

mod laws;

pub use laws::{
    checkpoints_hold, checkpoints_keep_fronts, flushes_keep_fronts, fronts_grow, fronts_recover,
    held_fronts_stand, weak_fronts_from_each, weakly_stands_for_one,
};
