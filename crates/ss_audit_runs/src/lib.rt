//! That an audit answers yes of what a run printed; no code.
//!
//! - `laws`: the contract of a function that does nothing, on any kind of disk. `proofs/worked/NoRequest` meets its premises
//!   at a run that nobody asked anything
//!
//! `specs/Runs` states it, of a whole run in the words of `IsWholeRun` of `ss_headline`.
//!
//! # Promises
//!
//! - A whole run that began on an empty disk, and printed its report, is answered yes by an audit of its lines, with as many
//!   entries as its list has, whether it made a strong store or a weak one (`whole_runs_are_right`). So each report that a
//!   run prints there at status 0 is: its contract says that the run is whole, and that each line was printed so that it is
//!   read as what it says.
//!
//! # Choices
//!
//! - The disk has to tell that it was empty, because a run on a store begins at the place and database that this stands for,
//!   and an audit at the first place and at no row.
//! - That the report was printed so that it is read again is a premise of its own (`IsReadableReport`) beside the run's,
//!   because a show is a whole run too, and prints one line in place of a report.
#![tactic(auto)]

mod laws;

pub use laws::whole_runs_are_right;
