//! The machine over events: what threads, the commit log and the disk may do to one store between two moments at which
//! others can see it, as sixteen events on one value.
//!
//! Nothing here locks, waits or writes. A [`Core`] holds the list of executions, who holds each partition and how much of
//! the list is known of it, and counts for what is on the disk. An event changes it, or cannot happen; and the theorem,
//! which is the contract of [`run_events`], says what holds after any events in any order, crashes among them. No
//! contract ties the threads of an engine to these events: this is where the argument of interleavings and crashes stands
//! whole, for a reader.
//!
//! - `machine`: the core, its events, and why one is refused; `opening`: a core before any event
//! - `transition`: one event, told apart by its kind; of each kind `hands`, `commits`, `groups`, `generations` and `faults`
//! - `run`: events in order
//! - `replayed`: the database after a list; `outcomes`: equal outcomes; `copies`: exact copies of events
//! - `laws`: which counts a crash leaves
//!
//! In `specs/`, each file on those before it: `Counts` (what is on the disk), `Commits` (when an entry may join the list),
//! `Machine` (the table of events), `Theorem` (what holds of each core that events lead to). `Invariant` is what the proof
//! carries along, and no contract cites it.
//!
//! Source: serial executions whose entries are logged as commands and replayed after a crash, as in H-Store (Stonebraker et
//! al., The End of an Architectural Era, VLDB 2007) and its command log (Malviya et al., Rethinking Main Memory OLTP
//! Recovery, ICDE 2014); S-Store (Meehan et al., PVLDB 8, 2015), "Recovery Mechanisms". The two halves of the disk and the
//! gate before a receipt are this engine's own.
#![tactic(auto)]

mod commits;
mod copies;
mod faults;
mod generations;
mod groups;
mod hands;
mod laws;
mod machine;
mod opening;
mod outcomes;
mod replayed;
mod run;
mod transition;

pub use laws::crashes_leave_counts;
pub use machine::{Core, Event, Half, Stage, StepError};
pub use opening::opened;
pub use run::run_events;
pub use transition::step;
