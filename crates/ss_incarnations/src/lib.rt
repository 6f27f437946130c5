//! The headline over restarts, on the definitions alone: a run on a strong store that goes on where its disk fails and is
//! opened again.
//!
//! A run over restarts is a list of incarnations, each from an opening of the disk to the close of the engine on it. Each has
//! a list of its own, and this takes the place of the printed one at its moments: wherever a crash falls, it leaves a front
//! of the list of the incarnation in which it falls. Each later list begins with a front of the one before that holds every
//! receipted execution, and the last is printed.
//!
//! - `specs/Incarnations`: what incarnations are, and what a crash leaves at each one's moments
//! - `specs/Openings`: a store that is opened only at a later try
//! - `specs/Reopening`: what a run has come to (`Lived`), and how it goes on where the disk is opened again (`LivesOn`)
//! - `specs/Runs`: sessions and runs over incarnations
//! - `specs/Pushes`: the numbers of the pushes that a source made, and of those that were accepted
//! - `laws`: that these go on from each other and come to a run. Each is the contract of a function that does nothing;
//!   `proofs/worked` meets their premises
//!
//! # Choices
//!
//! - Incarnations stand with the last one first, so that one more is a `∷`, and nothing is proved anew of those before.
//! - All that is said of a run over restarts presumes an honest disk: what a later opening finds is what reads give, and on
//!   another disk this may be anything. So the top call says of a run that opened its disk once what `ss_headline` says, with
//!   no premise more.
//! - An incarnation has a count of what was receipted when it ended, because that is what the next one's front has to hold,
//!   and no clause of a later disk tells it.
//! - Of a list over restarts the log is known to end as the last incarnation's own entries do (`EndsWithOwn`), since a later
//!   incarnation's log tells what it wrote itself. The front, of the list before, was there already.
#![tactic(auto)]

mod laws;

pub use laws::{
    incarnations_go_on, opened_at_last, pushes_are_accepted, runs_over_hold_from_each,
    runs_over_restarts,
};
