//! The laws of nests: each is the contract of a function that does nothing.
//!
//! A nest is several procedures of a workflow as one. What it means, and the catalogue with nests, is in
//! `ss_model/specs/Nests`; here is proved that it runs as its members do, one after another, and that the
//! catalogue with nests is accepted. `proofs/worked/Nest` meets the premises, so that no law holds only
//! because nothing meets them.
//!
//! - `steps`: a nest runs as its members do, stands where its first member stood, and has no body but its own
//! - `accepted`: the catalogue with nests is accepted
#![tactic(auto)]

mod accepted;
mod steps;

pub use accepted::nested_is_accepted;
pub use steps::{
    nest_steps_run_members, nests_keep_their_bodies, nests_run_as_members, nests_stand_there,
};
