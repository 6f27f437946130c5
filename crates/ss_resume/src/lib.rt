//! What stays of a run where its disk is opened again behind a fault, and what joins it there.
//!
//! A fault of the disk ends an incarnation of a run. The next one goes on from what the disk then has, which may be less than
//! the list that the run has come to. So the list is cut at the place of the opening, and of each client's answers stay the
//! first ones that tell of entries below it. The client goes on from the first request whose answer doesn't stay, and what
//! runs from there on joins what stayed.
//!
//! Nothing here touches a disk or an engine: it is the same whatever ran and why it ended.
//!
//! - `past`: `Past`, the list, the answers and the receipted count that a run has come to
//! - `staying`: which answers stay, and how many of a client's
//! - `joining`: what stays with what follows it, of one list and of the answers of all clients
#![tactic(auto)]

mod joining;
mod past;
mod staying;

pub use past::Past;
