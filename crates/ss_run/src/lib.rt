//! Runs requests and the steps that they set off, one after another, on one database.
//!
//! [`run_requests`] is the whole run on the empty database, and [`run_from`] the same on any whole one, which is the
//! opening. It gives a [`Session`]: the list, the answers to each client, and the database. On the way, a [`Store`] has
//! the database with the list that led to it from the opening on, and each call here keeps the two in agreement, whatever
//! it answers. Contracts name the opening by an [`Origin`], since no code holds it. From one entry up to the run:
//!
//! - `entry`: runs an entry, puts it at the end of the list, and only then commits it
//! - `steps`: runs a ready procedure on its next batch
//! - `hints`: runs the steps that hints name, until no hint waits
//! - `request`: runs one request, with all that it sets off
//! - `settle`: runs steps until no procedure is ready
//! - `replies`: the answers to each client so far
//! - `session`: runs all requests, and then settles
//! - `origin`: the database on which a list begins, for contracts alone
//!
//! Every call that takes `alloc` may answer that it is out of memory, by `NoMemory` or by None. The entry that it was
//! running is then rolled back and not in the list. A call costs what its executions cost, and what its page adds.
//!
//! # Promises
//!
//! `run_from`, and so `run_requests`: its list replays (`ok`) and has the orders (`orders`); it has what clients asked
//! for in the order of the input (`in_order`), and of each client just what its answers name (`answered`); at the end
//! nothing is left to run (`drained`), and the database is whole (`whole`) and the one after the list (`stands`).
//!
//! # Choices
//!
//! The program doesn't run this crate: `ss_engine` runs at any number of partitions. It stays because it is the
//! plainest thing with such a promise. Its list has the requests of all clients in the order of the input, which
//! threads don't keep.
#![tactic(auto)]

mod entry;
mod hints;
mod origin;
mod replies;
mod request;
mod session;
pub mod settle;
mod steps;

pub use entry::{Store, answer_entry, list_entry};
pub use hints::{put_hints, run_hints};
pub use origin::Origin;
pub use replies::{CLIENTS, Replies};
pub use request::pump;
pub use session::{Session, run_from, run_requests};
pub use steps::run_step;
