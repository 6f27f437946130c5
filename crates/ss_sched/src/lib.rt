//! The scheduler of a partition: what waits, which procedures are ready, and which one runs next.
//!
//! Nothing here runs an entry or changes a database; `ss_engine` does, and `ss_run` on one thread. Either finds its next
//! step in two ways: an [`Inbox`] holds hints, which name procedures that may be ready, ahead of the jobs of clients; and
//! settling takes the ready procedure of least rank until none is ready.
//!
//! - `inbox`: the hints and jobs that wait
//! - `wake`: the procedures that an entry may make ready, each of which gets a hint
//! - `ready`: whether a procedure is ready
//! - `rank`: the longest path from the border to each procedure
//! - `settle`: the next procedure to run when settling
//!
//! Procedures and streams are named by their numbers in the catalogue. Only `Inbox::new` takes memory; all other calls
//! cost no more than a look at each input and each step of each procedure, unless their page says otherwise.
//!
//! # Promises
//!
//! - `ready`: the model's readiness, on each database with these counts of batches (`HasProgress`). The counts are all
//!   that the program looks at.
//! - `wake_list`: exactly the model's `wakes`. The law `ready_is_woken` of `ss_model_laws` says that a procedure which
//!   an entry makes ready is one of these, or the entry's own.
//! - `Ranks::of`: the model's ranks (`AreRanks`). `next_ranked` and `next_settled`: exactly the model's `next_settled`
//!   (`next`).
//! - `Inbox`: `take` gives the first hint where one waits, else the first job (`Taken`); `put_hint` leaves a hint that
//!   waits already where it is (`with_hint`).
#![tactic(auto)]

mod inbox;
mod rank;
pub mod ready;
mod settle;
mod wake;

pub use inbox::{Inbox, Task};
pub use rank::Ranks;
pub use settle::{next_ranked, next_settled};
pub use wake::wake_list;
