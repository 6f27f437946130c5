//! Turns: an execution on the parts in hand, and its commit.
//!
//! Who has a hand runs one entry on its shard, commits the entry in the log under the marks in hand, and then makes the shard's
//! changes final; where it has no place in the list, they are taken back. Who takes the hand out of bays and puts it back is
//! not seen here, nor who asked: that is `ss_engine`, which has a job served by `execute_asked` and a hint followed by
//! `execute_step`; at the close, with all partitions in hand, `ss_settle` calls the second.
//!
//! What is touched here is the shard and the marks in hand, which are lent, and the commit log's lock: a commit takes it once, a step
//! once more for each of its inputs, and it is let go before anything runs. Bays, inboxes, slots and the disk are not seen here.
//!
//! - `execution`: an entry that a client asks for, or the next step of a procedure, on the parts in hand; it calls the others
//! - `running`: its run, its commit and its end; `asking`: the run's commit where a client asked for it, with the client's mark
//! - `stepping`: the batches of a step, and its run on them
//! - `works`: what each execution of an engine is given
//!
//! In `specs/`: `Runs` (a run that waits for its end, and behind it), `Commits`, `Stepping`, `Executed`.
//!
//! # Promises
//!
//! - `execute_asked` (`ran`: `RanAsked`): the entry stands in the list behind all that each mark knew, and all marks know the list that
//!   ends with it; or there was no memory, or the list is full, and nothing has changed. Hand and mark are lent.
//! - `execute_step` (`stepped`: `IsStepped`): the same of the next step of a procedure; where some input has no batch for it,
//!   that is what one of the marks saw (`not_ready`).
//! - Whatever came of it, the same partitions are in hand (`in_hand`: `StaysInHand`), so each bay gets back what it needs.
//!
//! # Why an execution may be committed
//!
//! A hand has a shard with the parts of some database with which each of its marks agrees. `execute_asked` runs the
//! entry on that shard and commits it under the marks. What the commit needs (`IsRight`) is one law of `ss_proc`: what ran on
//! each database that the shard stood for ran on each of which it held the parts that are touched (`runs_on_parts`). So
//! the outcome is the model's on every database that agrees with the marks. Behind it the shard holds its parts of the
//! database after the list that ends with the entry, which the marks then know. A step is the same with its batches, for which one
//! of the marks looks in the log.
#![tactic(auto)]

mod asking;
mod execution;
mod running;
mod stepping;
mod works;

pub use execution::{execute_asked, execute_step};
pub use works::Works;
