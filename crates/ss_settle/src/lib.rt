//! Settling: the steps that an engine runs by itself at its close, with all partitions in one hand.
//!
//! Steps run until no procedure is ready, each of them the next one of the model's settling: of the ready procedures that of
//! least rank, then of least number. Who takes all partitions in one hand, and who closes the log behind the last step, is not
//! seen here: that is `ss_engine`.
//!
//! `Engine::close` calls `settle`; all threads of the session are done by then. It is lent the hand. What it touches besides is the commit
//! log's lock, which each look for what is ready takes once for all marks together and once for each partition, and each step as
//! `execute_step` of `ss_turns` does. There are no bays any more; inboxes, slots, receipts and the disk are not seen here.
//!
//! - `settling`: the steps, and how they ended; `ranking`: which ready procedure is the next one
//! - `gate`: what is told of each execution, of these steps too
//!
//! In `specs/`: `Members`, `Ranking` (the order of settling), `Wholes` (a list that may be whole), `Ready` (what looks find),
//! `Settlings` (how settling ends, and what it says of a list).
//!
//! # Promises
//!
//! - `settle` (`settled`: `SettledTo`): behind a list that may be whole no procedure is ready any more; or there was no memory for
//!   a step; or the list is full, and some procedure is ready.
//! - `settle` (`in_order`: `SettlesFrom`): such a list is the one that was whole before, with as many steps behind it as were
//!   counted, each of them the next one of settling at its place.
//! - The same partitions are in hand (`in_hand`: `IsInHand`).
//!
//! # Why settling knows its list
//!
//! Each entry touches some partition, so where the marks of all partitions know one list, nothing stands behind it: there is
//! one list at most that may be whole. A look at each partition tells which procedures are ready behind that list, and a step
//! under the marks in hand is the next entry of it.
#![tactic(auto)]

mod gate;
mod ranking;
mod settling;

pub use gate::{Gate, NoGate};
pub use settling::{Settled, settle};
