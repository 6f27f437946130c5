//! A whole run: an engine is opened, clients make their requests and executors pump in threads of their own, and it is closed; the
//! last flush of the command log follows. `run` calls the others, and `run_session` there is what stands above this crate calls.
//!
//! It alone sees all: by `ss_opening` it makes bays, hub and commit log, puts the command log behind the lock of `ss_receipts`, and
//! takes all of it apart. While threads run it waits for them, and touches the hub alone: it tells of executors that it couldn't
//! have, and stops the others. Behind them it has all partitions in one hand, and behind the close the disk.

pub(crate) mod close;
pub(crate) mod open;
pub(crate) mod run;
mod threads;
