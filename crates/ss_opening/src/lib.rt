//! What an engine begins with: a log before its first entry, and all that waits, is held or is told beside it.
//!
//! A database comes as the shard of all partitions with its streams. It is split into a shard for each partition, and each of
//! these goes into a bay with the mark of its partition; each client has its lane with its mark. Nothing here runs an entry, or
//! knows who will: `session/open` of `ss_engine`, which calls it, adds its catalogue, its runner, its gate and the number of its partitions. No thread has any
//! of it yet, so no lock is taken; and the disk is not touched.
//!
//! - `opening`: all of it, and what threads share; `bays`: partitions in their bays
//!
//! In `specs/`: `Openings` (the shards and marks that bays are to have).
//!
//! # Promises
//!
//! - `begin`: a bay for each partition that runs (`bays`), a fresh lane for each client (`lanes`: `AreFresh`), the home of each
//!   procedure (`homes`), and the notes of as many readers as there are partitions (`notes`), and of the disk (`disk`), before
//!   the first entry. Its hub and its room have by their types what callers need.
//! - What stands in a bay is by the bay's type the shard of its partition, which has its part of the opening's database, with the
//!   mark that knows no entry yet; within this crate that is `ArePartitionsFrom`.
#![tactic(auto)]

mod bays;
mod opening;

pub use opening::{Begun, begin};
