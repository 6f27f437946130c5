//! Replays entries on a database, one after another, with the triggers between executions off: a step runs only where it
//! is an entry.
//!
//! An entry replays exactly where it has a value on the database so far, and a place: what it names is in the catalogue and
//! what it carries fits, and a step is the next one of its procedure, with a batch on each of its inputs. Nothing here asks
//! where the entries come from; `ss_recover` has them from a log.
//!
//! Source: strong recovery of S-Store, which replays every execution with the triggers between procedures off (Meehan et
//! al., PVLDB 8, 2015, section 2.4).
//!
//! - `entries`: entries, one after another; `entry`: one of them on a database
//! - `values`: whether an entry replays on a database; `fitting`: whether it fits a catalogue
//!
//! The definitions are `specs/Replaying`: what a replay begins on, and where one stops. `proofs/Premises` meets the premises.
//!
//! # Promises
//!
//! - `replay`: the given entries, each with its outcome (`entries`), which replay on every database that the given one
//!   stands for (`replayed`); or those before the first entry that doesn't replay (`foreign`).
//! - `replay_entry`: the outcome of an entry that has a value on each such database (`outcome`), and the database behind it
//!   (`stands`).
//! - `has_value`: whether an entry has a value on each such database. `replays`: whether it has one, and a place (`value`,
//!   `placed`, `stops`). `entry_fits`: exactly the model's `fits_entry`.
//!
//! # Choices
//!
//! - What is said of a replay is said of every database that the given one stands for (`IsOnAt`), instead of one that
//!   is named, because a program's database has no list of all batches and all units.
//! - This is a crate of its own, instead of a part of `ss_recover`, because whoever has entries from elsewhere replays them
//!   without a disk, and because a wrong body of either is tried on a proof of that one alone.
#![tactic(auto)]

mod entries;
mod entry;
mod fitting;
mod values;

pub use entries::{ReplayError, Replayed, replay};
pub use entry::replay_entry;
pub use fitting::entry_fits;
pub use values::{LAST_PLACE, has_value, replays};
