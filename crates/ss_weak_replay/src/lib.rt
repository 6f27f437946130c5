//! Replays clients' calls, pushes and installs on a database, one after another, with the triggers between executions on: what is
//! pending runs before the first of them, and behind each what it sets off, in the order of settling.
//!
//! The list of all that runs is the weak list of these entries, which `ss_model` defines (`IsWeakList`) and of which the laws of
//! `ss_weak_lists` speak. Steps stand in no record of a weak log, so nothing of them is read: they are run anew, and
//! take their places in the list. Nothing here asks where the entries come from.
//!
//! Source: weak recovery of S-Store, which logs only what clients asked for and replays it with the triggers on (Meehan et
//! al., PVLDB 8, 2015, section 2.4).
//!
//! - `replay`: clients' entries, one after another; `error`: why they don't replay
//! - `settling`: steps, until no procedure is ready; `entry`: one entry, as the next one of a list; `asked`: the entries of clients
//!   among those that ran
//!
//! The definitions are `specs/WeakReplaying`: how a list goes on, and what a replay comes to. `proofs/Premises` meets the premises.
//!
//! # Promises
//!
//! - `replay_weakly`: the weak list of the entries, which replays up to the last place on every database that the given one
//!   stands for, and the database behind it (`replayed`, `whole`, `dealt`); or that settling would pass the last place before the
//!   first entry, or the entries before the first one at which a weak replay stops (`refused`). By the law
//!   `weak_stops_once` only one of these is so of any entries.
//!
//! # Choices
//!
//! - Settling is a loop that looks for a place before each step, and never ahead: there is just one list that settling runs, so
//!   where all places are taken and a step is left, that list passes the last place (`loops_pass_last`). So the loop also ends by
//!   its places alone, and nobody counts what is pending.
//! - An entry that runs, but whose steps have no places, is refused like one that doesn't run, and the list so far is let go: half
//!   of what an entry sets off is no weak list.
//! - What is said is said of every database that the given one stands for, as by `ss_replay`. Who replays a log knows one of
//!   them from an image, and there may be others of which the same is kept.
//! - A refusal hands back the clients' entries before it, as `ss_replay` does, since its record is found by theirs. They are taken
//!   out of the list only then, instead of being kept apart from its steps, because a log that replays needs none of it.
#![tactic(auto)]

mod asked;
mod entry;
mod error;
mod replay;
mod settling;

pub use error::WeakError;
pub use replay::replay_weakly;
