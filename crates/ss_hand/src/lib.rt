//! Parts of a database in one hand: what bays have, taken out for one execution and put back.
//!
//! A bay has a *partition*: the shard of one partition with the partition's mark in the commit log. By its type the shard
//! holds its part of the database after the list that the mark knows. Who takes the partitions that an entry touches gets
//! them in one *hand*: one shard that has all their parts, with their marks. There is then one database of which that shard
//! has these parts, and of which each mark's list leaves its own part as it is there. With the hand come the turns of the
//! bays, which can't be let go of; so what was taken is put back.
//!
//! Source: H-Store's partitions, each run by one executor at a time (Stonebraker et al., VLDB 2007); multi-partition
//! transactions hold all partitions that they touch (Meehan et al., PVLDB 8, 2015, section 3). That marks of a commit log
//! say of which list a part is, is this project's own rule.
//!
//! `ss_opening` makes the first partitions. `ss_engine` calls all else: `take_parts` and `put_parts` around each execution, `show_note`
//! behind a step, `in_one_hand` at its close. `ss_turns` and `ss_settle` are lent a hand, and work on its shard and its marks.
//!
//! What is touched here is bays, and the commit log's lock: `take_parts`, `show_note` and `in_one_hand` take it once each, and let it
//! go before they answer. `take_parts` waits at bays that are empty, in rising order, with those in hand that it has; `put_parts`
//! waits for nobody. Inboxes, slots, receipts and the disk are not seen here.
//!
//! - `partition`: what a bay has; `hand`: what is in hand; `turns`: the turns of the bays that this was taken from
//! - `taking`, `putting`: the two calls; `closing`: all partitions, once there are no bays any more
//! - `meeting`: a note that comes to know what ran on the parts in hand
//! - `apart`: shards beside one another, each its own, with their marks; `joining`: how they become the one shard of a hand
//!
//! In `specs/`: `Partitions` (what a bay has), `Apart` (partitions beside one another), `Meetings` (tokens that go on),
//! `Hands` (what is in hand).
//!
//! # Promises
//!
//! - `take_parts` (`ok`: `WereTaken`): just the partitions of a set, in one shard that has all their parts, and the
//!   turns of their bays; out of memory has put back what it took. `put_parts` puts them back, and by its premise
//!   (`in_hand`) only what is right for each bay.
//! - `show_note` (`note`, `one`): the note knows what a mark in hand knew; it is in hand what was (`in_hand`).
//! - `in_one_hand` (`ok`: `KnowsWith`): all partitions, once the bays are closed.
#![tactic(auto)]

mod apart;
mod closing;
mod hand;
mod joining;
mod meeting;
mod partition;
mod putting;
mod taking;
mod turns;

pub use closing::in_one_hand;
pub use hand::Hand;
pub use meeting::show_note;
pub use partition::Partition;
pub use putting::put_parts;
pub use taking::take_parts;
pub use turns::Turns;
