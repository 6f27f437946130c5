//! How streams follow the entries of a list.
//!
//! A step's procedure passes one batch of each of its inputs, also after an abort. The batches that travel with an
//! entry, which are those that it adds to streams, are put behind the others of their streams. The streams are then
//! those of the database after the entry. Whoever keeps a list calls `make_room` before an entry joins it, which may
//! fail, and `advance` afterwards, which can't.
//!
//! Source: what a transaction execution takes and emits in S-Store (Meehan et al., PVLDB 8, 2015, section 2).
//!
//! - `room`: room for the batches of an entry
//! - `flow`: the streams after an entry
//! - `laws`: how the streams of a database follow an entry
//!
//! # Promises
//!
//! - `make_room` makes room for each batch (`ok`), and changes no stream (`unchanged`).
//! - `advance`: whatever database with fewer than 2^62 batches in each stream they were the streams of, they are those
//!   of the database after the entry (`FollowAll`). It takes no memory.
//! - `streams_follow`, of a database with as many streams and counts as the catalogue has streams and procedures: what
//!   is kept of each stream follows an entry in this way, and a step's procedure had a batch to pass of each input.
//!   `batches_have_streams`: in an accepted catalogue each batch that travels with an entry is for a stream that is
//!   there.
//!
//! # Choices
//!
//! This is a crate of its own, instead of a part of `ss_stream`, because it stands on the laws of the model, and
//! `ss_shard`, which has the streams of a database, doesn't.
#![tactic(auto)]

mod flow;
mod laws;
mod room;

pub use flow::advance;
pub use laws::{batches_have_streams, streams_follow};
pub use room::make_room;
