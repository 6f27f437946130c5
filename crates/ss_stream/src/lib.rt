//! Streams: the batches that some consumer has still to take.
//!
//! A stream is a queue with several readers. Each of its consumers, the procedures that take it, has a cursor: how many
//! batches it has passed, of all that were ever emitted. A batch is dropped once every cursor is past it. `Streams` has
//! all streams of a catalogue: whoever keeps a list emits the batches of each entry to it, lends a step its batches from
//! it, and passes them when the step is done.
//!
//! Source: the streams and batches of S-Store (Meehan et al., PVLDB 8, 2015, section 2); that a batch is dropped when its
//! last consumer has passed it is this project's own rule.
//!
//! - `cursor`: how far a consumer of a stream has come
//! - `stream`: the batches of one stream, with its consumers
//! - `streams`: all streams, by number
//! - `wiring`: which procedures take the streams of a catalogue
//!
//! Every call whose error is or has `NoMemory` may answer that in place of any other answer, and a call costs time linear in
//! what it is given, unless its page says otherwise.
//!
//! # Promises
//!
//! - `Streams::emit` puts exactly one batch behind the others of a stream (`joined`), and can't fail where there is
//!   room (`free`), which `reserve` makes (`ok`). `pass` moves a consumer exactly one batch further (`passed`), and
//!   leaves no less room (`room`). `batch` is exactly the batch of a number.
//! - Of the calls of `Streams` only `new`, `resume`, `duplicate`, `reserve` and an `emit` without room take memory. Where
//!   there is none, `resume` and `emit` give back what they were given (`refused`).
//! - `duplicate` is the same streams, value for value; `first_kept` is exactly how many batches all consumers have passed.
//! - `empty_streams` gives the streams of the empty database.
//!
//! # How streams stand for those of a database
//!
//! In the model a stream has all its batches for ever. What is kept of them is said once (`pending_from`): of batches
//! from a number on, those that some cursor has still to pass. A stream with one batch more, and one of which a
//! consumer has passed one more, are made by it (`with_batch`, `passed_by`). The streams of a database (`AreStreamsOf`)
//! are what it keeps of all batches of each, with each consumer at the count of its procedure. So they are a function
//! of the database, and need no invariant beside it.
#![tactic(auto)]

mod cursor;
mod stream;
mod streams;
mod wiring;

pub use cursor::Cursor;
pub use streams::Streams;
pub use wiring::{consumers, empty_streams};
