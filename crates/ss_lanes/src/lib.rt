//! Lanes: the client's side of the engine, and what passes between a client and those who run its requests.
//!
//! A client's mark in the commit log goes out with each request and comes back with its reply, by way of two places behind
//! locks of their own: the inbox of a partition, and the slot of the client. No clause follows a value through a lock, so
//! each of these values carries its own facts: a job that its mark is that of its client, a reply that a listed entry is
//! its client's last one in the list that the mark knows. A reply is tied to its request by three numbers, the ticket,
//! and by the entry's content, which are compared when it is taken. Then mark and note of the lane meet in the log; so
//! the lane knows a list in which its client has just the entries of its listed answers.
//!
//! That marks travel with requests is this project's own rule.
//!
//! `ss_opening` makes the hub, fresh lanes and their room. `ss_engine` calls all else: its folder `client` sends and takes replies, its folder
//! `partition` takes jobs and replies, its `session` makes clients of lanes and takes them apart. Nothing here runs an entry, or
//! calls whoever does.
//!
//! What is touched here is the locks of inboxes and slots, each inside of one call of the hub, which holds no other lock meanwhile;
//! and the posted numbers of the commit log, which take none. Marks and notes meet in the log by `ss_engine`. Bays, receipts and the
//! disk are not seen here.
//!
//! - `lane`: a client's side, with its law in `laws`; `due`: what of its answers waits for a receipt; `told`: a lane that is told what
//!   became of the disk
//! - `fresh`: a lane for each client before the first request; `client`: lanes beside the requests that are to be made
//! - `ticket`, `job`, `reply`: what travels; `own`: whether a reply is the one that is waited for
//! - `inbox`, `slot`: where it waits; `signal`: that it does; `hub`: those of all partitions and clients, with the commit log
//! - `patience`: how long it pays to look for a signal before a sleep; `lookers`: how many threads look at the same time
//! - `apart`: lanes taken apart at the end, into the `room` that was made for that before the first request
//!
//! In `specs/`: `Mines` and `Told` (the entries of a client, and what answers tell of them), `Dues`, `Lanes`, `Replies`, `Owning`,
//! `Answered`, `Served`, `Between` (a lane between two requests), `Clients`, `Apart`.
//!
//! # Promises
//!
//! - A lane's type (`IsLane`): mark and note know one list, in which the client has just the entries of its listed answers,
//!   each once; all of these but 16 at most stand below a receipted count that it has seen (`IsDue`).
//! - `answered` keeps that, once a reply of its own has come back (`IsAnswered`); `unsent` and `halted` answer a request that was
//!   never sent (`IsSubmitted`).
//! - `ReplySlot::take` gives a reply exactly where it is the client's own (`IsOwn`); `reply_of` makes one of what may be said
//!   (`MaySay`).
//! - `Hub::take_reply` promises the same of all slots, and `put_job` gives a job back as it was where it has no room for it.
//! - `fresh_lanes` gives each client its lane, whose first request has the number that is given (`AreFresh`), and `take_apart` takes
//!   them apart: each mark knows its lane's list (`AreMarksOf`), and the answers are those of the lanes.
//! - From a fresh lane on, with each request that is submitted, the list that it knows has of its client just the entries that its
//!   answers report (law `lanes_serve`).
//! - A client that made its requests (`HasMade`) made those that are its own from its first one here on, and none of its answers is
//!   listed behind one that the list is full or that the disk has failed (`StopsBeyond`).
//!
//! No clause says that an answer ever comes: what stands behind a lock is in sight of none.
#![tactic(auto)]

mod apart;
mod client;
mod due;
mod fresh;
mod hub;
mod inbox;
mod job;
mod lane;
mod laws;
mod lookers;
mod own;
mod patience;
mod reply;
mod room;
mod signal;
mod slot;
mod ticket;
mod told;

pub use apart::{take_apart, with_parts};
pub use client::{Client, Ready, lanes_of, with_room};
pub use due::{Due, MOST_PENDING};
pub use fresh::{fresh_lanes, start_of};
pub use hub::Hub;
pub use job::Job;
pub use lane::{Lane, answered, halted, lane_of, unsent};
pub use laws::lanes_serve;
pub use reply::Reply;
pub use room::Room;
pub use ticket::Ticket;
pub use told::failed;
