//! The engine: clients in lanes, whose requests wait as jobs in the inboxes of partitions and come back as replies.
//!
//! An engine begins with what `ss_opening` makes of a database. Requests go out from lanes (`ss_lanes`) as jobs to the inbox of a
//! partition, with the client's mark in the commit log, and come back as replies; they wait in the hub of `ss_lanes`, which calls
//! none of those who act. Who runs the work of an inbox takes the partitions of an entry out of their bays (`ss_hand`), runs and commits it
//! (`ss_turns`), and puts them back. What is ready at the end `ss_settle` runs.
//!
//! Source: S-Store's clients and partition engines, whose triggered work goes ahead of client work (Meehan et al., PVLDB 8,
//! 2015, section 3).
//!
//! # Rooms
//!
//! `engine` is what threads share: the hub with the commit log in it, the bays, the catalogue, the home of each procedure, how many
//! partitions run, the runner, and the gate (that of `ss_settle`, which is told of each execution, so that a test may hold one).
//! Beside it clients share the lock of `ss_receipts`. Who acts on it has a folder:
//!
//! - `client`, a client's side. It touches its lane, the hub, the commit log's lock, where marks and notes meet, and the lock of
//!   `ss_receipts`, under which it may flush the disk. What it asks for it sends, to the inbox that `touched` tells, and takes no
//!   partition for it. `submit` takes one request, and by `send` waits for its answer; `receipt` asks that answers be durable;
//!   `checkpoint` makes a checkpoint where one is due, and for that alone takes all partitions, by `hands`;
//!   `requests` makes those of one client in order, and calls `checkpoint`, `submit` and `receipt`. Threads of clients call it.
//!   While `send` waits at an inbox that has no executor it pumps it, so its thread then does all that an executor does.
//! - `partition`, a partition's side. Its `hands` alone takes partitions out of their bays and puts them back, until the close, for
//!   its own pages and for `checkpoint`; besides it touches the inboxes, the slots of clients and the commit log's lock, and never the disk or `ss_receipts`. `pump`
//!   takes what waits in an inbox, and sleeps there: `serve` serves a job and answers into the client's slot, `follow` a hint or,
//!   where nothing waits, the first procedure that is ready, and `wake` puts hints into the inboxes of the homes of what may be
//!   ready; `touched` reads which partitions an entry touches, `least` finds the first of a small set, and `pumped` is what a pump
//!   came to. Executors call `pump` and `rest`, clients that wait `pump`, and the thread of the session `stop` and `no_executor`;
//!   all of these stand in `pump`.
//! - `session`, a run from end to end. `open` makes an engine with a lane for each client, `threads` lets clients and executors at
//!   it, by the hub too, `close` takes it apart with all partitions in one hand, and `run` is all three, in order: behind the
//!   threads it takes the command log out of the lock of `ss_receipts`, and behind the close it makes the last flush, and the last
//!   checkpoint where one is due. What stands above this crate calls `run_session`.
//!
//! Of the locks none is held while another one is waited for, but that of `ss_receipts`, under which the commit log's is taken. Bays
//! are no locks: who has some may wait for more, in rising order, and for any lock; for that of `ss_receipts` who has all, to make a
//! checkpoint. Who holds that lock waits for no bay, so the order is bays, then that lock, then the commit log's.
//!
//! In `specs/`: `Pumped`, `Engines`, `Serving`, `Tried`, `Least`, `Assured`, `Checkpoints`, `Closings`, `Clients`, `Sessions`.
//!
//! # What is known of threads
//!
//! Nothing is known of what threads do meanwhile. What a client did is in its lane (`HasMade`), whose type says what
//! the list that it knows has of it (`IsLane.all_told`); from a fresh lane on this is what a report asks for (law
//! `lanes_serve`). When the last client is done, `close` takes all partitions in one hand and settles. Each entry
//! touches some partition, so none can follow what the marks in hand know; the list that comes out is the one of which
//! each lane, and the disk's note, knew a beginning (`IsClosed`).
//!
//! # Promises
//!
//! - `submit` (`IsSubmitted`): one answer more, and a list that begins with the one before, in which the client has one
//!   entry more, that of its request, exactly where the answer is listed. A reply is taken exactly where it is the
//!   client's own (`IsOwn`).
//! - `pump` (`IsPumped`): where it says that something ran, an entry whose least partition this is stands at that place
//!   of the list that the note then knows; where it says `Idle`, no procedure at home there is ready after that list.
//! - `ensure_durable` (`AsksForReceipt`): a receipt of all that the lane's answers tell, or all that waits goes on
//!   waiting, or the lane is told of the disk's faults. By the lane's type all but 16 at most of its client's entries
//!   stand below the count that it has seen (`IsDue`); `submit` needs that fewer than 16 wait.
//! - `checkpoint_if` (`AsksForCheckpoint`): a place that the client's last listed entry stands near, or that there was no
//!   memory, or the lane is told of the disk's faults; all that waits for a receipt goes on waiting. No clause says that a
//!   generation begins at this place, since the log is behind a lock; of the last one `EndsNear` does.
//! - `run_session` (`ok`: `EndsOnDisk`), from any whole database that the log's generation stands for (`OpensOn`): a list
//!   that replays and has its orders, with just the entries of each client that its answers report, where each client
//!   begins at a request of its own (`starts`) and none of its answers is listed behind a stop, how settling ended on
//!   it, and which of its last entries are the steps of settling, in the model's order (`IsRun`); a crash at any
//!   moment leaves a prefix of it, and takes nothing that one at an earlier moment could not take; and one now leaves a
//!   front that ends at the receipted count at least, or all of it where the last flush went well. With checkpoints the
//!   log's generation then begins near the list's end (`EndsNear`). An error hands the log back as it was (`err`).
//!
//! No clause says that an answer ever comes, or that an inbox had no job when a pump found none.
//!
//! # Choices
//!
//! - What a run comes to is said of every client by number (`IsRun`), of those too that never asked, instead of by
//!   lanes, because a report asks for the answers of any client that a request names.
//! - The close counts the steps that it runs, instead of leaving open where they begin: no token that a caller has knows
//!   the list behind which they stand.
//! - What a run leaves is said twice, under the name of the opening (`Ends`) and of two disks (`EndsOnDisk`), because
//!   whoever called has no name, and the lock of `ss_receipts` speaks of the past that the name has.
//! - A client that has come far makes the checkpoint itself, instead of a thread of its own, because it comes between requests
//!   anyway, and no thread has to be had or told. Whether one is due it tells by its own last entry, which it knows without a lock.
//! - Where each client begins is handed down as a list beside the requests, instead of being read off the lanes, because then
//!   what is said of a client's answers names its first request by what the caller gave.
//! - The order of the input is kept for each client alone. Threads that run at the same time have none between them,
//!   and each client's own order is what its answers can promise.
//! - Each crate shows of its own types that threads may share them or hand them on (`proofs/Crossing`), instead of
//!   leaving it to one search from here down, because that search gives up on the way to the trees of SQL.
#![tactic(auto)]

mod client;
mod engine;
mod partition;
mod session;

pub use session::close::Closed;
pub use session::run::{Finished, run_session};
pub use ss_settle::{Gate, NoGate};
