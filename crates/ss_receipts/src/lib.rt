//! Group commit: the command log with its disk behind one lock, and receipts of what stands there.
//!
//! Many clients add to one commit log. Behind the lock stands the command log, with the disk's token of the commit log: who
//! needs its places on the disk takes the lock, and writes in one flush all that the list has by then, of itself and of all
//! others. So those who waited for the lock mostly find their places written, and make no call of the disk.
//!
//! Source: group commit of DeWitt, Katz, Olken, Shapiro, Stonebraker and Wood (SIGMOD 1984), of a command log as in Malviya,
//! Weisberg, Madden and Stonebraker (ICDE 2014); S-Store logs so (Meehan et al., PVLDB 8, 2015, section 3).
//!
//! `ss_engine` calls it, for clients (`ensure_durable`), for whoever has all partitions in hand (`checkpointed`), and behind the last
//! step (`finish` and then `trim`, once it has the command log out of the lock again by `into_parts`). The commit log's lock is taken
//! under this one, never the other way round, and is not held over a flush or an image. Who holds this lock may flush the disk, and
//! waits for that and for the commit log's lock alone; `finish` and `trim` take no lock. Bays, inboxes and slots are not seen here.
//!
//! - `receipts`: the lock and its calls; `keeper`: what stands behind it
//! - `durable`: one flush for all, behind the lock; `finishing`: the last flush, once the list is whole
//! - `checkpoint`: an image in place of the log's generation, behind the lock; `trimming`: the last one, behind the last flush
//! - `flush`: a flush of the rest of a list; `rest`: the entries of that rest, for these two
//! - `laws`: what follows where a log holds a list
//!
//! In `specs/`: `Past` (what a disk was up to the opening), `Holding` (what a log and its disk hold of a list), `Durable` (what
//! is answered), `Checkpointing` and `Trimming` (the same of images), `Laws`.
//!
//! # What a log holds
//!
//! Of a list that began at the opening a log *holds* all entries below a count (`Holds`). On an honest disk each image
//! that a crash since the opening may leave is a front of the list, and each present one stands for so many executions
//! at least; what a crash at one moment since then could not take, a crash at no later moment takes (`stands_on`);
//! moments before the opening keep their images. A log that wasn't halted is open on a generation that, as far as the
//! disk tells, stands for what is kept behind these entries, and ends with them. What stands behind the lock holds, by
//! its type, the list that the disk's note knows, up to the count that the note has posted. So a receipt stands at each
//! moment from then on.
//!
//! # Promises
//!
//! - `ensure_durable` (`answer`, `IsDurable`): a receipt of all places below the wanted one, or that there was no
//!   memory, or that the disk has failed; whatever it is, the mark has then seen the receipted count and the faults
//!   (`mark`).
//! - `checkpointed` (`answer`, `IsCheckpointed`): the end of the list is answered, or there was no memory, or the disk has
//!   failed; whatever it is, all marks have then seen the receipted count and the faults (`seen`, `marks`). That the log's
//!   generation begins at what is answered only the call behind the lock says (`began` of `made_checkpoint`): no clause
//!   outside sees what a lock has.
//! - `finish` (`Finishes`): as `ensure_durable`, of a list that is whole, for all of it.
//! - `trim` (`Trims`): the log holds what it held, and fewer entries than are due stand behind the current generation's first
//!   place, or there was no memory, or the disk has failed.
//! - Laws: what a log holds of a list it holds of each that goes on from it (`holds_go_on`); the entries of a list that
//!   replays have records (`replayed_are_recordable`).
#![tactic(auto)]

mod checkpoint;
mod durable;
mod finishing;
mod flush;
mod keeper;
mod laws;
mod receipts;
mod rest;
mod trimming;

pub use durable::DurableError;
pub use finishing::finish;
pub use laws::{holds_go_on, replayed_are_recordable, the_past_is_of_the_disk};
pub use receipts::Receipts;
pub use trimming::trim;
