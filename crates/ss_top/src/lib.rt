//! All that the program `sstore` does, as a library: it reads a catalogue and requests, runs them on the store of a disk, and
//! writes the report; or it recovers a store, runs a benchmark on it, or audits a report.
//!
//! [`sstore`] is the whole program between a source of bytes, a sink and a disk, and its contract is the program's promise. It
//! answers a [`Status`], whose number is the exit status.
//!
//! - `top`: the call `sstore`, and the same with a limit of its list
//! - `store`: requests are run on the store of a disk, or what is pending there, and what came of it is written
//! - `over`: the disk is opened, and again behind its faults, as often as it may be; `session`: requests run on one opening,
//!   and are reported
//! - `voter`: the catalogue and the script of the benchmark, in place of an input
//!
//! Each run is on a store of one mode of recovery, strong or weak, which the words ask for. Only a strong store is opened again
//! behind a fault: a weak run's history begins at an origin, and no law carries an origin over an opening in mid-run.
//!
//! How an input is read, and what is written of it, of the words and of the disk where they are refused, `ss_refusals` says, with
//! the statuses. The command `audit`, which has no disk and no threads, stands in `ss_audit_input`.
//!
//! Every call that takes `alloc` may find itself out of memory, which is then its error or its status.
//!
//! # Promises
//!
//! - `sstore`: `Ends`, which docs/CLAIM.md goes through field by field.
//! - Inside it `run_on_store` and `recover_store` (`came`) say what running requests on a store has come to, by status
//!   (`ServesTo`, `RecoversTo`), in the mode that is asked (`of_mode` of `WholeRun` and `StoppedRun`); `serve_new` (`new`:
//!   `ServesNew`) and, of a strong store, `close_again` (`closes`: `ClosesAgain`) what one more opening has; and
//!   `report_session` (`finished`) that the status and the text of a session are those of a whole run or a stopped one
//!   (`Reports`).
//!
//! # What a run is put together from
//!
//! What the calls below owe is said of the disk, from one value of it to the next:
//!
//! - `recover`, `IsRecovered`: in the words of `ss_headline` this is `Opened` of how the store is had again
//!   (`recovery_of`), and that the disk was empty or a store of this mode and catalogue (`WasOf`), together `IsOpenedFor`.
//!   Where it refuses, `RefusesAsSaid`, it is `OnlyRead` or `NothingStarted`: on an empty disk a store may have been made, and in place of
//!   one of an older form one of the new form, which stands for the same.
//! - Each opening finds bodies on the disk that the given catalogue may not have. What is run on it is said of the catalogue that has them
//!   too, to which the given one grows (`GrowsTo`; `stored` of `ServesTo`), and behind a fault the next opening is given that one
//!   (`catalog_for`). So what is known of the openings before is known of each catalogue with more bodies (`CameSoFar`).
//! - `run_session`, `EndsOnDisk`: this is `Closed`, and with a last flush that went well behind a settling that ended
//!   well `Settled`, else `Receipted` and `LogEndsAsStopped`. With checkpoints the generation begins near the list's end
//!   (`near`), which `Settled` has in `logged`.
//! - The laws `whole_runs` and `stopped_runs` take `Opened` of the disk up to the session, `Closed` with `Settled`, or
//!   with `Receipted` and `LogEndsAsStopped`, of the disk from there on, and the answers to the clients. So a run
//!   (`RanAs`) speaks of the disk that the program was given and of the one that it leaves.
//! - Behind a fault of the disk what a run has come to is its past (`IsPast`: `Lived` of `ss_incarnations`, with the answers to
//!   the clients), or that no store was opened (`NotOpened`); both are of strong stores. The laws `opened_at_last`,
//!   `incarnations_go_on` and `runs_over_restarts` carry it over the next opening, and to a run over restarts (`RanAsOver`). All
//!   of this presumes that the disk is honest. What each turn of the loop comes to is `TurnComes`.
//! - `TellsTurn`, of `TellsReport` and of `TellsRefusal` of `ss_refusals`, says which of the text was written, and with which
//!   status the program ends.
#![tactic(auto)]

mod over;
mod session;
mod store;
mod top;
mod voter;

pub use ss_refusals::{Status, refuse_words};
pub use top::{MOST_ENTRIES, sstore, sstore_limited};
