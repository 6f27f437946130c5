//! Recovers a store: reads its image, and replays its entries, by the mode of the store.
//!
//! What a strong log has is what the first run listed, each step too: so its entries are replayed with the triggers between
//! executions off (`ss_replay`), and no step runs but those that the log has. A weak log has what clients asked for: so each
//! of its entries sets off its steps anew (`ss_weak_replay`), and they stand where settling puts them. [`recover`] gives the
//! database that a disk leads to, with the log that goes on behind its entries, and makes a store on an empty disk.
//!
//! An entry names the body that it installs by its text alone. So before the replay the catalogue gets each body that the image,
//! the entries and the given catalogue name, and what doesn't replay then doesn't with any others. A store of an older form, in
//! which no body may be installed, is read as one whose procedures have the catalogue's own bodies, and goes on in the new form:
//! a checkpoint of what is recovered takes its place, before anything runs.
//!
//! Source: strong recovery of S-Store, which replays every execution with the triggers between procedures off, and weak
//! recovery, which replays what clients asked for with them on (Meehan et al., PVLDB 8, 2015, section 2.4).
//!
//! - `recovery`: the call; `recovered`: what it gives; `error`: why it gives nothing
//! - `restoring`: an old store; `forming`: a new one; `renewing`: one of an older form; `stored`: what a store's contents come to;
//!   `filling`: the bodies that they name; `place`: where a record stands in its file
//! - `laws`: a disk is empty, a store, or has one first fault
//!
//! The definitions are `specs/Recovering`: what recovery gives, and what it leaves of the disk; `specs/Faults`: the first
//! fault of a disk that holds no store; `specs/Loading`: what a store's contents come to; and `specs/Renewed`: what a store of an
//! older form comes to in the new one. A catalogue that was read meets the premise (`proofs/Own`).
//!
//! # Promises
//!
//! - `recover` (`recovered`: `IsRecovered`): the entries, each with its outcome, and in weak mode the settlings between them,
//!   replay from the image's database to one of which the same is kept as of the one that is given, which is whole; the log is
//!   open on a generation of the mode that is asked and of the new form, which has all of it, and counts up to the next
//!   execution; the catalogue is what its own text is read as, with bodies each of which is read, and has all that the given one
//!   has (`given_one`). On an honest disk a crash since the call began leaves what it could leave before, or what is a front of no
//!   entries behind what is recovered (`moments`), and takes nothing that one at an earlier moment could not take, whatever more
//!   bodies may be installed (`stands_on`): so it is also while an older form is renewed. A refusal carries what it says of the
//!   disk and what it leaves of it (`refused`: `RefusesAsSaid`).
//! - Law `a_disk_has_one_fault`: a disk is empty, or a store of one mode and one catalogue, bodies to be installed aside, or has
//!   one first fault.
//!
//! # The order of refusals
//!
//! A disk is read from the left, and each pass over it ends before the next: the bytes of the generation, its image, its
//! entries, then the mode that is asked, then the catalogue that is given. So `Foreign` comes before `OtherMode`, and this before
//! `OtherCatalog`. An older form is renewed behind all of these, so that none of them changes the disk. `Nothing` is of an empty
//! disk alone.
//!
//! # Choices
//!
//! - A store is read and replayed by its own magic before its mode is compared with the one that is asked, instead of behind
//!   that, because what is no store of either mode is then told as foreign, whichever mode is asked.
//! - Where settling the image of a weak store would pass the last place, the first byte of the first place is told, byte 9, in
//!   the older forms byte 8: no entry is to blame for it, and at a lower place all of it would have run.
//! - What a crash may leave is what it could leave before, or what stands for what is recovered (`moments`), instead of
//!   the second alone for a disk with nothing unsynced, because it needs no premise. The second follows (`quiet`).
//! - The database that is recovered is named by the program's own value (`recovered_database`), instead of being some
//!   database, because who runs on it has to name it before it runs. All that is said of it depends on what is kept of
//!   it, which is all that an image tells. Where the history of a weak run begins is named by the image that was read
//!   (`recovery_of`), for the same reason: the program keeps no value of its database. The image is handed on, since behind a
//!   checkpoint in the new form the files tell another.
//! - A store of an older form is renewed by its recovery, instead of by the first install, because then a log has one form while
//!   it is open, and whoever writes it need not ask whether an entry may stand in it.
//! - The bodies that are named are added to the catalogue before the replay, instead of in its midst, because then the catalogue
//!   stays as it is while entries run, and the replay has no refusal of a body.
//! - A weak log counts on from the place that was recovered (`counting_from`), instead of from the one that it was opened with,
//!   because no record counts the steps that ran behind its entries.
//! - A refusal leaves the disk as it was, but where a store was being made or renewed. A disk that holds something else isn't
//!   mended or cut, because the first byte that can't be is all that is known of it.
//! - The database is dealt to the partitions as it is made, instead of later, because a table's rows are dealt as they
//!   come.
#![tactic(auto)]

mod error;
mod filling;
mod forming;
mod laws;
mod place;
mod recovered;
mod recovery;
mod renewing;
mod restoring;
mod stored;

pub use error::RecoverError;
pub use laws::a_disk_has_one_fault;
pub use recovered::Recovered;
pub use recovery::recover;
