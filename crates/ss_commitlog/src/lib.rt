//! The commit log: one list of executions, which threads add to and look at, and the batches that are still to take.
//!
//! The list stands behind a lock. Beside the lock stands a table of three words, whose rule ties the tokens of
//! partitions, clients, readers and the disk to the list. Who holds the tokens of all that an entry concerns may add it;
//! a token knows a beginning of the list behind which no entry concerns it.
//!
//! Source: S-Store's serial order of transaction executions (Meehan et al., PVLDB 8, 2015, section 2); that threads share
//! it by tokens is this project's own rule.
//!
//! `ss_opening` opens a log and hands its tokens out; `ss_hand`, `ss_turns`, `ss_settle`, `ss_receipts`, `ss_lanes` and `ss_engine`
//! call it. Its lock is the innermost one: who holds it takes no other lock, and waits for nobody.
//!
//! - `log`, `opening`: the calls; `placed`: what becomes of an entry; `posted`: what the disk posts
//! - `token`, `role`: tokens; `blank`: the table before the log has a name
//! - `desk`: what stands behind the lock, and a commit to it; `looking`: the looks at it; `reading`: what these read. `log` takes the
//!   lock and calls `desk` and `looking`, each of which is called under it alone
//! - `rule`: the rule of the table; `hands`, `notes`: its steps
//! - `laws`: what callers need to know of lists
//!
//! In `specs/`: `Roles`, `Rule` (lists, roles and words), `Meaning`, `Tokens` (what tokens know), `Growing`
//! (tokens whose lists go on), `Right` (when an entry may join), `Reading`, `Committing`.
//!
//! # What a mark knows
//!
//! What stands behind a lock is out of sight of every contract. So a token carries outside of it what is known: its
//! role, a list that the log's list begins with, and the two posted numbers as it last saw them (`Known`). A token of a
//! partition or a client is a *mark*, one of a reader or of the disk a *note*. A table of three words, which can be
//! stepped on without the lock, has a rule that ties all tokens to the list inside (`IsKept`).
//!
//! ```text
//!  the list          e0   e1   e2   e3   e4   e5   e6   e7      word 0: the place behind the list
//!                                                               word 1: the receipted count that was last posted
//!  the log's seat    ├───────────────────────────────────┤     word 2: the posted faults
//!    (behind the lock) knows all of it
//!  mark of part 0    ├─────────────────────────┤ ·    ·         no entry behind e5 touches part 0
//!  mark of part 1    ├──────────────┤ ·    ·    ·    ·          none behind e3 touches part 1
//!  mark of client 0  ├────┤ ·    ·    ·    ·    ·    ·          none behind e1 is client 0's
//!  a reader's note   ├───────────────────┤ ?    ?    ?          behind e4 may be anything
//!  the disk's note   ├───────────────────┤ ?    ?    ?          and words 1 and 2 are its own to change
//! ```
//!
//! The rule knows lists and roles alone: each known list begins the list, and no item behind it was added under a role
//! of its seat (`Begins`). That each entry was added under all roles that it concerns is kept beside the rule
//! (`Recorded`). So no entry behind a mark's list concerns the mark (`Continues`).
//!
//! Once it is open, a call takes the lock, joins its tokens into the log's seat, does a step on word 0, and splits them off again; a commit that has no
//! memory does none. A step looks (`Looked`) or adds (`Added`); either tells that all that the joined tokens knew was right (`Shown`), and
//! behind it they know the log's list. `post` and `see` are steps on words 1 and 2 and take no lock. `close` joins all
//! tokens for good.
//!
//! Each call but `close` is lent its tokens. While a token is in the log's seat a note of one more reader stands in its
//! place, and while marks are, an empty list. No role but a reader's is many tokens', so such a note takes nothing from
//! anybody.
//!
//! # Promises
//!
//! - `commit` (`Commits`): the entry stands at the place that is answered, behind a list that goes on from what each
//!   mark knew, or the list is as it was, and the answer says why (`Unlisted`). It needs the marks of all that the entry
//!   concerns (`Covers`), and an outcome and batches that are right on every database whose parts are as the marks' own
//!   lists leave them (`IsRight`). Since nothing behind a mark's list touches its part, the database of the list behind
//!   the lock is one of these; so the list always replays (`IsLegal`), whatever the interleaving. Marks that all know one
//!   list need the entry's value behind that list, and no more (lemma `right_at_one_list`).
//! - `look` (`ok`): the batch that a consumer finds; `ready_at` (`ready`): just the procedures of a partition that are
//!   ready; each of the list that the token then knows (`Follows`).
//! - `meet` (`one`), `meet_all`, `meet_with` (`Met`): these tokens then know one list; but for `meet_all` they have then seen the
//!   same numbers, too. `meet_tail` and `meet_with_tail` (`ok`) give the entries from a place of the list on besides.
//! - `streams` (`streams`): the streams after the one list that its tokens then know (`marks`). To a checkpoint, which has the marks
//!   of all partitions, they are those of the whole list, since each entry touches a partition: none is added meanwhile.
//! - `close`: a list that replays and has its orders (`legal`) and goes on from what each token knew (`list`), with the
//!   streams after it (`streams`).
#![tactic(auto)]

mod blank;
mod desk;
mod hands;
mod laws;
mod log;
mod looking;
mod notes;
mod opening;
mod placed;
mod posted;
mod reading;
mod role;
mod rule;
mod token;

pub use blank::Blank;
pub use laws::border_streams_stay;
pub use log::CommitLog;
pub use opening::NewLog;
pub use placed::{Placed, Unlisted};
pub use posted::Posted;
pub use role::Role;
pub use rule::Opening;
pub use token::{LogToken, Mark, Marks, Note, Notes};
