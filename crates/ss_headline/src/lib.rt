//! The headline, on the definitions alone, in both modes of recovery, and the laws that compose it.
//!
//! Whatever interleaving the clients and partitions take, and wherever a crash falls, the replies and tables of a run are
//! those of the one serial list that it prints; in it each procedure takes its batches in order, each batch meets the
//! procedures of its workflow in graph order and none twice, every receipted execution stands, and at the end each accepted
//! batch has met each of them exactly once. The next call on the disk goes on from there.
//!
//! A run on a weak store differs in what a crash leaves: not the list, but its requests behind an image, from which
//! recovery runs the steps again. So what it replies may differ from what was told before; but of what is receipted no
//! request is lost, each push comes to what it came to, and each accepted batch has met its procedures exactly once. All is
//! said by one parameter, the run's `Recovery`.
//!
//! - `specs/Sentences` has a name for each sentence, and the two sessions in which they stand together, a whole and a
//!   stopped one; `specs/Disks` says what a call did to its disk
//! - `specs/Runs`: a run on a disk is a session from each database that the disk stood for
//! - `specs/Recovering`: what recovery makes of whatever a crash leaves in a weak session
//! - `specs/Layers`: what the calls below the top one owe, which are an opening, an engine that is settled and closed, and
//!   the receipts that clients were given
//! - `specs/Untouched`: calls that ran nothing; `specs/Between`: calls on a strong store that follow each other;
//!   `specs/Owed`: how many executions a run owes
//! - `laws`: that these make up a run. Each is the contract of a function that does nothing, on any kind of disk;
//!   `proofs/worked` meets their premises at a strong store and at a weak one, each made, run and closed
//!
//! # Promises
//!
//! - What the calls below owe (`Opened`, `Closed`, and `Settled`, or `Receipted` with `LogEndsAsStopped`), with the
//!   answers to the clients, is a whole run or a stopped one (`whole_runs`, `stopped_runs`). By these two the top call
//!   promises what it does.
//! - A session from one database is one from each of which the same is kept (`sessions_hold_from_each`), so a run on a
//!   strong store is one from every place and database that the disk stood for (`runs_hold_from_each`).
//! - What is receipted stands at each later moment of the call: in both sessions, so much that a crash at some moment could
//!   not take, a crash at no later moment takes (`ReceiptsStay`); on a strong store so many executions, and on a weak one so
//!   many of the requests.
//! - What recovery makes of whatever a crash leaves in a weak session is the weak list of its requests, which
//!   replays, has the orders and leaves no batch pending, and whose pushes come to what they came to (`crashes_recover`).
//! - Two runs on one strong store go on from each other (`calls_go_on`). Where nothing was pending on the disk before a call,
//!   a crash leaves what is promised and nothing else (`quiet_leaves`).
//!
//! # Choices
//!
//! - All that is said of crashes presumes an honest disk and no more: at each moment of a call a crash leaves what it
//!   might have left before, or what is promised (`AtEachMoment`), and behind the call what is promised (`AtTheExit`). A
//!   premise that nothing was pending would make the promise shorter, but no call leaves a disk that is known to meet it:
//!   behind a run that stopped each present image is a front of its list, and they may differ.
//! - A stop is computed from the status, the list and the disk (`stop_at`), instead of being any stop with the status:
//!   with a free limit or free counts of faults each reply could say that the list is full or the log halted.
//! - What a stopped run's log ends with is said of a log that goes on alone (`LogEndsAsStopped`): once a disk has failed
//!   nobody knows what it has. That it failed is in the status, but for a run whose report found no memory.
//! - Whether a store has checkpoints (`every`) is a parameter of a run, because a checkpoint drops entries: the log has
//!   then only the end of a list. In their stead a whole run says how near the last checkpoint is (`Logged`).
//! - What the calls below owe are records of their own, instead of their clauses, because the crates of an engine and
//!   of recovery stand above this one.
#![tactic(auto)]

mod laws;

pub use laws::{
    calls_go_on, crashes_recover, few_stand_behind, full_lists_have_all, logs_end_with_lists,
    nothing_ran, owed_is_enough, quiet_leaves, runs_hold_from_each, sessions_hold_from_each,
    stopped_runs, stopped_sessions, whole_runs, whole_sessions,
};
