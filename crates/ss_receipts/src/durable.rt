//! One flush for the places of all clients, for `receipts`, which calls it with the lock of this crate held. The commit log's
//! lock is taken in it where the client's mark meets the disk's note, and where the tail of the list is copied, and never over
//! the flush.

ghost use Rattle.std.specs.Prelude.{◌≡◌, ◌+◌, ◌-◌, ◌≤◌, ◌^◌, length, drop, None, IfOk, OnOk};
ghost use Rattle.ss_model.specs.Accepted.{Accepted};
ghost use Rattle.ss_commitlog.specs.Meaning.{listed_of};
ghost use Rattle.ss_commitlog.specs.Tokens.{Follows, KnowOne};
ghost use Rattle.ss_standing.specs.Standing.{listed_entries};
ghost use Rattle.ss_receipts.specs.Durable.{IsDurable};

use crate::flush::flush_rest;
use crate::keeper::Keeper;
use crate::rest::entries_of;
use ss_cmdlog::Receipt;
use ss_commitlog::{CommitLog, Mark};
use ss_disk::Disk;
use ss_model::{Entry, Life};
use ss_value::{NoMemory, Seq};
use std::alloc::Global;
use std::sync::Wait;

/// Why places are not known to be on the disk.
#[derive(Clone, Copy, Debug, PartialEq, Eq, Drop)]
pub enum DurableError {
    /// Want of memory. What had room by then is on the disk, and a later call may go on.
    NoMemory,
    /// The disk failed in this call, and has counted it.
    DiskFault,
    /// The disk had failed in an earlier call, and had this count of faults then.
    Halted { faults: u64 },
}

/// Makes all places below the wanted one durable, and with them all that the list has by then.
pub(crate) fn made_durable<I: Life, D: Disk + Drop, R: Wait>(
    rt: &R,
    alloc: Global,
    commits: &CommitLog<I>,
    keeper: &mut Keeper<I, D>,
    mark: &mut Mark<I>,
    wanted: u64,
) -> Result<Receipt, DurableError>
    requires small { I.first + I.limit ≤ 2 ^ 60 }
    requires accepted { Accepted I.catalog }
    requires wanted { wanted ≤ I.first + length mark.old.list }
    ensures mark { Follows I.catalog I.parts I.limit mark.old mark.new }
    ensures answer { IsDurable wanted mark.new.count mark.new.faults result }
{
    if wanted <= keeper.count {
        shown_to(rt, commits, keeper, mark);
        return Ok(Receipt {
            count: keeper.count,
        });
    }
    if let Some(faults) = keeper.log.halted() {
        shown_to(rt, commits, keeper, mark);
        return Err(DurableError::Halted { faults });
    }
    let Ok(rest) = with_rest(rt, alloc, commits, keeper, mark) else {
        return Err(DurableError::NoMemory);
    };
    let answer = flushed(commits, keeper, &rest);
    shown_to(rt, commits, keeper, mark);
    answer
}

/// The mark meets the disk's note.
fn shown_to<I: Life, D: Disk + Drop, R: Wait>(
    rt: &R,
    commits: &CommitLog<I>,
    keeper: &mut Keeper<I, D>,
    mark: &mut Mark<I>,
)
    ensures keeper { (keeper.new.log ≡ keeper.old.log) × (keeper.new.count ≡ keeper.old.count) × (keeper.new.note.faults ≡ keeper.old.note.faults) }
    ensures mark { Follows I.catalog I.parts I.limit mark.old mark.new }
    ensures seen { (mark.new.count ≡ keeper.new.count) × (mark.new.faults ≡ keeper.new.note.faults) }
{
    commits.meet(rt, mark, &mut keeper.note);
}

/// The mark meets the disk's note, which then knows these entries behind those that the log has.
fn with_rest<I: Life, D: Disk + Drop, R: Wait>(
    rt: &R,
    alloc: Global,
    commits: &CommitLog<I>,
    keeper: &mut Keeper<I, D>,
    mark: &mut Mark<I>,
) -> Result<Seq<Entry>, NoMemory>
    ensures keeper { (keeper.new.log ≡ keeper.old.log) × (keeper.new.count ≡ keeper.old.count) × (keeper.new.note.faults ≡ keeper.old.note.faults) }
    ensures mark { Follows I.catalog I.parts I.limit mark.old mark.new }
    ensures one { KnowOne mark.new keeper.new.note }
    ensures rest { IfOk result (λ rest. rest ≡ listed_entries (drop (keeper.new.count - I.first) (listed_of keeper.new.note.list))) }
{
    let tail = commits.meet_tail(rt, alloc, mark, &mut keeper.note, keeper.count)?;
    entries_of(alloc, tail)
}

/// Writes the rest of the list that the note knows, and posts what has come of it.
pub(crate) fn flushed<I: Life, D: Disk + Drop>(
    commits: &CommitLog<I>,
    keeper: &mut Keeper<I, D>,
    rest: &Seq<Entry>,
) -> Result<Receipt, DurableError>
    requires accepted { Accepted I.catalog }
    requires going { keeper.old.log.halted ≡ None }
    requires small { I.first + length keeper.old.note.list ≤ 2 ^ 60 }
    requires rest { rest.now ≡ listed_entries (drop (keeper.old.count - I.first) (listed_of keeper.old.note.list)) }
    ensures list { keeper.new.note.list ≡ keeper.old.note.list }
    ensures all { OnOk result ((keeper.new.log.halted ≡ None) × (keeper.new.count ≡ I.first + length keeper.old.note.list)) }
    ensures answer { IsDurable (I.first + length keeper.old.note.list) keeper.new.count keeper.new.note.faults result }
{
    keeper.note.knows_what_replays();
    let done = flush_rest::<I, D>(&mut keeper.log, keeper.count, rest);
    keeper.count = done.count;
    commits.post(&mut keeper.note, done.count, done.faults);
    done.answer
}
