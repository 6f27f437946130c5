//! A checkpoint, behind the disk's lock: the image of the database takes the place of the generation that the log is open on.
//! `receipts` calls it with the lock of this crate held.

ghost use Rattle.std.specs.Prelude.{◌≡◌, ◌+◌, ◌-◌, ◌≤◌, ◌^◌, ℕ, List, length, drop, None, IsSome, IfOk, OnOk};
ghost use Rattle.ss_model.specs.declared.entry.Listed.{Listed};
ghost use Rattle.ss_model.specs.Accepted.{Accepted};
ghost use Rattle.ss_model.specs.WholeDatabase.{WholeDatabase, HadAtMost};
ghost use Rattle.ss_model.specs.Replays.{Replays, after};
ghost use Rattle.ss_commitlog.specs.declared.rule.Item.{Item};
ghost use Rattle.ss_commitlog.specs.Meaning.{listed_of};
ghost use Rattle.ss_commitlog.specs.Tokens.{AllContinue, AllKnow, AllSeeAs, MeetAll};
ghost use Rattle.ss_standing.specs.Standing.{listed_entries};
ghost use Rattle.ss_receipts.specs.Checkpointing.{AllAt, AreOfAllParts, IsCheckpointed, IsImageBehind, IsOfDatabase, ReplayedTouch, StandAt};
ghost use Rattle.ss_receipts.specs.Holding.{Holds};

use crate::durable::{DurableError, flushed};
use crate::keeper::Keeper;
use crate::rest::entries_of;
use ss_cmdlog::{CmdLog, LogError};
use ss_commitlog::{CommitLog, Marks};
use ss_disk::Disk;
use ss_fronts::{checkpoints_hold, checkpoints_keep_fronts, held_fronts_stand};
use ss_model::{Catalog, Entry, Life};
use ss_model_laws::whole_databases_stay;
use ss_shard::Shard;
use ss_snapshot::write_image;
use ss_stream::Streams;
use ss_value::{NoMemory, Seq};
use std::alloc::Global;
use std::sync::Wait;

/// What a new generation has left.
#[derive(Drop)]
pub(crate) struct Renewed {
    /// The disk's count of faults where it failed, and else 0.
    pub faults: u64,
    /// The first place of the generation that is then current.
    pub answer: Result<u64, DurableError>,
}

/// Puts the image of all that a log holds in place of the generation that it is open on.
pub(crate) fn renew_log<I: Life, D: Disk + Drop>(
    log: &mut CmdLog<D>,
    count: u64,
    image: &[u8],
) -> Renewed
    requires asked { IsSome I.every }
    requires accepted { Accepted I.catalog }
    requires opening { WholeDatabase I.catalog I.opening × HadAtMost I.first I.opening }
    requires going { log.old.halted ≡ None }
    requires image { (list : List Listed) × (fault : ℕ) × IsImageBehind I.catalog I.opening I.first list count image.now
        × Holds I.recovery I.every I.catalog I.opening I.first I.moment I.faults I.past D.kind list log.old count fault }
    ensures holds { (list : List Listed) (fault : ℕ) → IsImageBehind I.catalog I.opening I.first list count image.now
        → Holds I.recovery I.every I.catalog I.opening I.first I.moment I.faults I.past D.kind list log.old count fault
        → Holds I.recovery I.every I.catalog I.opening I.first I.moment I.faults I.past D.kind list log.new count result.faults }
    ensures first { OnOk result.answer (log.new.first ≡ count) }
    ensures answer { IsCheckpointed count result.faults result.answer }
{
    held_fronts_stand();
    checkpoints_hold();
    checkpoints_keep_fronts::<D>();
    match log.renew(image, count) {
        Ok(()) => Renewed {
            faults: 0,
            answer: Ok(count),
        },
        Err(LogError::NoMemory) => Renewed {
            faults: 0,
            answer: Err(DurableError::NoMemory),
        },
        Err(LogError::DiskFault) => {
            let Some(faults) = log.halted() else {
                unreachable!()
            };
            Renewed {
                faults,
                answer: Err(DurableError::DiskFault),
            }
        }
        Err(_) => unreachable!(),
    }
}

/// Puts an image of all that the log holds in place of its generation, and posts what has come of it.
fn renewed_at<I: Life, D: Disk + Drop>(
    commits: &CommitLog<I>,
    keeper: &mut Keeper<I, D>,
    image: &[u8],
) -> Result<u64, DurableError>
    requires asked { IsSome I.every }
    requires accepted { Accepted I.catalog }
    requires opening { WholeDatabase I.catalog I.opening × HadAtMost I.first I.opening }
    requires going { keeper.old.log.halted ≡ None }
    requires image { IsImageBehind I.catalog I.opening I.first (listed_of keeper.old.note.list) keeper.old.count image.now }
    ensures answer { IsCheckpointed keeper.old.count keeper.new.note.faults result }
    ensures began { IfOk result (λ place. keeper.new.log.first ≡ place) }
{
    let done = renew_log::<I, D>(&mut keeper.log, keeper.count, image);
    commits.post(&mut keeper.note, keeper.count, done.faults);
    done.answer
}

/// All marks meet the disk's note.
fn shown_to_all<I: Life, D: Disk + Drop, R: Wait>(
    rt: &R,
    commits: &CommitLog<I>,
    keeper: &mut Keeper<I, D>,
    marks: &mut Marks<I>,
)
    ensures keeper { (keeper.new.log ≡ keeper.old.log) × (keeper.new.count ≡ keeper.old.count) × (keeper.new.note.faults ≡ keeper.old.note.faults) }
    ensures marks { AllKnow keeper.new.note.list marks.old marks.new × AllContinue I.catalog I.parts keeper.new.note.list marks.old }
    ensures within { length keeper.new.note.list ≤ I.limit }
    ensures seen { AllSeeAs keeper.new.note marks.new }
{
    commits.meet_with(rt, marks, &mut keeper.note);
}

/// All marks meet the disk's note, which then knows these entries behind those that the log has.
fn with_all<I: Life, D: Disk + Drop, R: Wait>(
    rt: &R,
    alloc: Global,
    commits: &CommitLog<I>,
    keeper: &mut Keeper<I, D>,
    marks: &mut Marks<I>,
) -> Result<Seq<Entry>, NoMemory>
    ensures keeper { (keeper.new.log ≡ keeper.old.log) × (keeper.new.count ≡ keeper.old.count) × (keeper.new.note.faults ≡ keeper.old.note.faults) }
    ensures marks { AllKnow keeper.new.note.list marks.old marks.new × AllContinue I.catalog I.parts keeper.new.note.list marks.old }
    ensures within { length keeper.new.note.list ≤ I.limit }
    ensures seen { AllSeeAs keeper.new.note marks.new }
    ensures replays { Replays I.catalog I.opening (listed_of keeper.new.note.list) }
    ensures rest { IfOk result (λ rest. rest ≡ listed_entries (drop (keeper.new.count - I.first) (listed_of keeper.new.note.list))) }
{
    let tail = commits.meet_with_tail(rt, alloc, marks, &mut keeper.note, keeper.count);
    keeper.note.knows_what_replays();
    entries_of(alloc, tail?)
}

/// Writes the image of all that the log holds, and puts it in place of the log's generation.
fn imaged<I: Life, D: Disk + Drop>(
    alloc: Global,
    commits: &CommitLog<I>,
    keeper: &mut Keeper<I, D>,
    catalog: &Catalog,
    whole: &Shard,
    streams: &Streams,
) -> Result<u64, DurableError>
    requires catalog { catalog.now ≡ I.catalog }
    requires asked { IsSome I.every }
    requires accepted { Accepted I.catalog }
    requires opening { WholeDatabase I.catalog I.opening × HadAtMost I.first I.opening }
    requires going { keeper.old.log.halted ≡ None }
    requires end { (keeper.old.count ≡ I.first + length keeper.old.note.list) × (keeper.old.count ≤ 2 ^ 60) }
    requires stand { IsOfDatabase I.catalog (after I.catalog I.opening (listed_of keeper.old.note.list)) whole.now streams.now.streams }
    ensures answer { IsCheckpointed keeper.old.count keeper.new.note.faults result }
    ensures began { IfOk result (λ place. keeper.new.log.first ≡ place) }
{
    whole_databases_stay();
    keeper.note.knows_what_replays();
    let Ok(image) = write_image(alloc, catalog, whole, streams) else {
        return Err(DurableError::NoMemory);
    };
    renewed_at(commits, keeper, image.as_slice())
}

/// Writes the rest of the list that the note knows, and then puts the image of all of it in place of the log's generation.
fn flushed_and_imaged<I: Life, D: Disk + Drop>(
    alloc: Global,
    commits: &CommitLog<I>,
    keeper: &mut Keeper<I, D>,
    rest: &Seq<Entry>,
    whole: &Shard,
    streams: &Streams,
    catalog: &Catalog,
) -> Result<u64, DurableError>
    requires catalog { catalog.now ≡ I.catalog }
    requires asked { IsSome I.every }
    requires accepted { Accepted I.catalog }
    requires opening { WholeDatabase I.catalog I.opening × HadAtMost I.first I.opening }
    requires going { keeper.old.log.halted ≡ None }
    requires small { I.first + length keeper.old.note.list ≤ 2 ^ 60 }
    requires rest { rest.now ≡ listed_entries (drop (keeper.old.count - I.first) (listed_of keeper.old.note.list)) }
    requires stand { IsOfDatabase I.catalog (after I.catalog I.opening (listed_of keeper.old.note.list)) whole.now streams.now.streams }
    ensures answer { IsCheckpointed (I.first + length keeper.old.note.list) keeper.new.note.faults result }
    ensures began { IfOk result (λ place. keeper.new.log.first ≡ place) }
{
    match flushed(commits, keeper, rest) {
        Err(refused) => Err(refused),
        Ok(_) => imaged(alloc, commits, keeper, catalog, whole, streams),
    }
}

/// The marks of all partitions meet the disk's note; then all of the list is flushed, and its image takes the place of the
/// log's generation. The marks meet the note once more behind what was posted, so that they have seen what is answered.
pub(crate) fn made_checkpoint<I: Life, D: Disk + Drop, R: Wait>(
    rt: &R,
    alloc: Global,
    commits: &CommitLog<I>,
    keeper: &mut Keeper<I, D>,
    marks: &mut Marks<I>,
    whole: &Shard,
    streams: &Streams,
    catalog: &Catalog,
) -> Result<u64, DurableError>
    requires catalog { catalog.now ≡ I.catalog }
    requires small { I.first + I.limit ≤ 2 ^ 60 }
    requires accepted { Accepted I.catalog }
    requires asked { IsSome I.every }
    requires opening { WholeDatabase I.catalog I.opening × HadAtMost I.first I.opening }
    requires all { (1 ≤ I.parts) × AreOfAllParts I.parts marks.old × ReplayedTouch I.catalog I.parts I.opening }
    requires one { (list : List Item) × StandAt I.catalog I.opening marks.old list whole.now streams.now.streams }
    ensures marks { MeetAll I.catalog I.parts I.limit marks.old marks.new }
    ensures seen { AllSeeAs keeper.new.note marks.new }
    ensures answer { (list : List Item) → AllAt list marks.old → IsCheckpointed (I.first + length list) keeper.new.note.faults result }
    ensures began { IfOk result (λ place. keeper.new.log.first ≡ place) }
{
    if let Some(faults) = keeper.log.halted() {
        shown_to_all(rt, commits, keeper, marks);
        return Err(DurableError::Halted { faults });
    }
    let Ok(rest) = with_all(rt, alloc, commits, keeper, marks) else {
        return Err(DurableError::NoMemory);
    };
    let answer = flushed_and_imaged(alloc, commits, keeper, &rest, whole, streams, catalog);
    shown_to_all(rt, commits, keeper, marks);
    answer
}
