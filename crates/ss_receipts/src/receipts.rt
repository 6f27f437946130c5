//! The disk's lock, with the calls that take it. Threads of clients call `ensure_durable` by `client/receipt` of `ss_engine`,
//! whose session makes it and takes it apart.

ghost use Rattle.std.specs.Prelude.{◌≡◌, ◌+◌, ◌≤◌, ◌^◌, List, [], length, IsSome};
ghost use Rattle.ss_model.specs.Accepted.{Accepted};
ghost use Rattle.ss_model.specs.WholeDatabase.{WholeDatabase, HadAtMost};
ghost use Rattle.ss_commitlog.specs.declared.role.Role.TheVariants.{Disk as DiskRole};
ghost use Rattle.ss_commitlog.specs.declared.rule.Item.{Item};
ghost use Rattle.ss_commitlog.specs.Meaning.{listed_of};
ghost use Rattle.ss_commitlog.specs.Roles.{In};
ghost use Rattle.ss_commitlog.specs.Tokens.{known, Follows, Known, MeetAll};
ghost use Rattle.ss_receipts.specs.Checkpointing.{AllAt, AllSeeOne, AreOfAllParts, IsCheckpointed, ReplayedTouch, StandAt};
ghost use Rattle.ss_receipts.specs.Holding.{Holds};
ghost use Rattle.ss_receipts.specs.Durable.{IsDurable};

use crate::checkpoint::made_checkpoint;
use crate::durable::{DurableError, made_durable};
use crate::keeper::Keeper;
use ss_cmdlog::{CmdLog, Receipt};
use ss_commitlog::{CommitLog, Mark, Marks, Note};
use ss_disk::Disk;
use ss_model::{Catalog, Life};
use ss_shard::Shard;
use ss_stream::Streams;
use std::alloc::Global;
use std::sync::{Mutex, Wait};

/// A command log with its disk behind a lock, which threads share.
///
/// Behind the lock the log holds a list that the commit log goes on from: see `specs/Holding`.
#[derive(Drop)]
pub struct Receipts<I: Life, D: Disk + Drop> {
    keeper: Mutex<Keeper<I, D>>,
    every: Option<u64>,
    ghost every_is: { every ≡ I.every },
}

impl<I: Life, D: Disk + Drop> Receipts<I, D> {
    /// Puts a log that was just opened, with the disk's note of the commit log, behind a lock, and beside it from how many
    /// entries behind the last checkpoint on the next is due. Takes no memory.
    pub fn new(log: CmdLog<D>, note: Note<I>, every: Option<u64>) -> Receipts<I, D>
        requires every { every ≡ I.every }
        requires note { note ≡ known DiskRole [] I.first 0 }
        requires holds { Holds I.recovery I.every I.catalog I.opening I.first I.moment I.faults I.past D.kind [] log I.first 0 }
    {
        let count = log.count();
        Receipts {
            keeper: Mutex::new(Keeper { log, count, note }),
            every,
        }
    }

    /// From how many entries behind the last checkpoint on the next is due, where there are checkpoints. Takes no lock: it
    /// stays as it is as long as the engine is open.
    pub fn every(&self) -> Option<u64>
        ensures { result ≡ I.every }
    {
        self.every
    }

    /// The first place of the generation that is current, behind which those entries are counted. Waits for the lock, and so
    /// for the flushes of others; else it is constant, and takes no memory.
    ///
    /// No clause says the number: where the generation begins in a file is what a run shows, and whoever asks may find it
    /// renewed as soon as the lock is let go. So it tells when a checkpoint is worth its while, and nothing rests on it.
    pub fn begun<R: Wait>(&self, rt: &R) -> u64 {
        self.keeper.lock(rt).log.first()
    }

    /// Makes all places below the wanted one durable, in one flush with all that the list has by then.
    ///
    /// At Ok all places below the receipt's count are on the disk, whatever a crash leaves from then on. `NoMemory` is want of
    /// memory: what had room is on the disk, and the next call goes on behind it. `DiskFault` comes only where the disk failed
    /// in this call, and counted it; from then on each call whose places aren't receipted yet answers `Halted`, with that
    /// count, and the disk is touched no more. Whatever is answered, the mark meets the disk's note before the lock is let go,
    /// so it has then seen the count that is receipted and the faults.
    ///
    /// Waits for the lock, and so for the flushes of others. Where the wanted places are receipted by then there is no call of
    /// the disk, no memory is taken, and the time is constant. Else there is one flush, of time and memory linear in the bytes
    /// of all entries that the list has and the log hasn't, and the commit log's lock is held while they are copied.
    pub fn ensure_durable<R: Wait>(
        &self,
        rt: &R,
        alloc: Global,
        commits: &CommitLog<I>,
        mark: &mut Mark<I>,
        wanted: u64,
    ) -> Result<Receipt, DurableError>
        requires small { I.first + I.limit ≤ 2 ^ 60 }
        requires accepted { Accepted I.catalog }
        requires wanted { wanted ≤ I.first + length mark.old.list }
        ensures mark { Follows I.catalog I.parts I.limit mark.old mark.new }
        ensures answer { IsDurable wanted mark.new.count mark.new.faults result }
    {
        let mut keeper = self.keeper.lock(rt);
        made_durable(rt, alloc, commits, &mut keeper, mark, wanted)
    }

    /// Makes a checkpoint: flushes all of the list, and puts the image of the database behind it in place of the generation
    /// that the log is open on, which then has no entries. Answers the place that it begins at, which is the end of the list.
    ///
    /// It takes the marks of all partitions, and shard and streams as they stand behind the one list that these know. Each
    /// entry touches a partition, so nobody adds to the list meanwhile, and the image is that of the whole list.
    ///
    /// A crash at any moment leaves what one without a checkpoint would. `NoMemory` is want of memory: what had room by then
    /// is on the disk, and the log goes on. `DiskFault` and `Halted` are as of [`Receipts::ensure_durable`]. Whatever is
    /// answered, the marks meet the disk's note before the lock is let go, so all of them have then seen the count that is
    /// receipted and the faults: those that are answered.
    ///
    /// Waits for the lock, and so for the flushes of others. There is one flush, of the entries that the log hasn't got yet,
    /// and behind it seven calls of the disk; time and memory are linear in those entries and in the image. The commit log's
    /// lock is held while the entries are copied, and once more for a step or two for each mark.
    pub fn checkpointed<R: Wait>(
        &self,
        rt: &R,
        alloc: Global,
        commits: &CommitLog<I>,
        marks: &mut Marks<I>,
        whole: &Shard,
        streams: &Streams,
        catalog: &Catalog,
    ) -> Result<u64, DurableError>
        requires catalog { catalog.now ≡ I.catalog }
        requires small { I.first + I.limit ≤ 2 ^ 60 }
        requires accepted { Accepted I.catalog }
        requires asked { IsSome I.every }
        requires opening { WholeDatabase I.catalog I.opening × HadAtMost I.first I.opening }
        requires all { (1 ≤ I.parts) × AreOfAllParts I.parts marks.old × ReplayedTouch I.catalog I.parts I.opening }
        requires one { (list : List Item) × StandAt I.catalog I.opening marks.old list whole.now streams.now.streams }
        ensures marks { MeetAll I.catalog I.parts I.limit marks.old marks.new }
        ensures seen { AllSeeOne marks.new }
        ensures answer { (list : List Item) → AllAt list marks.old
            → (k : Known) → In k marks.new → IsCheckpointed (I.first + length list) k.faults result }
    {
        let mut keeper = self.keeper.lock(rt);
        made_checkpoint(
            rt,
            alloc,
            commits,
            &mut keeper,
            marks,
            whole,
            streams,
            catalog,
        )
    }

    /// The log and the note, where nobody shares the lock any more. Takes no memory and waits for nobody.
    pub fn into_parts(self) -> (CmdLog<D>, Note<I>)
        ensures disk { result.1.role ≡ DiskRole }
        ensures holds { Holds I.recovery I.every I.catalog I.opening I.first I.moment I.faults I.past D.kind
            (listed_of result.1.list) result.0 result.1.count result.1.faults }
    {
        let Receipts { keeper, .. } = self;
        let Keeper { log, note, .. } = keeper.into_inner();
        (log, note)
    }
}
