//! The log that threads share: each call takes the lock and asks the desk, but `post` and `see`, which step on the table beside
//! it. The root page says who calls.

ghost use Rattle.std.specs.Prelude.{◌≡◌, ◌⊎◌, ◌<◌, ◌≤◌, ◌-◌, ◌↔◌, ℕ, List, IfOk, true, drop, length};
ghost use Rattle.std.specs.Int.{IsBitSet};
ghost use Rattle.ss_model.specs.Orders.{Orders, procedure_takes};
ghost use Rattle.ss_model.specs.Replays.{Replays, after};
ghost use Rattle.ss_stream.specs.OfDatabase.{AreStreamsOf};
ghost use Rattle.ss_commitlog.specs.declared.role.Role.TheVariants.{Disk};
ghost use Rattle.ss_commitlog.specs.declared.rule.Item.{Item};
ghost use Rattle.ss_commitlog.specs.Meaning.{listed_of, HasClientBelow, HaveClientsBelow};
ghost use Rattle.ss_commitlog.specs.Reading.{found_batch, AreKnownStreams, IsReadyAt};
ghost use Rattle.ss_commitlog.specs.Right.{IsRight, known_database};
ghost use Rattle.ss_commitlog.specs.Committing.{Commits};
ghost use Rattle.ss_commitlog.specs.Tokens.{known, roles_of, Covers, Follows, Continues, AllContinue, AllSaw, KnowOne, MeetAll, Met};

use crate::desk::Desk;
use crate::notes;
use crate::placed::Unlisted;
use crate::posted::Posted;
use crate::rule::LogTable;
use crate::token::{Mark, Marks, Note};
use ss_model::{Catalog, Emitted, Life, Listed};
use ss_stream::Streams;
use ss_value::{NoMemory, ProcSet, Rows, Seq};
use std::alloc::Global;
use std::sync::{Mutex, Wait};

/// One list of executions, and the batches that are still to take after it.
///
/// Every call but `post` and `see` takes the lock; none of them takes another lock, or waits, while it holds it. What they
/// cost under the lock: `commit` a step for each mark, each batch and each input; `look` a copy of the batch; `meet_tail` and
/// `meet_with_tail` a copy of the entries; `streams` a copy of the batches that are still to take; `ready_at` a look at each
/// procedure's home, and at the inputs of those that are at home there; `meet`, `meet_all` and `meet_with` a step or two for
/// each token. No commit looks at the list. Memory: `commit` an entry's and its batches' room, made before the first step;
/// `look`, `meet_tail`, `meet_with_tail` and `streams` their copies; all others none.
#[derive(Drop)]
pub struct CommitLog<I: Life> {
    pub(crate) table: LogTable,
    pub(crate) desk: Mutex<Desk<I>>,
    ghost table_is: { (table.shared.table_id ≡ I.table) × (table.shared.key.first ≡ I.first) × (I.table.words ≡ 3) },
}

impl<I: Life> CommitLog<I> {
    /// Adds an entry with its batches, under the marks of all that it concerns, and answers its place. It makes its room
    /// first, and then can't fail. `NoMemory` where there is none for it, and `ListFull` where the list holds as many
    /// entries as it may: then the list is as it was, and the entry is let go.
    pub fn commit<R: Wait>(
        &self,
        rt: &R,
        catalog: &Catalog,
        marks: &mut Marks<I>,
        listed: Listed,
        emitted: Seq<Emitted>,
    ) -> Result<u64, Unlisted>
        requires catalog { catalog.now ≡ I.catalog }
        requires covers { Covers I.catalog I.parts (roles_of marks.old) listed.entry }
        requires client { HasClientBelow I.clients listed.entry }
        requires right { IsRight I.catalog I.parts I.opening marks.old listed emitted }
        ensures { Commits I.catalog I.parts I.first I.limit marks.old listed marks.new result }
    {
        self.desk
            .lock(rt)
            .commit(&self.table, catalog, marks, listed, emitted)
    }

    /// A copy of the batch that a consumer finds in the list that the mark then knows.
    pub fn look<R: Wait>(
        &self,
        rt: &R,
        alloc: Global,
        mark: &mut Mark<I>,
        stream: u16,
        consumer: u16,
        r: u64,
    ) -> Result<Option<Rows>, NoMemory>
        requires takes { procedure_takes I.catalog consumer stream ≡ true }
        ensures mark { Follows I.catalog I.parts I.limit mark.old mark.new }
        ensures ok { IfOk result (λ found. found ≡ found_batch (known_database I.catalog I.opening mark.new) stream consumer r) }
    {
        self.desk
            .lock(rt)
            .look(&self.table, alloc, mark, stream, consumer, r)
    }

    /// The procedures that stand at a partition and have their next batch, after the list that the note then knows.
    pub fn ready_at<R: Wait>(&self, rt: &R, catalog: &Catalog, note: &mut Note<I>, p: u8) -> ProcSet
        requires catalog { catalog.now ≡ I.catalog }
        ensures note { Follows I.catalog I.parts I.limit note.old note.new }
        ensures ready { (q : ℕ) → IsBitSet result q ↔ IsReadyAt I.catalog I.parts (known_database I.catalog I.opening note.new) p q }
    {
        self.desk.lock(rt).ready_at(&self.table, catalog, note, p)
    }

    /// Both tokens then know one list, and have seen the same numbers.
    pub fn meet<R: Wait>(&self, rt: &R, mark: &mut Mark<I>, note: &mut Note<I>)
        ensures mark { Follows I.catalog I.parts I.limit mark.old mark.new }
        ensures note { Follows I.catalog I.parts I.limit note.old note.new }
        ensures one { KnowOne mark.new note.new }
    {
        self.desk.lock(rt).meet(&self.table, mark, note);
    }

    /// All these tokens then know one list. Takes the lock once, instead of once for each token, so that what the parts
    /// of several partitions are is about one list.
    pub fn meet_all<R: Wait>(&self, rt: &R, marks: &mut Marks<I>)
        ensures { MeetAll I.catalog I.parts I.limit marks.old marks.new }
    {
        self.desk.lock(rt).meet_all(&self.table, marks);
    }

    /// All marks and the note then know one list, and have seen the same numbers. Takes the lock once.
    pub fn meet_with<R: Wait>(&self, rt: &R, marks: &mut Marks<I>, note: &mut Note<I>)
        ensures { Met I.catalog I.parts I.limit marks.old note.old marks.new note.new }
    {
        self.desk.lock(rt).meet_with(&self.table, marks, note);
    }

    /// Both tokens then know one list, and have seen the same numbers. Gives copies of the entries of that list from a place
    /// on. Takes the lock once.
    pub fn meet_tail<R: Wait>(
        &self,
        rt: &R,
        alloc: Global,
        mark: &mut Mark<I>,
        note: &mut Note<I>,
        from: u64,
    ) -> Result<Seq<Listed>, NoMemory>
        requires from { I.first ≤ from }
        ensures mark { Follows I.catalog I.parts I.limit mark.old mark.new }
        ensures note { Follows I.catalog I.parts I.limit note.old note.new }
        ensures one { KnowOne mark.new note.new }
        ensures ok { IfOk result (λ copies. copies ≡ drop (from - I.first) (listed_of note.new.list)) }
    {
        self.desk
            .lock(rt)
            .meet_tail(&self.table, alloc, mark, note, from)
    }

    /// All marks and the note then know one list, and have seen the same numbers. Gives copies of the entries of that list
    /// from a place on. Takes the lock once, and holds it for a step or two for each token and those copies. Out of memory
    /// gives no copies, and the tokens have met all the same.
    ///
    /// It is for a checkpoint, which has all partitions in hand: what the disk hasn't got yet is then flushed before the
    /// image of the database takes the place of the log.
    pub fn meet_with_tail<R: Wait>(
        &self,
        rt: &R,
        alloc: Global,
        marks: &mut Marks<I>,
        note: &mut Note<I>,
        from: u64,
    ) -> Result<Seq<Listed>, NoMemory>
        requires from { I.first ≤ from }
        ensures met { Met I.catalog I.parts I.limit marks.old note.old marks.new note.new }
        ensures ok { IfOk result (λ copies. copies ≡ drop (from - I.first) (listed_of note.new.list)) }
    {
        self.desk
            .lock(rt)
            .meet_with_tail(&self.table, alloc, marks, note, from)
    }

    /// All these tokens then know one list. Gives a copy of the streams after it: the batches that some consumer has still to
    /// take, and no others. Takes the lock once, and holds it for a step or two for each token and that copy. Out of memory
    /// gives no copy, and the tokens have met all the same.
    ///
    /// It is for a checkpoint, which has all partitions in hand. Each entry touches a partition, so the list stays as it is
    /// while their marks are in one hand, and these are its streams until one of the marks is given back.
    pub fn streams<R: Wait>(
        &self,
        rt: &R,
        alloc: Global,
        marks: &mut Marks<I>,
    ) -> Result<Streams, NoMemory>
        ensures marks { MeetAll I.catalog I.parts I.limit marks.old marks.new }
        ensures streams { IfOk result (λ copy. AreKnownStreams I.catalog I.opening marks.new copy.streams) }
    {
        self.desk.lock(rt).streams(&self.table, alloc, marks)
    }

    /// Posts a receipted count and the faults of the disk. Needs no lock.
    pub fn post(&self, note: &mut Note<I>, count: u64, faults: u64)
        requires disk { note.old.role ≡ Disk }
        requires count { note.old.count ≤ count }
        requires faults { (note.old.faults ≡ 0) ⊎ (note.old.faults ≡ faults) }
        ensures { note.new ≡ known Disk note.old.list count faults }
    {
        notes::post(&self.table, note, count, faults);
    }

    /// Reads the two posted numbers. Needs no lock.
    pub fn see(&self, mark: &mut Mark<I>) -> Posted
        ensures seen { mark.new ≡ known mark.old.role mark.old.list result.count result.faults }
        ensures more { (mark.old.count ≤ result.count) × ((mark.old.faults ≡ 0) ⊎ (mark.old.faults ≡ result.faults)) }
        ensures disk { mark.old.role ≡ Disk → (result.count ≡ mark.old.count) × (result.faults ≡ mark.old.faults) }
    {
        notes::see(&self.table, mark)
    }

    /// Hands over the list, of which each token knew a beginning, and the streams after it.
    pub fn close(self, marks: Marks<I>, note: Note<I>) -> (Seq<Listed>, Streams)
        requires disk { note.role ≡ Disk }
        ensures list { (list : List Item) × (result.0 ≡ listed_of list) × AllContinue I.catalog I.parts list marks × Continues I.catalog I.parts list note }
        ensures legal { Replays I.catalog I.opening result.0 × Orders I.catalog I.opening result.0 }
        ensures clients { HaveClientsBelow I.clients result.0 × (length result.0 ≤ I.limit) }
        ensures streams { AreStreamsOf I.catalog (after I.catalog I.opening result.0) result.1.streams }
        ensures seen { AllSaw note marks }
    {
        let CommitLog { table, desk } = self;
        desk.into_inner().close(&table, marks, note)
    }
}
