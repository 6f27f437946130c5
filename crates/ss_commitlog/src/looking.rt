//! Looks under the lock, at what the desk holds; `log` takes the lock and calls them. Each shows its tokens the list first. What
//! it then reads, `reading` reads.

ghost use Rattle.std.specs.Prelude.{◌≡◌, ◌<◌, ◌≤◌, ◌-◌, ◌↔◌, ℕ, List, IfOk, true, drop, length};
ghost use Rattle.std.specs.Int.{IsBitSet};
ghost use Rattle.ss_model.specs.Orders.{Orders, procedure_takes};
ghost use Rattle.ss_model.specs.Replays.{Replays, after};
ghost use Rattle.ss_stream.specs.OfDatabase.{AreStreamsOf};
ghost use Rattle.ss_commitlog.specs.declared.role.Role.TheVariants.{Disk};
ghost use Rattle.ss_commitlog.specs.Meaning.{listed_of, HaveClientsBelow};
ghost use Rattle.ss_commitlog.specs.Reading.{found_batch, IsReadyAt};
ghost use Rattle.ss_commitlog.specs.Right.{known_database};
ghost use Rattle.ss_commitlog.specs.Tokens.{Follows, AllKnow, Continues, AllContinue, AllSaw, AllSeeAs, SeeOne};

use crate::desk::Desk;
use crate::hands::show_marks;
use crate::notes::{end_all, show, show_marks_with, show_two};
use crate::reading::{batch_for, copy_from, ready_set};
use crate::rule::LogTable;
use crate::token::{Mark, Marks, Note};
use ss_model::{Catalog, Life, Listed};
use ss_stream::Streams;
use ss_value::{NoMemory, ProcSet, Rows, Seq};
use std::alloc::Global;

impl<I: Life> Desk<I> {
    /// A copy of the batch that a consumer finds after the list.
    pub fn look(
        &mut self,
        table: &LogTable,
        alloc: Global,
        mark: &mut Mark<I>,
        stream: u16,
        consumer: u16,
        r: u64,
    ) -> Result<Option<Rows>, NoMemory>
        requires table { (table.now.shared.table_id ≡ I.table) × (0 < I.table.words) }
        requires takes { procedure_takes I.catalog consumer stream ≡ true }
        ensures list { (self.new ≡ self.old) × (mark.new.list ≡ self.old) }
        ensures mark { Follows I.catalog I.parts I.limit mark.old mark.new }
        ensures ok { IfOk result (λ found. found ≡ found_batch (known_database I.catalog I.opening mark.new) stream consumer r) }
    {
        show(table, &mut self.seat, mark);
        batch_for(&self.streams, &self.counts, alloc, stream, consumer, r)
    }

    /// The procedures that stand at a partition and have their next batch after the list.
    pub fn ready_at(
        &mut self,
        table: &LogTable,
        catalog: &Catalog,
        note: &mut Note<I>,
        p: u8,
    ) -> ProcSet
        requires table { (table.now.shared.table_id ≡ I.table) × (0 < I.table.words) }
        requires catalog { catalog.now ≡ I.catalog }
        ensures list { (self.new ≡ self.old) × (note.new.list ≡ self.old) }
        ensures note { Follows I.catalog I.parts I.limit note.old note.new }
        ensures ready { (q : ℕ) → IsBitSet result q ↔ IsReadyAt I.catalog I.parts (known_database I.catalog I.opening note.new) p q }
    {
        show(table, &mut self.seat, note);
        ready_set(catalog, &self.streams, &self.counts, &self.homes, p)
    }

    /// Two tokens see the list, and each other's numbers.
    pub fn meet(&mut self, table: &LogTable, mark: &mut Mark<I>, note: &mut Note<I>)
        requires table { (table.now.shared.table_id ≡ I.table) × (0 < I.table.words) }
        ensures list { (self.new ≡ self.old) × (mark.new.list ≡ self.old) × (note.new.list ≡ self.old) }
        ensures mark { Follows I.catalog I.parts I.limit mark.old mark.new }
        ensures note { Follows I.catalog I.parts I.limit note.old note.new }
        ensures one { SeeOne mark.new note.new }
    {
        show_two(table, &mut self.seat, mark, note);
    }

    /// All tokens see the list.
    pub fn meet_all(&mut self, table: &LogTable, marks: &mut Marks<I>)
        requires table { (table.now.shared.table_id ≡ I.table) × (0 < I.table.words) }
        ensures list { (self.new ≡ self.old) × (length self.old ≤ I.limit) }
        ensures marks { AllKnow self.old marks.old marks.new × AllContinue I.catalog I.parts self.old marks.old }
    {
        show_marks(table, &mut self.seat, self.alloc, marks);
    }

    /// All marks and a note see the list, and each other's numbers.
    pub fn meet_with(&mut self, table: &LogTable, marks: &mut Marks<I>, note: &mut Note<I>)
        requires table { (table.now.shared.table_id ≡ I.table) × (0 < I.table.words) }
        ensures list { (self.new ≡ self.old) × (note.new.list ≡ self.old) }
        ensures marks { AllKnow note.new.list marks.old marks.new × AllContinue I.catalog I.parts note.new.list marks.old }
        ensures note { Follows I.catalog I.parts I.limit note.old note.new }
        ensures see { AllSeeAs note.new marks.new }
    {
        show_marks_with(table, &mut self.seat, self.alloc, marks, note);
    }

    /// All tokens see the list. A copy of the streams after it.
    pub fn streams(
        &mut self,
        table: &LogTable,
        alloc: Global,
        marks: &mut Marks<I>,
    ) -> Result<Streams, NoMemory>
        requires table { (table.now.shared.table_id ≡ I.table) × (0 < I.table.words) }
        ensures list { (self.new ≡ self.old) × (length self.old ≤ I.limit) }
        ensures marks { AllKnow self.old marks.old marks.new × AllContinue I.catalog I.parts self.old marks.old }
        ensures streams { IfOk result (λ copy. AreStreamsOf I.catalog (after I.catalog I.opening (listed_of self.old)) copy.streams) }
    {
        show_marks(table, &mut self.seat, self.alloc, marks);
        self.streams.duplicate(alloc)
    }

    /// Two tokens see the list, and each other's numbers. Copies of the entries from a place on.
    pub fn meet_tail(
        &mut self,
        table: &LogTable,
        alloc: Global,
        mark: &mut Mark<I>,
        note: &mut Note<I>,
        from: u64,
    ) -> Result<Seq<Listed>, NoMemory>
        requires table { (table.now.shared.table_id ≡ I.table) × (0 < I.table.words) }
        requires from { I.first ≤ from }
        ensures list { (self.new ≡ self.old) × (mark.new.list ≡ self.old) × (note.new.list ≡ self.old) }
        ensures mark { Follows I.catalog I.parts I.limit mark.old mark.new }
        ensures note { Follows I.catalog I.parts I.limit note.old note.new }
        ensures one { SeeOne mark.new note.new }
        ensures ok { IfOk result (λ copies. copies ≡ drop (from - I.first) (listed_of note.new.list)) }
    {
        show_two(table, &mut self.seat, mark, note);
        let skip = (from - self.first) as usize;
        copy_from(alloc, self.list.as_slice(), skip)
    }

    /// All marks and a note see the list, and each other's numbers. Copies of the entries from a place on.
    pub fn meet_with_tail(
        &mut self,
        table: &LogTable,
        alloc: Global,
        marks: &mut Marks<I>,
        note: &mut Note<I>,
        from: u64,
    ) -> Result<Seq<Listed>, NoMemory>
        requires table { (table.now.shared.table_id ≡ I.table) × (0 < I.table.words) }
        requires from { I.first ≤ from }
        ensures list { (self.new ≡ self.old) × (note.new.list ≡ self.old) }
        ensures marks { AllKnow note.new.list marks.old marks.new × AllContinue I.catalog I.parts note.new.list marks.old }
        ensures note { Follows I.catalog I.parts I.limit note.old note.new }
        ensures see { AllSeeAs note.new marks.new }
        ensures ok { IfOk result (λ copies. copies ≡ drop (from - I.first) (listed_of note.new.list)) }
    {
        show_marks_with(table, &mut self.seat, self.alloc, marks, note);
        let skip = (from - self.first) as usize;
        copy_from(alloc, self.list.as_slice(), skip)
    }

    /// Hands over the list and the streams after it.
    pub fn close(self, table: &LogTable, marks: Marks<I>, note: Note<I>) -> (Seq<Listed>, Streams)
        requires table { (table.now.shared.table_id ≡ I.table) × (0 < I.table.words) }
        requires disk { note.role ≡ Disk }
        ensures list { (result.0 ≡ listed_of self) × AllContinue I.catalog I.parts self marks × Continues I.catalog I.parts self note }
        ensures legal { Replays I.catalog I.opening result.0 × Orders I.catalog I.opening result.0 }
        ensures clients { HaveClientsBelow I.clients result.0 × (length result.0 ≤ I.limit) }
        ensures streams { AreStreamsOf I.catalog (after I.catalog I.opening result.0) result.1.streams }
        ensures seen { AllSaw note marks }
    {
        let Desk {
            list,
            streams,
            mut seat,
            ..
        } = self;
        end_all(table, &mut seat, marks.into_vec(), note);
        (list.into_seq(), streams)
    }
}
