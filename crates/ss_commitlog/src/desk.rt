//! The desk, which is what stands behind the lock, and what changes it: a commit. `log` takes the lock and calls it; `looking`
//! has its other calls.

ghost use Rattle.std.specs.Prelude.{◌≡◌, ◌≤◌, OnOk, length};
ghost use Rattle.ss_flow.specs.Advances.{HasRoom};
ghost use Rattle.ss_flow.specs.Follows.{AreOfStreams};
ghost use Rattle.ss_commitlog.specs.Committing.{counts_after, CanCount};

use crate::hands::{add_marks, show_marks};
use crate::placed::Unlisted;
use crate::rule::{LogSeat, LogTable};
use crate::token::Marks;
use ss_flow::{advance, make_room};
use ss_model::{Catalog, Emitted, Entry, Life, Listed};
use ss_stream::Streams;
use ss_value::{NoMemory, Reserved, Seq};
use std::alloc::Global;
use std::marker::{Model, PhantomData};

/// The list, the log's seat, which knows it, and streams and counts as the list leaves them.
///
/// The catalogue is lent to each call that needs it, instead of kept here, because whoever runs an entry has it at
/// hand. Of it the desk keeps each procedure's home alone.
#[derive(Drop)]
pub struct Desk<I: Life> {
    /// For the empty list that stands in the place of marks while they are in the log's seat.
    pub(crate) alloc: Global,
    pub(crate) list: Reserved<Listed>,
    pub(crate) streams: Streams,
    /// How many batches each procedure has taken.
    pub(crate) counts: Seq<u64>,
    /// The home of each procedure.
    pub(crate) homes: Seq<u8>,
    pub(crate) first: u64,
    pub(crate) limit: u64,
    pub(crate) seat: LogSeat,
    pub(crate) of: PhantomData<I>,
}

impl<I: Life> Model for Desk<I> {
    ghost use Rattle.std.specs.Prelude.{List};
    ghost use Rattle.ss_commitlog.specs.declared.rule.Item.{Item};
    ghost use Rattle.ss_commitlog.specs.Committing.{IsDesk};

    ghost Value = { List Item };

    ghost view = { λ d. d.seat.me.0.now.known };

    ghost invariant = { λ d.
        IsDesk I.table I.catalog I.parts I.clients I.first I.limit I.opening
        d.list.items d.first d.limit d.streams.streams d.counts d.homes d.seat };
}

/// Makes the room for an entry and its batches.
fn reserve(
    list: &mut Reserved<Listed>,
    streams: &mut Streams,
    emitted: &[Emitted],
) -> Result<(), NoMemory>
    requires { AreOfStreams (length streams.old.streams) emitted.now }
    ensures unchanged { (list.new.items ≡ list.old.items) × (streams.new.streams ≡ streams.old.streams) }
    ensures list { OnOk result (1 ≤ list.new.spare) }
    ensures streams { OnOk result (HasRoom streams.new emitted.now) }
{
    list.reserve(1)?;
    make_room(streams, emitted)
}

/// Counts the batch that a step has taken, and does nothing for another entry.
fn count_batch(counts: &mut Seq<u64>, entry: &Entry)
    requires { CanCount counts.old entry.now }
    ensures { counts.new ≡ counts_after entry.now counts.old }
{
    let Entry::Step { procedure, batch } = entry else {
        return;
    };
    let _before = counts.put(usize::from(*procedure), *batch + 1);
}

impl<I: Life> Desk<I> {
    ghost use Rattle.std.specs.Prelude.{◌≡◌, ◌<◌};
    ghost use Rattle.ss_commitlog.specs.Tokens.{roles_of, Covers, AllKnow, AllContinue};
    ghost use Rattle.ss_commitlog.specs.Meaning.{HasClientBelow};
    ghost use Rattle.ss_commitlog.specs.Right.{IsRight};
    ghost use Rattle.ss_commitlog.specs.Committing.{IsCommitted};

    /// Adds an entry, with the marks of all that it concerns. It makes its room first, and then can't fail.
    pub fn commit(
        &mut self,
        table: &LogTable,
        catalog: &Catalog,
        marks: &mut Marks<I>,
        listed: Listed,
        emitted: Seq<Emitted>,
    ) -> Result<u64, Unlisted>
        requires table { (table.now.shared.table_id ≡ I.table) × (table.now.shared.key.first ≡ I.first) × (0 < I.table.words) }
        requires catalog { catalog.now ≡ I.catalog }
        requires covers { Covers I.catalog I.parts (roles_of marks.old) listed.entry }
        requires client { HasClientBelow I.clients listed.entry }
        requires right { IsRight I.catalog I.parts I.opening marks.old listed emitted }
        ensures { IsCommitted I.catalog I.parts I.first I.limit self.old self.new marks.old listed marks.new result }
    {
        let count = self.list.len() as u64;
        if count >= self.limit {
            show_marks(table, &mut self.seat, self.alloc, marks);
            return Err(Unlisted::ListFull { count });
        }
        let Ok(()) = reserve(&mut self.list, &mut self.streams, emitted.as_slice()) else {
            return Err(Unlisted::NoMemory);
        };
        let place = self.first + count;
        add_marks(table, &mut self.seat, self.alloc, marks, place, &listed);
        advance(catalog, &mut self.streams, &listed.entry, emitted);
        count_batch(&mut self.counts, &listed.entry);
        self.list.add(listed);
        Ok(place)
    }
}
