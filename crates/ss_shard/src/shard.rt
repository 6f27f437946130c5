//! The tables, indexes and windows of a partition, with the changes since the last commit or rollback.

ghost use Rattle.std.specs.Prelude.{◌≡◌, ◌<◌, List, [], length, map, set, get_or, Some, None, OnOk, IfOk, IfErr, OnErr, IfSome, slice_get, option_map};
ghost use Rattle.std.specs.FinMap as finmap;
ghost use Rattle.std.specs.Option.{option_copied};
ghost use Rattle.std.specs.List.{AllByRecursion};
ghost use Rattle.ss_model.specs.Database.{Database};
ghost use Rattle.ss_model.specs.WholeDatabase.{WholeDatabase};
ghost use Rattle.ss_model.specs.declared.catalog.Catalog.{Catalog};
ghost use Rattle.ss_table.specs.TableValue.{TableValue};
ghost use Rattle.ss_undo.specs.Holding.{HaveRows};
ghost use Rattle.ss_undo.specs.Indexed.{AreIndexed, columns_in, columns_of};
ghost use Rattle.ss_undo.specs.Staying.{HasPairsOf};
ghost use Rattle.ss_shard.specs.Bodies.{with_coming};
ghost use Rattle.ss_shard.specs.Contents.{tables_of};
ghost use Rattle.ss_shard.specs.ShardValue.{ShardValue};
ghost use Rattle.ss_shard.specs.Rows.{IsKeyed, HasSlot, HasKeyOf, refusal_of};
ghost use Rattle.ss_shard.specs.Shards.{IsOf, CanRollBack, Changed, Same, IsCommitted, AllInvariant};
ghost use Rattle.ss_shard.specs.Sources.{number_in, HasSource, AreNames, AllAreNames, SameNumbers, lent_source, positive, with_number};
ghost use Rattle.ss_shard.specs.Windows.{kept_part, HoldsDatabase};
ghost use Rattle.ss_shard.specs.Parts.{dealing_of};
ghost use Rattle.ss_shard.specs.Changes.{RowInserted, InsertStops, SlotTaken, SlotPut, UnitStaged, StagingStops};

mod bodies;
mod joining;

use crate::pairs::{add_pairs, has_pairs_of, insert_indexed};
use crate::sources::Sources;
pub use bodies::body_number;
use bodies::end_coming;
use ss_index::Indexes;
use ss_model::{Reason, RunError};
use ss_table::{Table, TableError};
use ss_undo::{Change, Undo};
use ss_value::{Name, NoMemory, Row, Rows, Seq, Slot};
use ss_window::Window;
use std::alloc::Global;
use std::marker::Model;

/// The most units that a window may ever have had: 2^62.
pub const WINDOW_UNITS: u64 = 4_611_686_018_427_387_904;

/// What one partition holds.
///
/// Its tables, windows and procedures have the catalogue's numbers, and its sources are listed by stream. Each change of a
/// row, and each unit that is staged, goes through the calls of this type, which note it, so that all changes of an
/// execution can be committed or rolled back without memory. The indexes of a table go along: the pairs of a row stand as
/// long as the table or a note has the row.
///
/// Contracts see the number, the tables, the changes since the last commit or rollback, the columns of the indexes, the
/// windows, the counts, the next numbers and the bodies. What an index holds follows from the tables and the changes, so no
/// contract speaks of it: it is the type's invariant, instead of a clause of each call. The fields are private, since
/// whoever writes one owes this.
///
/// - `insert_row`: the table's `insert`, and a search and a move of one chunk for each index.
/// - `delete_row`: nothing for indexes; each drops the row's pair at the commit.
/// - `replace_row`: a comparison of values for each indexed column. Where one differs, also a search and a move of one chunk
///   for each index, each of which drops the old row's pair at the commit.
/// - `stage_unit`: the window's `stage`.
/// - `rollback`, `commit`: a search and a move of one chunk for each index and each change whose pair has to go, a call of
///   the window for each unit that was staged, and no memory.
#[derive(Drop)]
pub struct Shard {
    number: u8,
    tables: Seq<Table>,
    indexes: Seq<Indexes>,
    windows: Seq<Window>,
    /// How many batches each procedure has taken, by number.
    cursors: Seq<u64>,
    /// The sources of pushes to each stream, by number.
    sources: Seq<Sources>,
    /// Which body each procedure has: 0 its own, and i + 1 the i-th that may be installed.
    bodies: Seq<usize>,
    /// The procedure whose body the next commit changes, and which one it has then.
    coming: Option<(u16, usize)>,
    /// The changes since the last commit or rollback.
    undo: Undo,
}

impl Model for Shard {
    ghost use Rattle.ss_shard.specs.ShardValue.{ShardValue, coded_shard};

    ghost Value = { ShardValue };

    ghost coded = { coded_shard };

    ghost use Rattle.ss_undo.specs.Indexed.{AreIndexed, columns_of};
    ghost use Rattle.ss_undo.specs.Staying.{HaveStayed};

    ghost view = { λ s. record {
      number = s.number;
      tables = s.tables;
      changes = s.undo.items;
      columns = columns_of s.indexes;
      windows = s.windows;
      cursors = s.cursors;
      sources = s.sources;
      bodies = s.bodies;
      coming = s.coming;
    } };

    ghost invariant = { λ s. AreIndexed s.tables s.undo.items s.indexes × HaveStayed (columns_of s.indexes) s.tables s.undo.items };
}

/// What an insert that a table refuses comes to: out of memory, or an abort that names the table.
fn refusal_of(table: u16, error: TableError) -> RunError
    ensures { result ≡ refusal_of table error }
{
    match error {
        TableError::NoMemory => RunError::NoMemory,
        TableError::KeyTaken => RunError::Abort(Reason::KeyTaken(table)),
        TableError::Full => RunError::Abort(Reason::TableFull(table)),
    }
}

/// The sources of each of these streams are names. A law: it does nothing but pass over the streams.
fn all_are_names(sources: &[Sources])
    ensures { AllByRecursion AreNames sources.now }
{
    match sources.split_first() {
        None => (),
        Some((first, rest)) => {
            first.sources_are_names();
            all_are_names(rest);
        }
    }
}

impl Shard {
    /// A shard of these tables, indexes, windows, counts, sources and bodies, with nothing to take back. A table past the
    /// end of `indexes` has no index. Takes no memory.
    pub fn new(
        alloc: Global,
        number: u8,
        tables: Seq<Table>,
        indexes: Seq<Indexes>,
        windows: Seq<Window>,
        cursors: Seq<u64>,
        sources: Seq<Sources>,
        bodies: Seq<usize>,
    ) -> Shard
        requires { AreIndexed tables [] indexes }
        ensures number { result.number ≡ number }
        ensures tables { result.tables ≡ tables }
        ensures changes { result.changes ≡ [] }
        ensures columns { result.columns ≡ columns_of indexes }
        ensures windows { result.windows ≡ windows }
        ensures cursors { result.cursors ≡ cursors }
        ensures sources { result.sources ≡ sources }
        ensures bodies { result.bodies ≡ bodies }
        ensures coming { result.coming ≡ None }
    {
        Shard {
            number,
            tables,
            indexes,
            windows,
            cursors,
            sources,
            bodies,
            coming: None,
            undo: Undo::new(alloc),
        }
    }

    /// This shard with these windows, counts and sources in place of its own, which are let go. Constant, but for letting go;
    /// takes no memory.
    ///
    /// For a shard that is made of an image: its rows are inserted first, as any row is, and then it is given the rest, which
    /// no other call can.
    pub fn resumed(self, windows: Seq<Window>, cursors: Seq<u64>, sources: Seq<Sources>) -> Shard
        requires { self.changes ≡ [] }
        ensures { result ≡ record self { windows = windows; cursors = cursors; sources = sources } }
    {
        Shard {
            windows,
            cursors,
            sources,
            ..self
        }
    }

    /// A table by its number. Constant.
    pub fn table(&self, table: u16) -> Option<&Table>
        ensures { option_copied result ≡ slice_get self.now.tables table }
    {
        self.tables.get(usize::from(table))
    }

    /// All tables, by number. Constant.
    pub fn tables(&self) -> &[Table]
        ensures { result.now ≡ self.now.tables }
    {
        self.tables.as_slice()
    }

    /// All windows, by number. Constant.
    pub fn windows(&self) -> &[Window]
        ensures { result.now ≡ self.now.windows }
    {
        self.windows.as_slice()
    }

    /// A window by its number. Constant.
    pub fn window(&self, window: u16) -> Option<&Window>
        ensures { option_copied result ≡ slice_get self.now.windows window }
    {
        self.windows.get(usize::from(window))
    }

    /// How many batches a procedure has taken, and 0 where there is none of this number. Constant.
    pub fn cursor(&self, procedure: u16) -> u64
        ensures { result ≡ get_or self.now.cursors procedure 0 }
    {
        match self.cursors.get(usize::from(procedure)) {
            Some(count) => *count,
            None => 0,
        }
    }

    /// How many batches each procedure has taken, by number. Constant.
    pub fn cursors(&self) -> &[u64]
        ensures { result.now ≡ self.now.cursors }
    {
        self.cursors.as_slice()
    }

    /// The number that the next push of a source to a stream has to carry: 0 for one that never pushed. Logarithmic in the
    /// stream's sources; takes no memory.
    pub fn next_number(&self, stream: u16, source: &Name) -> u64
        ensures { result ≡ number_in self.now.sources stream source.now }
    {
        match self.sources.get(usize::from(stream)) {
            Some(sources) => sources.next(source),
            None => 0,
        }
    }

    /// The sources of a stream that have pushed, by the bytes of their names in rising order, each with the number that its next
    /// push has to carry; none where there is no such stream. Linear in the stream's sources, with memory for a reference and a
    /// number for each that is listed: the names are lent and not copied.
    pub fn numbered_sources<'a>(
        &'a self,
        alloc: Global,
        stream: u16,
    ) -> Result<Vec<(&'a [u8], u64)>, NoMemory>
        ensures { IfOk result (λ list. map lent_source list.items ≡ finmap.entries (positive (get_or self.now.sources stream finmap.empty))) }
    {
        match self.sources.get(usize::from(stream)) {
            Some(sources) => sources.numbered(alloc),
            None => Ok(Vec::new(alloc)),
        }
    }

    /// Each source of a stream is a name, and so is each of whatever whole database the shard stands for. A law: it does
    /// nothing but pass over the streams.
    pub fn sources_are_names(&self)
        ensures own { AllAreNames self.now.sources }
        ensures held { (catalog : Catalog) (db : Database) → HoldsDatabase catalog self.now db → WholeDatabase catalog db → AllAreNames db.next_numbers }
    {
        all_are_names(self.sources.as_slice())
    }

    /// The indexes of a table, in each of which each live row of the table has its pair. Constant.
    pub fn indexes(&self, table: u16) -> Option<&Indexes>
        ensures rows { IfSome result (λ group. (h : TableValue) → slice_get self.now.tables table ≡ Some h → HaveRows h.live group.now) }
        ensures columns { option_map columns_in (option_copied result) ≡ slice_get self.now.columns table }
    {
        self.indexes.get(usize::from(table))
    }

    /// Inserts a row into a table.
    ///
    /// Aborts with `KeyTaken` where a row of the table has its key, and else with `TableFull` where the table has as many
    /// rows as it may have. Costs what the table's `insert` and an `add` of each of its indexes cost. An error changes no row.
    pub fn insert_row(&mut self, table: u16, row: Row) -> Result<(), RunError>
        requires { IsKeyed self.old.tables table row }
        ensures ok { OnOk result (RowInserted self.old self.new table row) }
        ensures stops { IfErr result (InsertStops self.old table row) }
        ensures changed { Changed self.old self.new }
        ensures unchanged { self.new.windows ≡ self.old.windows }
        ensures err { OnErr result (self.new.tables ≡ self.old.tables) }
    {
        // As in each change below: room for the note, then the change, then the note. So no change is without its note.
        self.undo.room()?;
        let Some(rows) = self.tables.get_mut(usize::from(table)) else {
            unreachable!()
        };
        let slot = match insert_indexed(rows, &mut self.indexes, table, row) {
            Ok(slot) => slot,
            Err(error) => return Err(refusal_of(table, error)),
        };
        // A law, which does nothing: here and below the proof needs it of a table before and after a change.
        rows.rows_are_keyed();
        self.undo.note(Change::Inserted { table, slot });
        Ok(())
    }

    /// Deletes the row in a slot of a table, which keeps the slot, dead, until the commit or the rollback. Constant on average.
    /// Out of memory changes no row.
    pub fn delete_row(&mut self, table: u16, slot: Slot) -> Result<(), NoMemory>
        requires { HasSlot self.old.tables table slot }
        ensures ok { OnOk result (SlotTaken self.old.tables self.new.tables table slot) }
        ensures changed { Changed self.old self.new }
        ensures unchanged { self.new.windows ≡ self.old.windows }
        ensures err { OnErr result (self.new.tables ≡ self.old.tables) }
    {
        self.undo.room()?;
        let Some(rows) = self.tables.get_mut(usize::from(table)) else {
            unreachable!()
        };
        rows.rows_are_keyed();
        rows.mark_dead(slot);
        rows.rows_are_keyed();
        self.undo.note(Change::Deleted { table, slot });
        Ok(())
    }

    /// Puts a row with the same key into a slot of a table, in place of the one there.
    ///
    /// Compares both rows' values in the columns of the table's indexes, and is constant on average besides. Where some differ
    /// it costs an `add` of each of these indexes as well; else no index is touched, neither now nor by the commit or the
    /// rollback. Out of memory changes no row.
    pub fn replace_row(&mut self, table: u16, slot: Slot, row: Row) -> Result<(), NoMemory>
        requires { HasKeyOf self.old.tables table slot row }
        ensures ok { OnOk result (SlotPut self.old.tables self.new.tables table slot row) }
        ensures changed { Changed self.old self.new }
        ensures unchanged { self.new.windows ≡ self.old.windows }
        ensures err { OnErr result (self.new.tables ≡ self.old.tables) }
    {
        if has_pairs_of(&self.tables, &self.indexes, table, slot, &row) {
            self.put_alone(table, slot, row)
        } else {
            self.put_with_pairs(table, slot, row)
        }
    }

    /// Puts a row with the same key and the same pairs into a slot of a table, in place of the one there. Constant on average.
    /// Out of memory changes no row.
    fn put_alone(&mut self, table: u16, slot: Slot, row: Row) -> Result<(), NoMemory>
        requires key { HasKeyOf self.old.tables table slot row }
        requires pairs { HasPairsOf self.old.columns self.old.tables table slot row }
        ensures ok { OnOk result (SlotPut self.old.tables self.new.tables table slot row) }
        ensures changed { Changed self.old self.new }
        ensures unchanged { self.new.windows ≡ self.old.windows }
        ensures err { OnErr result (self.new.tables ≡ self.old.tables) }
    {
        self.undo.room()?;
        let Some(rows) = self.tables.get_mut(usize::from(table)) else {
            unreachable!()
        };
        rows.rows_are_keyed();
        let old = rows.replace(slot, row);
        rows.rows_are_keyed();
        self.undo.note(Change::Amended { table, slot, old });
        Ok(())
    }

    /// Puts a row with the same key into a slot of a table, in place of the one there, and its pairs beside those of that one.
    /// Costs an `add` of each of the table's indexes, and is constant on average besides. Out of memory changes no row.
    fn put_with_pairs(&mut self, table: u16, slot: Slot, row: Row) -> Result<(), NoMemory>
        requires { HasKeyOf self.old.tables table slot row }
        ensures ok { OnOk result (SlotPut self.old.tables self.new.tables table slot row) }
        ensures changed { Changed self.old self.new }
        ensures unchanged { self.new.windows ≡ self.old.windows }
        ensures err { OnErr result (self.new.tables ≡ self.old.tables) }
    {
        self.undo.room()?;
        // Before the row, so that out of memory comes while the old row still stands. Its pair stays until the commit.
        add_pairs(&mut self.indexes, table, &row, slot)?;
        let Some(rows) = self.tables.get_mut(usize::from(table)) else {
            unreachable!()
        };
        rows.rows_are_keyed();
        let old = rows.replace(slot, row);
        rows.rows_are_keyed();
        self.undo.note(Change::Replaced { table, slot, old });
        Ok(())
    }

    /// Adds a unit to a window, and answers whether the end of what the window shows has moved.
    ///
    /// Aborts with `WindowFull` where the window has had as many units as it may ever have. Constant on average. An error
    /// changes no window.
    pub fn stage_unit(&mut self, window: u16, unit: Rows) -> Result<bool, RunError>
        requires { window < length self.old.windows }
        ensures ok { IfOk result (UnitStaged self.old self.new window unit) }
        ensures stops { IfErr result (StagingStops self.old window unit) }
        ensures changed { Changed self.old self.new }
        ensures unchanged { self.new.tables ≡ self.old.tables }
        ensures err { OnErr result (self.new.windows ≡ self.old.windows) }
    {
        self.undo.room()?;
        let Some(units) = self.windows.get_mut(usize::from(window)) else {
            unreachable!()
        };
        // A law, which does nothing: the proof needs it of the window before and after.
        units.invariant_holds();
        if units.units() >= WINDOW_UNITS {
            return Err(RunError::Abort(Reason::WindowFull(window)));
        }
        let moved = match units.stage(unit) {
            Ok(moved) => moved,
            Err(_) => return Err(RunError::NoMemory),
        };
        units.invariant_holds();
        self.undo.note(Change::Staged { window });
        Ok(moved)
    }

    /// Sets how many batches a procedure has taken, where there is one of this number. Constant. No rollback takes it back:
    /// a step that aborts has taken its batch too.
    pub fn set_cursor(&mut self, procedure: u16, count: u64)
        ensures { self.new ≡ record self.old { cursors = set self.old.cursors procedure count } }
    {
        if let Some(cursor) = self.cursors.get_mut(usize::from(procedure)) {
            *cursor = count;
        }
    }

    /// Gives a source of a stream an entry, with the number 0, where it has none yet: no number changes, and a later
    /// `set_number` needs no memory. Logarithmic in the stream's sources, and a copy of the name. No rollback takes the entry
    /// away.
    pub fn add_source(&mut self, alloc: Global, stream: u16, source: &Name) -> Result<(), NoMemory>
        requires { stream < length self.old.sources }
        ensures same { SameNumbers self.old.sources self.new.sources }
        ensures ok { OnOk result (HasSource self.new.sources stream source.now) }
        ensures rest { self.new ≡ record self.old { sources = self.new.sources } }
    {
        let Some(sources) = self.sources.get_mut(usize::from(stream)) else {
            unreachable!()
        };
        sources.add(alloc, source)
    }

    /// Sets the number that the next push of a source has to carry, where the source has its entry. Logarithmic in the
    /// stream's sources; takes no memory. No rollback takes it back.
    pub fn set_number(&mut self, stream: u16, source: &Name, next: u64)
        requires { HasSource self.old.sources stream source.now }
        ensures { self.new ≡ record self.old { sources = with_number self.old.sources stream source.now next } }
    {
        let Some(sources) = self.sources.get_mut(usize::from(stream)) else {
            unreachable!()
        };
        sources.set(source, next);
    }

    /// Takes all changes of rows and windows back, the last one first, and drops the body that is to come, if there is one.
    ///
    /// Linear in the changes: each costs a call of its window, or one of its table and at most one of each of the table's
    /// indexes, and none of these for a row that was replaced by one of the same indexed values. Takes no memory.
    pub fn rollback(&mut self)
        requires { (before : ShardValue) × CanRollBack before self.old }
        ensures back { (before : ShardValue) → CanRollBack before self.old → Same before self.new }
        ensures holds { (catalog : Catalog) (before : ShardValue) (db : Database) → CanRollBack before self.old
            → HoldsDatabase catalog before db → HoldsDatabase catalog self.new db }
        ensures committed { (catalog : Catalog) (before : ShardValue) → CanRollBack before self.old → IsOf catalog before → IsCommitted catalog self.new }
    {
        self.undo
            .rollback(&mut self.tables, &mut self.indexes, &mut self.windows);
        self.coming = None;
    }

    /// Makes all changes final, and gives a procedure the body that is to come, if there is one.
    ///
    /// Linear in the changes: each costs at most a call of its window, or one of its table and one of each of the table's
    /// indexes, and none of these for a row that was replaced by one of the same indexed values. Takes no memory.
    ///
    /// The live rows stay, and of each window the number of units ever and those that may still be seen. Dead rows and units
    /// that can't be seen any more are dropped.
    pub fn commit(&mut self)
        requires { (before : ShardValue) × CanRollBack before self.old }
        ensures tables { tables_of self.new.tables ≡ tables_of self.old.tables }
        ensures windows { AllInvariant self.old.windows → map kept_part self.new.windows ≡ map kept_part self.old.windows }
        ensures cursors { self.new.cursors ≡ self.old.cursors }
        ensures sources { self.new.sources ≡ self.old.sources }
        ensures bodies { self.new.bodies ≡ with_coming self.old.coming self.old.bodies }
        ensures number { self.new.number ≡ self.old.number }
        ensures columns { self.new.columns ≡ self.old.columns }
        ensures dealt { map dealing_of self.new.tables ≡ map dealing_of self.old.tables }
        ensures committed { (catalog : Catalog) → IsOf catalog self.old → IsCommitted catalog self.new }
    {
        self.undo
            .commit(&mut self.tables, &mut self.indexes, &mut self.windows);
        end_coming(&mut self.coming, &mut self.bodies);
    }
}
