//! The notes of all changes since the last commit or rollback.

ghost use Rattle.std.specs.Prelude.{◌≡◌, ◌≤◌, ◌+◌, List, [], ◌∷◌, ◌++◌, map, OnOk};
ghost use Rattle.ss_table.specs.TableValue.{TableValue};
ghost use Rattle.ss_undo.specs.ResultsFrom.{ResultsFrom, AreCommitted, all_committed};
ghost use Rattle.ss_undo.specs.Indexed.{AreIndexed, columns_of};
ghost use Rattle.ss_undo.specs.Staying.{HaveStayed};
ghost use Rattle.ss_undo.specs.Windows.{WindowsResultFrom, AreCommittedWindows};
ghost use Rattle.ss_window.specs.WindowValue.{WindowValue, commit};

use crate::change::Change;
use crate::completion::{commit_change, rollback_change};
use ss_index::Indexes;
use ss_table::Table;
use ss_value::{NoMemory, Reserved, Seq};
use ss_window::Window;
use std::alloc::Global;
use std::marker::Model;

/// The notes of all changes since the last `commit` or `rollback`, in the order of the changes.
///
/// Callers owe four things, which `commit` and `rollback` require: each change is noted as what it is, once it is made
/// and before the next one; the indexes of each table hold its rows and the old rows of the notes, other than amended ones;
/// which only `rollback` requires, an amended row had the pairs of the one that was put in its place; and, which only
/// `commit` requires, no slot was dead when the undo was last empty.
///
/// Contracts see the list of the notes with its spare room: how many notes can't fail. A note takes about 50 bytes, and
/// that of a replaced or amended row the row's own memory besides.
#[derive(Drop)]
pub struct Undo {
    changes: Reserved<Change>,
}

impl Model for Undo {
    ghost use Rattle.ss_value.specs.Reserved.{ReservedList};
    ghost use Rattle.ss_undo.specs.declared.change.Change.{Change};

    ghost Value = { ReservedList Change };

    ghost view = { λ u. u.changes };
}

impl Undo {
    /// An undo without a note. Takes no memory.
    pub fn new(alloc: Global) -> Undo
        ensures { result.items ≡ [] }
    {
        Undo {
            changes: Reserved::new(alloc),
        }
    }

    /// Makes room for one note, so that the change that is made next can be noted. Two calls in a row promise room for no
    /// more than one note: a call belongs before each change. The notes are unchanged, also when out of memory. Constant
    /// on average over many.
    pub fn room(&mut self) -> Result<(), NoMemory>
        ensures unchanged { self.new.items ≡ self.old.items }
        ensures ok { OnOk result (1 ≤ self.new.spare) }
    {
        self.changes.reserve(1)
    }

    /// Notes a change behind the others, in the room that was made. Constant, and takes no memory.
    pub fn note(&mut self, change: Change)
        requires { 1 ≤ self.old.spare }
        ensures items { self.new.items ≡ self.old.items ++ change ∷ [] }
        ensures room { self.new.spare + 1 ≡ self.old.spare }
    {
        self.changes.add(change)
    }

    /// Makes all noted changes final: the live rows stay, no slot is dead, the indexes hold only the live rows, and each
    /// window only the units that a slide can still show.
    ///
    /// Costs one call of a table for each delete, one of each of its indexes for a delete and for a replacement that changed
    /// the pairs, and one of a window for each staged unit. Takes no memory; rows that were replaced are freed, and the room
    /// for notes stays.
    /// A table without an entry in `indexes` has no index.
    pub fn commit(
        &mut self,
        tables: &mut Seq<Table>,
        indexes: &mut Seq<Indexes>,
        windows: &mut Seq<Window>,
    )
        requires came { (before : List TableValue) × AreCommitted before × ResultsFrom before self.old.items tables.old }
        requires indexed { AreIndexed tables.old self.old.items indexes.old }
        requires windows { (before : List WindowValue) × AreCommittedWindows before × WindowsResultFrom before self.old.items windows.old }
        ensures tables { tables.new ≡ all_committed tables.old }
        ensures windows { windows.new ≡ map commit windows.old }
        ensures empty { self.new.items ≡ [] }
        ensures indexed { AreIndexed tables.new [] indexes.new }
        ensures columns { columns_of indexes.new ≡ columns_of indexes.old }
    {
        // The last change first, as in a rollback: that this order serves both is the law `changes_complete`.
        while let Some(change) = self.changes.pop() {
            commit_change(change, tables, indexes, windows);
        }
    }

    /// Rolls all noted changes back, the last one first: tables and windows are as before the first.
    ///
    /// Costs one call of a table or a window for each change, and one of each of the table's indexes for an insert and for
    /// a replacement that changed the pairs. Takes no memory.
    pub fn rollback(
        &mut self,
        tables: &mut Seq<Table>,
        indexes: &mut Seq<Indexes>,
        windows: &mut Seq<Window>,
    )
        requires came { (before : List TableValue) × ResultsFrom before self.old.items tables.old }
        requires indexed { AreIndexed tables.old self.old.items indexes.old }
        requires stayed { HaveStayed (columns_of indexes.old) tables.old self.old.items }
        requires windows { (before : List WindowValue) × WindowsResultFrom before self.old.items windows.old }
        ensures back { (before : List TableValue) → ResultsFrom before self.old.items tables.old → tables.new ≡ before }
        ensures windows_back { (before : List WindowValue) → WindowsResultFrom before self.old.items windows.old → windows.new ≡ before }
        ensures empty { self.new.items ≡ [] }
        ensures indexed { AreIndexed tables.new [] indexes.new }
        ensures columns { columns_of indexes.new ≡ columns_of indexes.old }
    {
        while let Some(change) = self.changes.pop() {
            rollback_change(change, tables, indexes, windows);
        }
    }
}
