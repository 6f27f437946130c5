//! Tables, with notes of the changes that made them.

ghost use Rattle.std.specs.FinMap as finite;
ghost use Rattle.std.specs.Prelude.{◌≡◌, ◌<◌, length, slice_get, Some, IsTrue, IfOk, OnErr};
ghost use Rattle.ss_table.specs.TableValue.{HasKey, key_of};
ghost use Rattle.ss_undo.specs.declared.change.Change.TheVariants.{Inserted, Deleted, Replaced};
ghost use Rattle.ss_undo.specs.ResultsFrom.{AreCommitted, Step};
ghost use Rattle.ss_table_cases.specs.Runs.{AreKeyed, IsLive, CanReplace};

use crate::change::{Answer, Change};
use crate::plain::key_of;
use ss_case_files::Wrong;
use ss_table::{Route, Table, TableError};
use ss_undo::{
    Change as Noted, Undo, a_note_more, a_staging_more, committed_at_first, one_table_changed,
};
use ss_value::{Copies, NoMemory, Row, Seq, Slot, compare_rows, copy_row, row_order_is_total};
use ss_window::Window;
use std::alloc::Global;
use std::marker::Model;

/// Two tables of one key and one limit, no window, and the changes since the last commit or rollback.
///
/// Contracts see the columns of the key alone. That the noted changes are those that were made is an invariant of the
/// type.
#[derive(Drop)]
pub struct Real {
    key: Seq<u8>,
    tables: Seq<Table>,
    windows: Seq<Window>,
    undo: Undo,
}

impl Model for Real {
    ghost use Rattle.std.specs.Prelude.{List, ℕ};

    ghost Value = { List ℕ };

    ghost use Rattle.ss_table_cases.specs.Runs.{Runs};

    ghost view = { λ r. r.key };

    ghost invariant = { λ r. Runs r.key r.tables r.windows r.undo.items };
}

/// Whether a row has every column of a key.
fn has_key(key: &[u8], row: &Row) -> bool
    ensures { IsTrue result → HasKey key.now row.now }
{
    match key.split_first() {
        None => true,
        Some((column, rest)) => usize::from(*column) < row.len() && has_key(rest, row),
    }
}

/// One of the tables.
fn table_in(alloc: Global, tables: &Seq<Table>, at: u16) -> Result<&Table, Wrong>
    ensures { IfOk result (λ table. slice_get tables.now at ≡ Some table.now) }
{
    match tables.get(usize::from(at)) {
        Some(table) => Ok(table),
        None => Err(Wrong::text(alloc, "no such table")),
    }
}

/// Whether a slot of one of the tables is live.
fn is_live(tables: &Seq<Table>, at: u16, slot: Slot) -> bool
    ensures { IsTrue result → IsLive tables.now at slot }
{
    match tables.get(usize::from(at)) {
        Some(table) => table.row(slot).is_some(),
        None => false,
    }
}

/// Inserts a row in one of the tables.
fn insert_in(
    key: &[u8],
    tables: &mut Seq<Table>,
    at: u16,
    row: Row,
) -> Result<Slot, (TableError, Row)>
    requires there { at < length tables.old }
    requires keyed { AreKeyed key.now tables.old }
    requires has_key { HasKey key.now row }
    ensures made { IfOk result (λ slot. Step tables.old (Inserted at slot) tables.new) }
    ensures refused { OnErr result (tables.new ≡ tables.old) }
    ensures keyed { AreKeyed key.now tables.new }
{
    one_table_changed();
    match tables.get_mut(usize::from(at)) {
        None => unreachable!(),
        Some(table) => table.insert(row),
    }
}

/// Makes a live slot of one of the tables dead.
fn delete_in(key: &[u8], tables: &mut Seq<Table>, at: u16, slot: Slot)
    requires keyed { AreKeyed key.now tables.old }
    requires live { IsLive tables.old at slot }
    ensures made { Step tables.old (Deleted at slot) tables.new }
    ensures keyed { AreKeyed key.now tables.new }
{
    one_table_changed();
    match tables.get_mut(usize::from(at)) {
        None => unreachable!(),
        Some(table) => table.mark_dead(slot),
    }
}

/// Puts a row in a live slot of one of the tables, and gives back the old one.
fn replace_in(key: &[u8], tables: &mut Seq<Table>, at: u16, slot: Slot, row: Row) -> Row
    requires keyed { AreKeyed key.now tables.old }
    requires can { CanReplace tables.old at slot row }
    ensures made { Step tables.old (Replaced at slot result) tables.new }
    ensures keyed { AreKeyed key.now tables.new }
{
    one_table_changed();
    match tables.get_mut(usize::from(at)) {
        None => unreachable!(),
        Some(table) => table.replace(slot, row),
    }
}

/// Whether a row has this key.
fn has_this_key(alloc: Global, key: &[u8], row: &Row, sought: &Row) -> Result<bool, Wrong>
    ensures { IfOk result (λ same. IsTrue same → key_of key.now row.now ≡ sought.now) }
{
    row_order_is_total();
    let found = key_of(alloc, key, row)?;
    Ok(compare_rows(found.as_slice(), sought.as_slice()).is_eq())
}

/// Whether a slot of one of the tables is live, and its row has the key of another.
fn can_replace(
    alloc: Global,
    key: &[u8],
    tables: &Seq<Table>,
    at: u16,
    slot: Slot,
    sought: &Row,
    row: &Row,
) -> Result<bool, Wrong>
    requires keyed { AreKeyed key.now tables.now }
    requires sought { sought.now ≡ key_of key.now row.now }
    ensures { IfOk result (λ can. IsTrue can → CanReplace tables.now at slot row.now) }
{
    let table = table_in(alloc, tables, at)?;
    match table.row(slot) {
        None => Ok(false),
        Some(old) => has_this_key(alloc, key, old, sought),
    }
}

/// A table without a row.
fn table_of(alloc: Global, key: &Seq<u8>, limit: Option<usize>) -> Result<Table, NoMemory>
    ensures keyed { IfOk result (λ table. table.key ≡ key.now) }
    ensures committed { IfOk result (λ table. table.dead ≡ finite.empty) }
{
    let key = key.duplicate(alloc)?;
    Ok(Table::new(alloc, key, limit, Route::Placed(0), 0))
}

/// Two tables without a row.
fn two_tables(alloc: Global, key: &Seq<u8>, limit: Option<usize>) -> Result<Seq<Table>, NoMemory>
    ensures keyed { IfOk result (AreKeyed key.now) }
    ensures committed { IfOk result AreCommitted }
{
    let mut tables = Seq::new(alloc);
    tables.push(table_of(alloc, key, limit)?)?;
    tables.push(table_of(alloc, key, limit)?)?;
    Ok(tables)
}

impl Real {
    /// Two tables without a row.
    pub fn new(alloc: Global, key: Seq<u8>, limit: Option<usize>) -> Result<Real, NoMemory> {
        let tables = two_tables(alloc, &key, limit)?;
        Ok(Real {
            key,
            tables,
            windows: Seq::new(alloc),
            undo: Undo::new(alloc),
        })
    }

    /// The columns of the key.
    pub fn key(&self) -> &[u8]
        ensures { result.now ≡ self.now }
    {
        self.key.as_slice()
    }

    /// One of them.
    pub fn table(&self, alloc: Global, at: u16) -> Result<&Table, Wrong> {
        table_in(alloc, &self.tables, at)
    }

    /// The slot of a key in one of the tables.
    fn found(&self, at: u16, key: &Row) -> Option<Slot> {
        match self.tables.get(usize::from(at)) {
            Some(table) => table.get(key.as_slice()),
            None => None,
        }
    }

    /// Inserts a row, or answers why not. A refused row has to come back as it was.
    fn insert(&mut self, alloc: Global, at: u16, row: &Row) -> Result<Answer, Wrong> {
        if !has_key(self.key.as_slice(), row) || usize::from(at) >= self.tables.len() {
            return Err(Wrong::text(alloc, "no such table or row"));
        }
        a_note_more();
        a_staging_more();
        self.undo.room()?;
        let given = copy_row(alloc, row)?;
        match insert_in(self.key.as_slice(), &mut self.tables, at, given) {
            Err((error, back)) if back == *row => Ok(Answer::Refused(error)),
            Err(_) => Err(Wrong::text(alloc, "a refused row comes back otherwise")),
            Ok(slot) => {
                self.undo.note(Noted::Inserted { table: at, slot });
                Ok(Answer::Made)
            }
        }
    }

    /// Deletes the row of a live slot, if it is one.
    fn delete_slot(&mut self, at: u16, slot: Slot) -> Result<Answer, Wrong> {
        if !is_live(&self.tables, at, slot) {
            return Ok(Answer::Absent);
        }
        a_note_more();
        a_staging_more();
        self.undo.room()?;
        delete_in(self.key.as_slice(), &mut self.tables, at, slot);
        self.undo.note(Noted::Deleted { table: at, slot });
        Ok(Answer::Made)
    }

    /// Deletes the row of a key, if there is one.
    fn delete(&mut self, at: u16, key: &Row) -> Result<Answer, Wrong> {
        match self.found(at, key) {
            None => Ok(Answer::Absent),
            Some(slot) => self.delete_slot(at, slot),
        }
    }

    /// Puts a row in place of the one in a live slot, if that has its key.
    fn replace_slot(
        &mut self,
        alloc: Global,
        at: u16,
        slot: Slot,
        key: &Row,
        row: &Row,
    ) -> Result<Answer, Wrong>
        requires { key.now ≡ key_of self.old row.now }
    {
        if !can_replace(alloc, self.key.as_slice(), &self.tables, at, slot, key, row)? {
            return Ok(Answer::Absent);
        }
        a_note_more();
        a_staging_more();
        self.undo.room()?;
        let given = copy_row(alloc, row)?;
        let old = replace_in(self.key.as_slice(), &mut self.tables, at, slot, given);
        self.undo.note(Noted::Replaced {
            table: at,
            slot,
            old,
        });
        Ok(Answer::Made)
    }

    /// Puts a row in place of the one with its key, if there is one.
    fn replace(&mut self, alloc: Global, at: u16, row: &Row) -> Result<Answer, Wrong> {
        let key = key_of(alloc, self.key.as_slice(), row)?;
        match self.found(at, &key) {
            None => Ok(Answer::Absent),
            Some(slot) => self.replace_slot(alloc, at, slot, &key, row),
        }
    }

    /// Makes a change of a row in one of the tables; a deletion asks for the key alone.
    pub fn make(
        &mut self,
        alloc: Global,
        at: u16,
        change: Change,
        row: &Row,
    ) -> Result<Answer, Wrong> {
        match change {
            Change::Insert => self.insert(alloc, at, row),
            Change::Delete => self.delete(at, row),
            Change::Replace => self.replace(alloc, at, row),
        }
    }

    /// Commits all changes.
    pub fn commit(&mut self, alloc: Global) {
        committed_at_first();
        let mut indexes = Seq::new(alloc);
        self.undo
            .commit(&mut self.tables, &mut indexes, &mut self.windows);
    }

    /// Rolls all changes back.
    pub fn rollback(&mut self, alloc: Global) {
        let mut indexes = Seq::new(alloc);
        self.undo
            .rollback(&mut self.tables, &mut indexes, &mut self.windows);
    }
}
