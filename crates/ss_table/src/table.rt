//! A table: live rows by key, and dead rows that keep their slots, in the fragments of its parts.

ghost use Rattle.std.specs.FinMap as finite;
ghost use Rattle.std.specs.Prelude.{◌≡◌, ◌<◌, ℕ, [], ◌∷◌, IfOk, OnOk, OnErr, IfErr, IsSome, IfSome, None, Some, option_map};
ghost use Rattle.std.specs.Option.{option_copied};
ghost use Rattle.ss_table.specs.Keyed.{AreKeyed};
ghost use Rattle.ss_table.specs.Near.{without_hint};
ghost use Rattle.ss_table.specs.Placed.{ArePlaced};
ghost use Rattle.ss_table.specs.Refusals.{refusal_by, refusal, RefusesAs};
ghost use Rattle.ss_table.specs.Routes.{part_of, place_of, IsRoute};
ghost use Rattle.ss_table.specs.Steps.{WasInserted, WasDeleted, WasReplaced};
ghost use Rattle.ss_table.specs.TableValue.{HasKey, key_of, row_at, first_in, after_in, mark_dead, unmark, insert, remove_fresh, purge, replace};
ghost use Rattle.ss_table.specs.Joins.{StandsAtHome, IsFresh, IsSettled, IsLentBy, with_table, shell_of, WasReleased};

use crate::part::{Part, narrow, part_of_slot};
use crate::route::{Route, part_of, part_of_row};
use ss_fragment::Fragment;
pub use ss_fragment::Hint;
use ss_value::{NoMemory, Row, Seq, Slot, Value};
use std::alloc::Global;
use std::marker::Model;

mod parts;

use parts::{all_are_keyed, are_at_limit, least, other_place, own};

/// Why a row is not inserted.
#[derive(Clone, Copy, Debug, PartialEq, Eq, Drop)]
pub enum TableError {
    /// Out of memory, which may come in place of any other answer.
    NoMemory,
    /// A live row has the key.
    KeyTaken,
    /// There are as many live rows as the limit, or more, since `unmark` asks for no limit.
    Full,
}

/// Rows by the values of their key columns, of one part or of several.
///
/// Contracts see the live rows, a finite map from key to slot and row in the order of the keys, and the dead
/// ones, from slot to row. `get`, `row`, `first` and `after` pass over a dead row, and for `insert` its key is free
/// and it doesn't count towards the limit; but it keeps its slot and its memory. So `unmark` needs no memory, nor does
/// any other call but `insert` and `absorb`.
///
/// Without a limit there may be any number of live rows. A table whose key has no column has one live row at most. A
/// column may stand in a key twice.
///
/// A row stands in the fragment of its part, which its route tells, or in the first where the table has no such part. A
/// slot carries its part, so it is the same before, while and after its table is united with others.
///
/// What the calls cost, where a table has one part:
///
/// - `row`, `mark_dead`, `unmark`, `replace`: constant.
/// - `get`, `insert`, `remove_fresh`, `purge`, `after`: a search, logarithmic in the number of all rows, live and dead; but
///   `remove_fresh` and `purge` of a row near to the one that was freed last need none.
/// - `first`, `first_near`, and `after_near` with the hint that came with the slot: constant.
/// - What comes besides, for dead rows and for the move of a chunk, is said at `Fragment`.
/// - No call copies a row or a key.
///
/// With several parts, of which there are 8 at most:
///
/// - `get` and `insert` find the part of the key, by a division or linear in the bytes of a Text, and then search that
///   part alone. A call by slot compares 8 numbers at most.
/// - `first`, `first_near`, `after` and `after_near` search each part, hint or none, and compare what they find.
/// - `insert` into a table with a limit adds 8 counts at most.
///
/// A row takes its own memory and 50 to 100 bytes more; the page of `Fragment` says what becomes of slots.
#[derive(Drop)]
pub struct Table {
    limit: Option<usize>,
    route: Route,
    /// The first part stands inline, so that a table of one part has no list.
    first: Part,
    others: Seq<Part>,
}

impl Model for Table {
    ghost use Rattle.std.specs.Prelude.{◌∷◌};
    ghost use Rattle.ss_table.specs.TableValue.{TableValue, coded_table};

    ghost Value = { TableValue };

    ghost coded = { coded_table };

    ghost use Rattle.ss_table.specs.Parts.{table_of, IsUnited};

    ghost view = { λ t. table_of t.limit t.route t.first.rows.key (t.first ∷ t.others) };

    ghost invariant = { λ t. IsUnited t.route t.first.rows.key (t.first ∷ t.others) };
}

impl Table {
    /// A table without a row, with these key columns and at most this many live rows, of one part, whose number is below 8.
    /// Takes no memory.
    pub fn new(alloc: Global, key: Seq<u8>, limit: Option<usize>, route: Route, part: u8) -> Table
        requires route { IsRoute route }
        requires part { part < 8 }
        ensures key { result.key ≡ key }
        ensures limit { result.limit ≡ limit }
        ensures live { result.live ≡ finite.empty }
        ensures dead { result.dead ≡ finite.empty }
        ensures route { result.route ≡ route }
        ensures parts { result.parts ≡ part ∷ [] }
    {
        let rows = Fragment::new(alloc, key);
        Table {
            limit,
            route,
            first: Part { number: part, rows },
            others: Seq::new(alloc),
        }
    }

    /// The slot of the live row with a key, and None exactly where no live row has it.
    pub fn get(&self, key: &[Value]) -> Option<Slot>
        ensures { result ≡ option_map (λ p. p.0) (finite.get self.now.live key.now) }
    {
        let others = self.others.as_slice();
        if others.is_empty() {
            return self.first.get(key);
        }
        own(&self.first, others, part_of(self.route, key)).get(key)
    }

    /// The row of a live slot, and None exactly where the slot is not live. Constant.
    pub fn row(&self, slot: Slot) -> Option<&Row>
        ensures { option_copied result ≡ row_at self.now.live slot }
    {
        let part = own(&self.first, self.others.as_slice(), part_of_slot(slot));
        if part.number != part_of_slot(slot) {
            return None;
        }
        part.rows.rows_are_keyed();
        part.rows.row(narrow(slot))
    }

    /// Each live row has every key column, is found by its key, and has a slot of its own. A law: it does nothing but pass
    /// over the parts.
    pub fn rows_are_keyed(&self)
        ensures { AreKeyed self.now }
    {
        self.first.rows.rows_are_keyed();
        all_are_keyed(self.others.as_slice());
    }

    /// There is a part at least, and none twice. The slot of each live row is of one of them, where its key is at home. A
    /// law: it does nothing.
    pub fn rows_are_placed(&self)
        ensures { ArePlaced self.now }
    {
        let _ = &self.first;
    }

    /// The live slot with the least key, and None exactly where no row is live. Constant, but for a step for each dead
    /// row before it.
    pub fn first(&self) -> Option<Slot>
        ensures { result ≡ first_in (finite.entries self.now.live) }
    {
        match least(&self.first, self.others.as_slice(), None) {
            None => None,
            Some((slot, _)) => Some(slot),
        }
    }

    /// The live slot with the next greater key than a live slot's, and None exactly behind the last. A search in each part,
    /// logarithmic, and a step for each dead row between; a whole walk of one part is cheaper by `after_near`.
    pub fn after(&self, slot: Slot) -> Option<Slot>
        requires { IsSome (row_at self.now.live slot) }
        ensures { result ≡ after_in (finite.entries self.now.live) slot }
    {
        self.rows_are_keyed();
        let row = self.row(slot);
        match least(&self.first, self.others.as_slice(), row) {
            None => None,
            Some((next, _)) => Some(next),
        }
    }

    /// The live slot with the least key, with a hint for the next step of a walk. Costs as much as `first`.
    pub fn first_near(&self) -> Option<(Slot, Hint)>
        ensures { without_hint result ≡ first_in (finite.entries self.now.live) }
    {
        if self.others.as_slice().is_empty() {
            return self.first.first_near();
        }
        match self.first() {
            None => None,
            // With several parts a step searches, whatever the hint is.
            Some(slot) => Some((
                slot,
                Hint {
                    chunk: 0,
                    position: 0,
                },
            )),
        }
    }

    /// The live slot with the next greater key than a live slot's, as `after` gives it, with a hint for the next step.
    ///
    /// Whatever the hint is, the slot is the same. In a table of one part, with the hint that came with the slot, and no row
    /// inserted or freed since, constant but for a step for each dead row between; else a search as in `after`.
    pub fn after_near(&self, slot: Slot, hint: Hint) -> Option<(Slot, Hint)>
        requires { IsSome (row_at self.now.live slot) }
        ensures { without_hint result ≡ after_in (finite.entries self.now.live) slot }
    {
        if self.others.as_slice().is_empty() {
            return self.first.after_near(slot, hint);
        }
        match self.after(slot) {
            None => None,
            Some(next) => Some((next, hint)),
        }
    }

    /// Makes a live slot dead. It keeps its row and its position in the order. Constant, and takes no memory.
    pub fn mark_dead(&mut self, slot: Slot)
        requires { IsSome (row_at self.old.live slot) }
        ensures new { self.new ≡ mark_dead self.old slot }
        ensures step { WasDeleted self.old self.new slot }
    {
        match other_place(&self.first, self.others.as_slice(), part_of_slot(slot)) {
            None => {
                self.first.rows.rows_are_keyed();
                self.first.rows.mark_dead(narrow(slot))
            }
            Some(at) => match self.others.get_mut(at) {
                None => unreachable!(),
                Some(part) => {
                    part.rows.rows_are_keyed();
                    part.rows.mark_dead(narrow(slot))
                }
            },
        }
    }

    /// Makes a dead slot live again, where no live row has its key. Constant, and takes no memory.
    pub fn unmark(&mut self, slot: Slot)
        requires dead { IsSome (finite.get self.old.dead slot) }
        requires free_key { IfSome (finite.get self.old.dead slot) (λ row. finite.get self.old.live (key_of self.old.key row) ≡ None) }
        ensures { self.new ≡ unmark self.old slot }
    {
        match other_place(&self.first, self.others.as_slice(), part_of_slot(slot)) {
            None => self.first.rows.unmark(narrow(slot)),
            Some(at) => match self.others.get_mut(at) {
                None => unreachable!(),
                Some(part) => part.rows.unmark(narrow(slot)),
            },
        }
    }

    /// Puts another row with its key in a live slot, and gives back the old one. Constant, and takes no memory.
    pub fn replace(&mut self, slot: Slot, row: Row) -> Row
        requires live { IsSome (row_at self.old.live slot) }
        requires same_key { IfSome (row_at self.old.live slot) (λ old. key_of self.old.key row ≡ key_of self.old.key old) }
        ensures old { row_at self.old.live slot ≡ Some result }
        ensures new { self.new ≡ replace self.old slot row }
        ensures step { WasReplaced self.old self.new slot result }
    {
        match other_place(&self.first, self.others.as_slice(), part_of_slot(slot)) {
            None => {
                self.first.rows.rows_are_keyed();
                let old = self.first.rows.replace(narrow(slot), row);
                self.first.rows.rows_are_keyed();
                old
            }
            Some(at) => match self.others.get_mut(at) {
                None => unreachable!(),
                Some(part) => {
                    part.rows.rows_are_keyed();
                    let old = part.rows.replace(narrow(slot), row);
                    part.rows.rows_are_keyed();
                    old
                }
            },
        }
    }

    /// Frees a live slot and gives back its row. Takes no memory.
    pub fn remove_fresh(&mut self, slot: Slot) -> Row
        requires { IsSome (row_at self.old.live slot) }
        ensures old { row_at self.old.live slot ≡ Some result }
        ensures new { self.new ≡ remove_fresh self.old slot }
    {
        match other_place(&self.first, self.others.as_slice(), part_of_slot(slot)) {
            None => {
                self.first.rows.rows_are_keyed();
                self.first.rows.remove_fresh(narrow(slot))
            }
            Some(at) => match self.others.get_mut(at) {
                None => unreachable!(),
                Some(part) => {
                    part.rows.rows_are_keyed();
                    part.rows.remove_fresh(narrow(slot))
                }
            },
        }
    }

    /// Frees a dead slot and gives back its row. Takes no memory.
    pub fn purge(&mut self, slot: Slot) -> Row
        requires { IsSome (finite.get self.old.dead slot) }
        ensures old { finite.get self.old.dead slot ≡ Some result }
        ensures new { self.new ≡ purge self.old slot }
    {
        match other_place(&self.first, self.others.as_slice(), part_of_slot(slot)) {
            None => self.first.rows.purge(narrow(slot)),
            Some(at) => match self.others.get_mut(at) {
                None => unreachable!(),
                Some(part) => part.rows.purge(narrow(slot)),
            },
        }
    }

    /// The number of the part of a row, and that of the first where there is no other.
    fn part_for(&self, row: &Row) -> u8
        requires { HasKey self.now.key row.now }
        ensures { place_of self.now.parts result ≡ place_of self.now.parts (part_of self.now.route (key_of self.now.key row.now)) }
    {
        if self.others.as_slice().is_empty() {
            return self.first.number;
        }
        part_of_row(self.route, self.first.rows.key(), row)
    }

    /// Why a row is refused, memory aside, where this is its part, and a hint where it goes there.
    fn refuses(&self, number: u8, row: &Row) -> (Option<TableError>, Hint)
        requires has_key { HasKey self.now.key row.now }
        requires own { place_of self.now.parts number ≡ place_of self.now.parts (part_of self.now.route (key_of self.now.key row.now)) }
        ensures { result.0 ≡ refusal self.now row.now }
    {
        let others = self.others.as_slice();
        let (taken, hint) = own(&self.first, others, number).rows.holds_key_of(row);
        let full = are_at_limit(self.limit, &self.first, others);
        (refusal_by(taken, full), hint)
    }

    /// Puts a row with a new key into its part, which has this number, with a hint where it goes there. Out of memory hands it
    /// back and changes nothing.
    fn put_new(&mut self, number: u8, row: Row, hint: Hint) -> Result<Slot, Row>
        requires has_key { HasKey self.old.key row }
        requires free { finite.get self.old.live (key_of self.old.key row) ≡ None }
        requires own { place_of self.old.parts number ≡ place_of self.old.parts (part_of self.old.route (key_of self.old.key row)) }
        ensures ok { IfOk result (λ slot. self.new ≡ insert self.old slot row) }
        ensures fresh { IfOk result (λ slot. (row_at self.old.live slot ≡ None) × (finite.get self.old.dead slot ≡ None)) }
        ensures step { IfOk result (λ slot. WasInserted self.old self.new slot) }
        ensures err { IfErr result (λ e. (self.new ≡ self.old) × (e ≡ row)) }
    {
        match other_place(&self.first, self.others.as_slice(), number) {
            None => self.first.put_new(row, hint),
            Some(at) => match self.others.get_mut(at) {
                None => unreachable!(),
                Some(part) => part.put_new(row, hint),
            },
        }
    }

    /// Inserts a row that has every key column, and gives its slot, which no row, live or dead, had.
    ///
    /// `KeyTaken` exactly where a live row has its key, else `Full` exactly where there are as many live rows as the limit,
    /// or more; `NoMemory` may come in place of any answer. An error hands the row back and changes nothing.
    pub fn insert(&mut self, row: Row) -> Result<Slot, (TableError, Row)>
        requires { HasKey self.old.key row }
        ensures ok { IfOk result (λ slot. self.new ≡ insert self.old slot row) }
        ensures admitted { OnOk result (refusal self.old row ≡ None) }
        ensures fresh { IfOk result (λ slot. (row_at self.old.live slot ≡ None) × (finite.get self.old.dead slot ≡ None)) }
        ensures step { IfOk result (λ slot. WasInserted self.old self.new slot) }
        ensures err { IfErr result (λ e. (self.new ≡ self.old) × (e.1 ≡ row)) }
        ensures refused { IfErr result (λ e. RefusesAs (refusal self.old row) e.0) }
    {
        let number = self.part_for(&row);
        // The position that the search for its key found is where the row goes, so a table is searched once.
        let (refusal, hint) = self.refuses(number, &row);
        match refusal {
            Some(error) => Err((error, row)),
            None => match self.put_new(number, row, hint) {
                Ok(slot) => Ok(slot),
                Err(row) => Err((TableError::NoMemory, row)),
            },
        }
    }

    /// Takes in the rows of a table of one part more, as they stand, and leaves the other a shell: its part and its route
    /// stay, its key has no column, and it has no row. Out of memory changes nothing.
    ///
    /// Constant, whatever the number of rows.
    pub fn absorb(&mut self, other: &mut Table) -> Result<(), NoMemory>
        requires key { other.old.key ≡ self.old.key }
        requires route { other.old.route ≡ self.old.route }
        requires part { (p : ℕ) × (other.old.parts ≡ p ∷ []) × IsFresh self.old p }
        requires home { StandsAtHome self.old × StandsAtHome other.old }
        requires settled { IsSettled self.old × IsSettled other.old }
        ensures ok { OnOk result ((self.new ≡ with_table self.old other.old) × (other.new ≡ shell_of other.old)) }
        ensures err { OnErr result ((self.new ≡ self.old) × (other.new ≡ other.old)) }
    {
        let part = Part {
            number: other.first.number,
            rows: other.first.rows.take(),
        };
        if let Err((error, part)) = self.others.push(part) {
            other.first = part;
            return Err(error);
        }
        Ok(())
    }

    /// Gives the last part's rows back to the shell that they came from. Constant, and takes no memory.
    pub fn release(&mut self, back: &mut Table)
        requires lent { IsLentBy self.old back.old }
        requires settled { IsSettled self.old }
        ensures parted { WasReleased self.old self.new back.new }
        ensures limits { (self.new.limit ≡ self.old.limit) × (back.new.limit ≡ back.old.limit) }
        ensures own { back.new.parts ≡ back.old.parts }
    {
        match self.others.pop() {
            None => unreachable!(),
            Some(part) => back.first = part,
        }
    }
}

/// Why a row is refused, by whether its key is taken and whether the table is full.
fn refusal_by(taken: bool, full: bool) -> Option<TableError>
    ensures { result ≡ refusal_by taken full }
{
    if taken {
        Some(TableError::KeyTaken)
    } else if full {
        Some(TableError::Full)
    } else {
        None
    }
}
