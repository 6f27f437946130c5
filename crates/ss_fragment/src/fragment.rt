//! A fragment: live rows by key, and dead rows that keep their slots.

ghost use Rattle.std.specs.FinMap as finite;
ghost use Rattle.std.specs.Prelude.{◌≡◌, ◌<◌, ◌^◌, IfOk, IfErr, IsSome, IfSome, None, Some, option_map, false};
ghost use Rattle.std.specs.Option.{option_copied};
ghost use Rattle.std.specs.Ordering.{is_lt};
ghost use Rattle.ss_value.specs.Order.{row_cmp};
ghost use Rattle.ss_fragment.specs.Keyed.{AreKeyed};
ghost use Rattle.ss_fragment.specs.Near.{without_hint};
ghost use Rattle.ss_fragment.specs.FragmentValue.{HasKey, key_of, row_at, first_in, after_in, live_behind};
ghost use Rattle.ss_fragment.specs.FragmentValue.{mark_dead, unmark, insert, remove_fresh, purge, replace, empty_fragment};

use crate::cell::{Cell, fill, free_cell, live_row, make_dead, make_free, make_live, swap_row};
use crate::order::Order;
use crate::search::compare_by;
pub use ss_chunks::Hint;
use ss_value::{Row, Seq, Slot, Value};
use std::alloc::Global;
use std::marker::Model;

mod links;

use links::{link, live_from, live_near, live_with, unlink};

/// Rows by the values of their key columns.
///
/// Contracts see the live rows, a finite map from key to slot and row in the order of the keys, and the dead
/// ones, from slot to row. `get`, `row`, `first` and `after` pass over a dead row, and `put_new` takes its key for a new
/// one; but it keeps its slot and its memory. So `unmark` needs no memory, nor does any other call but `put_new`.
///
/// There may be any number of live rows, up to 2 ^ 56. A fragment whose key has no column has one live row at most. A
/// column may stand in a key twice.
///
/// What the calls cost, where n is the number of all rows, live and dead:
///
/// - `row`, `len`, `mark_dead`, `unmark`, `replace`: constant.
/// - `get`, `holds_key_of`, `put_new`, `remove_fresh`, `purge`, `after`, `behind`: a search, logarithmic in n. It compares
///   numbers that are side by side in memory, and rows only where these tie. The number of a row is its first key value
///   where that is an Int from -2 ^ 62 to 2 ^ 62 - 2. Where it is a Text, it is its first seven bytes, or up to ten where
///   they are small letters; and behind a Text of at most six bytes, or of nine small letters, the second key value, where
///   that is an Int from 0 on: up to 31 behind the longest such Text, and up to 2047 behind eight small letters. So a
///   search reads the rows whose keys begin alike, and few others. It reads none where the number decides the key: where the
///   key is one Int strictly between these bounds, or a Text and an Int behind it that is strictly between its own.
/// - `get` and `holds_key_of` of a key that no row has: they read no row and no cell, but where numbers tie that don't decide.
/// - `put_new` with the hint that `holds_key_of` gave for the row: two or three comparisons in place of a search, so an insert
///   searches once. Where two dead rows or more have the very key, and where a chunk is full, it searches.
/// - `remove_fresh` and `purge` of a row that stands less than eight rows from the one that was freed last: a look at sixteen
///   numbers in place of a search. So the rows of one DELETE are freed with few searches where they stand near to each other.
/// - `get` and `holds_key_of` besides: one step for each dead row with the very key, which reads its cell alone where the
///   number decides the key, and else its row. So where a key is deleted and inserted again k times in one execution, the last
///   time costs k steps.
/// - `first`, `first_near`, and `after_near` with the hint that came with the slot: constant. Where rows were inserted
///   or freed since, the hint may miss, and then `after_near` searches as `after` does.
/// - `first`, `after`, `behind` and these two besides: one step for each dead row before the one that they give. So a walk
///   over all rows takes n steps by `after_near`, n log n at most by `after`, and no memory; but to delete the first row
///   again and again in one execution, found by `first` each time, is quadratic: walk on with `after_near` instead.
/// - `put_new`, `remove_fresh`, `purge` besides: a move of at most 4 kilobytes. Where a chunk is full, and where one
///   becomes empty, the list of chunks is moved too, 24 bytes for each: at most once in 128 inserts. This rare move
///   grows with n, to 200 kilobytes at a million rows that were only inserted. Chunks with few items are not joined.
/// - No call copies a row or a key.
///
/// A row takes its own memory and 50 to 100 bytes more. Slots are used again, but the list of cells, 32 bytes a row,
/// never shrinks: its length is the most rows that the fragment ever had, and it moves when it doubles.
#[derive(Drop)]
pub struct Fragment {
    key: Seq<u8>,
    cells: Vec<Cell>,
    /// The head of the chain of free slots. The invariant says nothing of it, so it is tested before it is used.
    free: usize,
    /// How many slots are free.
    spare: usize,
    /// How many rows are live.
    count: usize,
    order: Order,
}

impl Model for Fragment {
    ghost use Rattle.ss_fragment.specs.FragmentValue.{FragmentValue, coded_fragment};

    ghost Value = { FragmentValue };

    ghost coded = { coded_fragment };

    ghost use Rattle.ss_fragment.specs.Chunks.{slots_of};
    ghost use Rattle.ss_fragment.specs.Invariant.{fragment_of, FragmentInvariant};

    ghost view = { λ t. fragment_of t.key t.cells.items (slots_of t.order) };

    ghost invariant = { λ t. FragmentInvariant t.key t.cells.items t.order t.count t.spare };
}

impl Fragment {
    /// A fragment without a row, with these key columns. Takes no memory.
    pub fn new(alloc: Global, key: Seq<u8>) -> Fragment
        ensures key { result.key ≡ key }
        ensures live { result.live ≡ finite.empty }
        ensures dead { result.dead ≡ finite.empty }
    {
        Fragment {
            key,
            cells: Vec::new(alloc),
            free: 0,
            spare: 0,
            count: 0,
            order: Order::new(alloc),
        }
    }

    /// The slot of the live row with a key, and None exactly where no live row has it.
    pub fn get(&self, key: &[Value]) -> Option<Slot>
        ensures { result ≡ option_map (λ p. p.0) (finite.get self.now.live key.now) }
    {
        live_with(
            &self.order,
            self.cells.as_slice(),
            self.key.as_slice(),
            true,
            key,
        )
    }

    /// Whether a live row has the key of a row, and a hint for `put_new` where that row goes. A search, logarithmic, and a step
    /// for each dead row with that key.
    pub fn holds_key_of(&self, row: &Row) -> (bool, Hint)
        requires { HasKey self.now.key row.now }
        ensures { result.0 ≡ finite.contains_key self.now.live (key_of self.now.key row.now) }
    {
        let (found, hint) = live_near(
            &self.order,
            self.cells.as_slice(),
            self.key.as_slice(),
            false,
            row.as_slice(),
        );
        (found.is_some(), hint)
    }

    /// The key columns. Constant.
    pub fn key(&self) -> &[u8]
        ensures { result.now ≡ self.now.key }
    {
        self.key.as_slice()
    }

    /// How many rows are live. Constant.
    pub fn len(&self) -> usize
        ensures { result ≡ finite.len self.now.live }
    {
        self.count
    }

    /// Whether a row's key stands before another's. Linear in the key columns that tie.
    pub fn stands_before(&self, a: &Row, b: &Row) -> bool
        requires first { HasKey self.now.key a.now }
        requires second { HasKey self.now.key b.now }
        ensures { result ≡ is_lt (row_cmp (key_of self.now.key a.now) (key_of self.now.key b.now)) }
    {
        compare_by(self.key.as_slice(), a.as_slice(), b.as_slice()).is_lt()
    }

    /// The row of a live slot, and None exactly where the slot is not live. Constant.
    pub fn row(&self, slot: Slot) -> Option<&Row>
        ensures { option_copied result ≡ row_at self.now.live slot }
    {
        live_row(self.cells.as_slice(), slot)
    }

    /// Each live row has every key column, is found by its key, and has a slot of its own, below 2 ^ 56. A law: it does
    /// nothing.
    pub fn rows_are_keyed(&self)
        ensures { AreKeyed self.now }
    {
        let _ = self.cells.as_slice();
    }

    /// The live slot with the least key, and None exactly where no row is live. Constant, but for a step for each dead
    /// row before it.
    pub fn first(&self) -> Option<Slot>
        ensures { result ≡ first_in (finite.entries self.now.live) }
    {
        self.order.first_live(self.cells.as_slice())
    }

    /// The live slot with the next greater key than a live slot's, and None exactly behind the last. A search,
    /// logarithmic, and a step for each dead row between; a whole walk is cheaper by `after_near`.
    pub fn after(&self, slot: Slot) -> Option<Slot>
        requires { IsSome (row_at self.now.live slot) }
        ensures { result ≡ after_in (finite.entries self.now.live) slot }
    {
        match live_row(self.cells.as_slice(), slot) {
            None => None,
            // The order goes by key and then by slot, so `slot + 1` begins behind the slot itself.
            Some(row) => live_from(
                &self.order,
                self.cells.as_slice(),
                self.key.as_slice(),
                row.as_slice(),
                slot + 1,
            ),
        }
    }

    /// The live slot with the least key that is greater than a row's, and None exactly where none is. The row need not be
    /// one of the fragment's. A search, logarithmic, and a step for each dead row before the one found.
    pub fn behind(&self, row: &Row) -> Option<Slot>
        requires { HasKey self.now.key row.now }
        ensures { result ≡ first_in (finite.entries (live_behind self.now.live (key_of self.now.key row.now))) }
    {
        // The order goes by key and then by slot, and no slot is as great as this one.
        live_from(
            &self.order,
            self.cells.as_slice(),
            self.key.as_slice(),
            row.as_slice(),
            usize::MAX,
        )
    }

    /// The live slot with the least key, with a hint for the next step of a walk. Costs as much as `first`.
    pub fn first_near(&self) -> Option<(Slot, Hint)>
        ensures { without_hint result ≡ first_in (finite.entries self.now.live) }
    {
        self.order.first_near(self.cells.as_slice())
    }

    /// The live slot with the next greater key than a live slot's, as `after` gives it, with a hint for the next step.
    ///
    /// Whatever the hint is, the slot is the same. With the hint that came with the slot, and no row inserted or freed
    /// since, constant but for a step for each dead row between; with another one a search as in `after`.
    pub fn after_near(&self, slot: Slot, hint: Hint) -> Option<(Slot, Hint)>
        requires { IsSome (row_at self.now.live slot) }
        ensures { without_hint result ≡ after_in (finite.entries self.now.live) slot }
    {
        match self.order.behind(slot, hint, self.cells.as_slice()) {
            Some(found) => found,
            None => match self.after(slot) {
                None => None,
                Some(next) => Some((next, hint)),
            },
        }
    }

    /// Makes a live slot dead. It keeps its row and its position in the order. Constant, and takes no memory.
    pub fn mark_dead(&mut self, slot: Slot)
        requires { IsSome (row_at self.old.live slot) }
        ensures new { self.new ≡ mark_dead self.old slot }
        ensures apart { finite.get self.old.dead slot ≡ None }
    {
        make_dead(&mut self.cells, slot);
        self.count -= 1;
    }

    /// Makes a dead slot live again, where no live row has its key. Constant, and takes no memory.
    pub fn unmark(&mut self, slot: Slot)
        requires dead { IsSome (finite.get self.old.dead slot) }
        requires free_key { IfSome (finite.get self.old.dead slot) (λ row. finite.get self.old.live (key_of self.old.key row) ≡ None) }
        ensures { self.new ≡ unmark self.old slot }
    {
        make_live(&mut self.cells, slot);
        self.count += 1;
    }

    /// Puts another row with its key in a live slot, and gives back the old one. Constant, and takes no memory.
    pub fn replace(&mut self, slot: Slot, row: Row) -> Row
        requires live { IsSome (row_at self.old.live slot) }
        requires same_key { IfSome (row_at self.old.live slot) (λ old. key_of self.old.key row ≡ key_of self.old.key old) }
        ensures old { row_at self.old.live slot ≡ Some result }
        ensures new { self.new ≡ replace self.old slot row }
        ensures there { row_at self.new.live slot ≡ Some row }
    {
        swap_row(&mut self.cells, slot, row)
    }

    /// Frees a live slot and gives back its row. Takes no memory.
    pub fn remove_fresh(&mut self, slot: Slot) -> Row
        requires { IsSome (row_at self.old.live slot) }
        ensures old { row_at self.old.live slot ≡ Some result }
        ensures new { self.new ≡ remove_fresh self.old slot }
    {
        // The slot is found in the order by its row's key, so it leaves the order before the row leaves the slot.
        unlink(
            &mut self.order,
            self.cells.as_slice(),
            self.key.as_slice(),
            slot,
        );
        let row = free_cell(&mut self.cells, slot, self.free);
        self.free = slot;
        self.spare += 1;
        self.count -= 1;
        row
    }

    /// Frees a dead slot and gives back its row. Takes no memory.
    pub fn purge(&mut self, slot: Slot) -> Row
        requires { IsSome (finite.get self.old.dead slot) }
        ensures old { finite.get self.old.dead slot ≡ Some result }
        ensures new { self.new ≡ purge self.old slot }
    {
        unlink(
            &mut self.order,
            self.cells.as_slice(),
            self.key.as_slice(),
            slot,
        );
        let row = free_cell(&mut self.cells, slot, self.free);
        self.free = slot;
        self.spare += 1;
        row
    }

    /// Puts a row with a new key in a slot that no row, live or dead, had, and gives the slot, which is below 2 ^ 56. Out of
    /// memory hands the row back and changes nothing.
    ///
    /// Whatever the hint is, the row goes where its key does. With the hint that `holds_key_of` gave for the row, and no row
    /// inserted or freed since, no search but two or three comparisons, unless two dead rows or more have the very key or a chunk
    /// is full; with another one a search. Besides, the move of a chunk.
    pub fn put_new(&mut self, row: Row, hint: Hint) -> Result<Slot, Row>
        requires has_key { HasKey self.old.key row }
        requires free { finite.contains_key self.old.live (key_of self.old.key row) ≡ false }
        ensures ok { IfOk result (λ slot. self.new ≡ insert self.old slot row) }
        ensures few { IfOk result (λ slot. slot < 2 ^ 56) }
        ensures fresh { IfOk result (λ slot. (row_at self.old.live slot ≡ None) × (finite.get self.old.dead slot ≡ None)) }
        ensures there { IfOk result (λ slot. row_at self.new.live slot ≡ Some row) }
        ensures err { IfErr result (λ e. (self.new ≡ self.old) × (e ≡ row)) }
    {
        // What may fail comes first: contracts don't see one free slot more, and `link` fails without a change.
        if make_free(&mut self.cells, &mut self.free, &mut self.spare).is_err() {
            return Err(row);
        }
        let slot = self.free;
        if link(
            &mut self.order,
            self.cells.as_slice(),
            self.key.as_slice(),
            row.as_slice(),
            slot,
            hint,
        )
        .is_err()
        {
            return Err(row);
        }
        self.free = fill(&mut self.cells, slot, row);
        self.spare -= 1;
        self.count += 1;
        Ok(slot)
    }

    /// Takes all rows out, live and dead, with their slots, and leaves no row and a key of no column. Constant, and takes no
    /// memory.
    pub fn take(&mut self) -> Fragment
        ensures all { result ≡ self.old }
        ensures empty { self.new ≡ empty_fragment }
    {
        let alloc = *self.cells.allocator();
        std::mem::replace(self, Fragment::new(alloc, Seq::new(alloc)))
    }
}
