//! Slots in the order of their rows' keys.

ghost use Rattle.std.specs.Prelude.{◌≡◌, ◌==◌, List, [], true, false, IfSome, OnOk, OnErr, option_and_then, drop};
ghost use Rattle.std.specs.List.{insert, remove, find};
ghost use Rattle.std.specs.List.Sorted.{IsPartitionedBy};
ghost use Rattle.ss_chunks.specs.Chunks.{rest_items};
ghost use Rattle.ss_fragment.specs.Targets.{target_of, is_before, rank, stops, hit, target_mark};
ghost use Rattle.ss_fragment.specs.Cells.{is_live};
ghost use Rattle.ss_fragment.specs.Chunks.{slots_of};
ghost use Rattle.ss_fragment.specs.Near.{without_hint, IsBehind, IsBehindFirst, LostMark};

use crate::cell::{Cell, is_live};
use crate::mark::PrefixedSlot;
use crate::search::{Aim, is_past};
use ss_chunks::{Chunked, Hint, Rest, Wanted};
use ss_value::NoMemory;
use std::alloc::Global;
use std::marker::Model;

/// The slots with a row, live and dead, by key and at equal keys by slot: marks of 16 bytes, in chunks.
#[derive(Drop)]
pub struct Order {
    marks: Chunked<PrefixedSlot>,
    /// Where the last mark was taken out: the next one often stands near, since the rows of one DELETE do. Nothing is known of
    /// it, so contracts don't see it.
    gone: Hint,
}

impl Model for Order {
    ghost use Rattle.std.specs.Prelude.{List};
    ghost use Rattle.ss_fragment.specs.declared.mark.PrefixedSlot.{PrefixedSlot};

    ghost Value = { List PrefixedSlot };

    ghost view = { λ o. o.marks };
}

/// The slot whose mark is looked for.
#[derive(Drop)]
struct SlotWanted {
    slot: usize,
}

impl Wanted<PrefixedSlot> for SlotWanted {
    ghost wants = { λ w m. m.slot == w.slot };

    fn is_wanted(&self, item: &PrefixedSlot) -> bool {
        item.slot == self.slot
    }
}

/// The first live slot of some marks.
fn live_in(rest: Rest<'_, PrefixedSlot>, cells: &[Cell]) -> Option<usize>
    ensures { result ≡ find (is_live cells.now) (slots_of (rest_items rest.entry)) }
{
    let mut behind = rest;
    while let Some(mark) = behind.next() {
        if is_live(cells, mark.slot) {
            return Some(mark.slot);
        }
    }
    None
}

/// The first live slot of some marks, with a hint where it stands.
fn live_near(rest: Rest<'_, PrefixedSlot>, cells: &[Cell]) -> Option<(usize, Hint)>
    ensures { without_hint result ≡ find (is_live cells.now) (slots_of (rest_items rest.entry)) }
{
    let mut behind = rest;
    let mut hint = behind.hint;
    while let Some(mark) = behind.next() {
        if is_live(cells, mark.slot) {
            return Some((mark.slot, hint));
        }
        hint = behind.hint;
    }
    None
}

/// The first live slot behind the first of some marks, with a hint where it stands, and None where the first mark is not
/// that of this slot.
fn live_behind(
    rest: Rest<'_, PrefixedSlot>,
    slot: usize,
    cells: &[Cell],
) -> Option<Option<(usize, Hint)>>
    ensures { IfSome result (λ found. IsBehindFirst (rest_items rest.entry) slot cells.now (without_hint found)) }
{
    let mut behind = rest;
    match behind.next() {
        None => None,
        Some(mark) => {
            if mark.slot == slot {
                Some(live_near(behind, cells))
            } else {
                None
            }
        }
    }
}

/// The live slot with the key that an aim seeks, at the front of some marks. Where the aim's prefix decides
/// the key, it reads the cells of that key and no row.
fn hit_in(rest: Rest<'_, PrefixedSlot>, aim: &Aim) -> Option<usize>
    ensures { let a = target_of aim.now in result ≡ option_and_then (hit a) (find (stops a) (rest_items rest.entry)) }
{
    let mut behind = rest;
    while let Some(mark) = behind.next() {
        // Most marks are past by their prefix alone, so this is asked before the cell is read.
        if is_past(aim, mark) {
            return None;
        }
        if is_live(aim.cells, mark.slot) {
            return Some(mark.slot);
        }
    }
    None
}

impl Order {
    /// The order of no slot. Takes no memory.
    pub fn new(alloc: Global) -> Order
        ensures { result ≡ [] }
    {
        Order {
            marks: Chunked::new(alloc),
            gone: Hint {
                chunk: 0,
                position: 0,
            },
        }
    }

    /// The first live slot. One step for each dead slot before it.
    pub fn first_live(&self, cells: &[Cell]) -> Option<usize>
        ensures { result ≡ find (is_live cells.now) (slots_of self.now) }
    {
        live_in(self.marks.all(), cells)
    }

    /// The first live slot, with a hint where it stands. One step for each dead slot before it.
    pub fn first_near(&self, cells: &[Cell]) -> Option<(usize, Hint)>
        ensures { without_hint result ≡ find (is_live cells.now) (slots_of self.now) }
    {
        live_near(self.marks.all(), cells)
    }

    /// The first live slot behind a slot that stands at a hint, with a hint where it stands, and None where the slot
    /// doesn't stand there. One step for each dead slot between.
    pub fn behind(&self, slot: usize, hint: Hint, cells: &[Cell]) -> Option<Option<(usize, Hint)>>
        ensures { IfSome result (λ found. IsBehind self.now slot cells.now (without_hint found)) }
    {
        match self.marks.rest_at(hint) {
            None => None,
            Some(rest) => live_behind(rest, slot, cells),
        }
    }

    /// The first live slot that doesn't stand before an aim. A search, and one step for each dead slot between.
    pub fn next_live(&self, aim: &Aim) -> Option<usize>
        requires { IsPartitionedBy (is_before (target_of aim.now)) self.now }
        ensures { let a = target_of aim.now in result ≡ find (is_live a.cells) (slots_of (drop (rank a self.now) self.now)) }
    {
        live_in(self.marks.rest(aim), aim.cells)
    }

    /// The live slot with the key that an aim seeks, from the aim on, with a hint where the aim stands. A search, and one step
    /// for each dead slot with the key.
    pub fn next_hit(&self, aim: &Aim) -> (Option<usize>, Hint)
        requires { IsPartitionedBy (is_before (target_of aim.now)) self.now }
        ensures { let a = target_of aim.now in result.0 ≡ option_and_then (hit a) (find (stops a) (drop (rank a self.now) self.now)) }
    {
        let from = self.marks.rest(aim);
        let hint = from.hint;
        (hit_in(from, aim), hint)
    }

    /// Puts the aim's slot in front of the first that doesn't stand before it. A search, but where that is at the hint or next
    /// to it, and the move of a chunk. Out of memory changes nothing.
    pub fn insert(&mut self, aim: &Aim, hint: Hint) -> Result<(), NoMemory>
        requires { IsPartitionedBy (is_before (target_of aim.now)) self.old }
        ensures ok { let a = target_of aim.now in OnOk result (self.new ≡ insert self.old (rank a self.old) (target_mark a)) }
        ensures err { OnErr result (self.new ≡ self.old) }
    {
        let mark = PrefixedSlot {
            prefix: aim.prefix,
            slot: aim.slot,
        };
        self.marks.insert_near(hint, aim, mark)
    }

    /// Takes out the mark of a slot where it stands near the one that was taken out last, and answers whether it does. A look at
    /// sixteen marks at most, no row, and the move of a chunk. Takes no memory.
    pub fn remove_near(&mut self, slot: usize) -> bool
        ensures found { result ≡ true → LostMark self.old self.new slot }
        ensures missed { result ≡ false → self.new ≡ self.old }
    {
        match self.marks.take_near(self.gone, &SlotWanted { slot }) {
            None => false,
            Some(place) => {
                self.gone = place;
                true
            }
        }
    }

    /// Takes out the first slot that doesn't stand before an aim, if there is one. A search, and the move of a chunk. Takes no
    /// memory.
    pub fn remove(&mut self, aim: &Aim)
        requires { IsPartitionedBy (is_before (target_of aim.now)) self.old }
        ensures { let a = target_of aim.now in self.new ≡ remove self.old (rank a self.old) }
    {
        self.gone = self.marks.remove(aim);
    }
}
