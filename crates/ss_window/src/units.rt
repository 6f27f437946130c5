//! Units in order, whose rows are found by number.

ghost use Rattle.std.specs.Prelude.{◌≡◌, ◌-◌, ◌≤◌, ◌<◌, ◌^◌, [], ◌∷◌, ◌++◌, length, take, drop, slice_get, OnOk, IfErr};
ghost use Rattle.std.specs.Option.{option_copied};
ghost use Rattle.ss_window.specs.WindowValue.{rows_in};
ghost use Rattle.ss_window.specs.Numbers.{rows_before};

use crate::starts::{count_before, position_of, record_unit_ends, row_from, start_of};
use ss_value::{NoMemory, Row, Rows, Seq};
use std::alloc::Global;
use std::collections::VecDeque;
use std::marker::Model;

/// Units in order, over a ring: a unit joins at the end and leaves at either end, constant on average.
///
/// Their rows are numbered from `first` up to `next`, and for the first of them `unit_ends` records where each ends: for
/// all units after a `push`, and for none after `from_seq`. Where a unit leaves, the other rows keep their numbers, so
/// nothing that is recorded changes.
#[derive(Drop)]
pub struct Units {
    ring: VecDeque<Rows>,
    unit_ends: VecDeque<usize>,
    first: usize,
    next: usize,
}

impl Model for Units {
    ghost use Rattle.std.specs.Prelude.{List};
    ghost use Rattle.ss_value.specs.Rows.{Rows};
    ghost use Rattle.ss_window.specs.WindowValue.{coded_units};
    ghost use Rattle.ss_window.specs.Numbers.{AreNumbered};

    ghost Value = { List Rows };

    ghost coded = { coded_units };

    ghost view = { λ u. u.ring.items };

    ghost invariant = { λ u. AreNumbered u.first u.next u.unit_ends.items u.ring.items };
}

impl Units {
    /// A list without a unit. Takes no memory.
    pub fn new(alloc: Global) -> Units
        ensures { result ≡ [] }
    {
        Units {
            ring: VecDeque::new(alloc),
            unit_ends: VecDeque::new(alloc),
            first: 0,
            next: 0,
        }
    }

    /// The units of a list, which is moved and not copied. Linear in their number; takes no memory, and so records no
    /// unit's end.
    pub fn from_seq(units: Seq<Rows>) -> Units
        requires { length (rows_in units) < 2 ^ 64 }
        ensures { result ≡ units }
    {
        let ring = VecDeque::from_vec(units.into_vec());
        let unit_ends = VecDeque::new(*ring.allocator());
        let next = count_before(&ring, ring.len());
        Units {
            ring,
            unit_ends,
            first: 0,
            next,
        }
    }

    /// The rows have numbers of 64 bits. A law: it does nothing.
    pub fn rows_are_countable(&self)
        ensures { length (rows_in self.now) < 2 ^ 64 }
    {
        let _next = self.next;
    }

    /// The number of units.
    pub fn len(&self) -> usize
        ensures { result ≡ length self.now }
    {
        self.ring.len()
    }

    /// The unit at a position, and None exactly past the last. Constant.
    pub fn get(&self, at: usize) -> Option<&Rows>
        ensures { option_copied result ≡ slice_get self.now at }
    {
        self.ring.get(at)
    }

    /// Records where every unit ends, so that each row is found by a search. Linear in the number of units of which that
    /// isn't recorded yet. The units are unchanged.
    pub fn record_all(&mut self) -> Result<(), NoMemory>
        ensures { self.new ≡ self.old }
    {
        record_unit_ends(self.first, &mut self.unit_ends, &self.ring)
    }

    /// Adds a unit at the end. Out of memory hands it back and changes nothing; so does a count of all rows so far, those
    /// that left included, that would be over 64 bits. Constant on average over many, and once, where the units came as a
    /// list, linear in their number.
    pub fn push(&mut self, unit: Rows) -> Result<(), (NoMemory, Rows)>
        ensures ok { OnOk result (self.new ≡ self.old ++ unit ∷ []) }
        ensures err { IfErr result (λ e. (self.new ≡ self.old) × (e.1 ≡ unit)) }
    {
        let Some(next) = self.next.checked_add(unit.len()) else {
            return Err((NoMemory, unit));
        };
        // Room for the unit's end is made before the unit joins, so that nothing has to be undone.
        if record_unit_ends(self.first, &mut self.unit_ends, &self.ring).is_err()
            || self.unit_ends.reserve(1).is_err()
        {
            return Err((NoMemory, unit));
        }
        match self.ring.push_back(unit) {
            Ok(()) => {
                self.unit_ends.push_back_reserved(next);
                self.next = next;
                Ok(())
            }
            Err(refused) => Err((NoMemory, refused.value)),
        }
    }

    /// Takes the last unit off. Takes no memory.
    pub fn pop(&mut self) -> Rows
        requires { 1 ≤ length self.old }
        ensures { self.old ≡ self.new ++ result ∷ [] }
    {
        match self.ring.pop_back() {
            Some(unit) => {
                self.next -= unit.len();
                self.unit_ends.truncate(self.ring.len());
                unit
            }
            None => unreachable!(),
        }
    }

    /// Drops this many units at the front. Constant for each; takes no memory.
    pub fn drop_front(&mut self, count: u64)
        requires { count ≤ length self.old }
        ensures { self.new ≡ drop count self.old }
    {
        for _ in 0..count {
            match self.ring.pop_front() {
                Some(unit) => {
                    self.first += unit.len();
                    let _end = self.unit_ends.pop_front();
                }
                None => unreachable!(),
            }
        }
    }

    /// How many rows the units before a position have. Constant where its start is recorded, else linear in the position.
    fn rows_before(&self, position: usize) -> usize
        requires { position ≤ length self.now }
        ensures { result ≡ rows_before position self.now }
    {
        match start_of(self.first, &self.unit_ends, position) {
            Some(start) => start - self.first,
            None => {
                self.rows_are_countable();
                count_before(&self.ring, position)
            }
        }
    }

    /// The row at this position among those of all units, and None exactly past the last. A search where the end of its
    /// unit is recorded, else a step for each unit behind those that are recorded.
    fn row(&self, at: usize) -> Option<&Row>
        ensures { option_copied result ≡ slice_get (rows_in self.now) at }
    {
        if at >= self.next - self.first {
            return None;
        }
        let (position, behind) = position_of(self.first, &self.unit_ends, self.first + at);
        row_from(&self.ring, position, behind)
    }

    /// The row at this position among those of the units between two positions, and None exactly past the last. It costs
    /// what `row` and two calls of `rows_before` do.
    pub fn row_between(&self, from: usize, end: usize, at: usize) -> Option<&Row>
        requires rises { from ≤ end }
        requires within { end ≤ length self.now }
        ensures { option_copied result ≡ slice_get (rows_in (take (end - from) (drop from self.now))) at }
    {
        let before = self.rows_before(from);
        if at < self.rows_before(end) - before {
            self.row(before + at)
        } else {
            None
        }
    }
}
