//! A window: what stages units, takes them back, makes them final, and shows them.

ghost use Rattle.std.specs.Prelude.{◌≡◌, ◌+◌, ◌-◌, ◌<◌, ◌≤◌, ◌^◌, [], length, slice_get, OnOk, IfOk, IfErr};
ghost use Rattle.std.specs.Option.{option_copied};
ghost use Rattle.ss_window.specs.Slides.{first_kept, visible_count, visible_end};
ghost use Rattle.ss_window.specs.WindowValue.{unit_count, empty_window, stage, moves_end, commit, shown_rows, rows_in, WindowInvariant};

use crate::slides::{first_kept, visible_count, visible_end};
use crate::units::Units;
use ss_value::{NoMemory, Row, Rows, Seq, Unit};
use std::alloc::Global;
use std::marker::Model;

/// The last units of a list that only grows, as far as a slide can still show them.
///
/// Contracts see what the window counts, its size and slide, the number of units that it has dropped, the units that
/// it holds behind them, and how many of these were staged since it was last committed. The units that it has dropped
/// are exactly those that could not be seen any more at that commit.
///
/// Costs: `stage` is constant on average over many, `commit` constant for each unit that it drops, `visible` a
/// binary search among the units, `resume` linear in the units, all else constant. The rows of a resumed window are
/// counted by the next `stage`, or by `number_rows`: until then `visible` walks the units before its row. No call copies
/// a row, and only `stage` and `number_rows` take memory: that of the list of units and of a number for each, with at
/// most as much again as spare room. A window holds fewer units than its size and its slide together, and those staged
/// since it was last committed.
#[derive(Drop)]
pub struct Window {
    unit: Unit,
    size: u32,
    slide: u32,
    gone: u64,
    units: Units,
    fresh: u64,
}

impl Model for Window {
    ghost use Rattle.ss_window.specs.WindowValue.{WindowValue, coded_window, WindowInvariant};

    ghost Value = { WindowValue };

    ghost coded = { coded_window };

    ghost view = { λ w. record { unit = w.unit; size = w.size; slide = w.slide; gone = w.gone; kept = w.units; fresh = w.fresh } };

    ghost invariant = { λ w. WindowInvariant (record { unit = w.unit; size = w.size; slide = w.slide; gone = w.gone; kept = w.units; fresh = w.fresh }) };
}

impl Window {
    /// A window without a unit. Takes no memory.
    pub fn new(alloc: Global, unit: Unit, size: u32, slide: u32) -> Window
        requires moves { 1 ≤ slide }
        requires within { slide ≤ size }
        ensures { result ≡ empty_window unit size slide }
    {
        Window {
            unit,
            size,
            slide,
            gone: 0,
            units: Units::new(alloc),
            fresh: 0,
        }
    }

    /// What holds of every window. A law: it does nothing.
    pub fn invariant_holds(&self)
        ensures { WindowInvariant self.now }
    {
        let _ = &self.units;
    }

    /// How many units the window has had in all.
    pub fn units(&self) -> u64
        ensures { result ≡ unit_count self.now }
    {
        self.gone + self.units.len() as u64
    }

    /// Adds a unit behind the others, and answers whether the end of what is visible has moved. Out of memory hands the
    /// unit back and changes nothing.
    pub fn stage(&mut self, unit: Rows) -> Result<bool, (NoMemory, Rows)>
        requires { unit_count self.old < 2 ^ 62 }
        ensures ok { OnOk result (self.new ≡ stage self.old unit) }
        ensures moved { IfOk result (λ moved. moved ≡ moves_end self.old) }
        ensures err { IfErr result (λ e. (self.new ≡ self.old) × (e.1 ≡ unit)) }
    {
        // With 2^62 units at most, no sum of a count and a size leaves 64 bits.
        let count = self.units();
        let before = visible_end(self.size, self.slide, count);
        let after = visible_end(self.size, self.slide, count + 1);
        self.units.push(unit)?;
        // A law: the rows still have numbers of 64 bits, which the invariant says.
        self.units.rows_are_countable();
        self.fresh += 1;
        Ok(before != after)
    }

    /// Takes back the unit that was staged last, and hands it back. Takes no memory.
    pub fn unstage(&mut self) -> Rows
        requires { 1 ≤ (self.old).fresh }
        ensures { self.old ≡ stage self.new result }
    {
        self.fresh -= 1;
        let unit = self.units.pop();
        self.units.rows_are_countable();
        unit
    }

    /// Makes what was staged final: drops the units that no slide can show again. Takes no memory.
    pub fn commit(&mut self)
        ensures { self.new ≡ commit self.old }
    {
        let first = first_kept(self.size, self.slide, self.units());
        self.units.drop_front(first - self.gone);
        self.gone = first;
        self.fresh = 0;
    }

    /// Counts the rows of a resumed window, as the next `stage` would, so that `visible` is a search before it too.
    /// Linear in the number of units whose rows aren't counted yet. Nothing that contracts see changes.
    pub fn number_rows(&mut self) -> Result<(), NoMemory>
        ensures { self.new ≡ self.old }
    {
        self.units.record_all()
    }

    /// The row at this position among those of the visible units, and None exactly past the last. Takes no memory.
    pub fn visible(&self, at: usize) -> Option<&Row>
        ensures { option_copied result ≡ slice_get (shown_rows self.now) at }
    {
        let count = self.units();
        let from = first_kept(self.size, self.slide, count) - self.gone;
        let end = from + visible_count(self.size, count);
        self.units.row_between(from as usize, end as usize, at)
    }

    /// How many units a committed window keeps. Constant.
    pub fn kept_count(&self) -> usize
        requires { (self.now).fresh ≡ 0 }
        ensures { result ≡ length (self.now).kept }
    {
        self.units.len()
    }

    /// The kept unit at this position of a committed window, and None exactly past the last. Takes no memory.
    pub fn kept(&self, at: usize) -> Option<&Rows>
        requires { (self.now).fresh ≡ 0 }
        ensures { option_copied result ≡ slice_get (self.now).kept at }
    {
        self.units.get(at)
    }

    /// The committed window that has had this many units in all, of which it holds these. They are moved; takes no memory.
    pub fn resume(unit: Unit, size: u32, slide: u32, units: u64, kept: Seq<Rows>) -> Window
        requires moves { 1 ≤ slide }
        requires within { slide ≤ size }
        requires bounded { units ≤ 2 ^ 62 }
        requires whole { first_kept size slide units + length kept ≡ units }
        requires countable { length (rows_in kept) < 2 ^ 64 }
        ensures { result ≡ record { unit = unit; size = size; slide = slide; gone = first_kept size slide units; kept = kept; fresh = 0 } }
    {
        Window {
            unit,
            size,
            slide,
            gone: first_kept(size, slide, units),
            units: Units::from_seq(kept),
            fresh: 0,
        }
    }
}
