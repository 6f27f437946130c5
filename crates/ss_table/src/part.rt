//! The rows of one part, with the table's slots.

ghost use Rattle.std.specs.Prelude.{◌≡◌, ◌<◌, ◌%◌, ◌/◌, ◌^◌, option_map, IfOk, IfErr, IsSome, IfSome, IfNone, None, false};
ghost use Rattle.std.specs.Option.{option_copied};
ghost use Rattle.std.specs.FinMap as finite;
ghost use Rattle.ss_table.specs.Near.{without_hint};
ghost use Rattle.ss_table.specs.TableValue.{HasKey, key_of, row_at, first_in, after_in};
ghost use Rattle.ss_table.specs.Unions.{head};
ghost use Rattle.ss_table.specs.Parts.{wide, wide_live, rows_beyond, live_beyond, IsHead, HasKeyIfAny, WasPut};

use ss_fragment::{Fragment, Hint};
use ss_value::{Row, Slot, Value};

/// The rows of one part, whose number is below 8.
#[derive(Drop)]
pub struct Part {
    pub number: u8,
    pub rows: Fragment,
}

impl Part {
    /// The slot of the live row with a key.
    pub fn get(&self, key: &[Value]) -> Option<Slot>
        requires { self.now.number < 8 }
        ensures { result ≡ option_map (λ p. p.0) (finite.get (wide_live self.now) key.now) }
    {
        // The law by which the slot is below 2 ^ 56.
        self.rows.rows_are_keyed();
        match self.rows.get(key) {
            None => None,
            Some(slot) => Some(wide(self.number, slot)),
        }
    }

    /// The live row with the least key, of those behind a row's key where there is a row, with its slot.
    pub fn next(&self, bound: Option<&Row>) -> Option<(Slot, &Row)>
        requires below { self.now.number < 8 }
        requires bound { HasKeyIfAny self.now.rows.key (option_copied bound) }
        ensures some { IfSome result (λ r. IsHead self.now.rows.key (live_beyond self.now.rows.key (option_copied bound.entry) self.now) r.0 r.1.now) }
        ensures none { IfNone result (head (finite.entries (live_beyond self.now.rows.key (option_copied bound.entry) self.now)) ≡ None) }
    {
        self.rows.rows_are_keyed();
        let Some(slot) = next_in(&self.rows, bound) else {
            return None;
        };
        let Some(row) = self.rows.row(slot) else {
            unreachable!()
        };
        Some((wide(self.number, slot), row))
    }

    /// The live slot with the least key, with a hint.
    pub fn first_near(&self) -> Option<(Slot, Hint)>
        requires { self.now.number < 8 }
        ensures { without_hint result ≡ first_in (finite.entries (wide_live self.now)) }
    {
        self.rows.rows_are_keyed();
        match self.rows.first_near() {
            None => None,
            Some((slot, hint)) => Some((wide(self.number, slot), hint)),
        }
    }

    /// The live slot with the next greater key than a live slot's of this part, with a hint.
    pub fn after_near(&self, slot: Slot, hint: Hint) -> Option<(Slot, Hint)>
        requires own { self.now.number ≡ slot % 8 }
        requires live { IsSome (row_at (wide_live self.now) slot) }
        ensures { without_hint result ≡ after_in (finite.entries (wide_live self.now)) slot }
    {
        self.rows.rows_are_keyed();
        match self.rows.after_near(narrow(slot), hint) {
            None => None,
            Some((next, hint)) => Some((wide(self.number, next), hint)),
        }
    }

    /// Puts a row with a new key in a slot that no row had, and gives the slot. It goes where its key does, which a hint may
    /// tell. Out of memory hands the row back and changes nothing.
    pub fn put_new(&mut self, row: Row, hint: Hint) -> Result<Slot, Row>
        requires below { self.old.number < 8 }
        requires has_key { HasKey self.old.rows.key row }
        requires free { finite.contains_key self.old.rows.live (key_of self.old.rows.key row) ≡ false }
        ensures number { self.new.number ≡ self.old.number }
        ensures ok { IfOk result (WasPut self.old self.new row) }
        ensures err { IfErr result (λ e. (self.new ≡ self.old) × (e ≡ row)) }
    {
        let number = self.number;
        match self.rows.put_new(row, hint) {
            Ok(slot) => {
                self.rows.rows_are_keyed();
                Ok(wide(number, slot))
            }
            Err(row) => Err(row),
        }
    }
}

/// The live slot with the least key, of those behind a row's key where there is a row.
fn next_in(rows: &Fragment, bound: Option<&Row>) -> Option<Slot>
    requires { HasKeyIfAny rows.now.key (option_copied bound) }
    ensures { result ≡ first_in (finite.entries (rows_beyond rows.now.key (option_copied bound.entry) rows.now.live)) }
{
    match bound {
        None => rows.first(),
        Some(row) => rows.behind(row),
    }
}

/// A fragment's slot as one of the table.
#[inline]
pub fn wide(number: u8, slot: Slot) -> Slot
    requires number { number < 8 }
    requires slot { slot < 2 ^ 56 }
    ensures { result ≡ wide number slot }
{
    slot * 8 + usize::from(number)
}

/// A table's slot as one of the fragment that has it.
#[inline]
pub fn narrow(slot: Slot) -> Slot
    ensures { result ≡ slot / 8 }
{
    slot / 8
}

/// The part of a table's slot.
#[inline]
pub fn part_of_slot(slot: Slot) -> u8
    ensures { result ≡ slot % 8 }
{
    (slot % 8) as u8
}
