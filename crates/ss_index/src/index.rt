//! An index: pairs of column values and slot, and how often each occurs.

ghost use Rattle.std.specs.FinMap as finite;
ghost use Rattle.std.specs.Prelude.{◌≡◌, ℕ, List, IsSome, IfOk, OnOk, OnErr, [], ◌∷◌, map, option_copied};
ghost use Rattle.ss_chunks.specs.Chunks.{rest_items};
ghost use Rattle.ss_index.specs.Pairs.{pair_of, agree_on, AreCounted, add_pair, drop_pair, with_pairs, slots_in};
ghost use Rattle.ss_index.specs.Entries.{pair_in, slots_to, is_next, ahead};
ghost use Rattle.ss_index.specs.Parts.{MayJoin, joined, shell, IsLastShell, WasParted};

use crate::index_entry::{IndexEntry, entry_of};
use crate::merge::{heads_of, merged_slots};
use crate::part::IndexPart;
use crate::parts::{insert_dealt, part_of, pop_part, push_part, remove_dealt};
use crate::search::{PairAim, RangeAim, agree_on, is_past, is_same};
use ss_chunks::Rest;
use ss_value::{NoMemory, Row, Seq, Slot};
use std::alloc::Global;
use std::marker::Model;

/// The slots of rows by their values in some columns.
///
/// Contracts see the columns, how often each pair occurs, and the numbers of the parts that the index holds. A pair that
/// occurs more than once has as many entries, side by side. An entry has copies of its values, since a row may change
/// while its old pair is still held.
///
/// An index holds one part, or several while an execution runs on them. A slot's part is its remainder by 8: there its
/// pairs stand where the index holds that part, and else in the first. So `absorb` and `release` move no entry, and with
/// one part a call costs what it would cost with no parts at all.
///
/// - `add`: copies the values; a search, logarithmic in the entries, and a move of one chunk of them, 10 kilobytes.
/// - `drop_row`: the same search and move, and no memory. No copy of a value is made.
/// - `range`: a search, one step for each entry in the range, and the memory of the slots. With several parts a search in
///   each, and for each pair a comparison with the next entry of each, at most eight, and a list of as many.
/// - `absorb`, `release`: a move of a hundred bytes.
#[derive(Drop)]
pub struct Index {
    alloc: Global,
    columns: Seq<u8>,
    first: IndexPart,
    others: Vec<IndexPart>,
}

impl Model for Index {
    ghost use Rattle.ss_index.specs.Pairs.{IndexValue, coded_index};

    ghost Value = { IndexValue };

    ghost coded = { coded_index };

    ghost use Rattle.ss_index.specs.Parts.{index_of, AreDealt};

    ghost view = { λ o. index_of o.columns o.first o.others.items };

    ghost invariant = { λ o. AreDealt o.first o.others.items };
}

impl Index {
    /// An index without a pair, on these columns, that holds one part. Takes no memory.
    pub fn new(alloc: Global, columns: Seq<u8>, part: u8) -> Index
        ensures columns { result.columns ≡ columns }
        ensures pairs { result.pairs ≡ finite.empty }
        ensures parts { result.parts ≡ part ∷ [] }
    {
        Index {
            alloc,
            columns,
            first: IndexPart::new(alloc, part),
            others: Vec::new(alloc),
        }
    }

    /// The columns. Constant.
    pub fn columns(&self) -> &[u8]
        ensures { result.now ≡ self.now.columns }
    {
        self.columns.as_slice()
    }

    /// Adds the pair of a row in a slot, once more where it is there. Out of memory changes nothing.
    pub fn add(&mut self, row: &Row, slot: Slot) -> Result<(), NoMemory>
        ensures ok { OnOk result (self.new ≡ with_pairs self.old (add_pair self.old.pairs (pair_of self.old.columns row.now slot))) }
        ensures err { OnErr result (self.new ≡ self.old) }
    {
        // The copies come first, so that out of memory leaves the index unchanged.
        let entry = entry_of(self.alloc, self.columns.as_slice(), row, slot)?;
        let aim = PairAim {
            columns: self.columns.as_slice(),
            row: row.as_slice(),
            slot,
        };
        let number = part_of(slot);
        insert_dealt(&mut self.first, &mut self.others, number, &aim, entry)
    }

    /// Drops the pair of a row in a slot, once. Takes no memory.
    pub fn drop_row(&mut self, row: &Row, slot: Slot)
        requires { IsSome (finite.get self.old.pairs (pair_of self.old.columns row.now slot)) }
        ensures { self.new ≡ with_pairs self.old (drop_pair self.old.pairs (pair_of self.old.columns row.now slot)) }
    {
        let aim = PairAim {
            columns: self.columns.as_slice(),
            row: row.as_slice(),
            slot,
        };
        let number = part_of(slot);
        remove_dealt(&mut self.first, &mut self.others, number, &aim)
    }

    /// Whether two rows have the same pair, in whatever slot. Compares a value a column, up to the first that differs.
    pub fn agree(&self, a: &Row, b: &Row) -> bool
        ensures { result ≡ agree_on self.now.columns a.now b.now }
    {
        agree_on(self.columns.as_slice(), a.as_slice(), b.as_slice())
    }

    /// No pair is listed with 0 occurrences. A law: it does nothing.
    pub fn pairs_are_counted(&self)
        ensures { AreCounted self.now.pairs }
    {
        let _ = self.columns.as_slice();
    }

    /// There is a part at least. A law: it does nothing.
    pub fn holds_a_part(&self)
        ensures { (part : ℕ) × (parts : List ℕ) × (self.now.parts ≡ part ∷ parts) }
    {
        let _ = self.columns.as_slice();
    }

    /// The slots of the pairs from one end to another, both included, by as many leading columns as each end has. They
    /// are in the order of the columns' values and then of the slots, one for each pair, however often it occurs.
    pub fn range(&self, low: &Row, high: &Row) -> Result<Seq<Slot>, NoMemory>
        ensures { IfOk result (λ slots. slots ≡ slots_in self.now.pairs low.now high.now) }
    {
        let aim = RangeAim {
            low: low.as_slice(),
        };
        if self.others.as_slice().is_empty() {
            slots_to(self.alloc, self.first.rest(&aim), high)
        } else {
            let heads = heads_of(self.alloc, &self.first, self.others.as_slice(), &aim)?;
            merged_slots(self.alloc, heads, high)
        }
    }

    /// Takes in another index, of one part more: its entries are moved together, and it is left as a shell, to which
    /// `release` gives them back. Out of memory changes nothing.
    pub fn absorb(&mut self, other: &mut Index) -> Result<(), NoMemory>
        requires { MayJoin self.old other.old }
        ensures ok { OnOk result ((self.new ≡ joined self.old other.old) × (other.new ≡ shell other.old)) }
        ensures err { OnErr result ((self.new ≡ self.old) × (other.new ≡ other.old)) }
    {
        let empty = IndexPart::new(self.alloc, other.first.number());
        let part = std::mem::replace(&mut other.first, empty);
        if let Err(back) = push_part(&mut self.others, part) {
            other.first = back;
            return Err(NoMemory);
        }
        Ok(())
    }

    /// Gives the last part back to its shell, with just the pairs of that part's slots. Takes no memory.
    pub fn release(&mut self, back: &mut Index)
        requires { IsLastShell self.old back.old }
        ensures { WasParted self.old self.new back.new }
    {
        let Some(part) = pop_part(&mut self.others) else {
            unreachable!()
        };
        back.first = part;
    }
}

/// Whether the next entry has the same pair.
fn is_next(entry: &IndexEntry, next: Option<&IndexEntry>) -> bool
    ensures { result ≡ is_next (pair_in entry.now) (ahead (option_copied next.entry) []) }
{
    match next {
        None => false,
        Some(next) => is_same(entry, next),
    }
}

/// The slots of entries up to the end of a range, each pair once.
fn slots_to(alloc: Global, rest: Rest<'_, IndexEntry>, high: &Row) -> Result<Seq<Slot>, NoMemory>
    ensures { IfOk result (λ slots. slots ≡ slots_to high.now (map pair_in (rest_items rest.entry))) }
{
    let mut behind = rest;
    let mut slots = Seq::new(alloc);
    let mut here = behind.next();
    while let Some(entry) = here {
        if is_past(entry, high) {
            return Ok(slots);
        }
        here = behind.next();
        // Equal entries are side by side, so the last of them gives the pair's slot once.
        if !is_next(entry, here) {
            slots.push(entry.slot)?;
        }
    }
    Ok(slots)
}
