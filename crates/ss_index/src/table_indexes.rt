//! The indexes of one table.

ghost use Rattle.std.specs.Prelude.{◌≡◌, List, [], ◌∷◌, ◌++◌, OnOk, OnErr, slice_get};
ghost use Rattle.std.specs.Option.{option_copied};
ghost use Rattle.std.specs.List.{AllByRecursion};
ghost use Rattle.ss_index.specs.Pairs.{AreCounted};
ghost use Rattle.ss_index.specs.Indexes.{with_rows, without_rows, agree_in, HavePair, MayJoinAll, joined_all, shells, AreLastShells, WereParted};

use crate::index::Index;
use ss_value::{NoMemory, Row, Slot};
use std::alloc::Global;
use std::marker::Model;

/// The indexes of one table, in the order in which the catalogue lists them.
///
/// Each call costs as much as the same call of every index.
#[derive(Drop)]
pub struct Indexes {
    items: Vec<Index>,
}

impl Model for Indexes {
    ghost use Rattle.std.specs.Prelude.{List};
    ghost use Rattle.ss_index.specs.Pairs.{IndexValue, coded_index};
    ghost use Rattle.std.specs.Coded.{coded_list};

    ghost Value = { List IndexValue };

    ghost coded = { coded_list coded_index };

    ghost view = { λ o. o.items.items };
}

// A table may have any number of indexes. So what walks them calls itself on halves, as an item at a time would use a stack as
// deep as there are indexes.

/// Drops the pair of a row in a slot once from each index.
///
/// One drop an index. It calls itself on each half, so that the stack is logarithmic in the number of indexes.
fn drop_pairs(indexes: &mut [Index], row: &Row, slot: Slot)
    requires { HavePair row.now slot indexes.old }
    ensures { indexes.new ≡ without_rows row.now slot indexes.old }
{
    let count = indexes.len();
    if count > 1 {
        let (left, right) = indexes.split_at_mut(count / 2);
        drop_pairs(left, row, slot);
        drop_pairs(right, row, slot);
        return;
    }
    if let Some(index) = indexes.first_mut() {
        index.drop_row(row, slot);
    }
}

/// Adds the pair of a row in a slot to each index. Out of memory drops those again that were added.
///
/// One add an index, and one drop where it fails. It calls itself on each half, so that the stack is logarithmic in the
/// number of indexes.
fn add_pairs(indexes: &mut [Index], row: &Row, slot: Slot) -> Result<(), NoMemory>
    ensures ok { OnOk result (indexes.new ≡ with_rows row.now slot indexes.old) }
    ensures err { OnErr result (indexes.new ≡ indexes.old) }
    ensures counted { OnOk result (AllByRecursion (λ h. AreCounted h.pairs) indexes.old) }
{
    let count = indexes.len();
    if count > 1 {
        let (front, back) = indexes.split_at_mut(count / 2);
        add_pairs(front, row, slot)?;
        if add_pairs(back, row, slot).is_err() {
            drop_pairs(front, row, slot);
            return Err(NoMemory);
        }
        return Ok(());
    }
    let Some(index) = indexes.first_mut() else {
        return Ok(());
    };
    // The law by which an add and a drop give the same index back.
    index.pairs_are_counted();
    index.add(row, slot)
}

/// Whether two rows have the same pair in each of these indexes. One comparison an index, up to the first that differs, and
/// a stack that is the same for any number.
fn agree_in(indexes: &[Index], a: &Row, b: &Row) -> bool
    ensures { result ≡ agree_in a.now b.now indexes.now }
{
    indexes.iter().all(|index| index.agree(a, b))
}

/// Takes in the fellow of each index. Out of memory releases those again that were taken in.
///
/// One call an index, and one release where it fails. It calls itself on each half, so that the stack is logarithmic in
/// the number of indexes.
fn absorb_all(indexes: &mut [Index], others: &mut [Index]) -> Result<(), NoMemory>
    requires { MayJoinAll indexes.old others.old }
    ensures ok { OnOk result ((indexes.new ≡ joined_all indexes.old others.old) × (others.new ≡ shells others.old)) }
    ensures err { OnErr result ((indexes.new ≡ indexes.old) × (others.new ≡ others.old)) }
    ensures last { OnOk result (AreLastShells indexes.new others.new) }
    ensures counted { OnOk result (AllByRecursion (λ h. AreCounted h.pairs) indexes.old × AllByRecursion (λ h. AreCounted h.pairs) others.old) }
{
    let count = indexes.len();
    if count > 1 {
        let (left, right) = indexes.split_at_mut(count / 2);
        let (fellows, behind) = others.split_at_mut(count / 2);
        absorb_all(left, fellows)?;
        if absorb_all(right, behind).is_err() {
            release_all(left, fellows);
            return Err(NoMemory);
        }
        return Ok(());
    }
    let Some(index) = indexes.first_mut() else {
        return Ok(());
    };
    let Some(other) = others.first_mut() else {
        unreachable!()
    };
    // The laws by which what is taken in and released gives the same indexes back.
    index.holds_a_part();
    index.pairs_are_counted();
    other.pairs_are_counted();
    index.absorb(other)
}

/// Gives the last part of each index back to its fellow.
///
/// One release an index. It calls itself on each half, so that the stack is logarithmic in the number of indexes.
fn release_all(indexes: &mut [Index], backs: &mut [Index])
    requires { AreLastShells indexes.old backs.old }
    ensures { WereParted indexes.old indexes.new backs.new }
{
    let count = indexes.len();
    if count > 1 {
        let (left, right) = indexes.split_at_mut(count / 2);
        let (fellows, behind) = backs.split_at_mut(count / 2);
        release_all(left, fellows);
        release_all(right, behind);
        return;
    }
    let Some(index) = indexes.first_mut() else {
        return;
    };
    let Some(back) = backs.first_mut() else {
        unreachable!()
    };
    index.release(back);
}

impl Indexes {
    /// The indexes of a table that has none. Takes no memory.
    pub fn new(alloc: Global) -> Indexes
        ensures { result ≡ [] }
    {
        Indexes {
            items: Vec::new(alloc),
        }
    }

    /// Adds an index behind the others. Out of memory changes nothing.
    pub fn push(&mut self, index: Index) -> Result<(), NoMemory>
        ensures ok { OnOk result (self.new ≡ self.old ++ index ∷ []) }
        ensures err { OnErr result (self.new ≡ self.old) }
    {
        self.items.push(index)?;
        Ok(())
    }

    /// The index at a position, and None past the last. Constant.
    pub fn get(&self, at: usize) -> Option<&Index>
        ensures { option_copied result ≡ slice_get self.now at }
    {
        self.items.get(at)
    }

    /// Adds the pair of a row in a slot to each index, once more where it is there. Out of memory changes none.
    pub fn add(&mut self, row: &Row, slot: Slot) -> Result<(), NoMemory>
        ensures ok { OnOk result (self.new ≡ with_rows row.now slot self.old) }
        ensures err { OnErr result (self.new ≡ self.old) }
    {
        add_pairs(self.items.as_mut_slice(), row, slot)
    }

    /// Drops the pair of a row in a slot once from each index. Takes no memory.
    pub fn drop_row(&mut self, row: &Row, slot: Slot)
        requires { HavePair row.now slot self.old }
        ensures { self.new ≡ without_rows row.now slot self.old }
    {
        drop_pairs(self.items.as_mut_slice(), row, slot)
    }

    /// Whether two rows have the same pair in each index, so that one may stand in place of the other without a call of any
    /// index. Compares a value a column, up to the first that differs.
    pub fn agree(&self, a: &Row, b: &Row) -> bool
        ensures { result ≡ agree_in a.now b.now self.now }
    {
        agree_in(self.items.as_slice(), a, b)
    }

    /// Takes in the indexes of another part, each its fellow. Out of memory changes none.
    pub fn absorb(&mut self, other: &mut Indexes) -> Result<(), NoMemory>
        requires { MayJoinAll self.old other.old }
        ensures ok { OnOk result ((self.new ≡ joined_all self.old other.old) × (other.new ≡ shells other.old)) }
        ensures err { OnErr result ((self.new ≡ self.old) × (other.new ≡ other.old)) }
    {
        absorb_all(self.items.as_mut_slice(), other.items.as_mut_slice())
    }

    /// Gives the last part of each index back to its shell. Takes no memory.
    pub fn release(&mut self, back: &mut Indexes)
        requires { AreLastShells self.old back.old }
        ensures { WereParted self.old self.new back.new }
    {
        release_all(self.items.as_mut_slice(), back.items.as_mut_slice())
    }
}
