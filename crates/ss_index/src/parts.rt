//! The parts of an index: which of them a slot's pairs stand in.

ghost use Rattle.std.specs.Prelude.{◌≡◌, [], ◌∷◌, ◌++◌, OnOk, OnErr, IfErr, IfSome, IfNone};
ghost use Rattle.ss_index.specs.Entries.{pair_in};
ghost use Rattle.ss_index.specs.Parts.{part_of, OneChanged, with_pair, without_pair};
ghost use Rattle.ss_index.specs.Merges.{aim_pair};

use crate::index_entry::IndexEntry;
use crate::part::IndexPart;
use crate::search::PairAim;
use ss_value::{NoMemory, Slot};

/// The part of a slot. A mask.
pub fn part_of(slot: Slot) -> u8
    ensures { result ≡ part_of slot }
{
    (slot % 8) as u8
}

/// Adds an entry to the part of a number, or to the first where none of the others has it.
fn insert_among(
    first: &mut IndexPart,
    others: &mut [IndexPart],
    number: u8,
    aim: &PairAim<'_>,
    entry: IndexEntry,
) -> Result<(), NoMemory>
    requires { pair_in entry ≡ aim_pair aim.now }
    ensures ok { OnOk result (OneChanged number (with_pair (pair_in entry)) first.old others.old first.new others.new) }
    ensures err { OnErr result ((first.new ≡ first.old) × (others.new ≡ others.old)) }
{
    match others.split_first_mut() {
        None => first.insert(aim, entry),
        Some((part, behind)) => {
            if part.number() == number {
                part.insert(aim, entry)
            } else {
                insert_among(first, behind, number, aim, entry)
            }
        }
    }
}

/// Takes an aim's pair out of the part of a number, or out of the first where none of the others has it.
fn remove_among(first: &mut IndexPart, others: &mut [IndexPart], number: u8, aim: &PairAim<'_>)
    ensures { OneChanged number (without_pair (aim_pair aim.now)) first.old others.old first.new others.new }
{
    match others.split_first_mut() {
        None => first.remove(aim),
        Some((part, behind)) => {
            if part.number() == number {
                part.remove(aim)
            } else {
                remove_among(first, behind, number, aim)
            }
        }
    }
}

/// Adds an entry to the part of a number, or to the first where none of the others has it. At most seven comparisons of
/// numbers, and the cost of the insert. Out of memory drops the entry and changes nothing else.
pub fn insert_dealt(
    first: &mut IndexPart,
    others: &mut Vec<IndexPart>,
    number: u8,
    aim: &PairAim<'_>,
    entry: IndexEntry,
) -> Result<(), NoMemory>
    requires { pair_in entry ≡ aim_pair aim.now }
    ensures ok { OnOk result (OneChanged number (with_pair (pair_in entry)) first.old others.old.items first.new others.new.items) }
    ensures err { OnErr result ((first.new ≡ first.old) × (others.new.items ≡ others.old.items)) }
{
    insert_among(first, others.as_mut_slice(), number, aim, entry)
}

/// Takes an aim's pair out of the part of a number, or out of the first where none of the others has it. At most seven
/// comparisons of numbers, and the cost of the removal. Takes no memory.
pub fn remove_dealt(
    first: &mut IndexPart,
    others: &mut Vec<IndexPart>,
    number: u8,
    aim: &PairAim<'_>,
)
    ensures { OneChanged number (without_pair (aim_pair aim.now)) first.old others.old.items first.new others.new.items }
{
    remove_among(first, others.as_mut_slice(), number, aim)
}

/// Adds a part behind the others. Out of memory hands it back and changes nothing.
pub fn push_part(others: &mut Vec<IndexPart>, part: IndexPart) -> Result<(), IndexPart>
    ensures ok { OnOk result (others.new.items ≡ others.old.items ++ part ∷ []) }
    ensures err { IfErr result (λ back. (others.new.items ≡ others.old.items) × (back ≡ part)) }
{
    match others.push(part) {
        Ok(()) => Ok(()),
        Err(refused) => Err(refused.value),
    }
}

/// Takes the last part off. Takes no memory.
pub fn pop_part(others: &mut Vec<IndexPart>) -> Option<IndexPart>
    ensures some { IfSome result (λ part. others.old.items ≡ others.new.items ++ part ∷ []) }
    ensures none { IfNone result (others.old.items ≡ []) }
{
    others.pop()
}
