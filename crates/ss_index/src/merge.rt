//! The entries of several parts side by side, in one order.

ghost use Rattle.std.specs.Prelude.{◌≡◌, [], ◌∷◌, IfOk, map, option_copied};
ghost use Rattle.ss_chunks.specs.Chunks.{rest_items};
ghost use Rattle.ss_index.specs.Pairs.{slots_in};
ghost use Rattle.ss_index.specs.Entries.{pair_in, pairs_in, ahead};
ghost use Rattle.ss_index.specs.Merges.{ahead_of, fronts, in_front, AllRise, lesser, least_of, skip_pair, skip_all, from_end, pair_at};

use crate::index_entry::IndexEntry;
use crate::part::IndexPart;
use crate::search::{RangeAim, compare_entries, is_past, is_same};
use ss_chunks::Rest;
use ss_value::{NoMemory, Row, Seq, Slot};
use std::alloc::Global;

/// Where the reading of a part stands: its next entry, if there is one, and the entries behind that.
#[derive(Drop)]
pub struct Head<'a> {
    pub here: Option<&'a IndexEntry>,
    pub behind: Rest<'a, IndexEntry>,
}

/// The head of some entries.
pub fn head_of<'a>(entries: Rest<'a, IndexEntry>) -> Head<'a>
    ensures { ahead_of result ≡ map pair_in (rest_items entries.entry) }
{
    let mut behind = entries;
    let here = behind.next();
    Head { here, behind }
}

/// A head for each part, where a range begins.
pub fn heads_of<'a>(
    alloc: Global,
    first: &'a IndexPart,
    others: &'a [IndexPart],
    aim: &RangeAim<'_>,
) -> Result<Vec<Head<'a>>, NoMemory>
    ensures { IfOk result (λ heads. fronts heads.items ≡ map (from_end aim.now.low.now) (first.now ∷ others.now)) }
{
    let mut heads = Vec::new(alloc);
    heads.push(head_of(first.rest(aim)))?;
    for part in others {
        heads.push(head_of(part.rest(aim)))?;
    }
    Ok(heads)
}

/// The entry with the lesser pair, and the first where they are equal.
fn lesser<'a>(
    first: Option<&'a IndexEntry>,
    second: Option<&'a IndexEntry>,
) -> Option<&'a IndexEntry>
    ensures { pair_at (option_copied result) ≡ lesser (pair_at (option_copied first.entry)) (pair_at (option_copied second.entry)) }
{
    match (first, second) {
        (None, other) => other,
        (first, None) => first,
        (Some(first), Some(second)) => {
            if compare_entries(second, first).is_lt() {
                Some(second)
            } else {
                Some(first)
            }
        }
    }
}

/// The least entry that is next in its part.
fn least<'a>(heads: &[Head<'a>]) -> Option<&'a IndexEntry>
    ensures { pair_at (option_copied result) ≡ least_of (fronts heads.now) }
{
    match heads.split_first() {
        None => None,
        Some((head, others)) => lesser(head.here, least(others)),
    }
}

/// A head behind the next entries that have this entry's pair.
fn skip<'a>(head: &Head<'a>, entry: &IndexEntry) -> Head<'a>
    ensures { ahead_of result ≡ skip_pair (pair_in entry.now) (ahead_of head.now) }
{
    let mut here = head.here;
    let mut behind = Rest {
        here: head.behind.here,
        others: head.behind.others,
        hint: head.behind.hint,
    };
    while let Some(next) = here {
        if !is_same(entry, next) {
            return Head { here, behind };
        }
        here = behind.next();
    }
    Head { here, behind }
}

/// The heads behind the next entries that have this entry's pair.
fn skip_all<'a>(
    alloc: Global,
    heads: &[Head<'a>],
    entry: &IndexEntry,
) -> Result<Vec<Head<'a>>, NoMemory>
    ensures { IfOk result (λ made. fronts made.items ≡ skip_all (pair_in entry.now) (fronts heads.now)) }
{
    let mut made = Vec::new(alloc);
    for head in heads {
        made.push(skip(head, entry))?;
    }
    Ok(made)
}

/// The slots of the entries of several parts up to the end of a range, each pair once. Each step compares the next
/// entries of the parts, at most eight, and makes a list of as many.
pub fn merged_slots(alloc: Global, heads: Vec<Head<'_>>, high: &Row) -> Result<Seq<Slot>, NoMemory>
    requires { AllRise (fronts heads.items) }
    ensures { IfOk result (λ slots. slots ≡ slots_in (pairs_in (in_front (fronts heads.entry.items))) [] high.now) }
{
    let mut heads = heads;
    let mut slots = Seq::new(alloc);
    while let Some(entry) = least(heads.as_slice()) {
        if is_past(entry, high) {
            return Ok(slots);
        }
        slots.push(entry.slot)?;
        let next = skip_all(alloc, heads.as_slice(), entry)?;
        heads = next;
    }
    Ok(slots)
}
