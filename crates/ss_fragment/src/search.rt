//! What a search looks for, and how slots compare to it.

ghost use Rattle.std.specs.Prelude.{◌≡◌, [], ◌∷◌};
ghost use Rattle.std.specs.Option.{option_copied};
ghost use Rattle.ss_fragment.specs.Cells.{at_cmp, rows_by, row_by_key, by_sought};
ghost use Rattle.ss_fragment.specs.Targets.{target_of, target_at, is_before, is_past, slot_cmp, tied_cmp, is_past_slot};

use crate::cell::{Cell, any_row};
use crate::mark::{PrefixedSlot, sought_prefix};
use ss_value::{Value, compare};
use std::cmp::Ordering;

/// What a search looks for among the rows of these cells: the position of a key, or of a row's key, and among rows with
/// that key, the position of a slot.
#[derive(Drop)]
pub struct Aim<'a> {
    pub cells: &'a [Cell],
    /// The columns of the key.
    pub key: &'a [u8],
    /// Whether the values are a key; else they are a row.
    pub is_key: bool,
    pub values: &'a [Value],
    /// The prefix of the key that is sought.
    pub prefix: u64,
    /// Whether no other key of the fragment's columns has that prefix. Then no row is read.
    pub decides: bool,
    pub slot: usize,
}

/// An aim at a key or a row's key, with the prefix of that key. Reads what is sought, and no cell.
pub fn aim_at<'a>(
    cells: &'a [Cell],
    key: &'a [u8],
    is_key: bool,
    values: &'a [Value],
    slot: usize,
) -> Aim<'a>
    ensures { target_of result ≡ target_at cells.now key.now is_key values.now slot }
{
    let (prefix, decides) = sought_prefix(key, is_key, values);
    Aim {
        cells,
        key,
        is_key,
        values,
        prefix,
        decides,
        slot,
    }
}

/// How two values of one column compare. A missing one ties; no row of a fragment lacks a key column.
#[inline]
fn compare_at(a: Option<&Value>, b: Option<&Value>) -> Ordering
    ensures { result ≡ at_cmp (option_copied a.entry) (option_copied b.entry) }
{
    match (a, b) {
        (Some(x), Some(y)) => compare(x, y),
        (_, _) => Ordering::Equal,
    }
}

/// How two rows compare by one column.
#[inline]
fn compare_column(column: u8, a: &[Value], b: &[Value]) -> Ordering
    ensures { result ≡ rows_by (column ∷ []) a.now b.now }
{
    compare_at(a.get(usize::from(column)), b.get(usize::from(column)))
}

/// How two rows compare by the columns of a key.
pub fn compare_by(key: &[u8], a: &[Value], b: &[Value]) -> Ordering
    ensures { result ≡ rows_by key.now a.now b.now }
{
    for column in key {
        let found = compare_column(*column, a, b);
        if found.is_ne() {
            return found;
        }
    }
    Ordering::Equal
}

/// How a row's key, in these columns, compares to a key. No copy of it is made.
fn compare_to_key(key: &[u8], row: &[Value], sought: &[Value]) -> Ordering
    ensures { result ≡ row_by_key key.now row.now sought.now }
{
    match (key.split_first(), sought.split_first()) {
        (None, None) => Ordering::Equal,
        (None, Some(_)) => Ordering::Less,
        (Some(_), None) => Ordering::Greater,
        (Some((column, columns)), Some((value, values))) => {
            match compare_at(row.get(*column as usize), Some(value)) {
                Ordering::Equal => compare_to_key(columns, row, values),
                other => other,
            }
        }
    }
}

/// How a row compares to what is sought.
#[inline]
fn compare_sought(key: &[u8], is_key: bool, row: &[Value], values: &[Value]) -> Ordering
    ensures { result ≡ by_sought is_key key.now row.now values.now }
{
    if is_key {
        compare_to_key(key, row, values)
    } else {
        compare_by(key, row, values)
    }
}

/// How a slot compares to an aim: by its row's key, and then by its number. A free slot comes behind.
fn compare_slot(aim: &Aim, slot: usize) -> Ordering
    ensures { let a = target_of aim.now in result ≡ slot_cmp a.cells a.key a.is_key a.values a.slot slot }
{
    match any_row(aim.cells, slot) {
        None => Ordering::Greater,
        Some(row) => {
            let by_key = compare_sought(aim.key, aim.is_key, row.as_slice(), aim.values);
            by_key.then(slot.cmp(&aim.slot))
        }
    }
}

/// How a slot whose prefix is the aim's compares to it: by its number alone where the prefix decides the key, and else by its row.
#[inline]
fn compare_tied(aim: &Aim, slot: usize) -> Ordering
    ensures { result ≡ tied_cmp (target_of aim.now) slot }
{
    if aim.decides {
        slot.cmp(&aim.slot)
    } else {
        compare_slot(aim, slot)
    }
}

/// Whether a mark stands before an aim: by its prefix, and by its row only where the prefixes tie and don't decide the key.
#[inline]
pub fn is_before(aim: &Aim, mark: &PrefixedSlot) -> bool
    ensures { result ≡ is_before (target_of aim.now) mark.now }
{
    match mark.prefix.cmp(&aim.prefix) {
        Ordering::Less => true,
        Ordering::Greater => false,
        Ordering::Equal => compare_tied(aim, mark.slot).is_lt(),
    }
}

impl<'a> ss_chunks::Aim<PrefixedSlot> for Aim<'a> {
    ghost before = { λ a m. is_before (target_of a) m };

    fn is_before(&self, item: &PrefixedSlot) -> bool {
        is_before(self, item)
    }
}

/// Whether a slot's row has another key than the one that is sought.
fn is_past_slot(aim: &Aim, slot: usize) -> bool
    ensures { let a = target_of aim.now in result ≡ is_past_slot a.cells a.key a.is_key a.values slot }
{
    match any_row(aim.cells, slot) {
        None => false,
        Some(row) => !compare_sought(aim.key, aim.is_key, row.as_slice(), aim.values).is_eq(),
    }
}

/// Whether a mark's row has another key than the one that is sought: by its prefix, and by its row only where the prefixes tie
/// and don't decide the key.
#[inline]
pub fn is_past(aim: &Aim, mark: &PrefixedSlot) -> bool
    ensures { result ≡ is_past (target_of aim.now) mark.now }
{
    mark.prefix != aim.prefix || (!aim.decides && is_past_slot(aim, mark.slot))
}
