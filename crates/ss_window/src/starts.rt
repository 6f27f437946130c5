//! With which number each unit of a list starts, where the rows of all units are numbered one after another.
//!
//! It is recorded by where units end: `unit_ends` has, for each of the first units, the number behind its last row. With
//! `first`, the number of the first row of all, that is the start of each of these units, and of the one behind them. So
//! an empty unit needs no rule of its own, and a unit that joins is recorded by one number.

ghost use Rattle.std.specs.Prelude.{◌≡◌, ℕ, ◌+◌, ◌-◌, ◌≤◌, ◌<◌, ◌^◌, ◌∷◌, length, drop, slice_get, Some, OnOk};
ghost use Rattle.std.specs.Option.{option_copied};
ghost use Rattle.std.specs.List.Sorted.{IsNonDecreasing};
ghost use Rattle.ss_window.specs.WindowValue.{rows_in};
ghost use Rattle.ss_window.specs.Numbers.{rows_before, AreStarts};

use ss_value::{NoMemory, Row, Rows};
use std::collections::VecDeque;

/// The unit at a position, where there is one. A queue has no index by which it could be read.
fn unit_at(units: &VecDeque<Rows>, position: usize) -> &Rows
    requires { position < length units.now.items }
    ensures { slice_get units.now.items position ≡ Some result.now }
{
    let Some(unit) = units.get(position) else {
        unreachable!()
    };
    unit
}

/// How many rows the units before a position have. Linear in the position.
pub fn count_before(units: &VecDeque<Rows>, position: usize) -> usize
    requires within { position ≤ length units.now.items }
    requires countable { length (rows_in units.now.items) < 2 ^ 64 }
    ensures { result ≡ rows_before position units.now.items }
{
    let mut rows = 0;
    for at in 0..position {
        rows += unit_at(units, at).len();
    }
    rows
}

/// The row that is `behind` rows behind the start of a position, and None exactly past the last. One step for each unit
/// on the way to it.
pub fn row_from(units: &VecDeque<Rows>, position: usize, behind: usize) -> Option<&Row>
    requires { position ≤ length units.now.items }
    ensures { option_copied result ≡ slice_get (rows_in (drop position units.now.items)) behind }
{
    let mut left = behind;
    for at in position..units.len() {
        let unit = unit_at(units, at);
        if left < unit.len() {
            return unit.get(left);
        }
        left -= unit.len();
    }
    None
}

/// The number with which a position starts, and None where that isn't recorded.
pub fn start_of(first: usize, unit_ends: &VecDeque<usize>, position: usize) -> Option<usize>
    ensures { result ≡ slice_get (first ∷ unit_ends.now.items) position }
{
    match position.checked_sub(1) {
        None => Some(first),
        Some(before) => unit_ends.get(before).copied(),
    }
}

/// The last recorded position that starts at or before the row with this number, and how many rows behind its start that
/// row is. A binary search.
pub fn position_of(first: usize, unit_ends: &VecDeque<usize>, number: usize) -> (usize, usize)
    requires starts { first ≤ number }
    requires rises { IsNonDecreasing unit_ends.now.items }
    ensures behind { result.1 ≤ number }
    ensures start { slice_get (first ∷ unit_ends.now.items) result.0 ≡ Some (number - result.1) }
    ensures last { (end : ℕ) → slice_get unit_ends.now.items result.0 ≡ Some end → number < end }
{
    let position = unit_ends.partition_point(|end| *end <= number);
    let Some(start) = start_of(first, unit_ends, position) else {
        unreachable!()
    };
    (position, number - start)
}

/// Records where each unit ends of which that isn't recorded yet. Linear in the number of these. Out of memory may leave
/// some of them recorded, and what is recorded is right.
pub fn record_unit_ends(
    first: usize,
    unit_ends: &mut VecDeque<usize>,
    units: &VecDeque<Rows>,
) -> Result<(), NoMemory>
    requires right { AreStarts first unit_ends.old.items units.now.items }
    requires countable { first + length (rows_in units.now.items) < 2 ^ 64 }
    ensures right { AreStarts first unit_ends.new.items units.now.items }
    ensures ok { OnOk result (length unit_ends.new.items ≡ length units.now.items) }
{
    let Some(mut end) = start_of(first, unit_ends, unit_ends.len()) else {
        unreachable!()
    };
    for position in unit_ends.len()..units.len() {
        end += unit_at(units, position).len();
        unit_ends.push_back(end)?;
    }
    Ok(())
}
