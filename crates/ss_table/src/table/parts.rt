//! Which of a table's parts a call concerns.

ghost use Rattle.std.specs.Prelude.{◌≡◌, ◌==◌, ◌<◌, ◌-◌, ◌∷◌, suc, length, IfSome, IfNone, Some, None, map, slice_get};
ghost use Rattle.std.specs.FinMap as finite;
ghost use Rattle.std.specs.List.{position, AllByRecursion};
ghost use Rattle.std.specs.Option.{option_copied};
ghost use Rattle.ss_table.specs.Routes.{place_of};
ghost use Rattle.ss_table.specs.TableValue.{is_at_limit};
ghost use Rattle.ss_table.specs.Unions.{united, head, sizes};
ghost use Rattle.ss_table.specs.Parts.{parts_of, wide_live, live_beyond, IsPart, IsHead, AreKeyedPart, HasKeyIfAny};

use crate::part::Part;
use ss_value::{Row, Slot};

/// Where a part stands among these, if one is its.
fn position_of(parts: &[Part], number: u8) -> Option<usize>
    ensures { result ≡ position (λ f. f.number == number) parts.now }
{
    parts.iter().position(|part| part.number == number)
}

/// Where the rows of a part stand among the others, and None where the first has them: as its own, or since no other is of
/// that part.
pub(super) fn other_place(first: &Part, others: &[Part], number: u8) -> Option<usize>
    ensures some { IfSome result (λ at. (place_of (parts_of (first.now ∷ others.now)) number ≡ suc at) × (at < length others.now)) }
    ensures none { IfNone result (place_of (parts_of (first.now ∷ others.now)) number ≡ 0) }
{
    if first.number == number {
        return None;
    }
    position_of(others, number)
}

/// The part with the rows of a part.
pub(super) fn own<'a>(first: &'a Part, others: &'a [Part], number: u8) -> &'a Part
    ensures { let fs = first.now ∷ others.now in slice_get fs (place_of (parts_of fs) number) ≡ Some result.now }
{
    if first.number == number {
        return first;
    }
    match position_of(others, number) {
        Some(at) => &others[at],
        None => first,
    }
}

/// The live row with the least key of all parts, of those behind a row's key where there is a row, with its slot.
pub(super) fn least<'a>(
    first: &'a Part,
    others: &'a [Part],
    bound: Option<&Row>,
) -> Option<(Slot, &'a Row)>
    requires each { AllByRecursion (IsPart first.now.rows.key) (first.now ∷ others.now) }
    requires bound { HasKeyIfAny first.now.rows.key (option_copied bound) }
    ensures some { let ms = map (live_beyond first.now.rows.key (option_copied bound.entry)) (first.now ∷ others.now) in
        IfSome result (λ r. IsHead first.now.rows.key (united ms) r.0 r.1.now) }
    ensures none { let ms = map (live_beyond first.now.rows.key (option_copied bound.entry)) (first.now ∷ others.now) in
        IfNone result (head (finite.entries (united ms)) ≡ None) }
{
    let here = first.next(bound);
    let Some((next, rest)) = others.split_first() else {
        return here;
    };
    let behind = least(next, rest, bound);
    let Some((slot, row)) = here else {
        return behind;
    };
    let Some((at, other)) = behind else {
        return Some((slot, row));
    };
    if first.rows.stands_before(other, row) {
        Some((at, other))
    } else {
        Some((slot, row))
    }
}

/// The live rows of each of these parts stand at their keys, in slots of their own. A law: it does nothing but pass over
/// the parts.
pub(super) fn all_are_keyed(parts: &[Part])
    ensures { AllByRecursion AreKeyedPart parts.now }
{
    match parts.split_first() {
        None => (),
        Some((part, rest)) => {
            part.rows.rows_are_keyed();
            all_are_keyed(rest);
        }
    }
}

/// Whether the live rows of all parts reach the limit, if there is one.
pub(super) fn are_at_limit(limit: Option<usize>, first: &Part, others: &[Part]) -> bool
    ensures { result ≡ is_at_limit limit (sizes (map wide_live (first.now ∷ others.now))) }
{
    match limit {
        None => false,
        Some(limit) => {
            let left = limit.saturating_sub(first.rows.len());
            rest_of(left, others) == 0
        }
    }
}

/// What is left of a number when the live rows of parts are taken off, and 0 where they are more.
fn rest_of(number: usize, parts: &[Part]) -> usize
    ensures { result ≡ number - sizes (map wide_live parts.now) }
{
    match parts.split_first() {
        None => number,
        Some((part, rest)) => rest_of(number.saturating_sub(part.rows.len()), rest),
    }
}
