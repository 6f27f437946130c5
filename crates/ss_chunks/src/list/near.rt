//! What is seen near a hint, before a search is made.

ghost use Rattle.std.specs.Prelude.{◌≡◌, Bool, true, not, IfSome};
ghost use Rattle.std.specs.List.{position};
ghost use Rattle.std.specs.List.Sorted.{IsPartitionedBy};
ghost use Rattle.ss_chunks.specs.Chunks.{items_in, rest_items, starts, EndsIn, EndsAt, HasAt, StandsAt};

use crate::aim::{Aim, Wanted};
use crate::list::chunks::CHUNK;
use crate::rest::{Hint, Rest};

/// How many items are looked at before a hint's place, and from there on. More would find more, and cost more where there is
/// nothing to find.
const NEAR: usize = 8;

/// Whether the first of some items, if there is one, doesn't stand before an aim.
fn starts_past<T, A: Aim<T>>(rest: Rest<'_, T>, aim: &A) -> bool
    ensures { result ≡ not (starts (A.before aim.now) (rest_items rest.entry)) }
{
    let mut behind = rest;
    match behind.next() {
        None => true,
        Some(item) => !aim.is_before(item),
    }
}

/// Whether a search for an aim ends at a place of a chunk, by the items on both sides of it. The first place of all has none
/// before it.
fn ends_in<T, A: Aim<T>>(items: &[T], others: &[Vec<T>], hint: Hint, aim: &A) -> bool
    ensures { result ≡ true → EndsIn (A.before aim.now) items.now others.now hint.chunk hint.position }
{
    if hint.position == 0 {
        let rest = Rest {
            here: items,
            others,
            hint,
        };
        return hint.chunk == 0 && starts_past(rest, aim);
    }
    if hint.position > items.len() {
        return false;
    }
    let (_, from) = items.split_at(hint.position - 1);
    match from.split_first() {
        None => false,
        Some((last, here)) => {
            let rest = Rest { here, others, hint };
            starts_past(rest, aim) && aim.is_before(last)
        }
    }
}

/// Whether an item goes to a hint's place: a search for its aim ends there, and the chunk has room.
fn fits_at<T, A: Aim<T>>(chunks: &[Vec<T>], hint: Hint, aim: &A) -> bool
    requires { IsPartitionedBy (A.before aim.now) (items_in chunks.now) }
    ensures { result ≡ true → EndsAt (A.before aim.now) chunks.now hint.chunk hint.position }
{
    if hint.chunk >= chunks.len() {
        return false;
    }
    let (_, from) = chunks.split_at(hint.chunk);
    match from.split_first() {
        None => false,
        Some((chunk, others)) => {
            let items = chunk.as_slice();
            items.len() < CHUNK && ends_in(items, others, hint, aim)
        }
    }
}

/// The place where an item goes, where that is a hint's or the one behind it, and its chunk has room.
pub(super) fn place_near<T, A: Aim<T>>(chunks: &[Vec<T>], hint: Hint, aim: &A) -> Option<Hint>
    requires { IsPartitionedBy (A.before aim.now) (items_in chunks.now) }
    ensures { IfSome result (λ place. EndsAt (A.before aim.now) chunks.now place.chunk place.position) }
{
    if fits_at(chunks, hint, aim) {
        return Some(hint);
    }
    let next = Hint {
        chunk: hint.chunk,
        position: hint.position.wrapping_add(1),
    };
    if fits_at(chunks, next, aim) {
        Some(next)
    } else {
        None
    }
}

/// Where the first item that is wanted stands among some.
fn wanted_in<T, W: Wanted<T>>(items: &[T], wanted: &W) -> Option<usize>
    ensures { result ≡ position (W.wants wanted.now) items.now }
{
    items.iter().position(|item| wanted.is_wanted(item))
}

/// Where an item that is wanted stands among some, where that is near a position.
fn wanted_near<T, W: Wanted<T>>(items: &[T], position: usize, wanted: &W) -> Option<usize>
    ensures { IfSome result (HasAt (W.wants wanted.now) items.now) }
{
    let high = position.saturating_add(NEAR).min(items.len());
    let (front, _) = items.split_at(high);
    let low = position.saturating_sub(NEAR).min(front.len());
    let (_, window) = front.split_at(low);
    match wanted_in(window, wanted) {
        None => None,
        Some(at) => Some(low + at),
    }
}

/// A place near a hint's, in the same chunk, where an item that is wanted stands.
pub(super) fn found_near<T, W: Wanted<T>>(chunks: &[Vec<T>], hint: Hint, wanted: &W) -> Option<Hint>
    ensures { IfSome result (λ place. StandsAt (W.wants wanted.now) chunks.now place.chunk place.position) }
{
    match chunks.get(hint.chunk) {
        None => None,
        Some(chunk) => match wanted_near(chunk.as_slice(), hint.position, wanted) {
            None => None,
            Some(position) => Some(Hint {
                chunk: hint.chunk,
                position,
            }),
        },
    }
}
