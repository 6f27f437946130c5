//! Each step on the list of chunks.

ghost use Rattle.std.specs.Prelude.{◌≡◌, ◌<◌, ◌≤◌, List, [], ◌∷◌, ◌++◌, length, IfOk, OnOk, OnErr, IfSome, IfNone, slice_get, drop};
ghost use Rattle.std.specs.List.{insert, remove, prefix_len};
ghost use Rattle.std.specs.List.Sorted.{IsPartitionedBy};
ghost use Rattle.std.specs.Global.{Vec};
ghost use Rattle.ss_chunks.specs.Chunks.{items_in, rest_items, IsFilled, ChunkChanged, OnOkChanged, starts, SearchStopsIn, PassIn};

use crate::aim::Aim;
use crate::rest::{Hint, Rest};
use ss_value::NoMemory;

/// How many items a chunk has at most. Larger chunks would make each insert move more, smaller ones the list of chunks
/// longer, which a split moves.
pub(super) const CHUNK: usize = 256;

/// How many items stand before an aim.
fn rank_in<T, A: Aim<T>>(items: &[T], aim: &A) -> usize
    requires { IsPartitionedBy (A.before aim.now) items.now }
    ensures position { result ≡ prefix_len (A.before aim.now) items.now }
    ensures bound { result ≤ length items.now }
{
    items.partition_point(|item| aim.is_before(item))
}

/// Whether a chunk's first item stands before an aim.
fn starts_before<T, A: Aim<T>>(chunk: &Vec<T>, aim: &A) -> bool
    ensures { result ≡ starts (A.before aim.now) chunk.now.items }
{
    match chunk.first() {
        None => false,
        Some(item) => aim.is_before(item),
    }
}

/// The last chunk whose first item stands before an aim, else the first chunk: a search ends in it.
fn chunk_of<T, A: Aim<T>>(chunks: &[Vec<T>], aim: &A) -> usize
    requires parted { IsPartitionedBy (A.before aim.now) (items_in chunks.now) }
    requires filled { IsFilled chunks.now }
    ensures bound { 0 < length chunks.now → result < length chunks.now }
    ensures within { result ≤ length chunks.now }
    ensures search { SearchStopsIn (A.before aim.now) chunks.now result }
{
    match chunks.split_first() {
        None => 0,
        // The first chunk is the answer where no other one is, so its first item need not be looked at.
        Some((_, others)) => others.partition_point(|chunk| starts_before(chunk, aim)),
    }
}

/// The items that don't stand before an aim: those of one chunk, and the chunks behind it. None where there is
/// no chunk.
pub(super) fn rest_from<'a, T, A: Aim<T>>(chunks: &'a [Vec<T>], aim: &A) -> Option<Rest<'a, T>>
    requires parted { IsPartitionedBy (A.before aim.now) (items_in chunks.now) }
    requires filled { IsFilled chunks.now }
    ensures some { let all = items_in chunks.now in IfSome result (λ r. rest_items r ≡ drop (prefix_len (A.before aim.now) all) all) }
    ensures none { IfNone result (items_in chunks.now ≡ []) }
{
    let at = chunk_of(chunks, aim);
    let (_, rest) = chunks.split_at(at);
    match rest.split_first() {
        None => None,
        Some((chunk, others)) => {
            let items = chunk.as_slice();
            let position = rank_in(items, aim);
            let (_, here) = items.split_at(position);
            let hint = Hint {
                chunk: at,
                position,
            };
            Some(Rest { here, others, hint })
        }
    }
}

/// All items of some chunks.
pub(super) fn all_of<T>(chunks: &[Vec<T>]) -> Rest<'_, T>
    ensures { rest_items result ≡ items_in chunks.now }
{
    let hint = Hint {
        chunk: 0,
        position: 0,
    };
    match chunks.split_first() {
        None => Rest {
            here: &[],
            others: chunks,
            hint,
        },
        Some((chunk, others)) => Rest {
            here: chunk.as_slice(),
            others,
            hint,
        },
    }
}

/// The items of a chunk from a hint's position on, and the chunks behind it. None where there is no such position.
pub(super) fn back_from<T>(chunks: &[Vec<T>], hint: Hint) -> Option<Rest<'_, T>>
    ensures { IfSome result (λ rest. (front : List T) × (items_in chunks.now ≡ front ++ rest_items rest)) }
{
    // Nothing is known of a hint, so both of its numbers are compared before they are used.
    if hint.chunk >= chunks.len() {
        return None;
    }
    let (_, from) = chunks.split_at(hint.chunk);
    match from.split_first() {
        None => None,
        Some((chunk, others)) => {
            let items = chunk.as_slice();
            if hint.position > items.len() {
                return None;
            }
            let (_, here) = items.split_at(hint.position);
            Some(Rest { here, others, hint })
        }
    }
}

/// How many items of a chunk stand before an aim.
pub(super) fn position_in<T, A: Aim<T>>(chunks: &[Vec<T>], at: usize, aim: &A) -> usize
    requires at { at < length chunks.now }
    requires parted { IsPartitionedBy (A.before aim.now) (items_in chunks.now) }
    ensures { PassIn (A.before aim.now) chunks.now at result }
{
    let chunk = &chunks[at];
    rank_in(chunk.as_slice(), aim)
}

/// Adds the first chunk. Its room grows with its items, so that a small list takes little memory.
pub(super) fn push_first<T: Drop>(chunks: &mut Vec<Vec<T>>, item: T) -> Result<(), NoMemory>
    requires { chunks.old.items ≡ [] }
    ensures ok { OnOk result (items_in chunks.new.items ≡ item ∷ []) }
    ensures err { OnErr result (chunks.new.items ≡ []) }
    ensures filled { IsFilled chunks.new.items }
{
    let mut chunk = Vec::new(*chunks.allocator());
    chunk.push(item)?;
    chunks.push(chunk)?;
    Ok(())
}

/// The chunk in which a search for an aim ends, once it has room: a full one is split.
pub(super) fn chunk_with_room<T: Drop, A: Aim<T>>(
    chunks: &mut Vec<Vec<T>>,
    aim: &A,
) -> Result<usize, NoMemory>
    requires parted { IsPartitionedBy (A.before aim.now) (items_in chunks.old.items) }
    requires filled { IsFilled chunks.old.items }
    requires some { 0 < length chunks.old.items }
    ensures unchanged { items_in chunks.new.items ≡ items_in chunks.old.items }
    ensures filled { IsFilled chunks.new.items }
    ensures bound { IfOk result (λ at. at < length chunks.new.items) }
    ensures ok { IfOk result (λ at. SearchStopsIn (A.before aim.now) chunks.new.items at) }
{
    let at = chunk_of(chunks.as_slice(), aim);
    if chunks[at].len() < CHUNK {
        return Ok(at);
    }
    split(chunks, at)?;
    // The position that is sought may now be in the new chunk.
    Ok(chunk_of(chunks.as_slice(), aim))
}

/// Moves the back half of a chunk to a chunk of its own. No item is copied.
fn split<T: Drop>(chunks: &mut Vec<Vec<T>>, at: usize) -> Result<(), NoMemory>
    requires at { at < length chunks.old.items }
    requires filled { IsFilled chunks.old.items }
    requires long { IfSome (slice_get chunks.old.items at) (λ chunk. 2 ≤ length chunk.items) }
    ensures items { items_in chunks.new.items ≡ items_in chunks.old.items }
    ensures filled { IsFilled chunks.new.items }
    ensures some { 0 < length chunks.new.items }
{
    // Room first: once a half is split off, its chunk has to find a position in the list of chunks.
    chunks.reserve(1)?;
    let half = chunks[at].len() / 2;
    let back = chunks[at].split_off(half)?;
    let _ = chunks.insert(at + 1, back);
    Ok(())
}

/// Puts an item at a position of a chunk. Out of memory changes no item.
pub(super) fn put_in<T: Drop>(
    chunks: &mut Vec<Vec<T>>,
    at: usize,
    position: usize,
    item: T,
) -> Result<(), NoMemory>
    requires at { at < length chunks.old.items }
    requires filled { IsFilled chunks.old.items }
    requires position { IfSome (slice_get chunks.old.items at) (λ chunk. position ≤ length chunk.items) }
    ensures ok { OnOkChanged result chunks.old.items chunks.new.items at (λ items. insert items position item) }
    ensures err { OnErr result (items_in chunks.new.items ≡ items_in chunks.old.items) }
    ensures filled { IsFilled chunks.new.items }
{
    chunks[at].insert(position, item)?;
    Ok(())
}

/// Takes out the first item that doesn't stand before an aim, if there is one, and gives a hint where it stood.
pub(super) fn take_at<T: Drop, A: Aim<T>>(chunks: &mut Vec<Vec<T>>, aim: &A) -> Hint
    requires parted { IsPartitionedBy (A.before aim.now) (items_in chunks.old.items) }
    requires filled { IsFilled chunks.old.items }
    requires some { 0 < length chunks.old.items }
    ensures items { let all = items_in chunks.old.items in items_in chunks.new.items ≡ remove all (prefix_len (A.before aim.now) all) }
    ensures filled { IsFilled chunks.new.items }
{
    let at = chunk_of(chunks.as_slice(), aim);
    let position = position_in(chunks.as_slice(), at, aim);
    if position < chunks[at].len() {
        take_out(chunks, at, position);
        Hint {
            chunk: at,
            position,
        }
    } else if at + 1 < chunks.len() {
        // All of this chunk stands before the aim, so the item is the next chunk's first.
        take_out(chunks, at + 1, 0);
        Hint {
            chunk: at + 1,
            position: 0,
        }
    } else {
        Hint {
            chunk: at,
            position,
        }
    }
}

/// Takes an item out of a chunk, and the chunk out of the list where it had no other item.
pub(super) fn take_out<T: Drop>(chunks: &mut Vec<Vec<T>>, at: usize, position: usize)
    requires at { at < length chunks.old.items }
    requires filled { IsFilled chunks.old.items }
    requires position { IfSome (slice_get chunks.old.items at) (λ chunk. position < length chunk.items) }
    ensures items { ChunkChanged chunks.old.items chunks.new.items at (λ items. remove items position) }
    ensures filled { IsFilled chunks.new.items }
{
    let _ = chunks[at].remove(position);
    if chunks[at].is_empty() {
        let _ = chunks.remove(at);
    }
}
