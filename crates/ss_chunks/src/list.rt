//! Lists in chunks.

ghost use Rattle.std.specs.Prelude.{◌≡◌, List, [], ◌++◌, OnOk, OnErr, IfSome, IfNone, drop};
ghost use Rattle.std.specs.List.{insert, remove, prefix_len};
ghost use Rattle.std.specs.List.Sorted.{IsPartitionedBy};
ghost use Rattle.ss_chunks.specs.Chunks.{items_in, rest_items, WasTaken};

use crate::aim::{Aim, Wanted};
use crate::rest::{Hint, Rest};
use ss_value::NoMemory;
use std::alloc::Global;
use std::marker::Model;

mod chunks;
mod near;

use chunks::{
    all_of, back_from, chunk_with_room, position_in, push_first, put_in, rest_from, take_at,
    take_out,
};
use near::{found_near, place_near};

/// A list of items, in chunks of at most 256, none empty.
///
/// A search halves the chunks and then one chunk, so it is logarithmic. A change moves at most one chunk, 256 items.
/// At most once in 128 inserts a chunk is split and the list of the chunks is moved, 24 bytes for each: so that rare
/// move grows with the items, to 200 kilobytes or so at a million, and so does the one when a chunk becomes empty. No
/// item is ever copied. Memory is that of the items and at most as much again, except that chunks which removals made
/// small are not joined.
#[derive(Drop)]
pub struct Chunked<T> {
    chunks: Vec<Vec<T>>,
}

impl<T> Model for Chunked<T> {
    ghost use Rattle.std.specs.Prelude.{List};

    ghost Value = { List T };

    ghost use Rattle.ss_chunks.specs.Chunks.{items_in, IsFilled};

    ghost view = { λ o. items_in o.chunks.items };

    ghost invariant = { λ o. IsFilled o.chunks.items };
}

impl<T> Chunked<T> {
    /// The empty list. Takes no memory.
    pub fn new(alloc: Global) -> Chunked<T>
        ensures { result ≡ [] }
    {
        Chunked {
            chunks: Vec::new(alloc),
        }
    }

    /// All items, from the first on. Constant.
    pub fn all(&self) -> Rest<'_, T>
        ensures { rest_items result ≡ self.now }
    {
        all_of(self.chunks.as_slice())
    }

    /// The items that don't stand before an aim. Logarithmic.
    pub fn rest<A: Aim<T>>(&self, aim: &A) -> Rest<'_, T>
        requires { IsPartitionedBy (A.before aim.now) self.now }
        ensures { rest_items result ≡ drop (prefix_len (A.before aim.now) self.now) self.now }
    {
        match rest_from(self.chunks.as_slice(), aim) {
            None => self.all(),
            Some(rest) => rest,
        }
    }

    /// The items from a hint's position on, and None where there is no such position. Constant.
    pub fn rest_at(&self, hint: Hint) -> Option<Rest<'_, T>>
        ensures { IfSome result (λ rest. (front : List T) × (self.now ≡ front ++ rest_items rest)) }
    {
        back_from(self.chunks.as_slice(), hint)
    }
}

impl<T: Drop> Chunked<T> {
    /// Puts an item in front of the first that doesn't stand before an aim. A search and a move of one chunk. Out of
    /// memory drops the item and changes nothing else.
    pub fn insert<A: Aim<T>>(&mut self, aim: &A, item: T) -> Result<(), NoMemory>
        requires { IsPartitionedBy (A.before aim.now) self.old }
        ensures ok { OnOk result (self.new ≡ insert self.old (prefix_len (A.before aim.now) self.old) item) }
        ensures err { OnErr result (self.new ≡ self.old) }
    {
        if self.chunks.is_empty() {
            return push_first(&mut self.chunks, item);
        }
        let at = chunk_with_room(&mut self.chunks, aim)?;
        let position = position_in(self.chunks.as_slice(), at, aim);
        put_in(&mut self.chunks, at, position, item)
    }

    /// Puts an item where `insert` puts it. Where that is a hint's place, or the one behind it, two or three comparisons and no
    /// search; else these and what `insert` costs. Out of memory drops the item and changes nothing else.
    pub fn insert_near<A: Aim<T>>(&mut self, hint: Hint, aim: &A, item: T) -> Result<(), NoMemory>
        requires { IsPartitionedBy (A.before aim.now) self.old }
        ensures ok { OnOk result (self.new ≡ insert self.old (prefix_len (A.before aim.now) self.old) item) }
        ensures err { OnErr result (self.new ≡ self.old) }
    {
        match place_near(self.chunks.as_slice(), hint, aim) {
            None => self.insert(aim, item),
            Some(place) => put_in(&mut self.chunks, place.chunk, place.position, item),
        }
    }

    /// Takes out the first item that doesn't stand before an aim, if there is one, and gives a hint where it stood. A search
    /// and a move of one chunk. Takes no memory.
    pub fn remove<A: Aim<T>>(&mut self, aim: &A) -> Hint
        requires { IsPartitionedBy (A.before aim.now) self.old }
        ensures { self.new ≡ remove self.old (prefix_len (A.before aim.now) self.old) }
    {
        if self.chunks.is_empty() {
            return Hint {
                chunk: 0,
                position: 0,
            };
        }
        take_at(&mut self.chunks, aim)
    }

    /// Takes out an item that is wanted, where one stands near a hint, and gives a hint where it stood; None where none does,
    /// and then nothing has changed. A look at sixteen items at most, eight before the hint's place and eight from there on, and
    /// the move of one chunk. Takes no memory.
    pub fn take_near<W: Wanted<T>>(&mut self, hint: Hint, wanted: &W) -> Option<Hint>
        ensures some { IfSome result (λ place. WasTaken (W.wants wanted.now) self.old self.new) }
        ensures none { IfNone result (self.new ≡ self.old) }
    {
        match found_near(self.chunks.as_slice(), hint, wanted) {
            None => None,
            Some(place) => {
                take_out(&mut self.chunks, place.chunk, place.position);
                Some(place)
            }
        }
    }
}
