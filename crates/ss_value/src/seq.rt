//! A list, which contracts see as the list and nothing else.
//!
//! So a `Seq` of rows *is* a list of lists of values to a definition. The spare room behind the items is no part
//! of that value: else two lists of equal items with different room would differ. Where a contract has to speak of
//! room, there is `Reserved`.

ghost use Rattle.std.specs.Prelude.{◌≡◌, ◌<◌, ◌≤◌, ◌+◌, List, [], ◌∷◌, ◌++◌, length, IfOk, OnOk, IfErr, OnErr, IfSome, IfNone, OnSome, IsSome, IsOk, IsTrue, slice_get, slice_set, take, ◌-◌, ◌↔◌};
ghost use Rattle.std.specs.Option.{option_copied};
ghost use Rattle.std.specs.Slice.Iter.{iter_rest};

use crate::NoMemory;
use std::alloc::{AllocFailed, Global};
use std::marker::Model;
use std::slice;

/// A list of items, over a `Vec`: access by position is constant, a push is constant on average over many,
/// and the memory is that of the items and at most as much again as spare room.
#[derive(Drop)]
pub struct Seq<T> {
    items: Vec<T>,
}

impl<T> Model for Seq<T> {
    ghost use Rattle.std.specs.Prelude.{List};
    ghost use Rattle.std.specs.Coded.{coded_list};

    ghost Value = { List T };

    ghost coded = { coded_list T.code };

    ghost view = { λ s. s.items.items };
}

impl<T> Seq<T> {
    /// The empty list. Takes no memory.
    pub fn new(alloc: Global) -> Seq<T>
        ensures { result ≡ [] }
    {
        Seq {
            items: Vec::new(alloc),
        }
    }

    /// The empty list, with room for so many items before it has to move.
    pub fn with_capacity(alloc: Global, count: usize) -> Result<Seq<T>, NoMemory>
        ensures { IfOk result (λ list. list ≡ []) }
    {
        match Vec::with_capacity(alloc, count) {
            Ok(items) => Ok(Seq { items }),
            Err(_) => Err(NoMemory),
        }
    }

    /// The list of a `Vec`, which is moved and not copied.
    pub fn from_vec(items: Vec<T>) -> Seq<T>
        ensures { result ≡ items.items }
    {
        Seq { items }
    }

    /// The `Vec` of a list, which is moved and not copied.
    pub fn into_vec(self) -> Vec<T>
        ensures { result.items ≡ self }
    {
        let Seq { items } = self;
        items
    }

    /// The number of items.
    pub fn len(&self) -> usize
        ensures { result ≡ length self.now }
    {
        self.items.len()
    }

    /// Whether there is no item.
    pub fn is_empty(&self) -> bool
        ensures { IsTrue result ↔ (self.now ≡ []) }
    {
        self.items.is_empty()
    }

    /// The item at a position that is there. `get` is for one that may not be.
    pub fn at(&self, at: usize) -> &T
        requires { at < length self.now }
        ensures { slice_get self.now at ≡ Some result.now }
    {
        &self.items[at]
    }

    /// The item at a position, and None exactly where the list ends before it.
    pub fn get(&self, at: usize) -> Option<&T>
        ensures value { option_copied result ≡ slice_get self.now at }
        ensures within { IsSome result ↔ (at < length self.now) }
        ensures item { IfSome result (λ x. slice_get self.now at ≡ Some x.now) }
    {
        self.items.get(at)
    }

    /// Lends the items in their order, one by one.
    pub fn iter(&self) -> slice::Iter<'_, T>
        ensures { iter_rest result ≡ self.now }
    {
        self.items.iter()
    }

    /// All items, at no cost.
    pub fn as_slice(&self) -> &[T]
        ensures { result.now ≡ self.now }
    {
        self.items.as_slice()
    }

    /// Adds an item at the end. Out of memory hands it back and changes nothing.
    pub fn push(&mut self, item: T) -> Result<(), (NoMemory, T)>
        ensures ok { OnOk result (self.new ≡ self.old ++ item ∷ []) }
        ensures err { IfErr result (λ e. (self.new ≡ self.old) × (e.1 ≡ item)) }
    {
        match self.items.push(item) {
            Ok(()) => Ok(()),
            Err(refused) => Err((NoMemory, refused.value)),
        }
    }

    /// Takes the last item off. None exactly where the list is empty. Takes no memory.
    pub fn pop(&mut self) -> Option<T>
        ensures some { IfSome result (λ x. self.old ≡ self.new ++ x ∷ []) }
        ensures none { IfNone result ((self.old ≡ []) × (self.new ≡ [])) }
    {
        self.items.pop()
    }
}

impl<T> Seq<T> {
    ghost use Rattle.std.specs.Borrow.{sem};
    ghost use Rattle.ss_value.specs.Lending.{LendsItem};

    /// Lends the item at a position: what is written through the loan is then the item there, and the others are
    /// unchanged. None exactly where the list ends before it.
    pub fn get_mut(&mut self, at: usize) -> Option<&mut T>
        ensures* writes_back { sem 𝓛 (LendsItem T.row self.entry at result) }
        ensures within { IsSome result ↔ (at < length self.old) }
        ensures item { IfSome result (λ x. slice_get self.old at ≡ Some x.now) }
    {
        self.items.get_mut(at)
    }

    /// Replaces the item at a position and gives back the old one. Takes no memory.
    pub fn put(&mut self, at: usize, item: T) -> T
        requires { at < length self.old }
        ensures old { slice_get self.old at ≡ Some result }
        ensures new { self.new ≡ slice_set self.old at item }
    {
        std::mem::replace(&mut self.items[at], item)
    }

    /// Makes room for this many more items, so that fewer later pushes move the list. The items are unchanged. Linear in
    /// them where they have to move.
    ///
    /// That a push then can't fail is no part of what contracts see of a `Seq`; of a `Reserved` it is.
    pub fn reserve(&mut self, more: usize) -> Result<(), NoMemory>
        ensures { self.new ≡ self.old }
    {
        match self.items.reserve(more) {
            Ok(()) => Ok(()),
            Err(_) => Err(NoMemory),
        }
    }
}
