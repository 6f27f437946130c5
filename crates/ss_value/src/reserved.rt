//! A list with its spare room, for the few callers that need a push that takes no memory.

ghost use Rattle.std.specs.Prelude.{◌≡◌, ◌<◌, ◌≤◌, ◌+◌, ◌-◌, [], ◌∷◌, ◌++◌, length, take, IsOk, IfOk, OnOk, IfErr, OnErr, IfSome, IfNone, IsSome, Some, ◌↔◌, slice_get};

use crate::NoMemory;
use crate::seq::Seq;
use std::alloc::Global;
use std::marker::Model;

/// A list that contracts see with its spare room: how many pushes can't fail. Costs are those of `Seq`.
#[derive(Drop)]
pub struct Reserved<T> {
    items: Vec<T>,
}

impl<T> Model for Reserved<T> {
    ghost use Rattle.std.specs.Prelude.{vec_capacity, vec_len, ◌-◌};
    ghost use Rattle.ss_value.specs.Reserved.{ReservedList};

    ghost Value = { ReservedList T };

    ghost view = { λ s. record { items = s.items.items; spare = vec_capacity s.items - vec_len s.items } };
}

impl<T> Reserved<T> {
    /// The empty list. Takes no memory.
    pub fn new(alloc: Global) -> Reserved<T>
        ensures { result.items ≡ [] }
    {
        Reserved {
            items: Vec::new(alloc),
        }
    }

    /// A `Seq` with the spare room that it has, which is moved and not copied.
    pub fn from_seq(items: Seq<T>) -> Reserved<T>
        ensures { result.items ≡ items }
    {
        Reserved {
            items: items.into_vec(),
        }
    }

    /// The list as a `Seq`, which is moved and not copied.
    pub fn into_seq(self) -> Seq<T>
        ensures { result ≡ self.items }
    {
        let Reserved { items } = self;
        Seq::from_vec(items)
    }

    /// The number of items.
    pub fn len(&self) -> usize
        ensures { result ≡ length self.now.items }
    {
        self.items.len()
    }

    /// The item at a position, and None exactly where the list ends before it.
    pub fn get(&self, at: usize) -> Option<&T>
        ensures within { IsSome result ↔ (at < length self.now.items) }
        ensures item { IfSome result (λ x. slice_get self.now.items at ≡ Some x.now) }
    {
        self.items.get(at)
    }

    /// All items, at no cost.
    pub fn as_slice(&self) -> &[T]
        ensures { result.now ≡ self.now.items }
    {
        self.items.as_slice()
    }

    /// Makes the spare room at least `more` items. The items are unchanged, also when out of memory. Linear in them where
    /// they have to move.
    pub fn reserve(&mut self, more: usize) -> Result<(), NoMemory>
        ensures unchanged { self.new.items ≡ self.old.items }
        ensures ok { OnOk result (more ≤ self.new.spare) }
    {
        match self.items.reserve(more) {
            Ok(()) => Ok(()),
            Err(_) => Err(NoMemory),
        }
    }

    /// Adds an item at the end. Where there is spare room it can't fail, and uses one item's room.
    ///
    /// Out of memory hands the item back and changes nothing. Constant on average over many.
    pub fn push(&mut self, item: T) -> Result<(), (NoMemory, T)>
        ensures ok { OnOk result (self.new.items ≡ self.old.items ++ item ∷ []) }
        ensures err { IfErr result (λ e. (self.new.items ≡ self.old.items) × (e.1 ≡ item)) }
        ensures room { 1 ≤ self.old.spare → IsOk result × (self.new.spare + 1 ≡ self.old.spare) }
    {
        // A push into spare room can't fail, as the clause `room` promises.
        if self.items.len() < self.items.capacity() {
            self.items.push_reserved(item);
            return Ok(());
        }
        match self.items.push(item) {
            Ok(()) => Ok(()),
            Err(refused) => Err((NoMemory, refused.value)),
        }
    }

    /// Adds an item into the spare room, which can't fail. Takes no memory.
    pub fn add(&mut self, item: T)
        requires { 1 ≤ self.old.spare }
        ensures items { self.new.items ≡ self.old.items ++ item ∷ [] }
        ensures room { self.new.spare + 1 ≡ self.old.spare }
    {
        self.items.push_reserved(item)
    }

    /// Takes the last item off, whose room is then spare. None exactly where the list is empty.
    pub fn pop(&mut self) -> Option<T>
        ensures some { IfSome result (λ x. (self.old.items ≡ self.new.items ++ x ∷ []) × (self.new.spare ≡ self.old.spare + 1)) }
        ensures none { IfNone result ((self.old.items ≡ []) × (self.new ≡ self.old)) }
    {
        self.items.pop()
    }
}
