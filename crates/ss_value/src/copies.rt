//! Exact copies of values that own memory, at any depth.
//!
//! The contract of a derived `clone` says only one level deep that the copy equals its source. This trait promises it
//! at every depth.

ghost use Rattle.std.specs.Prelude.{◌≡◌, IfOk};

use crate::NoMemory;
use crate::schema::Column;
use crate::seq::Seq;
use crate::text::{Name, Text};
use crate::value::Value;
use std::alloc::Global;

/// A value of which an equal one can be made, where there is memory for it.
pub trait Copies {
    /// An equal value, in time linear in its size.
    fn duplicate(&self, alloc: Global) -> Result<Self, NoMemory>
        ensures { IfOk result (λ copy. copy ≡ self.now) };
}

impl Copies for Text {
    fn duplicate(&self, alloc: Global) -> Result<Text, NoMemory> {
        self.copy(alloc)
    }
}

impl Copies for Name {
    fn duplicate(&self, alloc: Global) -> Result<Name, NoMemory> {
        self.copy(alloc)
    }
}

impl Copies for Value {
    fn duplicate(&self, alloc: Global) -> Result<Value, NoMemory> {
        self.copy(alloc)
    }
}

impl Copies for u8 {
    fn duplicate(&self, _alloc: Global) -> Result<u8, NoMemory> {
        Ok(*self)
    }
}

impl Copies for u16 {
    fn duplicate(&self, _alloc: Global) -> Result<u16, NoMemory> {
        Ok(*self)
    }
}

impl Copies for Column {
    fn duplicate(&self, alloc: Global) -> Result<Column, NoMemory> {
        let name = self.name.duplicate(alloc)?;
        Ok(Column {
            name,
            kind: self.kind,
        })
    }
}

impl<T: Copies + Drop> Copies for Seq<T> {
    fn duplicate(&self, alloc: Global) -> Result<Seq<T>, NoMemory> {
        let mut copy = Seq::with_capacity(alloc, self.len())?;
        for item in self.as_slice() {
            let item = item.duplicate(alloc)?;
            copy.push(item)?;
        }
        Ok(copy)
    }
}
