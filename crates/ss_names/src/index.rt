//! A list of names, with the first position of each.

ghost use Rattle.std.specs.Prelude.{◌≡◌, ℕ, List, map, position, IfOk, OnOk};
ghost use Rattle.std.specs.Borrow.{Bor};
ghost use Rattle.std.specs.Str.{bytes_eq};
ghost use Rattle.indexmap.specs.IndexMap.{get};
ghost use Rattle.ss_names.specs.Names.{is_among, bytes_behind};
ghost use Rattle.ss_names.specs.Hashed.{same_bytes, IsIndexOf, IsNotedAt};

use crate::named::Named;
use indexmap::IndexMap;
use ss_value::NoMemory;
use std::alloc::Global;
use std::marker::Model;

/// A list of names, in which each is sought by its hash.
///
/// It borrows the names' bytes. It takes a reference for each name, and an entry of a hash table for each distinct one.
pub struct NameIndex<'a> {
    names: Vec<&'a [u8]>,
    positions: IndexMap<&'a [u8], usize>,
}

// By hand, so that letting an index go is one call and not one for each of its parts.
impl Drop for NameIndex<'_> {
    fn drop(self) {
        let NameIndex {
            names: _,
            positions: _,
        } = self;
    }
}

impl<'a> Model for NameIndex<'a> {
    ghost use Rattle.std.specs.Prelude.{ℕ, List};

    ghost Value = { List (List ℕ) };

    ghost use Rattle.ss_names.specs.Names.{bytes_behind};
    ghost use Rattle.ss_names.specs.Hashed.{IsIndexOf};

    ghost view = { λ i. bytes_behind i.names.items };

    ghost invariant = { λ i. IsIndexOf (bytes_behind i.names.items) i.positions };
}

/// References to the names of a list.
fn names_behind<'a, T: Named>(alloc: Global, items: &'a [T]) -> Result<Vec<&'a [u8]>, NoMemory>
    ensures { IfOk result (λ names. bytes_behind names.items ≡ map T.name items.now) }
{
    let mut names = Vec::new(alloc);
    for item in items {
        names.push(item.name())?;
    }
    Ok(names)
}

/// Enters a name with its position, unless it is there.
fn add_name<'a>(
    positions: &mut IndexMap<&'a [u8], usize>,
    name: &'a [u8],
    at: usize,
) -> Result<(), NoMemory>
    ensures { OnOk result (IsNotedAt at name.entry positions.old positions.new) }
{
    // An insert would replace the first position, which is the one that counts.
    if positions.contains_key(name) {
        return Ok(());
    }
    positions.insert(name, at)?;
    Ok(())
}

/// The first position of each name.
fn positions_of<'a>(
    alloc: Global,
    names: &[&'a [u8]],
) -> Result<IndexMap<&'a [u8], usize>, NoMemory>
    ensures { IfOk result (IsIndexOf (bytes_behind names.now)) }
{
    let mut positions = IndexMap::new(alloc);
    for (at, name) in names.iter().enumerate() {
        add_name(&mut positions, *name, at)?;
    }
    Ok(positions)
}

impl<'a> NameIndex<'a> {
    /// The index of a list's names, in time and memory linear in it.
    pub fn new<T: Named>(alloc: Global, items: &'a [T]) -> Result<NameIndex<'a>, NoMemory>
        ensures { IfOk result (λ index. index ≡ map T.name items.now) }
    {
        let names = names_behind(alloc, items)?;
        let positions = positions_of(alloc, names.as_slice())?;
        Ok(NameIndex { names, positions })
    }

    /// The first position of a name, and None exactly where it is not in the list. Takes the time of a hash.
    pub fn position(&self, name: &[u8]) -> Option<usize>
        ensures { result ≡ position (bytes_eq name.now) self.now }
    {
        self.positions.get(name).copied()
    }

    /// Whether a name is in the list. Takes the time of a hash.
    #[tactic(auto, using(crate::proofs::Positions::among_is))]
    pub fn has(&self, name: &[u8]) -> bool
        ensures { result ≡ is_among self.now name.now }
    {
        self.position(name).is_some()
    }
}
