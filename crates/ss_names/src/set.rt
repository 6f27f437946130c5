//! Sets of names.

ghost use Rattle.std.specs.Prelude.{◌≡◌, [], ◌∷◌, ◌++◌, map, not, if◌then◌else◌, IfOk, OnOk, OnErr};
ghost use Rattle.ss_names.specs.Names.{is_among, AreSameNames, HasSomeOf};

use crate::named::Named;
use indexmap::IndexSet;
use ss_value::NoMemory;
use std::alloc::Global;
use std::marker::Model;

/// Names without repeats, in the order in which they were added. Each is sought by its hash.
///
/// It borrows the names' bytes, and takes a reference and a hash for each.
pub struct NameSet<'a> {
    names: IndexSet<&'a [u8]>,
}

// By hand, so that letting a set go is one call and not one for each of its parts.
impl Drop for NameSet<'_> {
    fn drop(self) {
        let NameSet { names: _ } = self;
    }
}

impl<'a> Model for NameSet<'a> {
    ghost use Rattle.std.specs.Prelude.{ℕ, List};

    ghost Value = { List (List ℕ) };

    ghost use Rattle.ss_names.specs.Names.{bytes_behind};

    ghost view = { λ s. bytes_behind s.names.keys };
}

impl<'a> NameSet<'a> {
    /// The set of no names. Takes no memory.
    pub fn new(alloc: Global) -> NameSet<'a>
        ensures { result ≡ [] }
    {
        NameSet {
            names: IndexSet::new(alloc),
        }
    }

    /// Puts a name behind the others, and answers whether it is new; one that was there stays where it is. Takes the
    /// time of a hash on average over many. Out of memory changes nothing.
    pub fn insert(&mut self, name: &'a [u8]) -> Result<bool, NoMemory>
        ensures ok { IfOk result (λ fresh. fresh ≡ not (is_among self.old name.entry.now)) }
        ensures names { OnOk result (self.new ≡ (if is_among self.old name.entry.now then self.old else self.old ++ name.entry.now ∷ [])) }
        ensures err { OnErr result (self.new ≡ self.old) }
    {
        let fresh = self.names.insert(name)?;
        Ok(fresh)
    }

    /// Whether a name is in the set. Takes the time of a hash.
    pub fn has(&self, name: &[u8]) -> bool
        ensures { result ≡ is_among self.now name.now }
    {
        self.names.contains(name)
    }
}

/// Adds the names of a list, in time linear in it. Out of memory has added some first ones of them.
pub fn add_all<'a, T: Named>(names: &mut NameSet<'a>, items: &'a [T]) -> Result<(), NoMemory>
    ensures ok { OnOk result (AreSameNames names.new (names.old ++ map T.name items.now)) }
    ensures err { OnErr result (HasSomeOf T.name items.now names.old names.new) }
{
    for item in items {
        names.insert(item.name())?;
    }
    Ok(())
}

/// The names of a list, in time linear in it.
pub fn names_of<'a, T: Named>(alloc: Global, items: &'a [T]) -> Result<NameSet<'a>, NoMemory>
    ensures { IfOk result (λ names. AreSameNames names (map T.name items.now)) }
{
    let mut names = NameSet::new(alloc);
    add_all(&mut names, items)?;
    Ok(names)
}
