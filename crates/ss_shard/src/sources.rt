//! The sources of pushes, with the numbers that their next pushes have to carry.

ghost use Rattle.std.specs.Prelude.{◌≡◌, List, ℕ, IfOk, OnOk, OnErr, IsSome, map, replicate};
ghost use Rattle.std.specs.FinMap as finite;
ghost use Rattle.ss_shard.specs.Sources.{number_of, AreNames, lent_source, positive, push_outcome};

use ss_model::Outcome;
use ss_value::{Name, NoMemory, Seq};
use std::alloc::Global;
use std::collections::BTreeMap;
use std::marker::Model;

/// The sources of a stream, by the bytes of their names, each with the number that its next push has to carry.
///
/// Contracts see a finite map from lists of bytes, as in the model, where any list of bytes may be a source. That each is
/// a name is the type's invariant, since a source comes in by `add` alone. So whoever writes the sources down has names
/// to write.
///
/// A source without an entry has the number 0, as one that never pushed. A look-up is
/// logarithmic in the number of sources; a list in place of the map would make a million sources quadratic.
///
/// A source gets its entry, with the number 0, before it is known whether its push will be committed, so that `set`
/// takes no memory. As next numbers are compared source by source (`SameNumbers`), a rollback has nothing to do for it.
/// Costs a name in the map for a push that is rolled back.
#[derive(Drop)]
pub struct Sources {
    numbers: BTreeMap<Vec<u8>, u64>,
}

impl Model for Sources {
    ghost use Rattle.std.specs.Prelude.{map};
    ghost use Rattle.std.specs.FinMap.{from_entries};
    ghost use Rattle.ss_model.specs.Database.{NextNumbers};
    ghost use Rattle.ss_shard.specs.Sources.{coded_numbers, AreNames};

    ghost Value = { NextNumbers };

    ghost coded = { coded_numbers };

    ghost view = { λ s. from_entries (map (λ e. (e.0.items, e.1)) s.numbers.entries) };

    ghost invariant = { λ s. AreNames (from_entries (map (λ e. (e.0.items, e.1)) s.numbers.entries)) };
}

impl Sources {
    /// No source has an entry yet. Takes no memory.
    pub fn new(alloc: Global) -> Sources
        ensures { result ≡ finite.empty }
    {
        Sources {
            numbers: BTreeMap::new(alloc),
        }
    }

    /// Each source that has an entry is a name. A law: it does nothing.
    pub fn sources_are_names(&self)
        ensures { AreNames self.now }
    {
        let _ = &self.numbers;
    }

    /// The number that the next push of a source has to carry. Logarithmic; takes no memory.
    pub fn next(&self, source: &Name) -> u64
        ensures { result ≡ number_of self.now source.now }
    {
        self.numbers.get(source.as_bytes()).copied().unwrap_or(0)
    }

    /// The sources that have pushed, by the bytes of their names in rising order, each with the number that its next push has
    /// to carry.
    ///
    /// One walk of the map: linear in its sources, with memory for a reference and a number for each that is listed. The names
    /// are lent and not copied, since whoever writes them down needs no more.
    pub fn numbered<'a>(&'a self, alloc: Global) -> Result<Vec<(&'a [u8], u64)>, NoMemory>
        ensures { IfOk result (λ list. map lent_source list.items ≡ finite.entries (positive self.now)) }
    {
        let mut list = Vec::new(alloc);
        for (name, number) in self.numbers.iter() {
            if *number >= 1 {
                list.push((name.as_slice(), *number))?;
            }
        }
        Ok(list)
    }

    /// Gives a source an entry, with the number 0, where it has none yet: no number changes. Logarithmic, and a copy of the
    /// name.
    pub fn add(&mut self, alloc: Global, source: &Name) -> Result<(), NoMemory>
        ensures same { (name : List ℕ) → number_of self.new name ≡ number_of self.old name }
        ensures ok { OnOk result (IsSome (finite.get self.new source.now)) }
    {
        if self.numbers.contains_key(source.as_bytes()) {
            return Ok(());
        }
        let name = Vec::from_slice(alloc, source.as_bytes())?;
        self.numbers.insert(name, 0)?;
        Ok(())
    }

    /// Gives this number to a source that has an entry. Logarithmic; takes no memory.
    pub fn set(&mut self, source: &Name, next: u64)
        requires { IsSome (finite.get self.old source.now) }
        ensures { self.new ≡ finite.insert self.old source.now next }
    {
        let Some(number) = self.numbers.get_mut(source.as_bytes()) else {
            unreachable!()
        };
        *number = next;
    }
}

/// As many streams without a source as asked for.
pub fn no_sources(alloc: Global, count: usize) -> Result<Seq<Sources>, NoMemory>
    ensures { IfOk result (λ made. made ≡ replicate count finite.empty) }
{
    let mut made = Seq::new(alloc);
    for _ in 0..count {
        made.push(Sources::new(alloc))?;
    }
    Ok(made)
}

/// What a push of the number `seq` comes to where its source has the number `next` next: done, a duplicate, or behind a gap.
///
/// Source: batches of S-Store come in the order of their numbers, each once (Meehan et al., PVLDB 8, 2015, section 2.2).
pub fn push_outcome(alloc: Global, seq: u64, next: u64) -> Outcome
    ensures { result ≡ push_outcome seq next }
{
    if seq == next {
        return Outcome::Done(Seq::new(alloc));
    }
    if seq < next {
        Outcome::Duplicate(next)
    } else {
        Outcome::Gap(next)
    }
}
