//! What an index holds of one part.

ghost use Rattle.std.specs.Prelude.{◌≡◌, OnOk, OnErr, map};
ghost use Rattle.ss_chunks.specs.Chunks.{rest_items};
ghost use Rattle.ss_index.specs.Entries.{pair_in};
ghost use Rattle.ss_index.specs.Parts.{empty_part, with_pair, without_pair};
ghost use Rattle.ss_index.specs.Merges.{aim_pair, from_end};

use crate::index_entry::IndexEntry;
use crate::search::{PairAim, RangeAim};
use ss_chunks::{Chunked, Rest};
use ss_value::NoMemory;
use std::alloc::Global;
use std::marker::Model;

/// The pairs of one part, in their order: a pair that occurs more than once has as many entries, side by side.
#[derive(Drop)]
pub struct IndexPart {
    number: u8,
    entries: Chunked<IndexEntry>,
}

impl Model for IndexPart {
    ghost use Rattle.ss_index.specs.Parts.{PartValue, coded_part};

    ghost Value = { PartValue };

    ghost coded = { coded_part };

    ghost use Rattle.ss_index.specs.Entries.{AreRising};
    ghost use Rattle.ss_index.specs.Parts.{part_value};

    ghost view = { λ o. part_value o.number o.entries };

    ghost invariant = { λ o. AreRising o.entries };
}

impl IndexPart {
    /// A part without a pair. Takes no memory.
    pub fn new(alloc: Global, number: u8) -> IndexPart
        ensures { result ≡ empty_part number }
    {
        IndexPart {
            number,
            entries: Chunked::new(alloc),
        }
    }

    /// The part's number. Constant.
    pub fn number(&self) -> u8
        ensures { result ≡ self.now.part }
    {
        self.number
    }

    /// Adds an entry with the pair of an aim. A search and a move of one chunk. Out of memory drops the entry and changes
    /// nothing else.
    pub fn insert(&mut self, aim: &PairAim<'_>, entry: IndexEntry) -> Result<(), NoMemory>
        requires { pair_in entry ≡ aim_pair aim.now }
        ensures ok { OnOk result (self.new ≡ with_pair (pair_in entry) self.old) }
        ensures err { OnErr result (self.new ≡ self.old) }
    {
        self.entries.insert(aim, entry)
    }

    /// Takes out the first entry that doesn't stand before an aim: one with its pair, where there is one. A search and a
    /// move of one chunk. Takes no memory.
    pub fn remove(&mut self, aim: &PairAim<'_>)
        ensures { self.new ≡ without_pair (aim_pair aim.now) self.old }
    {
        let _ = self.entries.remove(aim);
    }

    /// The entries from the low end of a range on. A search.
    pub fn rest(&self, aim: &RangeAim<'_>) -> Rest<'_, IndexEntry>
        ensures { map pair_in (rest_items result) ≡ from_end aim.now.low.now self.now }
    {
        self.entries.rest(aim)
    }
}
