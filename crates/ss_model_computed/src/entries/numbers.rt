//! The next sequence number of each source of pushes.

ghost use Rattle.std.specs.Prelude.{◌≡◌, ◌+◌, IfOk, OnOk, OnErr, unwrap_or};
ghost use Rattle.std.specs.FinMap as finmap;

use ss_value::{Name, NoMemory, Seq};
use std::alloc::Global;
use std::collections::BTreeMap;
use std::marker::Model;

/// The next sequence numbers of the sources that push to a stream, by the bytes of a source's name: a finite map to
/// contracts.
#[derive(Drop)]
pub struct NextNumbers {
    numbers: BTreeMap<Seq<u8>, u64>,
}

impl Model for NextNumbers {
    ghost use Rattle.std.specs.FinMap.{from_entries};
    ghost use Rattle.ss_model.specs.Database.{NextNumbers};
    ghost use Rattle.ss_model_computed.specs.NumberCodes.{coded_numbers};

    ghost Value = { NextNumbers };

    ghost coded = { coded_numbers };

    ghost view = { λ n. from_entries n.numbers.entries };
}

/// A copy of a name's bytes. The map is sought by a key of its own, so a look-up takes one as well as a change.
fn source_key(alloc: Global, source: &Name) -> Result<Seq<u8>, NoMemory>
    ensures { IfOk result (λ key. key ≡ source.now) }
{
    match Vec::from_slice(alloc, source.as_bytes()) {
        Ok(bytes) => Ok(Seq::from_vec(bytes)),
        Err(_) => Err(NoMemory),
    }
}

impl NextNumbers {
    /// The map in which no source has a number yet. Takes no memory.
    pub fn new(alloc: Global) -> NextNumbers
        ensures { result ≡ finmap.empty }
    {
        NextNumbers {
            numbers: BTreeMap::new(alloc),
        }
    }

    /// The next number of a source, 0 where it has none yet. Logarithmic in the sources, with a copy of the name.
    pub fn next(&self, alloc: Global, source: &Name) -> Result<u64, NoMemory>
        ensures { IfOk result (λ next. next ≡ unwrap_or (finmap.get self.now source.now) 0) }
    {
        let key = source_key(alloc, source)?;
        let next = self.numbers.get(&key).copied();
        Ok(next.unwrap_or(0))
    }

    /// Gives a source this next number. Logarithmic in the sources, with a copy of the name. Out of memory changes nothing.
    pub fn set(&mut self, alloc: Global, source: &Name, next: u64) -> Result<(), NoMemory>
        ensures ok { OnOk result (self.new ≡ finmap.insert self.old source.now next) }
        ensures err { OnErr result (self.new ≡ self.old) }
    {
        let key = source_key(alloc, source)?;
        self.numbers.insert(key, next)?;
        Ok(())
    }
}
