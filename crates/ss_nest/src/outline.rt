//! The nests of a catalogue as JSON.

ghost use Rattle.std.specs.Prelude.{◌≡◌, Ok, IfOk, IfErr};
ghost use Rattle.serde_json.specs.Find.{as_array};
ghost use Rattle.serde_json.specs.View.{view};
ghost use Rattle.ss_catalog_json.specs.Readings.{FaultsAs};
ghost use Rattle.ss_nest.specs.Outlines.{is_several, read_members, read_nest, read_nests};

use serde_json::Value as Json;
use ss_catalog_json::{
    ArrayOf, ItemCount, NameReader, ReadError, Reader, Word, WordReader, fault_here, object_of,
    read_key, read_key_or,
};
use ss_value::{Name, Seq};
use std::alloc::Global;

/// A nest as it is written: its name, and its procedures by name.
#[derive(Drop)]
pub struct NestOutline {
    pub name: Name,
    pub procedures: Seq<Word>,
}

/// Whether a value is an array of two to eight items.
#[tactic(auto, using(crate::proofs::Values::items_counted))]
fn is_several(value: &Json) -> bool
    ensures { result ≡ is_several (as_array (view value.now)) }
{
    match value.as_array() {
        Some(items) => 2 <= items.len() && items.len() <= 8,
        None => false,
    }
}

/// The procedures of a nest: from two to eight texts. A wrong number is a fault of the array, and is looked at first.
#[derive(Drop)]
pub struct MembersReader;

impl Reader for MembersReader {
    type Read = Seq<Word>;

    ghost reading = { λ _. read_members };

    fn read(&self, alloc: Global, value: &Json) -> Result<Seq<Word>, ReadError> {
        if !is_several(value) {
            return Err(fault_here(alloc));
        }
        let words = ArrayOf {
            many: ItemCount::Any,
            of: WordReader,
        };
        words.read(alloc, value)
    }
}

/// A nest.
#[derive(Drop)]
pub struct NestReader;

impl Reader for NestReader {
    type Read = NestOutline;

    ghost reading = { λ _. read_nest };

    fn read(&self, alloc: Global, value: &Json) -> Result<NestOutline, ReadError> {
        object_of(alloc, value, &["name", "procedures"])?;
        let name = read_key(alloc, value, "name", &NameReader)?;
        let procedures = read_key(alloc, value, "procedures", &MembersReader)?;
        Ok(NestOutline { name, procedures })
    }
}

/// The nests of a catalogue's value, as they are written: none where the section is missing. A fault is told by the way
/// from the whole value to it. Linear in the section, in time and memory.
pub(crate) fn read_nests(alloc: Global, value: &Json) -> Result<Seq<NestOutline>, ReadError>
    ensures ok { IfOk result (λ outlines. read_nests (view value.now) ≡ Ok outlines) }
    ensures refused { IfErr result (FaultsAs (read_nests (view value.now))) }
{
    let nests = ArrayOf {
        many: ItemCount::Any,
        of: NestReader,
    };
    read_key_or(alloc, value, "nests", &nests, Seq::new(alloc))
}
