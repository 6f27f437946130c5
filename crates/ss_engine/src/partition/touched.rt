//! The partitions that an entry touches, read off the entry and the catalogue, and not taken. `client/submit` asks for the
//! first, to which it sends a job, and `serve` for all. `client/checkpoint` asks for all that run.

ghost use Rattle.std.specs.Prelude.{◌≡◌, ◌<◌, ◌≤◌, nat_lt, true};
ghost use Rattle.ss_model.specs.Database.{fits_entry};
ghost use Rattle.ss_model.specs.Partitions.{touches};
ghost use Rattle.ss_partition.specs.PartSets.{HasJust};
ghost use Rattle.ss_engine.specs.Pumped.{IsLeastOf};

use crate::engine::Engine;
use crate::partition::least::least_of;
use ss_model::{Entry, Life};
use ss_partition::touch_set;
use ss_proc::Runner;
use ss_settle::Gate;
use ss_value::PartSet;

/// The set of so many partitions.
fn first_parts(parts: u8) -> PartSet
    requires { parts ≤ 8 }
    ensures { HasJust result (λ p. nat_lt p parts) }
{
    let mut set = PartSet::empty();
    for partition in 0..parts {
        set.insert(partition);
    }
    set
}

impl<I: Life, N: Runner + Drop, G: Gate + Drop> Engine<I, N, G> {
    /// The least partition that an entry touches, and all of them. Costs what `touch_set` does; takes no memory.
    pub(crate) fn touched(&self, entry: &Entry) -> (u8, PartSet)
        requires { fits_entry I.catalog entry.now ≡ true }
        ensures least { IsLeastOf I.catalog I.parts entry.now result.0 }
        ensures set { HasJust result.1 (touches I.catalog I.parts entry.now) }
        ensures below { result.0 < I.parts }
    {
        let set = touch_set(&self.catalog, entry, self.parts);
        let Some(least) = least_of(set, self.parts) else {
            unreachable!()
        };
        (least, set)
    }

    /// All partitions that run. Takes no memory.
    pub(crate) fn all_parts(&self) -> PartSet
        ensures { HasJust result (λ p. nat_lt p I.parts) }
    {
        first_parts(self.parts)
    }
}
