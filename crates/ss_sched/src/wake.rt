//! The procedures that an entry wakes.

ghost use Rattle.std.specs.Prelude.{◌≡◌, ◌<◌, ◌↔◌, ℕ, true, IsTrue};
ghost use Rattle.std.specs.Int.{IsBitSet};
ghost use Rattle.std.specs.List.{AllByRecursion, list_any};
ghost use Rattle.ss_model.specs.Accepted.{Accepted};
ghost use Rattle.ss_model.specs.Database.{fits_entry, emits_to, takes_stream};
ghost use Rattle.ss_model.specs.Wakes.{wakes};
ghost use Rattle.ss_sched.specs.Wakes.{may_append};

use ss_model::{Catalog, Entry, Procedure, Step};
use ss_value::ProcSet;

/// The set of one stream. A `ProcSet` is a set of numbers below 64, so it serves for streams as well.
fn set_of_stream(stream: u16) -> ProcSet
    requires { stream < 64 }
    ensures { (s : ℕ) → IsBitSet result s ↔ (s ≡ stream) }
{
    let mut streams = ProcSet::empty();
    streams.insert(stream as u8);
    streams
}

/// The streams to which these steps emit.
fn body_outputs(body: &[Step]) -> ProcSet
    requires { (s : ℕ) → list_any (emits_to s) body.now ≡ true → s < 64 }
    ensures { (s : ℕ) → IsBitSet result s ↔ (list_any (emits_to s) body.now ≡ true) }
{
    let mut streams = ProcSet::empty();
    for step in body {
        if let Step::Emit { stream, .. } = step {
            streams.insert(*stream as u8);
        }
    }
    streams
}

/// The streams to which an entry may append a batch.
fn entry_outputs(catalog: &Catalog, entry: &Entry) -> ProcSet
    requires accepted { Accepted catalog.now }
    requires fits { fits_entry catalog.now entry.now ≡ true }
    ensures { (s : ℕ) → IsBitSet result s ↔ (may_append catalog.now entry.now s ≡ true) }
{
    match entry {
        Entry::Call { .. } | Entry::Install { .. } => ProcSet::empty(),
        Entry::Push { stream, .. } => set_of_stream(*stream),
        Entry::Step { procedure, .. } => {
            let found = catalog.procedures.at(usize::from(*procedure));
            body_outputs(found.body.as_slice())
        }
    }
}

/// Whether a procedure takes one of these streams.
fn takes_any(procedure: &Procedure, streams: &ProcSet) -> bool
    requires { AllByRecursion (λ s. s < 64) procedure.now.inputs }
    ensures { IsTrue result ↔ ((s : ℕ) × IsBitSet streams.now s × (takes_stream s procedure.now ≡ true)) }
{
    for input in procedure.inputs.as_slice() {
        if streams.has(*input as u8) {
            return true;
        }
    }
    false
}

/// The procedures that an entry may make ready: for a step each consumer of a stream to which it emits, and for a push,
/// accepted or refused, the border procedure of its stream.
///
/// Costs a look at each input of each procedure, and for a step one at each step of its body.
///
/// Source: the partition-engine triggers of S-Store, by which a procedure's output sets off the one behind it (Meehan
/// et al., PVLDB 8, 2015, section 3.2).
pub fn wake_list(catalog: &Catalog, entry: &Entry) -> ProcSet
    requires accepted { Accepted catalog.now }
    requires fits { fits_entry catalog.now entry.now ≡ true }
    ensures { (q : ℕ) → IsBitSet result q ↔ (wakes catalog.now entry.now q ≡ true) }
{
    let streams = entry_outputs(catalog, entry);
    let mut woken = ProcSet::empty();
    for (number, procedure) in catalog.procedures.as_slice().iter().enumerate() {
        if takes_any(procedure, &streams) {
            woken.insert(number as u8);
        }
    }
    woken
}
