//! Ranks: the longest path from the border to each procedure.

ghost use Rattle.std.specs.Prelude.{◌≡◌, ◌≤◌, ◌<◌, ◌+◌, length, get_or, ℕ};
ghost use Rattle.std.specs.List.{AllByRecursion};
ghost use Rattle.ss_model.specs.Accepted.{Accepted};
ghost use Rattle.ss_model.specs.Settling.{emitting_procedure};
ghost use Rattle.ss_sched.specs.Ranks.{AreEmitters, AreRanks, AreCounted, greatest_rank, rank_by};

use ss_model::{Catalog, Procedure};
use std::marker::Model;

/// The most procedures that a catalogue has.
const PROCEDURES: usize = 64;

/// The most streams that a catalogue has.
const STREAMS: usize = 32;

/// The rank of each procedure of a catalogue: the length of the longest path to it from a border procedure, whose own rank
/// is 0.
///
/// Contracts see the list of ranks, by number of the procedure. A path has 64 procedures at most, so a rank fits a byte,
/// and the value is 64 bytes with no memory of its own.
#[derive(Drop)]
pub struct Ranks {
    by_number: [u8; PROCEDURES],
}

impl Model for Ranks {
    ghost use Rattle.std.specs.Prelude.{ℕ, List};

    ghost Value = { List ℕ };

    ghost view = { λ r. r.by_number };
}

/// A rank of 0 for each procedure.
fn zeros() -> [u8; PROCEDURES]
    ensures zero { (q : ℕ) → get_or result q 0 ≡ 0 }
    ensures long { length result ≡ 64 }
{
    [0; PROCEDURES]
}

/// The first procedure that emits to a stream, and 0 where none does.
fn emitting_procedure(catalog: &Catalog, stream: u16) -> u16
    requires { Accepted catalog.now }
    ensures emitter { result ≡ emitting_procedure catalog.now stream }
    ensures small { result < 64 }
{
    for (number, procedure) in catalog.procedures.as_slice().iter().enumerate() {
        if procedure.emits(usize::from(stream)) {
            return number as u16;
        }
    }
    0
}

/// The emitter of each stream, by number.
fn emitters(catalog: &Catalog) -> [u16; STREAMS]
    requires { Accepted catalog.now }
    ensures emitters { AreEmitters catalog.now result }
    ensures small { (s : ℕ) → get_or result s 0 < 64 }
{
    let mut found = [0; STREAMS];
    for stream in 0..catalog.streams.len() {
        found[stream] = emitting_procedure(catalog, stream as u16);
    }
    found
}

/// The greatest rank of the emitters of these streams, and 0 where there is no stream.
fn greatest_rank(inputs: &[u16], emitters: &[u16], ranks: &[u8]) -> u8
    requires streams { AllByRecursion (λ s. s < length emitters.now) inputs.now }
    requires procedures { (s : ℕ) → s < length emitters.now → get_or emitters.now s 0 < length ranks.now }
    ensures { result ≡ greatest_rank ranks.now emitters.now inputs.now }
{
    let mut most = 0;
    for stream in inputs {
        let emitter = emitters[usize::from(*stream)];
        most = most.max(ranks[usize::from(emitter)]);
    }
    most
}

/// The rank of a procedure from those of the emitters of its inputs.
fn next_rank(procedure: &Procedure, emitters: &[u16], ranks: &[u8; PROCEDURES]) -> u8
    requires streams { AllByRecursion (λ s. s < length emitters.now) procedure.now.inputs }
    requires procedures { (s : ℕ) → s < length emitters.now → get_or emitters.now s 0 < 64 }
    requires small { (q : ℕ) → get_or ranks.now q 0 ≤ 64 }
    ensures { result ≡ rank_by ranks.now emitters.now procedure.now }
{
    if procedure.kind.is_border() {
        return 0;
    }
    1 + greatest_rank(procedure.inputs.as_slice(), emitters, ranks)
}

/// The ranks with paths that are one procedure longer counted too.
fn next_ranks(
    catalog: &Catalog,
    emitters: &[u16; STREAMS],
    ranks: &[u8; PROCEDURES],
) -> [u8; PROCEDURES]
    requires accepted { Accepted catalog.now }
    requires emitters { AreEmitters catalog.now emitters.now }
    requires there { (s : ℕ) → get_or emitters.now s 0 < 64 }
    requires small { (q : ℕ) → get_or ranks.now q 0 ≤ 64 }
    ensures { (depth : ℕ) → AreCounted catalog.now depth ranks.now → AreCounted catalog.now (depth + 1) result }
{
    let mut by_number = zeros();
    for (number, procedure) in catalog.procedures.as_slice().iter().enumerate() {
        by_number[number] = next_rank(procedure, emitters, ranks);
    }
    by_number
}

impl Ranks {
    /// The ranks of a catalogue's procedures.
    ///
    /// Made in rounds, each of which counts paths that are one procedure longer. Costs a look at each step of the catalogue
    /// for each stream, and in each round one at each input of each procedure.
    pub fn of(catalog: &Catalog) -> Ranks
        requires { Accepted catalog.now }
        ensures { AreRanks catalog.now result }
    {
        let emitters = emitters(catalog);
        let mut by_number = zeros();
        // Each round is the definition's own recursion, instead of a walk in topological order.
        // No path has more procedures than the catalogue, so as many rounds are enough, in whatever order they are listed.
        for round in 0..catalog.procedures.len() {
            by_number = next_ranks(catalog, &emitters, &by_number);
        }
        Ranks { by_number }
    }

    /// The rank of a procedure, in constant time.
    pub fn of_procedure(&self, procedure: u16) -> u8
        requires { procedure < 64 }
        ensures { result ≡ get_or self.now procedure 0 }
    {
        self.by_number[usize::from(procedure)]
    }
}
