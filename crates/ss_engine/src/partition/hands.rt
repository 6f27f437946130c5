//! Partitions in and out of the engine's bays, by the two calls of `ss_hand`, for `serve`, `follow` and `client/checkpoint`.

ghost use Rattle.std.specs.Prelude.{◌≡◌, ◌<◌, ℕ, List, map, IfOk};
ghost use Rattle.std.specs.Int.{IsBitSet};
ghost use Rattle.ss_commitlog.specs.Growing.{GoesOn};
ghost use Rattle.ss_party.specs.Turns.{turn_of};
ghost use Rattle.ss_hand.specs.Hands.{IsInHand, WereTaken};

use crate::engine::Engine;
use ss_commitlog::Note;
use ss_hand::{Hand, Turns, put_parts, take_parts};
use ss_model::Life;
use ss_proc::Runner;
use ss_settle::Gate;
use ss_turns::Works;
use ss_value::{NoMemory, PartSet};
use std::alloc::Global;
use std::sync::Wait;

impl<I: Life, N: Runner + Drop, G: Gate + Drop> Engine<I, N, G> {
    /// Takes the partitions of a set out of their bays, in rising order, and waits at each that is empty, as `take_parts` does. Takes
    /// the log's lock once. Out of memory has put back what it took; the note may know more of the list. `serve` and `follow` call
    /// it, and `client/checkpoint` for all partitions.
    pub(crate) fn take_set<R: Wait>(
        &self,
        works: &Works<I, N, R>,
        note: &mut Note<I>,
        set: PartSet,
    ) -> Result<(Hand<I>, Turns<I>), NoMemory>
        requires some { (p : ℕ) × IsBitSet set p }
        requires below { (p : ℕ) → IsBitSet set p → p < I.parts }
        ensures note { GoesOn I.catalog I.parts note.old note.new }
        ensures ok { IfOk result (λ taken. WereTaken I.catalog I.parts I.opening self.now set note.new taken.0 taken.1) }
    {
        take_parts(
            works.rt,
            works.alloc,
            works.log,
            works.catalog,
            works.parts,
            &self.bays,
            set,
            note,
        )
    }

    /// Puts them back, as `put_parts` does. Takes no memory and no lock, and waits for nobody.
    pub(crate) fn put_back(&self, alloc: Global, hand: Hand<I>, turns: Turns<I>)
        requires { (held : List ℕ) × IsInHand I.catalog I.parts I.opening held hand × (turns ≡ map (turn_of self.now) held) }
    {
        put_parts(alloc, &self.catalog, self.parts, &self.bays, hand, turns);
    }
}
