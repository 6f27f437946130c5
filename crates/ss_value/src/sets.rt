//! Sets of small numbers, one bit for each possible member.
//!
//! Contracts see a set as a number, whose bit n says whether n is a member. No call takes memory.

ghost use Rattle.std.specs.Prelude.{◌≡◌, ◌<◌, ◌↔◌, ◌⊎◌, ℕ, IsTrue};
ghost use Rattle.std.specs.Int.{IsBitSet};

use std::marker::Model;

/// A set of partitions, which are numbered from 0 to 7.
#[derive(Clone, Copy, Debug, PartialEq, Eq, Drop)]
pub struct PartSet {
    bits: u8,
}

impl Model for PartSet {
    ghost use Rattle.std.specs.Prelude.{ℕ};

    ghost Value = { ℕ };

    ghost view = { λ s. s.bits };

    ghost inverse = { λ n. record { bits = n } };
}

impl PartSet {
    /// The empty set.
    pub fn empty() -> PartSet
        ensures { result ≡ 0 }
    {
        PartSet { bits: 0 }
    }

    /// Whether n is a member.
    pub fn has(&self, n: u8) -> bool
        requires { n < 8 }
        ensures { IsTrue result ↔ IsBitSet self.now n }
    {
        self.bits & (1 << n) != 0
    }

    /// Makes n a member. The others are unchanged.
    pub fn insert(&mut self, n: u8)
        requires { n < 8 }
        ensures { (i : ℕ) → IsBitSet self.new i ↔ ((i ≡ n) ⊎ IsBitSet self.old i) }
    {
        self.bits |= 1 << n;
    }
}

/// A set of procedures, which are numbered from 0 to 63. Triggers, of which there are as many, use it too.
#[derive(Clone, Copy, Debug, PartialEq, Eq, Drop)]
pub struct ProcSet {
    bits: u64,
}

impl Model for ProcSet {
    ghost use Rattle.std.specs.Prelude.{ℕ};

    ghost Value = { ℕ };

    ghost view = { λ s. s.bits };

    ghost inverse = { λ n. record { bits = n } };
}

impl ProcSet {
    /// The empty set.
    pub fn empty() -> ProcSet
        ensures { result ≡ 0 }
    {
        ProcSet { bits: 0 }
    }

    /// Whether n is a member.
    pub fn has(&self, n: u8) -> bool
        requires { n < 64 }
        ensures { IsTrue result ↔ IsBitSet self.now n }
    {
        self.bits & (1 << n) != 0
    }

    /// Makes n a member. The others are unchanged.
    pub fn insert(&mut self, n: u8)
        requires { n < 64 }
        ensures { (i : ℕ) → IsBitSet self.new i ↔ ((i ≡ n) ⊎ IsBitSet self.old i) }
    {
        self.bits |= 1 << n;
    }
}
