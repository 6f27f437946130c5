//! The numbers that votes are made from: a linear congruential generator, whose states are numbers of 64 bits.

ghost use Rattle.std.specs.Prelude.{◌≡◌, ◌<◌, ◌≤◌, pos};
ghost use Rattle.ss_voter.specs.Generator.{next_state};
ghost use Rattle.ss_voter.specs.Script.{contestant, phone};

/// The state behind a state.
pub(crate) fn next_state(state: u64) -> u64
    ensures { result ≡ next_state state }
{
    state
        .wrapping_mul(6_364_136_223_846_793_005)
        .wrapping_add(1_442_695_040_888_963_407)
}

/// The phone of the vote that a state makes, where there are so many votes. There are twice as many phones as votes.
pub(crate) fn phone(count: u64, state: u64) -> i64
    requires some { 1 ≤ count }
    requires few { count ≤ 200000 }
    ensures { result ≡ pos (phone count state) }
{
    (1_000_000 + (state >> 33) % (2 * count)) as i64
}

/// The contestant of the vote that a state makes, from 1 to 6.
pub(crate) fn contestant(state: u64) -> i64
    ensures { result ≡ pos (contestant state) }
{
    (1 + (state >> 20) % 6) as i64
}
