//! The right to fill a bay.

use crate::tagged::Tagged;
use atomic_table::Seat;
use std::marker::Model;

/// The right to fill one bay, which comes with the value that was taken from it, and in no other way.
///
/// Contracts see which bay it is, and of which bays. It has no `Drop`: `put` alone ends it.
pub struct Turn<T: Tagged> {
    pub(crate) bay: usize,
    pub(crate) seat: Seat<Option<T>, ()>,
}

impl<T: Tagged> Model for Turn<T> {
    ghost use Rattle.std.specs.Prelude.{◌≡◌, ◌<◌, [], ◌∷◌, None};
    ghost use Rattle.ss_party.specs.Turns.{TurnValue, turn_of};

    ghost Value = { TurnValue };

    ghost view = { λ t. turn_of t.seat.table_id t.bay };

    // the slot is out with this turn's seat, and empty
    ghost invariant = { λ t. (t.bay < t.seat.table_id.slots) × (t.bay < t.seat.table_id.words) × (t.seat.me ≡ (tt, (t.bay, None) ∷ [])) };
}

// Ends a turn whose bay stays empty for good.
pub(crate) fn end<T: Tagged>(turn: Turn<T>) {
    let Turn {
        bay: _bay,
        seat: _seat,
    } = turn;
}
