//! The turns of bays, which `taking` gets with the partitions and `putting` gives up again: a value.

use crate::partition::Partition;
use ss_model::Life;
use ss_party::Turn;
use std::marker::Model;

/// The turns of the bays whose partitions are in hand, in the order of the partitions.
///
/// It can't be let go of, as no turn can: who has taken partitions puts them back. Of one bay it takes no memory.
pub struct Turns<I: Life> {
    pub(crate) first: Turn<Partition<I>>,
    pub(crate) others: Vec<Turn<Partition<I>>>,
}

impl<I: Life> Model for Turns<I> {
    ghost use Rattle.std.specs.Prelude.{List, ◌∷◌};
    ghost use Rattle.ss_party.specs.Turns.{TurnValue};

    ghost Value = { List TurnValue };

    ghost view = { λ t. t.first ∷ t.others.items };
}
