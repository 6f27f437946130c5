//! A note that comes to know what ran on the parts in hand. `ss_engine` asks for it behind a step, for the note of whoever pumps.

ghost use Rattle.std.specs.Prelude.{◌≡◌, ◌≤◌, ℕ, List, []};
ghost use Rattle.ss_model.specs.Accepted.{Accepted};
ghost use Rattle.ss_commitlog.specs.Roles.{In};
ghost use Rattle.ss_commitlog.specs.Tokens.{Known, Continues, Follows};
ghost use Rattle.ss_hand.specs.Hands.{IsInHand};

use crate::hand::Hand;
use ss_commitlog::{CommitLog, Note};
use ss_model::Life;
use std::sync::Wait;

/// The first mark in hand and the note then know one list; so the note knows what ran on the parts. The mark may go on too, and
/// the same partitions are in hand.
///
/// Takes the log's lock once, and no memory.
pub fn show_note<I: Life, R: Wait>(
    rt: &R,
    log: &CommitLog<I>,
    hand: &mut Hand<I>,
    note: &mut Note<I>,
)
    requires accepted { Accepted I.catalog }
    requires parts { 1 ≤ I.parts }
    requires marks { hand.old.marks ≡ [] → ⊥ }
    ensures in_hand { (held : List ℕ) → IsInHand I.catalog I.parts I.opening held hand.old → IsInHand I.catalog I.parts I.opening held hand.new }
    ensures note { Follows I.catalog I.parts I.limit note.old note.new }
    ensures one { (k : Known) × In k hand.old.marks × Continues I.catalog I.parts note.new.list k }
{
    let Some(mark) = hand.marks.get_mut(0) else {
        unreachable!()
    };
    log.meet(rt, mark, note);
}
