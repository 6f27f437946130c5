//! All partitions in one hand, once there are no bays any more. The close of `ss_engine` calls it.

ghost use Rattle.std.specs.Prelude.{◌≡◌, ◌≤◌, length, map, IfOk, OnOk};
ghost use Rattle.std.specs.List.{range_with_len};
ghost use Rattle.ss_model.specs.Accepted.{Accepted};
ghost use Rattle.ss_commitlog.specs.Tokens.{Follows};
ghost use Rattle.ss_party.specs.Tags.{TagsFrom};
ghost use Rattle.ss_hand.specs.Apart.{numbers_in, AreSetApart};
ghost use Rattle.ss_hand.specs.Hands.{KnowsWith};
ghost use Rattle.ss_hand.specs.Meetings.{MayFollow};
ghost use Rattle.ss_hand.specs.Partitions.{number_of};

use crate::apart::{Apart, make_room};
use crate::hand::Hand;
use crate::joining::join_all;
use crate::partition::Partition;
use ss_commitlog::{CommitLog, Note};
use ss_model::{Catalog, Life};
use ss_value::{NoMemory, Seq};
use std::alloc::Global;
use std::sync::Wait;

/// The partitions of a list in one hand, in its order, each with its own part still. Out of memory drops them.
fn set_apart<I: Life>(alloc: Global, partitions: Seq<Partition<I>>) -> Result<Hand<I>, NoMemory>
    requires { 1 ≤ length partitions }
    ensures are { IfOk result (λ hand. AreSetApart I.catalog I.parts I.opening hand) }
    ensures numbers { IfOk result (λ hand. numbers_in hand ≡ map number_of partitions) }
{
    let mut list = partitions.into_vec();
    let room = make_room(alloc, list.len())?;
    list.as_mut_slice().reverse();
    let Some(first) = list.pop() else {
        unreachable!()
    };
    let mut apart = Apart::of_one(room, first);
    while let Some(partition) = list.pop() {
        apart.add(partition);
    }
    Ok(apart.into_hand())
}

/// All partitions, as `Bays::close` gives them, in one hand: their marks and the note know one list, and one shard has all parts.
/// `parts` is how many partitions run.
///
/// Out of memory may drop all of them. Takes the log's lock once, and for each partition but the first what `absorb` takes,
/// whatever the rows.
pub fn in_one_hand<I: Life, R: Wait>(
    rt: &R,
    alloc: Global,
    log: &CommitLog<I>,
    catalog: &Catalog,
    parts: u8,
    partitions: Seq<Partition<I>>,
    note: &mut Note<I>,
) -> Result<Hand<I>, NoMemory>
    requires catalog { catalog.now ≡ I.catalog }
    requires accepted { Accepted I.catalog }
    requires parts { (parts ≡ I.parts) × (1 ≤ parts) }
    requires all { TagsFrom number_of 0 partitions × (length partitions ≡ I.parts) }
    ensures note { MayFollow I.catalog I.parts I.limit note.old note.new }
    ensures follows { OnOk result (Follows I.catalog I.parts I.limit note.old note.new) }
    ensures ok { IfOk result (λ hand. KnowsWith I.catalog I.parts I.opening (range_with_len 0 I.parts) note.new hand) }
{
    let mut hand = set_apart(alloc, partitions)?;
    join_all(rt, alloc, log, catalog, parts, &mut hand, note)?;
    Ok(hand)
}
