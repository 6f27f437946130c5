//! Shards in hand that become one, for `taking` and `closing`: first all marks meet under the commit log's lock, with the note
//! of whoever takes; then the shards are joined without it.

ghost use Rattle.std.specs.Prelude.{◌≡◌, ◌≤◌, OnOk, OnErr};
ghost use Rattle.std.specs.List.Sorted.{IsStrictlyIncreasing};
ghost use Rattle.ss_model.specs.Accepted.{Accepted};
ghost use Rattle.ss_commitlog.specs.Tokens.{Follows};
ghost use Rattle.ss_hand.specs.Apart.{numbers_in, AreSetApart};
ghost use Rattle.ss_hand.specs.Hands.{KnowsWith};

use crate::hand::Hand;
use ss_commitlog::{CommitLog, Note};
use ss_model::{Catalog, Life};
use ss_shard::unite;
use ss_value::NoMemory;
use std::alloc::Global;
use std::sync::Wait;

/// The marks in hand and the note know one list, and then one shard in hand has all parts. Out of memory leaves the shards
/// apart, with marks that went on.
pub(crate) fn join_all<I: Life, R: Wait>(
    rt: &R,
    alloc: Global,
    log: &CommitLog<I>,
    catalog: &Catalog,
    parts: u8,
    hand: &mut Hand<I>,
    note: &mut Note<I>,
) -> Result<(), NoMemory>
    requires catalog { catalog.now ≡ I.catalog }
    requires accepted { Accepted I.catalog }
    requires parts { (parts ≡ I.parts) × (1 ≤ parts) }
    requires are { AreSetApart I.catalog I.parts I.opening hand.old }
    requires rising { IsStrictlyIncreasing (numbers_in hand.old) }
    ensures note { Follows I.catalog I.parts I.limit note.old note.new }
    ensures ok { OnOk result (KnowsWith I.catalog I.parts I.opening (numbers_in hand.old) note.new hand.new) }
    ensures err { OnErr result (AreSetApart I.catalog I.parts I.opening hand.new × (numbers_in hand.new ≡ numbers_in hand.old)) }
{
    log.meet_with(rt, &mut hand.marks, note);
    let others = hand.shells.as_mut_slice();
    unite(alloc, catalog, parts, &mut hand.shard, others)
}
