//! Partitions out of their bays, in one hand. It waits at bays in rising order, and then takes the commit log's lock once, by
//! `joining`. `ss_engine` calls it before an execution.

ghost use Rattle.std.specs.Prelude.{◌≡◌, ◌≤◌, ◌<◌, ℕ, IfOk, OnOk};
ghost use Rattle.std.specs.Int.{IsBitSet};
ghost use Rattle.ss_model.specs.Accepted.{Accepted};
ghost use Rattle.ss_commitlog.specs.Tokens.{Follows};
ghost use Rattle.ss_party.specs.Turns.{bay_count, IsAlone};
ghost use Rattle.ss_hand.specs.Apart.{WereTakenOut};
ghost use Rattle.ss_hand.specs.Hands.{WereTaken};
ghost use Rattle.ss_hand.specs.Meetings.{MayFollow};

use crate::apart::{Apart, make_room};
use crate::hand::Hand;
use crate::joining::join_all;
use crate::partition::Partition;
use crate::putting::put_back;
use crate::turns::Turns;
use ss_commitlog::{CommitLog, Note};
use ss_model::{Catalog, Life};
use ss_party::Bays;
use ss_value::{NoMemory, PartSet, Seq};
use std::alloc::Global;
use std::sync::Wait;

/// Takes one partition out of its bay, and waits while the bay is empty. With it comes the turn of the bay. Out of memory has
/// taken nothing. Takes memory for the mark alone.
fn take_one<I: Life, R: Wait>(
    rt: &R,
    alloc: Global,
    bays: &Bays<Partition<I>>,
    p: u8,
) -> Result<(Hand<I>, Turns<I>), NoMemory>
    requires { p < bay_count bays.now }
    ensures { IfOk result (λ taken. (set : ℕ) → IsAlone set p → WereTakenOut I.catalog I.parts I.opening bays.now set taken.0 taken.1) }
{
    // All room is made before the bay is taken.
    let mut marks = Vec::with_capacity(alloc, 1)?;
    let (partition, turn) = bays.take(rt, p);
    let (shard, mark) = partition.into_parts();
    marks.push_reserved(mark);
    let hand = Hand {
        shard,
        shells: Vec::new(alloc),
        marks: Seq::from_vec(marks),
    };
    let turns = Turns {
        first: turn,
        others: Vec::new(alloc),
    };
    Ok((hand, turns))
}

/// Takes several partitions out of their bays, in rising order, and waits at each whose bay is empty. With them come the turns of
/// the bays. Out of memory has taken nothing.
fn take_several<I: Life, R: Wait>(
    rt: &R,
    alloc: Global,
    parts: u8,
    bays: &Bays<Partition<I>>,
    set: PartSet,
) -> Result<(Hand<I>, Turns<I>), NoMemory>
    requires bays { bay_count bays.now ≡ parts }
    requires some { (p : ℕ) × IsBitSet set p }
    requires below { (p : ℕ) → IsBitSet set p → p < parts }
    ensures { IfOk result (λ taken. WereTakenOut I.catalog I.parts I.opening bays.now set taken.0 taken.1) }
{
    // All room is made before the first bay is taken.
    let room = make_room(alloc, usize::from(parts))?;
    let mut others = Vec::with_capacity(alloc, usize::from(parts))?;
    let Ok(gathered) = bays.gather(rt, alloc, set) else {
        others.destroy_empty();
        return Err(NoMemory);
    };
    let mut list = gathered.into_vec();
    list.as_mut_slice().reverse();
    let Some((first, turn)) = list.pop() else {
        unreachable!()
    };
    let mut apart = Apart::of_one(room, first);
    while let Some((partition, turn)) = list.pop() {
        apart.add(partition);
        others.push_reserved(turn);
    }
    list.destroy_empty();
    let turns = Turns {
        first: turn,
        others,
    };
    Ok((apart.into_hand(), turns))
}

/// Takes the partitions of a set out of their bays, in rising order, and waits at each whose bay is empty. With them come the
/// turns of the bays. Out of memory has taken nothing.
fn take_out<I: Life, R: Wait>(
    rt: &R,
    alloc: Global,
    parts: u8,
    bays: &Bays<Partition<I>>,
    set: PartSet,
) -> Result<(Hand<I>, Turns<I>), NoMemory>
    requires bays { bay_count bays.now ≡ parts }
    requires some { (p : ℕ) × IsBitSet set p }
    requires below { (p : ℕ) → IsBitSet set p → p < parts }
    ensures { IfOk result (λ taken. WereTakenOut I.catalog I.parts I.opening bays.now set taken.0 taken.1) }
{
    // Most entries touch one partition, for which no list of several has to be made.
    match bays.only(set) {
        Some(p) => take_one(rt, alloc, bays, p),
        None => take_several(rt, alloc, parts, bays, set),
    }
}

/// Takes the partitions of a set out of their bays, in rising order, and waits at each whose bay is empty. Then their marks and
/// the note know one list, and one shard has all their parts. With the hand come the turns of the bays, in the same order.
/// `parts` is how many partitions run.
///
/// A turn can't be let go of, so whoever has taken parts puts them back. Out of memory has put back what it took. Takes the
/// log's lock once, a step for each bay, and for each partition but the first what `absorb` takes, whatever the rows. Of one
/// partition it takes memory for a mark, of several for as many marks, shards and turns as run.
pub fn take_parts<I: Life, R: Wait>(
    rt: &R,
    alloc: Global,
    log: &CommitLog<I>,
    catalog: &Catalog,
    parts: u8,
    bays: &Bays<Partition<I>>,
    set: PartSet,
    note: &mut Note<I>,
) -> Result<(Hand<I>, Turns<I>), NoMemory>
    requires catalog { catalog.now ≡ I.catalog }
    requires accepted { Accepted I.catalog }
    requires parts { (parts ≡ I.parts) × (1 ≤ parts) }
    requires bays { bay_count bays.now ≡ I.parts }
    requires some { (p : ℕ) × IsBitSet set p }
    requires below { (p : ℕ) → IsBitSet set p → p < I.parts }
    ensures note { MayFollow I.catalog I.parts I.limit note.old note.new }
    ensures follows { OnOk result (Follows I.catalog I.parts I.limit note.old note.new) }
    ensures ok { IfOk result (λ taken. WereTaken I.catalog I.parts I.opening bays.now set note.new taken.0 taken.1) }
{
    let (mut hand, turns) = take_out(rt, alloc, parts, bays, set)?;
    match join_all(rt, alloc, log, catalog, parts, &mut hand, note) {
        Ok(()) => Ok((hand, turns)),
        Err(NoMemory) => {
            put_back(bays, hand, turns);
            Err(NoMemory)
        }
    }
}
