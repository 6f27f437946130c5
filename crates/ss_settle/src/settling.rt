//! Settling at the close of an engine, which calls it: steps run until no procedure is ready.

ghost use Rattle.std.specs.Prelude.{◌≡◌, ◌<◌, ℕ, List, true, IfSome, IfNone};
ghost use Rattle.ss_turns.specs.Executed.{IsStepped};
ghost use Rattle.ss_model.specs.declared.entry.Entry.TheVariants.{Step as StepEntry};
ghost use Rattle.ss_model.specs.Accepted.{Accepted};
ghost use Rattle.ss_model.specs.Database.{fits_entry};
ghost use Rattle.ss_shard.specs.Parts.{all_partitions};
ghost use Rattle.ss_commitlog.specs.declared.rule.Item.{Item};
ghost use Rattle.ss_hand.specs.Hands.{IsInHand};
ghost use Rattle.ss_settle.specs.Ready.{FoundNext, NoneReadyBehind, StepsWhenFound, WasFirst, WasIdle};
ghost use Rattle.ss_settle.specs.Settlings.{SettledTo, SettlesFrom};
ghost use Rattle.ss_settle.specs.Wholes.{MayBeWhole};
ghost use Rattle.ss_commitlog.specs.Growing.{GoesOn};
ghost use Rattle.ss_sched.specs.Ranks.{AreRanks};
ghost use Rattle.ss_turns.specs.Stepping.{EachGoesOn};

use crate::gate::Gate;
use crate::ranking::first_ranked;
use ss_commitlog::{Mark, Placed, Unlisted};
use ss_hand::Hand;
use ss_model::{Entry, Life};
use ss_proc::Runner;
use ss_sched::Ranks;
use ss_turns::{Works, execute_step};
use ss_value::Seq;
use std::sync::Wait;

/// What the engine's own steps at its close came to.
#[derive(Drop)]
pub struct Settled {
    /// How many steps ran.
    pub steps: u64,
    /// Ok where no procedure is ready any more; else why the next step has no place in the list, in which those before it stand.
    pub end: Result<(), Unlisted>,
}

/// Of the procedures that are ready after lists that the mark knew meanwhile the one of least rank, then of least number; None
/// where none is. Takes the log's lock once for each partition, and no memory.
fn next_ready<I: Life, N: Runner, R: Wait>(
    works: &Works<I, N, R>,
    ranks: &Ranks,
    mark: &mut Mark<I>,
) -> Option<u16>
    requires { Accepted I.catalog }
    ensures mark { GoesOn I.catalog I.parts mark.old mark.new }
    ensures some { IfSome result (StepsWhenFound I.catalog I.parts I.opening mark.old mark.new) }
    ensures first { IfSome result (λ q. (p : ℕ) → p < I.parts → WasFirst I.catalog I.parts I.opening ranks.now p mark.old mark.new q) }
    ensures none { IfNone result ((p : ℕ) → p < I.parts → WasIdle I.catalog I.parts I.opening p mark.old mark.new) }
{
    let mut found = None;
    for p in 0..works.parts {
        let ready = works.log.ready_at(works.rt, works.catalog, mark, p);
        found = first_ranked(ranks, ready, found);
    }
    found
}

/// The procedure that is ready behind what the marks then know, with all partitions in hand, of least rank, then of least number;
/// None where none is.
///
/// The marks know one list first, so the look of one of them is that of all, and no note has to meet each. Takes the log's
/// lock once more than `next_ready` does, and no memory.
fn ready_in_hand<I: Life, N: Runner, R: Wait>(
    works: &Works<I, N, R>,
    ranks: &Ranks,
    hand: &mut Hand<I>,
) -> Option<u16>
    requires accepted { Accepted I.catalog }
    requires ranks { AreRanks I.catalog ranks.now }
    requires in_hand { IsInHand I.catalog I.parts I.opening (all_partitions I.parts) hand.old }
    ensures in_hand { IsInHand I.catalog I.parts I.opening (all_partitions I.parts) hand.new }
    ensures marks { EachGoesOn I.catalog I.parts hand.old.marks hand.new.marks }
    ensures some { IfSome result (FoundNext I.catalog I.parts I.opening hand.new.marks) }
    ensures none { IfNone result ((list : List Item) → MayBeWhole I.catalog I.parts I.opening list hand.new.marks
        → NoneReadyBehind I.catalog I.parts I.opening list) }
{
    works.log.meet_all(works.rt, &mut hand.marks);
    let Some(mark) = hand.marks.get_mut(0) else {
        unreachable!()
    };
    next_ready(works, ranks, mark)
}

/// Runs the next step of a procedure with all partitions in hand, and tells the gate of it. `homes` has each procedure's home.
fn step_told<I: Life, N: Runner, G: Gate, R: Wait>(
    works: &Works<I, N, R>,
    gate: &G,
    homes: &Seq<u8>,
    hand: &mut Hand<I>,
    procedure: u16,
) -> Result<Option<Placed>, Unlisted>
    requires accepted { Accepted I.catalog }
    requires fits { fits_entry I.catalog (StepEntry procedure 0) ≡ true }
    requires in_hand { IsInHand I.catalog I.parts I.opening (all_partitions I.parts) hand.old }
    ensures in_hand { IsInHand I.catalog I.parts I.opening (all_partitions I.parts) hand.new }
    ensures stepped { IsStepped I.catalog I.parts I.first I.limit procedure hand.old.marks hand.new.marks result }
{
    // Each procedure has a home, which is the least partition that it touches.
    let home = homes.get(usize::from(procedure)).copied().unwrap_or(0);
    let batch = hand.shard.cursor(procedure);
    gate.before(home, &Entry::Step { procedure, batch });
    let stepped = execute_step(works, hand, procedure);
    if let Ok(Some(placed)) = &stepped {
        gate.after(home, &placed.listed.entry);
    }
    stepped
}

/// Settles as `settle` does, and counts the steps as they run, so that they are told however it ends.
fn settle_counted<I: Life, N: Runner, G: Gate, R: Wait>(
    works: &Works<I, N, R>,
    gate: &G,
    homes: &Seq<u8>,
    hand: &mut Hand<I>,
    steps: &mut u64,
) -> Result<(), Unlisted>
    requires accepted { Accepted I.catalog }
    requires none { steps.old ≡ 0 }
    requires in_hand { IsInHand I.catalog I.parts I.opening (all_partitions I.parts) hand.old }
    ensures in_hand { IsInHand I.catalog I.parts I.opening (all_partitions I.parts) hand.new }
    ensures settled { (list : List Item) → MayBeWhole I.catalog I.parts I.opening list hand.new.marks
        → SettledTo I.catalog I.parts I.opening I.limit list result }
    ensures in_order { SettlesFrom I.catalog I.parts I.opening hand.old.marks hand.new.marks steps.new }
{
    let ranks = Ranks::of(works.catalog);
    for _ in works.rt.forever() {
        let Some(procedure) = ready_in_hand(works, &ranks, hand) else {
            return Ok(());
        };
        if step_told(works, gate, homes, hand, procedure)?.is_some() {
            *steps += 1;
        }
    }
    unreachable!()
}

/// Runs the next step of the ready procedure of least rank, then of least number, until none is ready, with all partitions in hand.
/// `homes` has each procedure's home. Tells how many steps it ran, and how it ended.
///
/// Each entry touches some partition, so nobody else can add to the list meanwhile, and what is ready at a look is so when its
/// step runs. Each step costs what `execute_step` costs, and takes the log's lock once for each partition and once for all.
///
/// It isn't told which list is whole, and says what holds of every list that may be (`MayBeWhole`), because only the
/// log's close hands the whole list over, and that comes behind: such a list is the one that was whole before, of which
/// there is one at most, and behind it these steps, each of them the next one of the model's settling at its place.
pub fn settle<I: Life, N: Runner, G: Gate, R: Wait>(
    works: &Works<I, N, R>,
    gate: &G,
    homes: &Seq<u8>,
    hand: &mut Hand<I>,
) -> Settled
    requires accepted { Accepted I.catalog }
    requires in_hand { IsInHand I.catalog I.parts I.opening (all_partitions I.parts) hand.old }
    ensures in_hand { IsInHand I.catalog I.parts I.opening (all_partitions I.parts) hand.new }
    ensures settled { (list : List Item) → MayBeWhole I.catalog I.parts I.opening list hand.new.marks
        → SettledTo I.catalog I.parts I.opening I.limit list result.end }
    ensures in_order { SettlesFrom I.catalog I.parts I.opening hand.old.marks hand.new.marks result.steps }
{
    let mut steps = 0;
    let end = settle_counted(works, gate, homes, hand, &mut steps);
    Settled { steps, end }
}
