//! The close of an engine, which `run` asks for when no thread has it any more: bays and hub are taken apart, with all
//! partitions in one hand `ss_settle` runs the last steps, and list, database and answers are handed over. The disk is not
//! touched.

ghost use Rattle.std.specs.Prelude.{◌≡◌, ◌≤◌, ◌+◌, length, IfOk};
ghost use Rattle.std.specs.List.{range_with_len};
ghost use Rattle.ss_model.specs.Accepted.{Accepted};
ghost use Rattle.ss_commitlog.specs.declared.role.Role.TheVariants.{Disk};
ghost use Rattle.ss_party.specs.Tags.{TagsFrom};
ghost use Rattle.ss_hand.specs.Hands.{KnowsWith};
ghost use Rattle.ss_hand.specs.Partitions.{number_of};
ghost use Rattle.ss_engine.specs.Closings.{IsClosed, list_alone};
ghost use Rattle.ss_lanes.specs.Apart.{AreOfClients};

use crate::engine::Engine;
use ss_commitlog::{Note, Unlisted};
use ss_hand::{Hand, Partition, in_one_hand};
use ss_lanes::{Lane, Room, take_apart, with_parts};
use ss_model::{Answer, Catalog, Life, Listed};
use ss_proc::Runner;
use ss_settle::{Gate, Settled, settle};
use ss_shard::Database;
use ss_turns::Works;
use ss_value::{NoMemory, Seq};
use std::alloc::Global;
use std::sync::Wait;

/// All that a closed engine leaves.
#[derive(Drop)]
pub struct Closed {
    /// The entries with their outcomes.
    pub list: Seq<Listed>,
    /// The database that they leave; None where there was no memory to have it in one shard, and then `settling` says so too.
    pub database: Option<Database>,
    pub catalog: Catalog,
    /// The answers of each client, by number, moved out of its lane: a copy of all outcomes would cost as much as the
    /// report.
    pub answers: Seq<Seq<Answer>>,
    /// How the engine's own steps ended: none is ready any more, or why the next one has no place in the list.
    pub settling: Result<(), Unlisted>,
    /// How many of the list's last entries these steps are. Each is the next one of settling: of the ready procedures that of
    /// least rank, then of least number.
    pub settled: u64,
}

/// What is left where there was no memory to take all partitions in one hand: the list, without the database.
fn list_alone(list: Seq<Listed>, catalog: Catalog, answers: Seq<Seq<Answer>>) -> Closed
    ensures { result ≡ list_alone list catalog answers }
{
    Closed {
        list,
        database: None,
        catalog,
        answers,
        settling: Err(Unlisted::NoMemory),
        settled: 0,
    }
}

/// All partitions in one hand, as `in_one_hand` takes them. Out of memory may drop all of them.
fn gathered<I: Life, N: Runner, R: Wait>(
    works: &Works<I, N, R>,
    partitions: Seq<Partition<I>>,
    note: &mut Note<I>,
) -> Result<Hand<I>, NoMemory>
    requires accepted { Accepted I.catalog }
    requires all { TagsFrom number_of 0 partitions × (length partitions ≡ I.parts) }
    ensures { IfOk result (λ hand. KnowsWith I.catalog I.parts I.opening (range_with_len 0 I.parts) note.new hand) }
{
    in_one_hand(
        works.rt,
        works.alloc,
        works.log,
        works.catalog,
        works.parts,
        partitions,
        note,
    )
}

impl<I: Life, N: Runner + Drop, G: Gate + Drop> Engine<I, N, G> {
    /// Takes all partitions in one hand, runs steps in the order of settling until none is ready, and hands over the list with all
    /// that it leaves.
    ///
    /// `run` calls it, once no thread shares the engine. Waits for each partition that is out. Takes memory and the log's lock for
    /// the hand and as `settle` does for each step, of which the gate is told; touches no disk. What still waits in the hub is let
    /// go. Where there is no memory to take all partitions in one hand, no step is run, and the
    /// list is handed over without the database; how settling ended says so too. No row is moved.
    pub fn close<R: Wait>(
        self,
        rt: &R,
        alloc: Global,
        lanes: Vec<Lane<I>>,
        room: Room<I>,
        disk_note: Note<I>,
    ) -> Closed
        requires lanes { AreOfClients I.clients lanes.items }
        requires clients { (1 ≤ I.clients) × (I.clients ≤ 8) }
        requires disk { disk_note.role ≡ Disk }
        ensures { IsClosed I.catalog I.parts I.clients I.first I.limit I.opening disk_note lanes.items result }
    {
        let Engine {
            hub,
            bays,
            catalog,
            homes,
            parts,
            runner,
            gate,
        } = self;
        let commit_log = hub.into_log();
        let Room { marks, answers } = room;
        let (marks, answers, mut note) = take_apart(lanes, marks, answers);
        let partitions = bays.close(rt);
        let works = Works {
            rt,
            alloc,
            log: &commit_log,
            catalog: &catalog,
            runner: &runner,
            parts,
        };
        let Ok(mut hand) = gathered(&works, partitions, &mut note) else {
            let (list, _streams) = commit_log.close(Seq::from_vec(marks), disk_note);
            return list_alone(list, catalog, Seq::from_vec(answers));
        };
        let Settled { steps, end } = settle(&works, &gate, &homes, &mut hand);
        let Hand {
            shard: whole,
            marks: own,
            ..
        } = hand;
        let (list, streams) = commit_log.close(with_parts(marks, own), disk_note);
        Closed {
            list,
            database: Some(Database { whole, streams }),
            catalog,
            answers: Seq::from_vec(answers),
            settling: end,
            settled: steps,
        }
    }
}
