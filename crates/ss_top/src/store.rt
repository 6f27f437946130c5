//! The store of a run: what is recovered of it serves a session, and else it is told why nothing is.

ghost use Rattle.std.specs.Prelude.{◌≡◌, ◌≢◌, ◌≤◌, ℕ, Some};
ghost use Rattle.ss_headline.specs.Disks.{disk_of};
ghost use Rattle.ss_recover.specs.Recovering.{IsOwnCatalog};
ghost use Rattle.ss_engine.specs.Clients.{AllFit};
ghost use Rattle.ss_refusals.specs.Sinks.{sink_of};
ghost use Rattle.ss_top.specs.Over.{MayRestart};
ghost use Rattle.ss_top.specs.Runs.{TellsReport};
ghost use Rattle.ss_top.specs.Serving.{RecoversTo, ServesTo, TellsStoreFaults};
ghost use Rattle.ss_top.specs.Turns.{HasTurnTexts, IsOver, TellsTurn, disk_left};

use crate::over::{Turn, run_over, serve_new};
use crate::session::{Printing, Reported};
use ss_disk::Disk;
use ss_engine::Gate;
use ss_lines::{Sink, write_all};
use ss_model::{Catalog, Mode, Request};
use ss_model_laws::spares_aside;
use ss_nest::a_nested_body_has_one_answer;
use ss_proc::PlainRunner;
use ss_recover::recover;
use ss_refusals::{NO_MEMORY, Status, refuse_store, write_line, write_whole};
use ss_standing::stands_for_one;
use ss_value::Seq;
use std::alloc::Global;
use std::sync::Wait;
use std::thread::Threads;

/// Writes the report of a session, or that there was no memory for it, and answers how the program ends: at a fault of the sink
/// in another way only where all was done. Takes no memory.
fn write_report<K: Sink>(sink: &mut K, status: Status, text: &Option<Seq<u8>>) -> Status
    ensures told { TellsReport status text.now result (sink_of K.kind sink.old sink.new) }
    ensures counts { K.kind.faults sink.old ≤ K.kind.faults sink.new }
{
    let Some(text) = text else {
        write_line(sink, NO_MEMORY);
        return Status::NoMemory;
    };
    if let Status::Done = status {
        return write_whole(sink, text.as_slice());
    }
    // Where the sink fails this status stays: status 4 comes only in place of 0, because another status has more to
    // tell than a sink.
    let _ = write_all(sink, text.as_slice());
    status
}

/// Writes how a run ended, and answers its status. Takes no memory but for the line of a refusal.
fn write_turn<K: Sink, D: Disk>(alloc: Global, sink: &mut K, turn: Turn<D>) -> (Status, D)
    requires over { IsOver turn }
    requires texts { HasTurnTexts turn }
    ensures told { TellsTurn turn result.0 (sink_of K.kind sink.old sink.new) }
    ensures disk { result.1 ≡ disk_left turn }
    ensures counts { K.kind.faults sink.old ≤ K.kind.faults sink.new }
{
    match turn {
        Turn::Over(Reported { status, text, disk }) => (write_report(sink, status, &text), disk),
        Turn::Short(disk) => (write_report(sink, Status::NoMemory, &None), disk),
        Turn::Refused(error, disk) => (refuse_store(alloc, sink, &error), disk),
        Turn::Failed(..) => unreachable!(),
    }
}

/// Opens the store of a catalogue in a mode, or makes one on an empty disk, runs requests on it, and writes the report. Behind a fault
/// of the disk a strong store is opened again, so often at most.
pub(crate) fn run_on_store<
    K: Sink,
    D: Disk + Drop + Send,
    G: Gate + Drop + Sync,
    R: Threads + Wait + Sync,
>(
    rt: &R,
    alloc: Global,
    sink: &mut K,
    disk: D,
    catalog: &Catalog,
    mode: Mode,
    requests: &Seq<Request>,
    partitions: u8,
    gate: G,
    every: Option<u64>,
    limit: u64,
    restarts: u8,
    printing: Printing,
) -> (Status, D)
    requires own { IsOwnCatalog catalog.now }
    requires fit { AllFit catalog.now requests.now }
    requires partitions { (1 ≤ partitions) × (partitions ≤ 8) }
    requires every { (k : ℕ) → every ≡ Some k → 1 ≤ k }
    requires restarts { MayRestart mode restarts }
    ensures came { ServesTo D.kind mode every limit restarts printing catalog.now requests.now result.0 (sink_of K.kind sink.old sink.new) disk result.1 }
    ensures counts { (K.kind.faults sink.old ≤ K.kind.faults sink.new) × (D.kind.faults disk ≤ D.kind.faults result.1) }
{
    let turn = run_over(
        rt, alloc, disk, catalog, mode, requests, partitions, gate, every, limit, printing,
        restarts,
    );
    write_turn(alloc, sink, turn)
}

/// Opens the store of a disk in a mode, runs what is pending on it, and writes the report; of an empty disk it reports that there
/// is nothing.
pub(crate) fn recover_store<
    K: Sink,
    D: Disk + Drop + Send,
    G: Gate + Drop + Sync,
    R: Threads + Wait + Sync,
>(
    rt: &R,
    alloc: Global,
    sink: &mut K,
    disk: D,
    mode: Mode,
    partitions: u8,
    gate: G,
    limit: u64,
) -> (Status, D)
    requires partitions { (1 ≤ partitions) × (partitions ≤ 8) }
    ensures came { RecoversTo mode limit result.0
        (sink_of K.kind sink.old sink.new)
        (disk_of D.kind disk result.1) }
    ensures told { TellsStoreFaults result.0 (sink_of K.kind sink.old sink.new) (disk_of D.kind disk result.1) }
    ensures counts { (K.kind.faults sink.old ≤ K.kind.faults sink.new) × (D.kind.faults disk ≤ D.kind.faults result.1) }
{
    // Do nothing: they state the laws by which a store of a catalogue is one with more bodies to be installed.
    spares_aside();
    a_nested_body_has_one_answer();
    stands_for_one();
    let requests = Seq::new(alloc);
    match recover(alloc, &PlainRunner, disk, None, mode, partitions) {
        Ok(recovered) => {
            let turn = serve_new(
                rt,
                alloc,
                recovered,
                &requests,
                partitions,
                gate,
                None,
                limit,
                Printing::InFull,
                true,
            );
            write_turn(alloc, sink, turn)
        }
        Err((error, disk)) => (refuse_store(alloc, sink, &error), disk),
    }
}
