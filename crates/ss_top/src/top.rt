//! The program's one call: from the bytes of a source to the bytes of a sink, on a disk.

ghost use Rattle.std.specs.Prelude.{◌≡◌, ◌≤◌, ◌+◌, ℕ, Some};
ghost use Rattle.ss_lines.specs.Causes.{TakesAtMost};
ghost use Rattle.ss_lines.specs.Lines.{max_input};
ghost use Rattle.ss_headline.specs.Disks.{disk_of};
ghost use Rattle.ss_refusals.specs.Sinks.{source_of, sink_of, TellsSourceFault};
ghost use Rattle.ss_top.specs.Over.{MayRestart};
ghost use Rattle.ss_top.specs.Serving.{ComesToShow, TellsStoreFaults};
ghost use Rattle.ss_top.specs.Top.{Ends, RunEndsSo, most_entries};

use crate::session::Printing;
use crate::store::{recover_store, run_on_store};
use crate::voter::show_input;
use ss_audit_input::audit_input;
use ss_disk::Disk;
use ss_engine::Gate;
use ss_lines::{Sink, Source};
use ss_model::Mode;
use ss_nest::a_nested_value_has_one_answer;
use ss_recover::a_disk_has_one_fault;
use ss_refusals::{
    NO_MEMORY, ParsedInput, Status, USAGE, an_input_has_one_answer, read_input, refuse, write_line,
};
use ss_words::{Command, CommandLine, Options, Show, command_line};
use std::alloc::Global;
use std::sync::Wait;
use std::thread::Threads;

/// The most entries that the list of a run may have.
pub const MOST_ENTRIES: u64 = 1_000_000;

/// The command `run`: reads an input, runs what it asks for on the store, and reports.
fn run<S: Source, K: Sink, D: Disk + Drop + Send, G: Gate + Drop + Sync, R: Threads + Wait + Sync>(
    rt: &R,
    alloc: Global,
    source: &mut S,
    sink: &mut K,
    disk: D,
    mode: Mode,
    partitions: u8,
    gate: G,
    every: Option<u64>,
    limit: u64,
    restarts: u8,
) -> (Status, D)
    requires partitions { (1 ≤ partitions) × (partitions ≤ 8) }
    requires every { (k : ℕ) → every ≡ Some k → 1 ≤ k }
    requires restarts { MayRestart mode restarts }
    ensures ends { RunEndsSo D.kind disk result.1 mode every limit restarts
        (source_of S.kind source.old source.new) (sink_of K.kind sink.old sink.new) result.0 }
    ensures source { TellsSourceFault result.0 (S.kind.faults source.old) (S.kind.faults source.new) }
    ensures told { restarts ≡ 0 → TellsStoreFaults result.0 (sink_of K.kind sink.old sink.new) (disk_of D.kind disk result.1) }
    ensures sink { result.0 ≡ Status.Done → K.kind.faults sink.new ≡ K.kind.faults sink.old }
    ensures taken { TakesAtMost (max_input + 1) (S.kind.left source.old) (S.kind.left source.new) }
    ensures counts { (S.kind.faults source.old ≤ S.kind.faults source.new) × (K.kind.faults sink.old ≤ K.kind.faults sink.new)
        × (D.kind.faults disk ≤ D.kind.faults result.1) }
{
    // Do nothing: they state the laws by which the one answer of an input is the one given here, and so that of a disk.
    an_input_has_one_answer();
    a_disk_has_one_fault();
    match read_input(alloc, source) {
        Ok(ParsedInput { catalog, requests }) => run_on_store(
            rt,
            alloc,
            sink,
            disk,
            &catalog,
            mode,
            &requests,
            partitions,
            gate,
            every,
            limit,
            restarts,
            Printing::InFull,
        ),
        Err(error) => (refuse(alloc, sink, &error), disk),
    }
}

/// The command `voter`: makes the script of a show, runs it on the store as `run` does, and sums it up.
fn voter<K: Sink, D: Disk + Drop + Send, G: Gate + Drop + Sync, R: Threads + Wait + Sync>(
    rt: &R,
    alloc: Global,
    sink: &mut K,
    disk: D,
    show: &Show,
    mode: Mode,
    partitions: u8,
    gate: G,
    every: Option<u64>,
    limit: u64,
    restarts: u8,
) -> (Status, D)
    requires partitions { (1 ≤ partitions) × (partitions ≤ 8) }
    requires every { (k : ℕ) → every ≡ Some k → 1 ≤ k }
    requires restarts { MayRestart mode restarts }
    requires few { show.now.votes ≤ 200000 }
    requires clients { (1 ≤ show.now.clients) × (show.now.clients ≤ 8) }
    ensures came { ComesToShow D.kind mode every limit restarts show.now result.0 (sink_of K.kind sink.old sink.new) disk result.1 }
    ensures counts { (K.kind.faults sink.old ≤ K.kind.faults sink.new) × (D.kind.faults disk ≤ D.kind.faults result.1) }
{
    let Ok(ParsedInput { catalog, requests }) = show_input(alloc, show) else {
        write_line(sink, NO_MEMORY);
        return (Status::NoMemory, disk);
    };
    let printing = Printing::Summary { votes: show.votes };
    run_on_store(
        rt, alloc, sink, disk, &catalog, mode, &requests, partitions, gate, every, limit, restarts,
        printing,
    )
}

/// Does all that the program does, on the store that a disk holds: for the command `run` it reads a catalogue and requests from the
/// source, runs them behind what the store has, and reports; for `recover` it runs what is pending there, and reports; for `voter`
/// it runs the script of a show, and sums it up. A session's list has at most `limit` entries.
///
/// The options say in which mode the store is kept and had again, strong or weak; a store of the other mode is refused. Behind a fault
/// of the disk only a strong store is opened again.
///
/// As many clients as ask run at the same time, and a thread for each partition; a receipt is asked for once in 16 answers of a
/// client, and one flush writes what all of them wait for. Costs time linear in the bytes of the input, of the store and of the
/// report, and what the executions cost, those of the store once more. Takes the memory of the input's lines, or of its values with
/// the tables and the report, whichever is more; and for a while that of the store's file twice.
pub fn sstore_limited<
    S: Source,
    K: Sink,
    D: Disk + Drop + Send,
    G: Gate + Drop + Sync,
    R: Threads + Wait + Sync,
>(
    rt: &R,
    alloc: Global,
    words: &[String],
    source: &mut S,
    sink: &mut K,
    disk: D,
    gate: G,
    limit: u64,
) -> (Status, D)
    ensures { Ends D.kind disk result.1 limit words.now (source_of S.kind source.old source.new) (sink_of K.kind sink.old sink.new) result.0 }
{
    // Do nothing: they state the laws by which a store has room for what is owed.
    a_disk_has_one_fault();
    a_nested_value_has_one_answer();
    let Some(CommandLine { command, options }) = command_line(words) else {
        write_line(sink, USAGE);
        return (Status::Usage, disk);
    };
    let Options {
        partitions,
        mode,
        every,
        restarts,
    } = options;
    match command {
        Command::Run => run(
            rt, alloc, source, sink, disk, mode, partitions, gate, every, limit, restarts,
        ),
        Command::Audit => (audit_input(alloc, source, sink), disk),
        Command::Recover => recover_store(rt, alloc, sink, disk, mode, partitions, gate, limit),
        Command::Voter(show) => voter(
            rt, alloc, sink, disk, &show, mode, partitions, gate, every, limit, restarts,
        ),
    }
}

/// The same with a list of at most [`MOST_ENTRIES`] entries: the program.
pub fn sstore<
    S: Source,
    K: Sink,
    D: Disk + Drop + Send,
    G: Gate + Drop + Sync,
    R: Threads + Wait + Sync,
>(
    rt: &R,
    alloc: Global,
    words: &[String],
    source: &mut S,
    sink: &mut K,
    disk: D,
    gate: G,
) -> (Status, D)
    ensures { Ends D.kind disk result.1 most_entries words.now (source_of S.kind source.old source.new) (sink_of K.kind sink.old sink.new) result.0 }
{
    sstore_limited(rt, alloc, words, source, sink, disk, gate, MOST_ENTRIES)
}
