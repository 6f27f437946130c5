//! A session on what was recovered of a store: its requests run, and are reported.

ghost use Rattle.std.specs.Prelude.{◌≡◌, ◌≢◌, ◌≤◌, ◌<◌, ◌+◌, ◌^◌, ℕ, Some, length, IfOk, IfErr, IfSome, OnOk};
ghost use Rattle.std.specs.List.{AllByRecursion};
ghost use Rattle.std.specs.Option.{is_some};
ghost use Rattle.ss_model.specs.declared.entry.Request.{Request};
ghost use Rattle.ss_model.specs.Accepted.{Accepted};
ghost use Rattle.ss_model.specs.Database.{Database as Model};
ghost use Rattle.ss_headline.specs.Disks.{disk_of};
ghost use Rattle.ss_headline.specs.Layers.{Opened};
ghost use Rattle.ss_headline.specs.Sentences.{room_from};
ghost use Rattle.ss_report.specs.Readable.{HasReadableLines};
ghost use Rattle.ss_report.specs.Reported.{IsReportOf};
ghost use Rattle.ss_engine.specs.Clients.{AllFit, StartWithin};
ghost use Rattle.ss_engine.specs.Sessions.{AreOfClients, Beginning, IsLeftOver};
ghost use Rattle.ss_top.specs.Runs.{settled_status, session_status, end_for, ReportsAs, ReportsFinished, ReportsPast, TellsFinished};
ghost use Rattle.ss_top.specs.Turns.{GoesOnWith, RanFrom};
ghost use Rattle.ss_top.specs.Told.{says_full, say_full, some_say_full};

use ss_cmdlog::CmdLog;
use ss_commitlog::{Opening, Unlisted};
use ss_disk::Disk;
use ss_engine::{Closed, Finished, Gate, run_session};
use ss_headline::{full_lists_have_all, stopped_runs, whole_runs};
use ss_model::{Answer, Catalog, Request};
use ss_proc::PlainRunner;
use ss_recover::Recovered;
use ss_refusals::Status;
use ss_report::{End, write_report};
use ss_resume::Past;
use ss_shard::Database;
use ss_value::{NoMemory, Seq};
use std::alloc::Global;
use std::sync::Wait;
use std::thread::Threads;

/// Places are below this.
const PLACES: u64 = 1 << 60;

/// How a run that did all is printed.
///
/// The benchmark's show is run by the same inner call as an input's requests, which prints what its caller says,
/// instead of by a run of its own. So `CameTo` is the one clause of both commands, and the two differ only in what is
/// printed where all was done. A show that stops has the stopped report.
#[derive(Clone, Copy, Drop)]
pub(crate) enum Printing {
    /// By its report.
    InFull,
    /// By the line that sums up its list, which has so many votes.
    Summary { votes: u64 },
}

/// Whether the disk of a log has failed in one of its calls.
pub(crate) fn has_failed<D: Disk>(log: &CmdLog<D>) -> bool
    ensures failed { result ≡ is_some log.now.halted }
    ensures small { (fault : ℕ) → log.now.halted ≡ Some fault → fault < 2 ^ 64 }
{
    log.halted().is_some()
}

/// How a session ended, its report where there was memory for it, and the disk.
#[derive(Drop)]
pub(crate) struct Reported<D: Disk> {
    pub(crate) status: Status,
    pub(crate) text: Option<Seq<u8>>,
    pub(crate) disk: D,
}

/// How many clients there are: the greatest number of a client that asks, plus one, and one where none asks. Linear.
fn client_count(requests: &[Request]) -> u8
    requires { AllByRecursion (λ (r : Request). r.client < 8) requests.now }
    ensures some { 1 ≤ result }
    ensures few { result ≤ 8 }
    ensures of_clients { AreOfClients result requests.now }
{
    let mut count = 1;
    for request in requests {
        if request.client >= count {
            count = request.client + 1;
        }
    }
    count
}

/// How many entries a session may have that begins at a place: the limit, but never past place 2^60, because places
/// have a bound in a generation and in the log. A store that comes near it stops as at a list that is full.
fn room_from(limit: u64, first: u64) -> u64
    requires { first ≤ 2 ^ 60 }
    ensures { result ≡ room_from limit first }
{
    limit.min(PLACES - first)
}

/// Whether a request was answered that the list is full.
fn says_full(answer: &Answer) -> bool
    ensures { result ≡ says_full answer.now }
{
    matches!(answer, Answer::ListFull { .. })
}

/// Whether one of a client's was. Linear.
fn say_full(answers: &Seq<Answer>) -> bool
    ensures { result ≡ say_full answers.now }
{
    answers.as_slice().iter().any(says_full)
}

/// Whether one of any client's was. Linear.
fn some_say_full(answers: &[Seq<Answer>]) -> bool
    ensures { result ≡ some_say_full answers.now }
{
    answers.iter().any(say_full)
}

/// How a session ended whose disk has not failed: the list is full, or there was no memory to settle or to write all of it, or
/// all is done.
fn settled_status(settling: &Result<(), Unlisted>, flushed: bool) -> Status
    ensures { result ≡ settled_status settling.now flushed }
{
    match settling {
        Err(Unlisted::ListFull { .. }) => Status::Limit,
        Err(Unlisted::NoMemory) => Status::NoMemory,
        Ok(()) if flushed => Status::Done,
        Ok(()) => Status::NoMemory,
    }
}

/// How a session ended. Linear in the answers.
fn session_status(
    failed: bool,
    answers: &[Seq<Answer>],
    settling: &Result<(), Unlisted>,
    flushed: bool,
) -> Status
    ensures { result ≡ session_status failed answers.now settling.now flushed }
{
    if failed {
        return Status::Disk;
    }
    if some_say_full(answers) {
        return Status::Limit;
    }
    settled_status(settling, flushed)
}

/// What the report says of how it ended: the tables, or the numbers that sum it up, or where it stopped.
fn end_for(
    status: Status,
    printing: Printing,
    database: Option<Database>,
    count: u64,
    faults: u64,
) -> End
    ensures { result ≡ end_for status printing database count faults }
{
    match (status, printing, database) {
        (Status::Done, Printing::InFull, Some(database)) => End::Tables(database),
        (Status::Done, Printing::Summary { votes }, _) => End::Voter { votes },
        _ => End::Stopped {
            status: status.number(),
            count,
            faults,
        },
    }
}

/// The report of a session that ended with this status, or what is printed in its place. Linear in its bytes.
///
/// What the engine left is let go here, and not by the caller, because each value that is alive at an exit of a function
/// costs its own part of the function there.
fn closed_report(
    alloc: Global,
    closed: Closed,
    requests: &Seq<Request>,
    first: u64,
    status: Status,
    printing: Printing,
    count: u64,
    faults: u64,
) -> Result<Seq<u8>, NoMemory>
    requires places { first + length closed.list < 2 ^ 64 }
    requires left { (d : Model) × IfSome closed.database (IsLeftOver closed.catalog d) }
    ensures report { IfOk result (IsReportOf closed.catalog requests.now closed.answers first closed.list
        (end_for status printing closed.database count faults)) }
    ensures readable { OnOk result (HasReadableLines closed.catalog requests.now closed.answers first closed.list
        (end_for status printing closed.database count faults)) }
{
    let Closed {
        list,
        database,
        catalog,
        answers,
        ..
    } = closed;
    let end = end_for(status, printing, database, count, faults);
    write_report(alloc, &catalog, requests, &answers, first, &list, &end)
}

/// The report of a finished session.
///
/// Linear in the bytes of the report. Where there is no memory for it the session has stopped for want of memory, whatever it
/// ended with. It is a stopped run all the same (`Reports`): the list and the receipts are what they would be with a report,
/// and its text, which nobody reads, says of no request but that there was no memory.
pub(crate) fn report_session<D: Disk + Drop>(
    alloc: Global,
    finished: Finished<D>,
    requests: &Seq<Request>,
    first: u64,
    printing: Printing,
) -> Reported<D>
    requires places { first + length finished.closed.list < 2 ^ 64 }
    requires left { (d : Model) × IfSome finished.closed.database (IsLeftOver finished.closed.catalog d) }
    ensures finished { ReportsFinished D.kind printing requests.now first finished result }
    ensures told { TellsFinished D.kind requests.now first finished result }
    ensures as_said { ReportsAs printing requests.now first finished result.status result.text }
    ensures own { result.status ≢ Status.OtherCatalog }
    ensures disk { result.disk ≡ finished.log.disk }
{
    // Do nothing: they state the laws by which a list, its receipts and its answers are a run, and what a full list leaves out.
    whole_runs::<D>();
    stopped_runs::<D>();
    full_lists_have_all();
    let Finished {
        closed,
        log,
        receipted,
        flushed,
    } = finished;
    let halted = log.halted();
    let status = session_status(
        halted.is_some(),
        closed.answers.as_slice(),
        &closed.settling,
        flushed.is_ok(),
    );
    let disk = log.into_disk();
    match closed_report(
        alloc,
        closed,
        requests,
        first,
        status,
        printing,
        receipted,
        halted.unwrap_or(0),
    ) {
        Ok(text) => Reported {
            status,
            text: Some(text),
            disk,
        },
        Err(_) => Reported {
            status: Status::NoMemory,
            text: None,
            disk,
        },
    }
}

/// The report of a run whose disk could not be opened again behind this past. Linear in its bytes.
pub(crate) fn report_past<D: Disk>(
    alloc: Global,
    catalog: &Catalog,
    past: &Past,
    requests: &Seq<Request>,
    disk: D,
) -> Reported<D>
    requires places { past.now.first + length past.now.list < 2 ^ 64 }
    ensures written { ReportsPast catalog.now past.now requests.now result.status result.text }
    ensures disk { result.disk ≡ disk }
{
    let end = End::Stopped {
        status: Status::Disk.number(),
        count: past.receipted,
        faults: 0,
    };
    match write_report(
        alloc,
        catalog,
        requests,
        &past.answers,
        past.first,
        &past.list,
        &end,
    ) {
        Ok(text) => Reported {
            status: Status::Disk,
            text: Some(text),
            disk,
        },
        Err(_) => Reported {
            status: Status::NoMemory,
            text: None,
            disk,
        },
    }
}

/// Runs requests on what was recovered, as a store of either mode, each client's from the number on that `starts` says of it, in a
/// thread of its own, on so many partitions. A checkpoint is due from `every` entries behind the last one on, and none is made where that is none.
/// Hands the disk back where there was no memory to begin.
pub(crate) fn run_recovered<D: Disk + Drop + Send, G: Gate + Drop + Sync, R: Threads + Wait + Sync>(
    rt: &R,
    alloc: Global,
    recovered: Recovered<D>,
    requests: &Seq<Request>,
    starts: &[u64],
    partitions: u8,
    gate: G,
    every: Option<u64>,
    limit: u64,
) -> Result<Finished<D>, D>
    ghost begins: { Beginning }
    requires accepted { Accepted recovered.catalog }
    requires goes_on { GoesOnWith D.kind partitions recovered begins }
    requires fit { AllFit recovered.catalog requests.now }
    requires starts { StartWithin starts.now requests.now }
    requires partitions { (1 ≤ partitions) × (partitions ≤ 8) }
    requires every { (k : ℕ) → every ≡ Some k → 1 ≤ k }
    ensures ran { IfOk result (RanFrom D.kind begins.recovery every limit recovered.catalog begins.db
        recovered.first requests.now starts.now recovered.log) }
    ensures unstarted { IfErr result (λ disk. disk ≡ recovered.log.disk) }
{
    let clients = client_count(requests.as_slice());
    let Recovered {
        database,
        catalog,
        first,
        known,
        image,
        log,
        ..
    } = recovered;
    // Nobody asks any more for what was replayed, nor for the image behind which it was: they would live as long as the session.
    drop(known);
    drop(image);
    let Database { whole, streams } = database;
    let opening = Opening {
        first,
        limit: room_from(limit, first),
        parts: partitions,
        clients,
    };
    match run_session(
        rt,
        alloc,
        log,
        catalog,
        whole,
        streams,
        PlainRunner,
        gate,
        requests,
        starts,
        opening,
        every,
    ) {
        Ok(finished) => Ok(finished),
        Err((_, log)) => Err(log.into_disk()),
    }
}
