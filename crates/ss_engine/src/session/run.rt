//! A whole run in threads, on an opened log: `open`, `threads`, `close`, and the last flush. It has the command log, which it
//! puts behind the lock of `ss_receipts` while threads run, and takes out again behind them. `ss_top` calls it.

ghost use Rattle.std.specs.Prelude.{◌≡◌, ◌≤◌, ◌+◌, ◌^◌, ℕ, [], length, Some, IfOk, IfErr, IfSome};
ghost use Rattle.ss_model.specs.Accepted.{Accepted};
ghost use Rattle.ss_model.specs.Database.{stream_batches};
ghost use Rattle.ss_model.specs.Orders.{MatchesCounts};
ghost use Rattle.ss_model.specs.Replays.{Replays, after};
ghost use Rattle.ss_model.specs.WholeDatabase.{WholeDatabase, HadAtMost};
ghost use Rattle.ss_stream.specs.OfDatabase.{AreStreamsOf};
ghost use Rattle.ss_shard.specs.Parts.{IsWholeShard};
ghost use Rattle.ss_shard.specs.Windows.{HoldsDatabase};
ghost use Rattle.ss_commitlog.specs.Committing.{IsOpening};
ghost use Rattle.ss_receipts.specs.Holding.{Holds};
ghost use Rattle.ss_engine.specs.Clients.{AllFit, StartWithin};
ghost use Rattle.ss_engine.specs.Engines.{AllowsCheckpoints};
ghost use Rattle.ss_engine.specs.Sessions.{AreOfClients, Beginning, Ends, EndsOnDisk, IsFlushed, IsLeftOver, IsTrimmedTo, OpensOn};

use crate::engine::Engine;
use crate::session::close::Closed;
use crate::session::open::NewEngine;
use crate::session::threads::run_clients;
use ss_cmdlog::{CmdLog, Receipt};
use ss_commitlog::{Blank, Opening};
use ss_disk::Disk;
use ss_fronts::held_fronts_stand;
use ss_lanes::with_room;
use ss_model::{Catalog, Life, Request};
use ss_proc::Runner;
use ss_receipts::{DurableError, Receipts, finish, holds_go_on, trim};
use ss_settle::Gate;
use ss_shard::{Database, Shard};
use ss_stream::Streams;
use ss_value::{NoMemory, Seq};
use std::alloc::Global;
use std::marker::Brand;
use std::sync::Wait;
use std::thread::Threads;

/// What a run leaves.
#[derive(Drop)]
pub struct Finished<D: Disk + Drop> {
    /// The list, with the database and the answers.
    pub closed: Closed,
    /// The log, with its disk.
    pub log: CmdLog<D>,
    /// All places below this count are on the disk: all of the list where the last flush went well, else those of the
    /// receipts before it. The log's own count isn't told then, because a flush that failed may have written groups
    /// that nobody has a receipt of.
    pub receipted: u64,
    /// How the last flush ended, which follows settling, with the last checkpoint behind it, where one was due.
    pub flushed: Result<Receipt, DurableError>,
}

/// One incarnation: opens an engine under a name, lets all clients make their requests, closes it, and flushes what has no
/// receipt yet.
fn incarnation<
    I: Life + Send + Sync,
    N: Runner + Drop + Sync,
    G: Gate + Drop + Sync,
    R: Threads + Wait + Sync,
    D: Disk + Drop + Send,
>(
    rt: &R,
    alloc: Global,
    blank: Blank,
    command_log: CmdLog<D>,
    catalog: Catalog,
    whole: Shard,
    streams: Streams,
    runner: N,
    gate: G,
    requests: &Seq<Request>,
    starts: &[u64],
    opening: Opening,
    every: Option<u64>,
) -> Result<Finished<D>, (NoMemory, CmdLog<D>)>
    requires blank { (blank.opening ≡ opening) × (blank.table.shared.table_id ≡ I.table) }
    requires numbers { (opening.first ≡ I.first) × (opening.limit ≡ I.limit) × (opening.parts ≡ I.parts) × (opening.clients ≡ I.clients) }
    requires small { opening.first + opening.limit ≤ 2 ^ 60 }
    requires parts { (1 ≤ I.parts) × (I.parts ≤ 8) }
    requires clients { (1 ≤ I.clients) × (I.clients ≤ 8) }
    requires catalog { catalog ≡ I.catalog }
    requires opening { IsOpening I.catalog I.parts I.opening }
    requires whole { IsWholeShard I.catalog I.parts whole }
    requires holds { HoldsDatabase I.catalog whole I.opening }
    requires streams { AreStreamsOf I.catalog I.opening streams.streams }
    requires few { (s : ℕ) → length (stream_batches I.opening s) ≤ opening.first }
    requires every { every ≡ I.every }
    requires checkpoints { AllowsCheckpoints I.catalog I.opening I.first I.every }
    requires log { Holds I.recovery I.every I.catalog I.opening I.first I.moment I.faults I.past D.kind [] command_log I.first 0 }
    requires fit { AllFit I.catalog requests.now }
    requires asked { AreOfClients I.clients requests.now }
    requires starts { StartWithin starts.now requests.now }
    ensures ok { IfOk result (Ends D.kind I.recovery I.every I.catalog I.opening I.first
        I.limit I.clients I.moment I.faults I.past requests.now starts.now) }
    ensures err { IfErr result (λ e. e.1 ≡ command_log) }
{
    let Ok(opened) = Engine::<I, N, G>::open(
        blank, alloc, catalog, whole, streams, runner, gate, opening, starts,
    ) else {
        return Err((NoMemory, command_log));
    };
    let NewEngine {
        engine,
        lanes,
        notes,
        disk_note,
        room,
    } = opened;
    let Ok(ready) = with_room(alloc, lanes, requests.as_slice(), starts) else {
        return Err((NoMemory, command_log));
    };
    // A law of what a log holds, which does nothing.
    holds_go_on::<I, D>();
    let receipts = Receipts::new(command_log, disk_note, every);
    let lanes = run_clients(
        rt,
        alloc,
        &engine,
        &receipts,
        ready,
        notes,
        requests.as_slice(),
        starts,
    );
    let (command_log, mut disk_note) = receipts.into_parts();
    let posted = engine.hub.log.see(&mut disk_note);
    let closed = engine.close(rt, alloc, lanes, room, disk_note);
    Ok(flushed_at_last::<I, D>(
        alloc,
        closed,
        command_log,
        posted.count,
        opening.first,
        every,
    ))
}

/// Of a log that has all of a run's list: its generation begins near the end of the list, where checkpoints are asked for. Where
/// there was no memory to have the database in one shard, there is none for its image.
fn trimmed<I: Life, D: Disk + Drop>(
    alloc: Global,
    closed: &Closed,
    log: &mut CmdLog<D>,
    receipt: Receipt,
    every: Option<u64>,
) -> Result<Receipt, DurableError>
    requires every { every ≡ I.every }
    requires checkpoints { AllowsCheckpoints I.catalog I.opening I.first I.every }
    requires accepted { Accepted I.catalog }
    requires small { I.first + length closed.now.list ≤ 2 ^ 60 }
    requires replays { Replays I.catalog I.opening closed.now.list }
    requires catalog { closed.now.catalog ≡ I.catalog }
    requires left { IfSome closed.now.database (IsLeftOver I.catalog (after I.catalog I.opening closed.now.list)) }
    requires all { receipt.count ≡ I.first + length closed.now.list }
    requires holds { (fault : ℕ)
        × Holds I.recovery I.every I.catalog I.opening I.first I.moment I.faults I.past D.kind closed.now.list log.old receipt.count fault }
    ensures { (fault : ℕ)
        → Holds I.recovery I.every I.catalog I.opening I.first I.moment I.faults I.past D.kind closed.now.list log.old receipt.count fault
        → IsTrimmedTo D.kind I.recovery I.every I.catalog I.opening I.first I.moment I.faults I.past closed.now.list receipt fault log.new result }
{
    let Some(every) = every else {
        return Ok(receipt);
    };
    let Some(database) = &closed.database else {
        return Err(DurableError::NoMemory);
    };
    let Database { whole, streams } = database;
    match trim::<I, D>(
        alloc,
        log,
        &closed.catalog,
        whole,
        streams,
        receipt.count,
        every,
    ) {
        Ok(()) => Ok(receipt),
        Err(refused) => Err(refused),
    }
}

/// The last flush, of what a run's list has behind the receipted count, and the last checkpoint, where one is asked for and due.
fn flushed_at_last<I: Life, D: Disk + Drop>(
    alloc: Global,
    closed: Closed,
    mut command_log: CmdLog<D>,
    receipted: u64,
    first: u64,
    every: Option<u64>,
) -> Finished<D>
    requires first { first ≡ I.first }
    requires every { every ≡ I.every }
    requires checkpoints { AllowsCheckpoints I.catalog I.opening I.first I.every }
    requires accepted { Accepted I.catalog }
    requires small { I.first + length closed.list ≤ 2 ^ 60 }
    requires replays { Replays I.catalog I.opening closed.list }
    requires catalog { closed.catalog ≡ I.catalog }
    requires left { IfSome closed.database (IsLeftOver I.catalog (after I.catalog I.opening closed.list)) }
    requires holds { (fault : ℕ)
        × Holds I.recovery I.every I.catalog I.opening I.first I.moment I.faults I.past D.kind closed.list command_log receipted fault }
    ensures closed { result.closed ≡ closed }
    ensures flushed { (fault : ℕ)
        → Holds I.recovery I.every I.catalog I.opening I.first I.moment I.faults I.past D.kind closed.list command_log receipted fault
        → IsFlushed D.kind I.recovery I.every I.catalog I.opening I.first
        I.moment I.faults I.past receipted fault result }
{
    match finish::<I, D>(alloc, &mut command_log, &closed.list, first) {
        Ok(receipt) => {
            let flushed = trimmed::<I, D>(alloc, &closed, &mut command_log, receipt, every);
            Finished {
                closed,
                log: command_log,
                receipted: receipt.count,
                flushed,
            }
        }
        Err(refused) => Finished {
            closed,
            log: command_log,
            receipted,
            flushed: Err(refused),
        },
    }
}

/// Makes all requests on an opened log, of each client those from the number in `starts` on, 0 where there is none, in order, and
/// those of different clients at the same time, then settles, and flushes what has no receipt by then. `opening` has the place of
/// the first entry, which is the log's count, and how many entries there may be, how many partitions run and how many clients ask.
/// Shard and streams stand for a database `db` that is whole, at which the log's disk stands.
///
/// So a client may begin behind requests that were answered for good when an engine before this one ran on the disk: these are
/// passed over, and the others keep their numbers.
///
/// With `every` a client makes a checkpoint before a request where its last listed entry stands so many places behind the
/// beginning of the log's generation, and one is made at the end, behind the last flush, where it is due: so where all went
/// well, fewer entries than that stand behind the log's image. Each checkpoint walks the database once and writes its image,
/// and executors wait meanwhile. One for which there is no memory is tried again before the next request; the last one tells so
/// as the last flush does.
///
/// Whatever the threads do, all executions are one list, whose outcomes are those that they have one after another. The last of
/// them are the steps of settling, in the model's order. A request for which there is no memory, or no place in the list, or no
/// disk any more, has no entry and changes nothing. Wherever a crash falls, it leaves a front of the list, which has all places
/// below the count that is told; of each client at most 16 entries stand behind that.
///
/// The run fails only where there is no memory to open the engine, or for the answers before the first request; then the log is
/// handed back as it was.
///
/// A request costs its execution, and copies of what is asked for and of its reply; a receipt is asked for once in 16 listed
/// answers. Each client looks at all requests.
///
/// Source: clients and partitions of H-Store run in threads of their own (Stonebraker et al., The End of an Architectural Era,
/// VLDB 2007); S-Store's triggered work goes ahead of client work, and its command log commits in groups (Meehan et al., PVLDB 8,
/// 2015, section 3).
pub fn run_session<
    N: Runner + Drop + Sync,
    G: Gate + Drop + Sync,
    R: Threads + Wait + Sync,
    D: Disk + Drop + Send,
>(
    rt: &R,
    alloc: Global,
    command_log: CmdLog<D>,
    catalog: Catalog,
    whole: Shard,
    streams: Streams,
    runner: N,
    gate: G,
    requests: &Seq<Request>,
    starts: &[u64],
    opening: Opening,
    every: Option<u64>,
) -> Result<Finished<D>, (NoMemory, CmdLog<D>)>
    ghost begins: { Beginning }
    requires accepted { Accepted catalog }
    requires parts { (1 ≤ opening.parts) × (opening.parts ≤ 8) }
    requires clients { (1 ≤ opening.clients) × (opening.clients ≤ 8) }
    requires small { opening.first + opening.limit ≤ 2 ^ 60 }
    requires matches { MatchesCounts catalog begins.db }
    requires few { (s : ℕ) → length (stream_batches begins.db s) ≤ opening.first }
    requires whole_database { WholeDatabase catalog begins.db }
    requires had { HadAtMost opening.first begins.db }
    requires every { (k : ℕ) → every ≡ Some k → 1 ≤ k }
    requires whole { IsWholeShard catalog opening.parts whole }
    requires holds { HoldsDatabase catalog whole begins.db }
    requires streams { AreStreamsOf catalog begins.db streams.streams }
    requires log { OpensOn D.kind begins.recovery catalog begins.db opening.first command_log }
    requires fit { AllFit catalog requests.now }
    requires asked { AreOfClients opening.clients requests.now }
    requires starts { StartWithin starts.now requests.now }
    ensures ok { IfOk result (EndsOnDisk D.kind begins.recovery every catalog begins.db opening.first
        opening.limit opening.clients requests.now starts.now command_log) }
    ensures err { IfErr result (λ e. e.1 ≡ command_log) }
{
    held_fronts_stand();
    let Ok(blank) = Blank::new(alloc, &opening) else {
        return Err((NoMemory, command_log));
    };
    incarnation::<Brand, N, G, R, D>(
        rt,
        alloc,
        blank,
        command_log,
        catalog,
        whole,
        streams,
        runner,
        gate,
        requests,
        starts,
        opening,
        every,
    )
}
