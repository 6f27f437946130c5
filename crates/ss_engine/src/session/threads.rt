//! Clients that make their requests in threads of their own, beside executors of the partitions, for `run`. An executor pumps
//! until it is stopped; all clients are waited for, then executors are stopped and waited for. Where a thread can't be had, the
//! hub is told so.

ghost use Rattle.std.specs.Prelude.{◌≡◌, ◌<◌, length};
ghost use Rattle.ss_lanes.specs.Clients.{AllFit, EachAt, EachHasLane, HasLane, HasMade, MayBegin};

use crate::client::requests::make_requests;
use crate::engine::Engine;
use ss_commitlog::{Note, Notes};
use ss_disk::Disk;
use ss_lanes::{Client, Lane, Ready, lanes_of};
use ss_model::{Life, Request};
use ss_proc::Runner;
use ss_receipts::Receipts;
use ss_settle::Gate;
use std::alloc::Global;
use std::sync::Wait;
use std::sync::atomic::{AtomicBool, Ordering};
use std::thread;
use std::thread::Threads;

/// Makes a client's requests, from the number in `starts` on, with its lane, which it has again behind the last answer.
fn client_thread<I: Life, N: Runner + Drop, G: Gate + Drop, R: Wait, D: Disk + Drop>(
    rt: &R,
    alloc: Global,
    engine: &Engine<I, N, G>,
    receipts: &Receipts<I, D>,
    client: &mut Client<I>,
    requests: &[Request],
    starts: &[u64],
    number: usize,
)
    requires fit { AllFit I.catalog requests.now }
    requires begins { HasLane (MayBegin I.first starts.now requests.now number) client.old }
    ensures { HasLane (HasMade I.first I.limit starts.now requests.now number) client.new }
{
    let Some(lane) = client.lane.take() else {
        unreachable!()
    };
    client.lane = Some(make_requests(rt, alloc, engine, receipts, lane, requests, starts, number));
}

/// Makes the requests of all clients, each in a thread of its own where one can be made.
fn client_threads<
    I: Life + Send + Sync,
    N: Runner + Drop + Sync,
    G: Gate + Drop + Sync,
    R: Threads + Wait + Sync,
    D: Disk + Drop + Send,
>(
    rt: &R,
    alloc: Global,
    engine: &Engine<I, N, G>,
    receipts: &Receipts<I, D>,
    mut clients: Vec<Client<I>>,
    requests: &[Request],
    starts: &[u64],
) -> Vec<Client<I>>
    requires fit { AllFit I.catalog requests.now }
    requires begin { EachHasLane (length clients.items) (MayBegin I.first starts.now requests.now) clients.items }
    ensures { EachHasLane (length clients.items) (HasMade I.first I.limit starts.now requests.now) result.items }
{
    let many = clients.len().max(1);
    thread::for_each_mut(
        rt,
        clients.as_mut_slice(),
        many,
        &|number: usize, client: &mut Client<I>|
            requires { AllFit I.catalog requests.now × HasLane (MayBegin I.first starts.now requests.now number) client.old }
            ensures { HasLane (HasMade I.first I.limit starts.entry.now requests.entry.now number) client.new }
        {
            client_thread(
                rt, alloc, engine, receipts, client, requests, starts, number,
            )
        },
    );
    clients
}

/// Pumps the inbox of a partition, until the clients are done and a pump then runs nothing. Before each pump it
/// looks for work as long as that pays, and it sleeps where a pump ran nothing, until more waits there.
///
/// Its note ends with its thread, instead of coming back for the close, because the marks in hand tell all that
/// settling asks.
fn executor_thread<I: Life, N: Runner + Drop, G: Gate + Drop, R: Wait>(
    rt: &R,
    alloc: Global,
    engine: &Engine<I, N, G>,
    mut note: Note<I>,
    p: u8,
    done: &AtomicBool,
)
    requires { p < I.parts }
{
    for _ in rt.forever() {
        let finished = done.load(Ordering::SeqCst);
        engine.hub.look(p);
        if engine.pump(rt, alloc, &mut note, p).is_idle() {
            if finished {
                return;
            }
            engine.rest(rt, p);
        }
    }
    unreachable!()
}

/// Makes the requests of all clients beside an executor for each partition. Where no thread can be made for one, clients that
/// wait for an answer pump that inbox themselves.
fn clients_beside_executors<
    I: Life + Send + Sync,
    N: Runner + Drop + Sync,
    G: Gate + Drop + Sync,
    R: Threads + Wait + Sync,
    D: Disk + Drop + Send,
>(
    rt: &R,
    alloc: Global,
    engine: &Engine<I, N, G>,
    receipts: &Receipts<I, D>,
    clients: Vec<Client<I>>,
    notes: Notes<I>,
    requests: &[Request],
    starts: &[u64],
) -> Vec<Client<I>>
    requires fit { AllFit I.catalog requests.now }
    requires begin { EachHasLane (length clients.items) (MayBegin I.first starts.now requests.now) clients.items }
    ensures { EachHasLane (length clients.items) (HasMade I.first I.limit starts.now requests.now) result.items }
{
    let processors = thread::available_parallelism(rt).map_or(1, |many| many.get());
    engine.hub.look_with(processors);
    let done = AtomicBool::new(false);
    let flag = &done;
    thread::scope(
        thread::scope_env(),
        rt,
        move |scope| -> Vec<Client<I>>
            requires { AllFit I.catalog requests.now × EachHasLane (length clients.items) (MayBegin I.first starts.now requests.now) clients.items }
            ensures { EachHasLane (length clients.items) (HasMade I.first I.limit starts.entry.now requests.entry.now) result.items }
        {
            let mut notes = notes;
            for p in 0..engine.parts {
                let started = match notes.pop() {
                    Some(note) => scope
                        .spawn(move || executor_thread(rt, alloc, engine, note, p, flag))
                        .is_ok(),
                    None => false,
                };
                if !started {
                    engine.no_executor(p);
                }
            }
            let clients = client_threads(rt, alloc, engine, receipts, clients, requests, starts);
            flag.store(true, Ordering::SeqCst);
            engine.stop(rt);
            clients
        },
    )
}

/// Makes the requests of all clients, of each those from the number in `starts` on, in order and one after another, and those of
/// different clients at the same time. An executor pumps the inbox of each partition meanwhile. The lanes come back once all of
/// these requests are answered.
///
/// A client asks for a receipt where 16 of its listed answers wait for one, and behind its last answer. Looks at each request once
/// for each client. Threads: one for each client and one for each partition, where they can be made; where none can, the clients
/// make their requests one after another, and pump the inboxes themselves.
pub(crate) fn run_clients<
    I: Life + Send + Sync,
    N: Runner + Drop + Sync,
    G: Gate + Drop + Sync,
    R: Threads + Wait + Sync,
    D: Disk + Drop + Send,
>(
    rt: &R,
    alloc: Global,
    engine: &Engine<I, N, G>,
    receipts: &Receipts<I, D>,
    ready: Ready<I>,
    notes: Notes<I>,
    requests: &[Request],
    starts: &[u64],
) -> Vec<Lane<I>>
    requires fit { AllFit I.catalog requests.now }
    requires begin { EachHasLane (length ready.clients.items) (MayBegin I.first starts.now requests.now) ready.clients.items }
    ensures many { length result.items ≡ length ready.clients.items }
    ensures made { EachAt (HasMade I.first I.limit starts.now requests.now) result.items }
{
    let Ready { clients, again } = ready;
    let clients = clients_beside_executors(
        rt, alloc, engine, receipts, clients, notes, requests, starts,
    );
    lanes_of(clients, again)
}
