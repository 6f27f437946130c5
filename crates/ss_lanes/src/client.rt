//! Clients beside their requests: each with its lane, with room for its answers. `ss_engine`'s session makes them before its
//! threads, and takes the lanes again behind them. It touches no lock.

ghost use Rattle.std.specs.Prelude.{◌≡◌, ◌≤◌, [], map, length, vec_capacity, IfOk};
ghost use Rattle.ss_report_laws.specs.Replies.{requests_of};
ghost use Rattle.ss_lanes.specs.Clients.{AllThere, EachAt, EachHasLane, MayBegin, StartWithin, lane_of, some_lane};
ghost use Rattle.ss_lanes.specs.Lanes.{IsFresh, start_of};

use crate::fresh::start_of;
use crate::lane::Lane;
use ss_model::{Life, Request};
use ss_value::NoMemory;
use std::alloc::Global;

/// A client, whose lane is away only while it makes its requests.
///
/// The lane goes into the client's thread in here and comes back here, instead of being returned by the thread, because
/// `for_each_mut` lends each thread one item of a list and gives nothing back. So what is known of each lane is known
/// of the list by number (`EachHasLane`).
#[derive(Drop)]
pub struct Client<I: Life> {
    /// Its lane, where it is not away.
    pub lane: Option<Lane<I>>,
}

/// How many of these requests are a client's. Looks at each.
fn count_requests(requests: &[Request], client: usize) -> usize
    ensures { result ≡ length (requests_of client requests.now) }
{
    let mut count = 0;
    for request in requests {
        if usize::from(request.client) == client {
            count += 1;
        }
    }
    count
}

/// A client for each lane, with room for the answers to all requests that it makes here, which are its own from the number in
/// `starts` on, because an answer may not be lost once its entry is listed. Looks at each request once for each client.
fn clients_of<I: Life>(
    alloc: Global,
    lanes: Vec<Lane<I>>,
    requests: &[Request],
    starts: &[u64],
) -> Result<Vec<Client<I>>, NoMemory>
    requires fresh { EachAt (λ k. IsFresh I.first k (start_of starts.now k)) lanes.items }
    requires starts { StartWithin starts.now requests.now }
    ensures { IfOk result (λ clients. EachHasLane (length lanes.items) (MayBegin I.first starts.now requests.now) clients.items) }
{
    let mut clients = Vec::with_capacity(alloc, lanes.len())?;
    for mut lane in lanes {
        let number = clients.len();
        lane.reserve(count_requests(requests, number) - start_of(starts, number) as usize)?;
        clients.push_reserved(Client { lane: Some(lane) });
    }
    Ok(clients)
}

/// The clients' lanes, in their order, in a list that has room for them. Takes no memory.
pub fn lanes_of<I: Life>(clients: Vec<Client<I>>, mut lanes: Vec<Lane<I>>) -> Vec<Lane<I>>
    requires room { (lanes.items ≡ []) × (length clients.items ≤ vec_capacity lanes) }
    requires there { AllThere clients.items }
    ensures { map some_lane result.items ≡ map lane_of clients.items }
{
    for client in clients {
        let Client { lane } = client;
        let Some(lane) = lane else { unreachable!() };
        lanes.push_reserved(lane);
    }
    lanes
}

/// The clients before their first request, with a list that has room for their lanes.
#[derive(Drop)]
pub struct Ready<I: Life> {
    /// Each with room for the answers to all requests that it makes here.
    pub clients: Vec<Client<I>>,
    /// Room for as many lanes.
    pub again: Vec<Lane<I>>,
    pub ghost none: { again.items ≡ [] },
    pub ghost room: { length clients.items ≤ vec_capacity again },
}

/// Makes room for all that the clients' requests take on their side, before the first of them, which has its number in `starts`.
/// NoMemory is its one error. Looks at each request once for each client.
pub fn with_room<I: Life>(
    alloc: Global,
    lanes: Vec<Lane<I>>,
    requests: &[Request],
    starts: &[u64],
) -> Result<Ready<I>, NoMemory>
    requires fresh { EachAt (λ k. IsFresh I.first k (start_of starts.now k)) lanes.items }
    requires starts { StartWithin starts.now requests.now }
    ensures { IfOk result (λ ready. EachHasLane (length lanes.items) (MayBegin I.first starts.now requests.now) ready.clients.items) }
{
    let again = Vec::with_capacity(alloc, lanes.len())?;
    let clients = clients_of(alloc, lanes, requests, starts)?;
    Ok(Ready { clients, again })
}
