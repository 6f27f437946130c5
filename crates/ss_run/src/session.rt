//! All requests of a run, in input order, and what they set off.

ghost use Rattle.std.specs.Prelude.{◌≡◌, ◌≤◌, ◌<◌, ℕ, [], true, length, IfOk};
ghost use Rattle.ss_model.specs.Accepted.{Accepted};
ghost use Rattle.ss_model.specs.Database.{empty_database};
ghost use Rattle.ss_model.specs.Orders.{Orders};
ghost use Rattle.ss_model.specs.Replays.{Replays, after};
ghost use Rattle.ss_model.specs.Report.{Whole};
ghost use Rattle.ss_model.specs.Settling.{Drained};
ghost use Rattle.ss_report_laws.specs.Replies.{AreAnswered, requests_of};
ghost use Rattle.ss_shard.specs.Databases.{IsWhole, StandsFor};
ghost use Rattle.ss_run.specs.Replies.{no_answers, spare_of};
ghost use Rattle.ss_run.specs.RunAnswers.{AnswersInOrder, all_fit};
ghost use Rattle.ss_run.specs.Stands.{IsAt, database_at};

use crate::entry::Store;
use crate::origin::Origin;
use crate::replies::{CLIENTS, Replies};
use crate::request::pump;
use crate::settle::settle;
use ss_model::{Answer, Catalog, Listed, Request};
use ss_sched::Inbox;
use ss_shard::{Database, opening};
use ss_value::{NoMemory, Reserved, Seq};
use std::alloc::Global;
use std::marker::Brand;

/// What a run comes to.
#[derive(Drop)]
pub struct Session {
    /// The entries with their outcomes, in the order in which they ran.
    pub list: Seq<Listed>,
    /// For each of the eight clients the answers to its requests, in their order.
    pub answers: Seq<Seq<Answer>>,
    /// The database after the list.
    pub database: Database,
}

/// What is made before the first request, so that behind it only settling can fail.
#[derive(Drop)]
struct Room {
    inbox: Inbox<usize>,
    /// Room for an answer to each request.
    replies: Replies,
    /// Room for the answers by client.
    lists: Reserved<Seq<Answer>>,
}

/// The inbox and the room for answers to these requests. Looks at each request once for each client.
fn room_for(alloc: Global, requests: &Seq<Request>) -> Result<Room, NoMemory>
    ensures hints { IfOk result (λ r. r.inbox.hints ≡ []) }
    ensures jobs { IfOk result (λ r. r.inbox.jobs ≡ []) }
    ensures inbox { IfOk result (λ r. r.inbox.room ≡ 1) }
    ensures replies { IfOk result (λ r. r.replies.answers ≡ no_answers) }
    ensures room { IfOk result (λ r. (client : ℕ) → client < 8 → length (requests_of client requests.now) ≤ spare_of r.replies client) }
    ensures lists { IfOk result (λ r. (r.lists.items ≡ []) × (8 ≤ r.lists.spare)) }
{
    let inbox = Inbox::new(alloc, 1)?;
    let replies = Replies::new(alloc, requests.as_slice())?;
    let mut lists = Reserved::new(alloc);
    lists.reserve(CLIENTS)?;
    Ok(Room {
        inbox,
        replies,
        lists,
    })
}

/// Runs all requests in input order, each with all that it sets off. Answers the answers by client. Takes no memory but what
/// the entries take.
fn serve_all<O: Origin>(
    alloc: Global,
    catalog: &Catalog,
    store: &mut Store,
    requests: &Seq<Request>,
    room: Room,
) -> Seq<Seq<Answer>>
    requires accepted { Accepted catalog.now }
    requires fit { all_fit catalog.now requests.now ≡ true }
    requires at { IsAt catalog.now O.opening store.old }
    requires begun { store.old.list ≡ [] }
    requires hints { room.inbox.hints ≡ [] }
    requires jobs { room.inbox.jobs ≡ [] }
    requires inbox { room.inbox.room ≡ 1 }
    requires replies { room.replies.answers ≡ no_answers }
    requires room { (client : ℕ) → client < 8 → length (requests_of client requests.now) ≤ spare_of room.replies client }
    requires lists { (room.lists.items ≡ []) × (8 ≤ room.lists.spare) }
    ensures at { IsAt catalog.now O.opening store.new }
    ensures in_order { AnswersInOrder requests.now store.new.list }
    ensures answered { AreAnswered requests.now 0 store.new.list Whole result }
{
    let Room {
        mut inbox,
        mut replies,
        lists,
    } = room;
    for (number, request) in requests.as_slice().iter().enumerate() {
        let index = replies.count(request.client);
        let answer = pump::<O>(alloc, catalog, store, &mut inbox, requests, number, index);
        replies.add(request.client, answer);
    }
    replies.into_lists(lists)
}

/// Runs all requests from an opening on, one after another in input order, each with the steps that it sets off, and then
/// settles.
///
/// The store is the opening's database, which is whole, with no entry behind it yet. Costs and fails as [`run_requests`],
/// which is the case of the empty database.
pub fn run_from<O: Origin>(
    alloc: Global,
    catalog: &Catalog,
    requests: &Seq<Request>,
    store: Store,
) -> Result<Session, NoMemory>
    requires accepted { Accepted catalog.now }
    requires fit { all_fit catalog.now requests.now ≡ true }
    requires at { IsAt catalog.now O.opening store }
    requires begun { store.list ≡ [] }
    ensures ok { IfOk result (λ s. Replays catalog.now O.opening s.list) }
    ensures orders { IfOk result (λ s. Orders catalog.now O.opening s.list) }
    ensures in_order { IfOk result (λ s. AnswersInOrder requests.now s.list) }
    ensures answered { IfOk result (λ s. AreAnswered requests.now 0 s.list Whole s.answers) }
    ensures drained { IfOk result (λ s. Drained catalog.now (after catalog.now O.opening s.list)) }
    ensures whole { IfOk result (λ s. IsWhole catalog.now s.database) }
    ensures stands { IfOk result (λ s. StandsFor catalog.now s.database (after catalog.now O.opening s.list)) }
{
    let mut store = store;
    let room = room_for(alloc, requests)?;
    let answers = serve_all::<O>(alloc, catalog, &mut store, requests, room);
    // Batches may still be pending: a hint whose step was out of memory was dropped.
    settle::<O>(alloc, catalog, &mut store)?;
    let (database, list) = store.into_parts();
    Ok(Session {
        list,
        answers,
        database,
    })
}

/// Runs all requests from the empty database on, one after another in input order, each with the steps that it sets off,
/// and then settles.
///
/// A request costs its execution, and copies of what is asked for and of its reply; a step costs its execution, and a look
/// at the inputs of each procedure. No cost grows with the list, the streams or the requests so far. A request for which
/// there is no memory has no entry and changes nothing, and the next one runs. The run fails only where there is no memory
/// for the empty database, the inbox and the answers before the first request, or for a step when it settles.
///
/// Source: transactions of a partition run one after another, as in H-Store (Stonebraker et al., The End of an
/// Architectural Era, VLDB 2007); triggered work goes ahead of client work, as in S-Store's scheduler (Meehan et al.,
/// PVLDB 8, 2015, section 3.2).
pub fn run_requests(
    alloc: Global,
    catalog: &Catalog,
    requests: &Seq<Request>,
) -> Result<Session, NoMemory>
    requires accepted { Accepted catalog.now }
    requires fit { all_fit catalog.now requests.now ≡ true }
    ensures ok { IfOk result (λ s. Replays catalog.now (empty_database catalog.now) s.list) }
    ensures orders { IfOk result (λ s. Orders catalog.now (empty_database catalog.now) s.list) }
    ensures in_order { IfOk result (λ s. AnswersInOrder requests.now s.list) }
    ensures answered { IfOk result (λ s. AreAnswered requests.now 0 s.list Whole s.answers) }
    ensures drained { IfOk result (λ s. Drained catalog.now (database_at catalog.now s.list)) }
    ensures whole { IfOk result (λ s. IsWhole catalog.now s.database) }
    ensures stands { IfOk result (λ s. StandsFor catalog.now s.database (database_at catalog.now s.list)) }
{
    let database = opening(alloc, catalog, 1)?;
    let list = Seq::new(alloc);
    let store = Store {
        database,
        list,
        first: 0,
    };
    run_from::<Brand>(alloc, catalog, requests, store)
}
