//! One request, with all that it sets off.

ghost use Rattle.std.specs.Prelude.{◌≡◌, ◌≤◌, ◌<◌, [], true, length, slice_get, IfSome, IfNone, Some};
ghost use Rattle.ss_model.specs.declared.entry.Request.{Request};
ghost use Rattle.ss_model.specs.Accepted.{Accepted};
ghost use Rattle.ss_model.specs.Database.{fits_entry};
ghost use Rattle.ss_model.specs.Report.{asked_entry};
ghost use Rattle.ss_run.specs.BySteps.{AnswersRequest, IsAnswered};
ghost use Rattle.ss_run.specs.Stands.{IsAt, JoinedAs};

use crate::entry::{Store, answer_entry};
use crate::hints::{put_hints, run_hints};
use crate::origin::Origin;
use ss_model::{Answer, Catalog, Outcome, Request, asked_entry};
use ss_sched::{Inbox, Task, wake_list};
use ss_value::{Copies, Seq};
use std::alloc::Global;

/// Runs one request, which is the one at `index` among its client's, and puts it at the end of the list. Answers its
/// place and its outcome. It copies what is asked for.
///
/// None means out of memory: then list and database are as they were.
fn run_request<O: Origin>(
    alloc: Global,
    catalog: &Catalog,
    store: &mut Store,
    request: &Request,
    index: u64,
) -> Option<(u64, Outcome)>
    requires accepted { Accepted catalog.now }
    requires fits { fits_entry catalog.now (asked_entry request.now.client index request.now.what) ≡ true }
    requires at { IsAt catalog.now O.opening store.old }
    ensures at { IsAt catalog.now O.opening store.new }
    ensures some { IfSome result (JoinedAs store.old.list store.new.list (asked_entry request.now.client index request.now.what)) }
    ensures none { IfNone result (store.new.list ≡ store.old.list) }
{
    let Ok(what) = request.what.duplicate(alloc) else {
        return None;
    };
    let entry = asked_entry(request.client, index, what);
    answer_entry::<O>(alloc, catalog, store, entry)
}

/// Serves one request: it runs, then the steps that it sets off, and those that they set off, until no hint waits.
///
/// Answers its place and its outcome, or that there was no memory for it: then list and database are as they were.
fn serve<O: Origin>(
    alloc: Global,
    catalog: &Catalog,
    store: &mut Store,
    inbox: &mut Inbox<usize>,
    request: &Request,
    index: u64,
) -> Answer
    requires accepted { Accepted catalog.now }
    requires fits { fits_entry catalog.now (asked_entry request.now.client index request.now.what) ≡ true }
    requires at { IsAt catalog.now O.opening store.old }
    requires hints { inbox.old.hints ≡ [] }
    requires jobs { inbox.old.jobs ≡ [] }
    ensures at { IsAt catalog.now O.opening store.new }
    ensures answered { IsAnswered store.old.list store.new.list (asked_entry request.now.client index request.now.what) result }
    ensures hints { inbox.new.hints ≡ [] }
    ensures jobs { inbox.new.jobs ≡ [] }
    ensures unchanged { inbox.new.room ≡ inbox.old.room }
{
    let Some((place, outcome)) = run_request::<O>(alloc, catalog, store, request, index) else {
        return Answer::NoMemory;
    };
    let listed = store.list.at(place as usize);
    put_hints(catalog, inbox, &wake_list(catalog, &listed.entry));
    run_hints::<O, usize>(alloc, catalog, store, inbox);
    Answer::Listed { place, outcome }
}

/// Serves the request with this number, which is the one at `index` among its client's, by way of the empty inbox.
pub fn pump<O: Origin>(
    alloc: Global,
    catalog: &Catalog,
    store: &mut Store,
    inbox: &mut Inbox<usize>,
    requests: &Seq<Request>,
    number: usize,
    index: u64,
) -> Answer
    requires accepted { Accepted catalog.now }
    requires there { number < length requests.now }
    requires fits { (r : Request) → slice_get requests.now number ≡ Some r → fits_entry catalog.now (asked_entry r.client index r.what) ≡ true }
    requires at { IsAt catalog.now O.opening store.old }
    requires hints { inbox.old.hints ≡ [] }
    requires jobs { inbox.old.jobs ≡ [] }
    requires room { 1 ≤ inbox.old.room }
    ensures at { IsAt catalog.now O.opening store.new }
    ensures answered { AnswersRequest requests.now number index store.old.list store.new.list result }
    ensures hints { inbox.new.hints ≡ [] }
    ensures jobs { inbox.new.jobs ≡ [] }
    ensures unchanged { inbox.new.room ≡ inbox.old.room }
{
    // Nothing else waits, so the job that is put is the one that is taken.
    inbox.put_job(number);
    let Some(Task::Job(number)) = inbox.take() else {
        unreachable!()
    };
    let request = requests.at(number);
    serve::<O>(alloc, catalog, store, inbox, request, index)
}
