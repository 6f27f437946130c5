//! Runs the steps that hints name, until no hint waits.

ghost use Rattle.std.specs.Prelude.{◌≡◌, ◌≤◌, ◌<◌, [], length};
ghost use Rattle.std.specs.List.{AllByRecursion};
ghost use Rattle.ss_model.specs.Accepted.{Accepted};
ghost use Rattle.ss_run.specs.BySteps.{AreHinted, GoesOnBySteps, HintRan};
ghost use Rattle.ss_run.specs.Stands.{IsAt};

use crate::entry::Store;
use crate::origin::Origin;
use crate::steps::run_step;
use ss_model::Catalog;
use ss_sched::ready::ready;
use ss_sched::{Inbox, Task, wake_list};
use ss_value::ProcSet;
use std::alloc::Global;

/// Puts a hint for each of these procedures, by rising number. Costs a look at each procedure, and takes no memory.
pub fn put_hints<J>(catalog: &Catalog, inbox: &mut Inbox<J>, procedures: &ProcSet)
    requires accepted { Accepted catalog.now }
    requires hinted { AreHinted catalog.now inbox.old.hints }
    ensures hinted { AreHinted catalog.now inbox.new.hints }
    ensures jobs { inbox.new.jobs ≡ inbox.old.jobs }
    ensures room { inbox.new.room ≡ inbox.old.room }
{
    for number in 0..catalog.procedures.len() {
        if procedures.has(number as u8) {
            inbox.put_hint(number as u16);
        }
    }
}

/// Puts the hint of a procedure again where it is still ready.
fn hint_again<O: Origin, J>(catalog: &Catalog, store: &Store, inbox: &mut Inbox<J>, procedure: u16)
    requires accepted { Accepted catalog.now }
    requires at { IsAt catalog.now O.opening store.now }
    requires there { procedure < length catalog.now.procedures }
    requires hinted { AreHinted catalog.now inbox.old.hints }
    ensures hinted { AreHinted catalog.now inbox.new.hints }
    ensures jobs { inbox.new.jobs ≡ inbox.old.jobs }
    ensures room { inbox.new.room ≡ inbox.old.room }
{
    if ready(
        catalog,
        store.database.whole.cursors(),
        &store.database.streams,
        procedure,
    ) {
        inbox.put_hint(procedure);
    }
}

/// Follows a hint: runs its procedure on the next batch, and puts a hint for each procedure that this wakes, and its own
/// again where it is still ready. Where the procedure isn't ready, or at out of memory, nothing changes.
fn run_hint<O: Origin, J>(
    alloc: Global,
    catalog: &Catalog,
    store: &mut Store,
    inbox: &mut Inbox<J>,
    procedure: u16,
)
    requires accepted { Accepted catalog.now }
    requires at { IsAt catalog.now O.opening store.old }
    requires there { procedure < length catalog.now.procedures }
    requires hinted { AreHinted catalog.now inbox.old.hints }
    ensures at { IsAt catalog.now O.opening store.new }
    ensures ran { HintRan catalog.now O.opening store.old.list store.new.list inbox.old.hints inbox.new.hints }
    ensures hinted { AreHinted catalog.now inbox.new.hints }
    ensures jobs { inbox.new.jobs ≡ inbox.old.jobs }
    ensures room { inbox.new.room ≡ inbox.old.room }
{
    if !ready(
        catalog,
        store.database.whole.cursors(),
        &store.database.streams,
        procedure,
    ) {
        return;
    }
    // At out of memory the hint is dropped. It said only that the procedure may be ready, and settling finds it again.
    let Some(place) = run_step::<O>(alloc, catalog, store, procedure) else {
        return;
    };
    let listed = store.list.at(place as usize);
    put_hints(catalog, inbox, &wake_list(catalog, &listed.entry));
    // Last, so that those that it woke have their turn before its next batch.
    hint_again::<O, J>(catalog, store, inbox, procedure);
}

/// Runs the steps that the waiting hints name, and those that they set off, until no hint waits.
///
/// Runs no more steps than are pending. Each costs what `run_step` costs, and for its hints a look at each input of each
/// procedure.
pub fn run_hints<O: Origin, J>(
    alloc: Global,
    catalog: &Catalog,
    store: &mut Store,
    inbox: &mut Inbox<J>,
)
    requires accepted { Accepted catalog.now }
    requires at { IsAt catalog.now O.opening store.old }
    requires hinted { AreHinted catalog.now inbox.old.hints }
    requires jobs { inbox.old.jobs ≡ [] }
    ensures at { IsAt catalog.now O.opening store.new }
    ensures by_steps { GoesOnBySteps store.old.list store.new.list }
    ensures hints { inbox.new.hints ≡ [] }
    ensures jobs { inbox.new.jobs ≡ [] }
    ensures unchanged { inbox.new.room ≡ inbox.old.room }
{
    while let Some(work) = inbox.take() {
        match work {
            Task::Hint(procedure) => run_hint::<O, J>(alloc, catalog, store, inbox, procedure),
            // No job waits at first, and a hint puts none.
            Task::Job(_) => unreachable!(),
        }
    }
}
