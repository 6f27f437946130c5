//! Events in order, and the theorem.

ghost use Rattle.std.specs.Prelude.{◌≡◌, IfOk, IfErr};
ghost use Rattle.ss_core.specs.declared.machine.StepError.TheVariants.{NotEnabled};
ghost use Rattle.ss_core.specs.Machine.{Happens, AllHappen, CannotHappen};
ghost use Rattle.ss_core.specs.Theorem.{core_left, IsReachable, IsSafe, ReceiptsStay, IsRefusal};

use crate::machine::{Core, Event, StepError};
use crate::transition::step;
use ss_value::{Copies, NoMemory, Seq};
use std::alloc::Global;

/// One event, of which a copy is used.
fn next(alloc: Global, core: Core, event: &Event) -> Result<Core, (StepError, Core)>
    ensures ok { IfOk result (Happens core event.now) }
    ensures err { IfErr result (λ e. e.1 ≡ core) }
    ensures refused { IfErr result (λ e. e.0 ≡ NotEnabled → CannotHappen core event.now) }
{
    match event.duplicate(alloc) {
        Ok(event) => step(alloc, core, event),
        Err(NoMemory) => Err((StepError::NoMemory, core)),
    }
}

/// Events in order, or why the first of them that was refused was refused, with the core before it. Costs what each event
/// does, and a copy of each.
///
/// Whatever the events are, and wherever a crash falls among them: the list that they leave is one serial execution, in
/// which each procedure takes its batches in order and each client's requests are in their order; no entry past what the
/// holder of a partition knows touches it; a crash leaves, and a recovery keeps, each entry before each receipt (`safe`).
/// Each receipt stays, with the entries before it in their places, across crashes and recoveries too (`receipts`). Nothing
/// is said of whether an event will ever be possible.
pub fn run_events(alloc: Global, core: Core, events: &Seq<Event>) -> Result<Core, (StepError, Core)>
    requires { IsReachable core }
    ensures ok { IfOk result (AllHappen core events.now) }
    ensures refused { IfErr result (λ e. IsRefusal core events.now e.0 e.1) }
    ensures reachable { IsReachable (core_left result) }
    ensures safe { IsSafe (core_left result) }
    ensures receipts { ReceiptsStay core (core_left result) }
{
    let mut core = core;
    for event in events.as_slice() {
        match next(alloc, core, event) {
            Ok(left) => core = left,
            Err(refused) => return Err(refused),
        }
    }
    Ok(core)
}
