//! One event.

ghost use Rattle.std.specs.Prelude.{◌≡◌, IfOk, IfErr};
ghost use Rattle.ss_core.specs.Machine.{is_device, is_recover, is_possible, Leads, Happens, CannotLead, CannotHappen};
ghost use Rattle.ss_core.specs.Theorem.{core_left, IsReachable, IsSafe, ReceiptsStay};

use crate::commits::commit;
use crate::faults::{crash, fail, recover};
use crate::generations::{cut_other, select, sync_generation, sync_select, write_generation};
use crate::groups::{open_gate, receive, sync_body, sync_gate, write_body};
use crate::hands::{put, take};
use crate::machine::{Core, Event, StepError};
use std::alloc::Global;

/// Whether an event is a call of the disk.
fn is_device(event: &Event) -> bool
    ensures { result ≡ is_device event.now }
{
    match event {
        Event::WriteBody { .. }
        | Event::SyncBody
        | Event::OpenGate
        | Event::SyncGate
        | Event::CutOther { .. }
        | Event::WriteGeneration
        | Event::SyncGeneration
        | Event::Select
        | Event::SyncSelect => true,
        Event::Take { .. }
        | Event::Commit { .. }
        | Event::Put { .. }
        | Event::Receive
        | Event::Fail
        | Event::Crash { .. }
        | Event::Recover => false,
    }
}

/// Whether an event reads the list from the disk.
fn is_recover(event: &Event) -> bool
    ensures { result ≡ is_recover event.now }
{
    matches!(event, Event::Recover)
}

/// Whether an event is possible at all in a core that is down or not, halted or not.
fn is_possible(core: &Core, event: &Event) -> bool
    ensures { result ≡ is_possible core.now event.now }
{
    if is_recover(event) {
        core.down
    } else {
        !core.down && !(is_device(event) && core.halted)
    }
}

/// What the event's row in the table says of it.
fn lead(alloc: Global, core: Core, event: Event) -> Result<Core, (StepError, Core)>
    ensures ok { IfOk result (Leads core event) }
    ensures err { IfErr result (λ e. e.1 ≡ core) }
    ensures refused { IfErr result (λ e. e.0 ≡ StepError.NotEnabled → CannotLead core event) }
{
    match event {
        Event::Take { actor, part } => take(core, actor, part),
        Event::Commit {
            actor,
            listed,
            seen,
        } => commit(alloc, core, actor, listed, seen),
        Event::Put { actor, part } => put(core, actor, part),
        Event::WriteBody { count } => write_body(core, count),
        Event::SyncBody => sync_body(core),
        Event::OpenGate => open_gate(core),
        Event::SyncGate => sync_gate(core),
        Event::Receive => receive(core),
        Event::CutOther { actor } => cut_other(core, actor),
        Event::WriteGeneration => write_generation(core),
        Event::SyncGeneration => sync_generation(core),
        Event::Select => select(core),
        Event::SyncSelect => sync_select(core),
        Event::Fail => fail(core),
        Event::Crash { gate, selector } => Ok(crash(core, gate, selector)),
        Event::Recover => Ok(recover(core)),
    }
}

/// One event, where it is possible at all.
fn one_event(alloc: Global, core: Core, event: Event) -> Result<Core, (StepError, Core)>
    ensures ok { IfOk result (Happens core event) }
    ensures err { IfErr result (λ e. e.1 ≡ core) }
    ensures refused { IfErr result (λ e. e.0 ≡ StepError.NotEnabled → CannotHappen core event) }
{
    if is_possible(&core, &event) {
        lead(alloc, core, event)
    } else {
        Err((StepError::NotEnabled, core))
    }
}

/// One event, or why it was refused, with the core as it was. `NotEnabled` comes only where the event cannot happen, and
/// where it cannot, nothing but `NotEnabled` or out of memory comes.
///
/// It needs nothing of the core; where events lead to the core, the theorem holds of what is left (`safe`, `receipts`).
///
/// A commit costs a replay of the entries that its actor had seen, by the definitions, which copy all tables, windows and
/// streams at each entry. Every other event is linear in the number of partitions at most, and a recovery in what is
/// lost. A commit and a receipt take memory.
pub fn step(alloc: Global, core: Core, event: Event) -> Result<Core, (StepError, Core)>
    ensures ok { IfOk result (Happens core event) }
    ensures err { IfErr result (λ e. e.1 ≡ core) }
    ensures refused { IfErr result (λ e. e.0 ≡ StepError.NotEnabled → CannotHappen core event) }
    ensures reachable { IsReachable core → IsReachable (core_left result) }
    ensures safe { IsReachable core → IsSafe (core_left result) }
    ensures receipts { IsReachable core → ReceiptsStay core (core_left result) }
{
    one_event(alloc, core, event)
}
