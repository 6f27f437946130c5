//! Groups of entries: their bodies, their gates and their receipts.

ghost use Rattle.std.specs.Prelude.{◌≡◌, set, IfOk, IfErr};
ghost use Rattle.ss_core.specs.declared.machine.StepError.TheVariants.{NotEnabled};
ghost use Rattle.ss_core.specs.declared.machine.Event.TheVariants.{WriteBody, SyncBody, OpenGate, SyncGate, Receive};
ghost use Rattle.ss_core.specs.Counts.{selected_half, half_at, selected_count, with_count};
ghost use Rattle.ss_core.specs.Machine.{Leads, CannotLead};

use crate::machine::{Core, Half, Stage, StepError};
use ss_value::Seq;

/// The half that a selector's byte names.
pub fn selected_half(byte: u8) -> usize
    ensures { result ≡ selected_half byte }
{
    usize::from(byte % 2)
}

/// A half, and an empty one where it is not there.
pub fn half_at(halves: &Seq<Half>, at: usize) -> Half
    ensures { result ≡ half_at halves.now at }
{
    match halves.get(at) {
        Some(half) => *half,
        None => Half { front: 0, count: 0 },
    }
}

/// Replaces a half; where it is not there nothing changes.
pub fn set_half(halves: &mut Seq<Half>, at: usize, half: Half)
    ensures { halves.new ≡ set halves.old at half }
{
    if at < halves.len() {
        let _old = halves.put(at, half);
    }
}

/// How many entries the selected half covers.
pub fn selected_count(core: &Core) -> u64
    ensures { result ≡ selected_count core.now }
{
    half_at(&core.halves, selected_half(core.selector)).count
}

/// Lets the selected half cover so many entries.
pub fn set_count(core: Core, count: u64) -> Core
    ensures { result ≡ with_count core count }
{
    let mut core = core;
    let at = selected_half(core.selector);
    let front = half_at(&core.halves, at).front;
    set_half(&mut core.halves, at, Half { front, count });
    core
}

/// The entries up to this count are written. Constant, and takes no memory, as the three behind it.
pub fn write_body(core: Core, count: u64) -> Result<Core, (StepError, Core)>
    ensures ok { IfOk result (Leads core (WriteBody count)) }
    ensures err { IfErr result (λ e. e.1 ≡ core) }
    ensures refused { IfErr result (λ e. e.0 ≡ NotEnabled → CannotLead core (WriteBody count)) }
{
    if core.stage != Stage::Still
        || count <= selected_count(&core)
        || count > core.list.len() as u64
    {
        return Err((StepError::NotEnabled, core));
    }
    let mut core = core;
    core.stage = Stage::Body(count);
    Ok(core)
}

/// They are synced.
pub fn sync_body(core: Core) -> Result<Core, (StepError, Core)>
    ensures ok { IfOk result (Leads core SyncBody) }
    ensures err { IfErr result (λ e. e.1 ≡ core) }
    ensures refused { IfErr result (λ e. e.0 ≡ NotEnabled → CannotLead core SyncBody) }
{
    let Stage::Body(count) = core.stage else {
        return Err((StepError::NotEnabled, core));
    };
    let mut core = core;
    core.stage = Stage::BodySynced(count);
    Ok(core)
}

/// Their gate is opened.
pub fn open_gate(core: Core) -> Result<Core, (StepError, Core)>
    ensures ok { IfOk result (Leads core OpenGate) }
    ensures err { IfErr result (λ e. e.1 ≡ core) }
    ensures refused { IfErr result (λ e. e.0 ≡ NotEnabled → CannotLead core OpenGate) }
{
    let Stage::BodySynced(count) = core.stage else {
        return Err((StepError::NotEnabled, core));
    };
    let mut core = core;
    core.stage = Stage::Gate(count);
    Ok(core)
}

/// Their gate is synced: from here on the selected half covers them.
pub fn sync_gate(core: Core) -> Result<Core, (StepError, Core)>
    ensures ok { IfOk result (Leads core SyncGate) }
    ensures err { IfErr result (λ e. e.1 ≡ core) }
    ensures refused { IfErr result (λ e. e.0 ≡ NotEnabled → CannotLead core SyncGate) }
{
    let Stage::Gate(count) = core.stage else {
        return Err((StepError::NotEnabled, core));
    };
    let mut core = set_count(core, count);
    core.stage = Stage::GateSynced(count);
    Ok(core)
}

/// A receipt is given for them. Constant on average over many; takes memory for the receipt.
pub fn receive(core: Core) -> Result<Core, (StepError, Core)>
    ensures ok { IfOk result (Leads core Receive) }
    ensures err { IfErr result (λ e. e.1 ≡ core) }
    ensures refused { IfErr result (λ e. e.0 ≡ NotEnabled → CannotLead core Receive) }
{
    let Stage::GateSynced(count) = core.stage else {
        return Err((StepError::NotEnabled, core));
    };
    let mut core = core;
    if core.receipts.push(count).is_err() {
        return Err((StepError::NoMemory, core));
    }
    core.stage = Stage::Still;
    Ok(core)
}
