//! Calls of the disk that fail, crashes and recoveries.

ghost use Rattle.std.specs.Prelude.{◌≡◌, ◌≢◌, ℕ, ◌↔◌, take, map, length, IfOk, IfErr, IsTrue};
ghost use Rattle.ss_core.specs.declared.machine.StepError.TheVariants.{NotEnabled};
ghost use Rattle.ss_core.specs.declared.machine.Event.TheVariants.{Fail, Crash, Recover};
ghost use Rattle.ss_core.specs.declared.machine.Stage.TheVariants.{GateSynced};
ghost use Rattle.ss_core.specs.Counts.{failed_stage, crash_write, empty_hands, selected_count};
ghost use Rattle.ss_core.specs.Machine.{Leads, CannotLead};

use crate::groups::{selected_count, set_count};
use crate::machine::{Core, Stage, StepError};
use ss_model::Listed;
use ss_value::Seq;

/// The stage behind a call that failed: what it was to write may be there, unsynced.
fn failed_stage(stage: Stage) -> Stage
    ensures { result ≡ failed_stage stage }
{
    match stage {
        Stage::BodySynced(count) => Stage::Gate(count),
        Stage::Synced => Stage::Selecting,
        Stage::Still
        | Stage::Body(_)
        | Stage::Gate(_)
        | Stage::GateSynced(_)
        | Stage::Cut
        | Stage::Written
        | Stage::Selecting => stage,
    }
}

/// Whether a gate is synced and not yet receipted.
fn is_gate_synced(stage: Stage) -> bool
    ensures { IsTrue result ↔ ((n : ℕ) × (stage ≡ GateSynced n)) }
{
    match stage {
        Stage::GateSynced(_) => true,
        Stage::BodySynced(_)
        | Stage::Synced
        | Stage::Still
        | Stage::Body(_)
        | Stage::Gate(_)
        | Stage::Cut
        | Stage::Written
        | Stage::Selecting => false,
    }
}

/// A call of the disk fails. Constant, and takes no memory.
///
/// Between a synced gate and its receipt no call is made, so none fails there.
pub fn fail(core: Core) -> Result<Core, (StepError, Core)>
    ensures ok { IfOk result (Leads core Fail) }
    ensures err { IfErr result (λ e. e.1 ≡ core) }
    ensures refused { IfErr result (λ e. e.0 ≡ NotEnabled → CannotLead core Fail) }
{
    if core.halted || is_gate_synced(core.stage) {
        return Err((StepError::NotEnabled, core));
    }
    let mut core = core;
    core.stage = failed_stage(core.stage);
    core.halted = true;
    Ok(core)
}

/// What becomes of an unsynced gate or selector in a crash.
fn crash_write(core: Core, gate: u8, selector: u8) -> Core
    ensures { result ≡ crash_write core.stage gate selector core }
{
    let mut core = core;
    match core.stage {
        Stage::Gate(count) => {
            if gate == 1 {
                set_count(core, count)
            } else {
                core
            }
        }
        Stage::Selecting => {
            core.selector = selector;
            core
        }
        Stage::Still
        | Stage::Body(_)
        | Stage::BodySynced(_)
        | Stage::GateSynced(_)
        | Stage::Cut
        | Stage::Written
        | Stage::Synced => core,
    }
}

/// Takes all partitions out of all hands, in place.
fn drop_hands(hands: &mut Seq<Option<u8>>)
    ensures { hands.new ≡ empty_hands hands.old }
{
    for part in 0..hands.len() {
        let _hand = hands.put(part, None);
    }
}

/// All is lost but what is synced. Linear in the number of partitions; takes no memory.
pub fn crash(core: Core, gate: u8, selector: u8) -> Core
    ensures { Leads core (Crash gate selector) result }
{
    let mut core = crash_write(core, gate, selector);
    drop_hands(&mut core.hands);
    core.down = true;
    core
}

/// The first entries of a list.
fn first_entries(list: Seq<Listed>, count: u64) -> Seq<Listed>
    ensures { result ≡ take count list }
{
    let mut items = list.into_vec();
    if count < items.len() as u64 {
        items.truncate(count as usize);
    }
    Seq::from_vec(items)
}

/// Of each partition so many entries are known.
fn know_all(known: &mut Seq<u64>, count: u64)
    ensures { known.new ≡ map (λ old. count) known.old }
{
    for part in 0..known.len() {
        let _old = known.put(part, count);
    }
}

/// The list is read from the disk: it is what the selected half covers, and all of it is known of each partition. Linear
/// in what is lost; takes no memory.
pub fn recover(core: Core) -> Core
    ensures { Leads core Recover result }
{
    let count = selected_count(&core);
    let mut core = core;
    let list = core.list;
    core.list = first_entries(list, count);
    let count = core.list.len() as u64;
    know_all(&mut core.known, count);
    core.stage = Stage::Still;
    core.halted = false;
    core.down = false;
    core
}
