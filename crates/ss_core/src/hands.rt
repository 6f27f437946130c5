//! Partitions that actors take and put back.

ghost use Rattle.std.specs.Prelude.{◌≡◌, ◌↔◌, slice_get, Some, IfOk, IfErr, None, IsTrue};
ghost use Rattle.ss_core.specs.declared.machine.StepError.TheVariants.{NotEnabled};
ghost use Rattle.ss_core.specs.declared.machine.Event.TheVariants.{Take, Put};
ghost use Rattle.ss_core.specs.Commits.{IsHolder};
ghost use Rattle.ss_core.specs.Machine.{Leads, CannotLead};

use crate::machine::{Core, StepError};

/// Whether nobody holds a partition; false where it is not there.
fn is_free(core: &Core, part: u8) -> bool
    ensures { IsTrue result ↔ (slice_get core.now.hands part ≡ Some None) }
{
    match core.hands.get(usize::from(part)) {
        Some(None) => true,
        Some(Some(_)) => false,
        None => false,
    }
}

/// Whether an actor holds a partition.
pub fn is_holder(core: &Core, actor: u8, part: u8) -> bool
    ensures { IsTrue result ↔ IsHolder core.now actor part }
{
    match core.hands.get(usize::from(part)) {
        Some(Some(holder)) => *holder == actor,
        Some(None) => false,
        None => false,
    }
}

/// An actor takes a partition that nobody holds. Constant, and takes no memory.
pub fn take(core: Core, actor: u8, part: u8) -> Result<Core, (StepError, Core)>
    ensures ok { IfOk result (Leads core (Take actor part)) }
    ensures err { IfErr result (λ e. e.1 ≡ core) }
    ensures refused { IfErr result (λ e. e.0 ≡ NotEnabled → CannotLead core (Take actor part)) }
{
    if part >= core.parts || !is_free(&core, part) {
        return Err((StepError::NotEnabled, core));
    }
    let mut core = core;
    let _free = core.hands.put(usize::from(part), Some(actor));
    Ok(core)
}

/// An actor gives back a partition that it holds. Constant, and takes no memory.
pub fn put(core: Core, actor: u8, part: u8) -> Result<Core, (StepError, Core)>
    ensures ok { IfOk result (Leads core (Put actor part)) }
    ensures err { IfErr result (λ e. e.1 ≡ core) }
    ensures refused { IfErr result (λ e. e.0 ≡ NotEnabled → CannotLead core (Put actor part)) }
{
    if !is_holder(&core, actor, part) {
        return Err((StepError::NotEnabled, core));
    }
    let mut core = core;
    let _holder = core.hands.put(usize::from(part), None);
    Ok(core)
}
