//! Generations: the other half is written, and then selected.

ghost use Rattle.std.specs.Prelude.{◌≡◌, ◌<◌, ℕ, ◌↔◌, IfOk, IfErr, IsTrue};
ghost use Rattle.ss_core.specs.declared.machine.StepError.TheVariants.{NotEnabled};
ghost use Rattle.ss_core.specs.declared.machine.Event.TheVariants.{CutOther, WriteGeneration, SyncGeneration, Select, SyncSelect};
ghost use Rattle.ss_core.specs.Counts.{other_half};
ghost use Rattle.ss_core.specs.Commits.{IsHolder};
ghost use Rattle.ss_core.specs.Machine.{Leads, CannotLead};

use crate::groups::{selected_count, set_half};
use crate::hands::is_holder;
use crate::machine::{Core, Half, Stage, StepError};

/// The half that a selector's byte does not name, which is also the byte that names it.
fn other_half(byte: u8) -> u8
    ensures { result ≡ other_half byte }
{
    1 - byte % 2
}

/// Whether an actor holds all partitions.
fn is_holder_of_all(core: &Core, actor: u8) -> bool
    ensures { IsTrue result ↔ ((part : ℕ) → part < core.now.parts → IsHolder core.now actor part) }
{
    for part in 0..core.parts {
        if !is_holder(core, actor, part) {
            return false;
        }
    }
    true
}

/// The other half is emptied, by an actor that holds all partitions, where the whole list is covered. Linear in the
/// number of partitions; takes no memory.
///
/// All partitions are held so that no entry joins the list before the generation is selected, and it covers just what the
/// selected half covers.
pub fn cut_other(core: Core, actor: u8) -> Result<Core, (StepError, Core)>
    ensures ok { IfOk result (Leads core (CutOther actor)) }
    ensures err { IfErr result (λ e. e.1 ≡ core) }
    ensures refused { IfErr result (λ e. e.0 ≡ NotEnabled → CannotLead core (CutOther actor)) }
{
    if core.stage != Stage::Still
        || !is_holder_of_all(&core, actor)
        || selected_count(&core) != core.list.len() as u64
    {
        return Err((StepError::NotEnabled, core));
    }
    let mut core = core;
    core.stage = Stage::Cut;
    Ok(core)
}

/// A generation is written to it. Constant, and takes no memory, as the three behind it.
pub fn write_generation(core: Core) -> Result<Core, (StepError, Core)>
    ensures ok { IfOk result (Leads core WriteGeneration) }
    ensures err { IfErr result (λ e. e.1 ≡ core) }
    ensures refused { IfErr result (λ e. e.0 ≡ NotEnabled → CannotLead core WriteGeneration) }
{
    if core.stage != Stage::Cut {
        return Err((StepError::NotEnabled, core));
    }
    let mut core = core;
    core.stage = Stage::Written;
    Ok(core)
}

/// It is synced: from here on the other half covers as many entries as the selected one.
pub fn sync_generation(core: Core) -> Result<Core, (StepError, Core)>
    ensures ok { IfOk result (Leads core SyncGeneration) }
    ensures err { IfErr result (λ e. e.1 ≡ core) }
    ensures refused { IfErr result (λ e. e.0 ≡ NotEnabled → CannotLead core SyncGeneration) }
{
    if core.stage != Stage::Written {
        return Err((StepError::NotEnabled, core));
    }
    let mut core = core;
    let count = selected_count(&core);
    let other = usize::from(other_half(core.selector));
    set_half(
        &mut core.halves,
        other,
        Half {
            front: count,
            count,
        },
    );
    core.stage = Stage::Synced;
    Ok(core)
}

/// The selector is written, for the other half.
pub fn select(core: Core) -> Result<Core, (StepError, Core)>
    ensures ok { IfOk result (Leads core Select) }
    ensures err { IfErr result (λ e. e.1 ≡ core) }
    ensures refused { IfErr result (λ e. e.0 ≡ NotEnabled → CannotLead core Select) }
{
    if core.stage != Stage::Synced {
        return Err((StepError::NotEnabled, core));
    }
    let mut core = core;
    core.stage = Stage::Selecting;
    Ok(core)
}

/// It is synced: the other half is the selected one.
pub fn sync_select(core: Core) -> Result<Core, (StepError, Core)>
    ensures ok { IfOk result (Leads core SyncSelect) }
    ensures err { IfErr result (λ e. e.1 ≡ core) }
    ensures refused { IfErr result (λ e. e.0 ≡ NotEnabled → CannotLead core SyncSelect) }
{
    if core.stage != Stage::Selecting {
        return Err((StepError::NotEnabled, core));
    }
    let mut core = core;
    core.selector = other_half(core.selector);
    core.stage = Stage::Still;
    Ok(core)
}
