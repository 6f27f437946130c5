//! The triggers that an event sets off: a trigger waits for a stream, and runs whenever rows are emitted to it, or for a window, and
//! runs whenever the end of what the window shows moves.
//!
//! Source: the execution-engine triggers of S-Store (Meehan et al., PVLDB 8, 2015, section 3.2).

ghost use Rattle.std.specs.Prelude.{◌≡◌, ◌<◌, ◌≤◌, ◌↔◌, ℕ, length, true, slice_get, Some};
ghost use Rattle.std.specs.Int.{IsBitSet};
ghost use Rattle.ss_model.specs.declared.catalog.TriggerDef.{TriggerDef};
ghost use Rattle.ss_proc.specs.Waiting.{waits_for};

use ss_model::{Catalog, On};
use ss_value::ProcSet;

/// What sets triggers off.
#[derive(Clone, Copy, Debug, PartialEq, Eq, Drop)]
pub enum TriggerEvent {
    /// Rows were emitted to this stream.
    Emitted(u16),
    /// The end of what this window shows has moved.
    Moved(u16),
}

/// Whether a trigger on this stream or window runs at an event.
fn waits_for(event: TriggerEvent, on: On) -> bool
    ensures { result ≡ waits_for event on }
{
    match (event, on) {
        (TriggerEvent::Emitted(n), On::Stream(m)) => n == m,
        (TriggerEvent::Moved(n), On::Window(m)) => n == m,
        _ => false,
    }
}

/// The numbers of the triggers that an event sets off, which run in rising order. Linear in the triggers of the catalogue;
/// takes no memory.
pub(crate) fn firings(catalog: &Catalog, event: TriggerEvent) -> ProcSet
    requires { length catalog.now.triggers ≤ 64 }
    ensures those { (n : ℕ) (trigger : TriggerDef) → slice_get catalog.now.triggers n ≡ Some trigger → IsBitSet result n ↔ (waits_for event trigger.on ≡ true) }
    ensures no_other { (n : ℕ) → IsBitSet result n → n < length catalog.now.triggers }
{
    let mut fired = ProcSet::empty();
    for (n, trigger) in catalog.triggers.as_slice().iter().enumerate() {
        if waits_for(event, trigger.on) {
            // A catalogue has at most 64 triggers, so that their numbers fit in a set of procedures.
            fired.insert(n as u8);
        }
    }
    fired
}
