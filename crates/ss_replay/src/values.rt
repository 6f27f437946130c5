//! Whether an entry has a value on a database.

ghost use Rattle.std.specs.Prelude.{◌≡◌, ◌<◌, ◌≤◌, ◌^◌, true, false, is_some, length};
ghost use Rattle.ss_model.specs.declared.entry.Entry.TheVariants.{Step as StepEntry};
ghost use Rattle.ss_model.specs.Accepted.{Accepted};
ghost use Rattle.ss_model.specs.Database.{Database as Model, apply, is_ready_entry};
ghost use Rattle.ss_replay.specs.Replaying.{IsOn, DoesNotReplay};

use crate::fitting::entry_fits;
use ss_model::{Catalog, Entry};
use ss_sched::ready::ready;
use ss_shard::Database;

/// No execution stands at this place.
pub const LAST_PLACE: u64 = 1 << 60;

/// Whether a step is ready: its procedure takes batches, this batch is its next one, and each input has it.
fn is_next_step(catalog: &Catalog, database: &Database, procedure: u16, batch: u64) -> bool
    requires accepted { Accepted catalog.now }
    requires on { (d : Model) × IsOn catalog.now database.now d }
    requires there { procedure < length catalog.now.procedures }
    ensures { (d : Model) → IsOn catalog.now database.now d → result ≡ is_ready_entry catalog.now d (StepEntry procedure batch) }
{
    let counts = database.whole.cursors();
    if counts[usize::from(procedure)] != batch {
        return false;
    }
    ready(catalog, counts, &database.streams, procedure)
}

/// Whether an entry has a value on a database: it fits the catalogue, and a step is the next one of its procedure and has its
/// batch on each input.
///
/// Linear in what the entry carries, and for a push in the inputs of all procedures. Takes no memory.
pub fn has_value(catalog: &Catalog, database: &Database, entry: &Entry) -> bool
    requires accepted { Accepted catalog.now }
    requires on { (d : Model) × IsOn catalog.now database.now d }
    ensures { (d : Model) → IsOn catalog.now database.now d → result ≡ is_some (apply catalog.now d entry.now) }
{
    if !entry_fits(catalog, entry) {
        return false;
    }
    let Entry::Step { procedure, batch } = entry else {
        return true;
    };
    is_next_step(catalog, database, *procedure, *batch)
}

/// Whether an entry replays at a place: it has one, and a value on the database.
///
/// The place is tested here, instead of by whoever opens the store, because place 2^60 is then one refusal among the
/// others, with its record.
///
/// Costs what `has_value` costs.
pub fn replays(catalog: &Catalog, database: &Database, place: u64, entry: &Entry) -> bool
    requires accepted { Accepted catalog.now }
    requires on { (d : Model) × IsOn catalog.now database.now d }
    requires place { place ≤ 2 ^ 60 }
    ensures placed { result ≡ true → place < 2 ^ 60 }
    ensures value { result ≡ true → (d : Model) → IsOn catalog.now database.now d → is_some (apply catalog.now d entry.now) ≡ true }
    ensures stops { result ≡ false → (d : Model) → IsOn catalog.now database.now d → DoesNotReplay catalog.now d place entry.now }
{
    if place >= LAST_PLACE {
        return false;
    }
    has_value(catalog, database, entry)
}
