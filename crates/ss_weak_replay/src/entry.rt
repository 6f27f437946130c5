//! One entry, as the next one of a list.

ghost use Rattle.std.specs.Prelude.{◌≡◌, true, is_some, map, OnOk};
ghost use Rattle.ss_model.specs.Accepted.{Accepted};
ghost use Rattle.ss_model.specs.Database.{Database as Model, apply};
ghost use Rattle.ss_shard.specs.Parts.{dealing_of};
ghost use Rattle.ss_shard.specs.Shards.{IsCommitted};
ghost use Rattle.ss_replay.specs.Replaying.{CanTake};
ghost use Rattle.ss_weak_replay.specs.WeakReplaying.{IsListedBehind};

use ss_model::{Catalog, Entry, Listed};
use ss_proc::Runner;
use ss_replay::{Replayed, replay_entry};
use ss_value::NoMemory;
use std::alloc::Global;

/// Runs an entry that has a value, and puts it at the end of the list with its outcome.
///
/// Costs what `replay_entry` costs, and the growth of the list now and then. Nothing is said of what out of memory leaves.
pub(crate) fn list_entry<N: Runner>(
    alloc: Global,
    catalog: &Catalog,
    runner: &N,
    so_far: &mut Replayed,
    entry: Entry,
) -> Result<(), NoMemory>
    requires accepted { Accepted catalog.now }
    requires committed { IsCommitted catalog.now so_far.old.database.whole }
    requires takes { (d : Model) × CanTake catalog.now so_far.old.database d }
    requires value { (d : Model) → CanTake catalog.now so_far.old.database d → is_some (apply catalog.now d entry) ≡ true }
    ensures listed { OnOk result ((d : Model) → CanTake catalog.now so_far.old.database d
        → IsListedBehind catalog.now d entry so_far.old.list so_far.new.list so_far.new.database) }
    ensures committed { OnOk result (IsCommitted catalog.now so_far.new.database.whole) }
    ensures number { OnOk result (so_far.new.database.whole.number ≡ so_far.old.database.whole.number) }
    ensures dealt { OnOk result (map dealing_of so_far.new.database.whole.tables ≡ map dealing_of so_far.old.database.whole.tables) }
{
    let outcome = replay_entry(alloc, catalog, runner, &mut so_far.database, &entry)?;
    let Ok(()) = so_far.list.push(Listed { entry, outcome }) else {
        return Err(NoMemory);
    };
    Ok(())
}
