//! A store of an older form.

ghost use Rattle.std.specs.Prelude.{◌≡◌, ◌⊎◌, ◌≤◌, ◌^◌, true, false, OnOk, OnErr, IfOk, IfErr, MatchResult};
ghost use Rattle.ss_cmdlog.specs.Generation.{Stood};
ghost use Rattle.ss_cmdlog.specs.Log.{IsOpen};
ghost use Rattle.ss_shard.specs.Shards.{IsCommitted};
ghost use Rattle.ss_snapshot.specs.Held.{FitsHeld, OfWhatTheyHold, StandForSome};
ghost use Rattle.ss_standing.specs.Checkpoints.{checkpoint_of};
ghost use Rattle.ss_recover.specs.Recovering.{GoesOnBehind};
ghost use Rattle.ss_recover.specs.Renewed.{HasFormCause, LeavesForm};

use crate::error::RecoverError;
use crate::forming::refusal;
use ss_cmdlog::CmdLog;
use ss_disk::Disk;
use ss_model::Catalog;
use ss_shard::Database;
use ss_snapshot::write_image;
use std::alloc::Global;

/// The log of a store, on a generation of the new form: where the current one is of an older form, a checkpoint of the database takes its
/// place. `bodies` says whether bodies may be in the current one.
///
/// A crash leaves the one generation or the other. Nothing is called where the form is the new one; else there are seven calls of the disk,
/// and time is linear in the database.
pub(crate) fn in_new_form<D: Disk>(
    alloc: Global,
    mut log: CmdLog<D>,
    catalog: &Catalog,
    database: &Database,
    place: u64,
    bodies: bool,
) -> Result<CmdLog<D>, (RecoverError, D)>
    requires open { (s : Stood) × IsOpen D.kind log s × (s.bodies ≡ bodies) }
    requires counted { log.count ≡ place }
    requires few { place ≤ 2 ^ 60 }
    requires committed { IsCommitted catalog.now database.now.whole }
    requires held { StandForSome catalog.now database.now.whole database.now.streams.streams }
    ensures goes_on { (s : Stood) → IsOpen D.kind log s → s.bodies ≡ bodies
        → OfWhatTheyHold catalog.now database.now.whole database.now.streams.streams (λ d.
        IfOk result (λ new. (t : Stood) × IsOpen D.kind new t × GoesOnBehind s.mode catalog.now place d s t)) }
    ensures fits { bodies ≡ false → OnOk result (FitsHeld catalog.now database.now.whole database.now.streams.streams) }
    ensures room { bodies ≡ false
        → IfErr result (λ refused. (refused.1 ≡ log.disk) ⊎ FitsHeld catalog.now database.now.whole database.now.streams.streams) }
    ensures count { IfOk result (λ new. new.count ≡ place) }
    ensures leaves { D.kind.honest → (s : Stood) → IsOpen D.kind log s → s.bodies ≡ bodies
        → OfWhatTheyHold catalog.now database.now.whole database.now.streams.streams (λ d.
        MatchResult result (λ new. LeavesForm D.kind s (checkpoint_of s.mode catalog.now place d) log.disk new.disk)
        (λ refused. LeavesForm D.kind s (checkpoint_of s.mode catalog.now place d) log.disk refused.1)) }
    ensures same { IfOk result (λ new. D.kind.faults new.disk ≡ D.kind.faults log.disk) }
    ensures later { IfErr result (λ refused. D.kind.faults log.disk ≤ D.kind.faults refused.1) }
    ensures cause { IfErr result (λ refused. HasFormCause (D.kind.faults log.disk) (D.kind.faults refused.1) refused.0) }
    ensures only { bodies ≡ true → OnErr result ⊥ × IfOk result (λ new. new ≡ log) }
{
    if bodies {
        return Ok(log);
    }
    let Ok(image) = write_image(alloc, catalog, &database.whole, &database.streams) else {
        return Err((RecoverError::NoMemory, log.into_disk()));
    };
    match log.renew(image.as_slice(), place) {
        Ok(()) => Ok(log),
        Err(refused) => Err((refusal(refused), log.into_disk())),
    }
}
