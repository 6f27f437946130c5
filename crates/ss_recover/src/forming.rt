//! A new store.

ghost use Rattle.std.specs.Prelude.{◌≡◌, ◌≤◌, Some, IfOk, IfErr, MatchResult};
ghost use Rattle.ss_model.specs.Database.{empty_database};
ghost use Rattle.ss_cmdlog.specs.Log.{IsSettled};
ghost use Rattle.ss_cmdlog.specs.Store.{IsEmpty};
ghost use Rattle.ss_recover.specs.Errors.{forming_refusal};
ghost use Rattle.ss_recover.specs.Recovering.{IsOwnCatalog, IsRecovered, RefusesAsSaid, TellsFaults};

use crate::error::RecoverError;
use crate::recovered::Recovered;
use ss_cmdlog::{CmdLog, LogError};
use ss_disk::Disk;
use ss_model::{Catalog, Mode};
use ss_model_laws::wholeness_stays;
use ss_shard::opening;
use ss_snapshot::empty_image;
use ss_standing::{forming_stands, images_are_exact, one_thing_stands_on};
use ss_value::Seq;
use ss_weak_lists::{kept_carries_weak, weak_lists_hold_asked};
use std::alloc::Global;

/// The refusal of a call that makes a store.
pub(crate) fn refusal(refused: LogError) -> RecoverError
    ensures { result ≡ forming_refusal refused }
{
    match refused {
        LogError::DiskFault => RecoverError::DiskFault,
        _ => RecoverError::NoMemory,
    }
}

/// Makes a store of this mode and of a catalogue's empty database on an empty disk of which nothing is unsynced.
pub(crate) fn form<D: Disk>(
    alloc: Global,
    disk: D,
    catalog: Catalog,
    mode: Mode,
    partitions: u8,
) -> Result<Recovered<D>, (RecoverError, D)>
    requires own { IsOwnCatalog catalog }
    requires some { 1 ≤ partitions }
    requires few { partitions ≤ 8 }
    requires empty { D.kind.tells → IsEmpty (D.kind.seen disk) }
    requires settled { D.kind.honest → IsSettled D.kind disk }
    ensures recovered { IfOk result (λ r. IsRecovered D.kind mode (Some catalog) partitions disk r (empty_database catalog)) }
    ensures refused { IfErr result (λ refused. RefusesAsSaid D.kind mode (Some catalog) disk refused.1 refused.0) }
    ensures later { MatchResult result (λ r. D.kind.faults disk ≤ D.kind.faults r.log.disk) (λ refused. D.kind.faults disk ≤ D.kind.faults refused.1) }
    ensures told { TellsFaults D.kind disk result }
{
    forming_stands();
    images_are_exact();
    kept_carries_weak();
    one_thing_stands_on::<D>();
    weak_lists_hold_asked();
    wholeness_stays();
    let Ok(image) = empty_image(alloc, &catalog) else {
        return Err((RecoverError::NoMemory, disk));
    };
    // Behind the image, since it has more to let go where the other can't be made.
    let Ok(database) = opening(alloc, &catalog, partitions) else {
        return Err((RecoverError::NoMemory, disk));
    };
    match CmdLog::format(alloc, disk, image.as_slice(), mode) {
        Ok(log) => Ok(Recovered {
            database,
            catalog,
            first: 0,
            known: Seq::new(alloc),
            bodies: true,
            image,
            log,
        }),
        Err((refused, disk)) => Err((refusal(refused), disk)),
    }
}
