//! Recovery.

ghost use Rattle.std.specs.Prelude.{◌≡◌, ◌≢◌, ◌⊎◌, ◌≤◌, [], true, false, None, Ok, OnOk, IfOk, IfErr, IfSome, MatchResult};
ghost use Rattle.ss_value.specs.FaultCounts.{HasCause};
ghost use Rattle.ss_cmdlog.specs.Log.{IsSettled};
ghost use Rattle.ss_cmdlog.specs.Opening.{OnlyReads};
ghost use Rattle.ss_cmdlog.specs.Store.{IsEmpty};
ghost use Rattle.ss_recover.specs.Recovering.{IsOwnCatalog, IsRecovered, RefusesAsSaid, TellsFaults, recovered_database};

use crate::error::RecoverError;
use crate::forming::form;
use crate::recovered::Recovered;
use crate::restoring::restore;
use ss_disk::{Disk, FileNo};
use ss_model::{Catalog, Mode};
use ss_model_laws::wholeness_stays;
use ss_proc::Runner;
use ss_value::Failed;
use std::alloc::Global;

/// Whether nothing was formatted yet, told behind a sync.
///
/// `CmdLog::open` begins with a sync again, instead of going without, because each of the two promises what a crash
/// leaves by itself. The second one finds nothing to do.
fn is_empty<D: Disk>(disk: &mut D) -> Result<bool, Failed>
    ensures empty { D.kind.tells → result ≡ Ok true → IsEmpty (D.kind.seen disk.old) }
    ensures stored { D.kind.tells → result ≡ Ok false → (D.kind.seen disk.old).selector ≢ [] }
    ensures settled { D.kind.honest → OnOk result (IsSettled D.kind disk.new) }
    ensures reads { OnlyReads D.kind disk.old disk.new }
    ensures cause { HasCause (D.kind.faults disk.old) (D.kind.faults disk.new) result }
{
    disk.sync()?;
    let length = disk.len(FileNo::Selector)?;
    Ok(length == 0)
}

/// Recovers what a disk stands for: the database, and the log that goes on behind its entries.
///
/// It begins with a sync. A store is opened, its image is read, and its entries are replayed in their order, by the store's own
/// mode: strong and weak recovery (Meehan et al., PVLDB 8, 2015, section 2.4). Those of a strong store are all executions, and
/// come to what they came to, with the triggers between executions off. Those of a weak one are what clients asked for, and each
/// sets off its steps anew, in the order of settling. An empty disk is made a store of the given catalogue, in the mode that is
/// asked. The database is dealt to so many partitions, 1 to 8.
///
/// The catalogue that it gives has the bodies that may be installed: those of the given one, and those that the image and the
/// entries name. A store of an older form, in which no body may be installed, goes on in the new form: a checkpoint of what is
/// recovered takes its place.
///
/// Refuses `Nothing` where the disk is empty and no catalogue is given, unless a call fails, `OtherMode` where the store is of the
/// mode that isn't asked, and else `OtherCatalog` where it is of another catalogue than is given, by their texts. `Foreign` tells
/// the first byte that can't be in a disk that is neither empty nor a store of either mode: of the generation, else of its image,
/// else the record of the first entry that doesn't replay, whatever bodies may be installed, or byte 9, in an older form byte 8,
/// where settling the image would pass the last place. `DiskFault` comes exactly where the disk counted a fault.
///
/// A crash at any moment leaves what it could leave before, or what stands for what is recovered. Behind `Foreign`, `OtherMode`,
/// `OtherCatalog` and `Nothing` a read gives what it gave. Behind the other two an empty disk may have become a store of the
/// given catalogue, before any execution, and one of an older form one of the new form that stands for the same; a crash leaves
/// this or what it could leave before.
///
/// Linear in the current file, which is read whole into one buffer, and costs an insert for each row of its image and what
/// the entries cost to run; room for their list is made once. Each body that is named and isn't in the catalogue costs as much as
/// reading the catalogue. A disk that isn't empty has seven calls, of which none changes it; renewing an older form takes seven
/// more, and time linear in the database; making a store takes nine.
pub fn recover<N: Runner, D: Disk>(
    alloc: Global,
    runner: &N,
    mut disk: D,
    catalog: Option<Catalog>,
    mode: Mode,
    partitions: u8,
) -> Result<Recovered<D>, (RecoverError, D)>
    requires own { IfSome catalog IsOwnCatalog }
    requires some { 1 ≤ partitions }
    requires few { partitions ≤ 8 }
    ensures recovered { IfOk result (λ r. IsRecovered D.kind mode catalog partitions disk r (recovered_database r)) }
    ensures refused { IfErr result (λ refused. RefusesAsSaid D.kind mode catalog disk refused.1 refused.0) }
    ensures later { MatchResult result (λ r. D.kind.faults disk ≤ D.kind.faults r.log.disk) (λ refused. D.kind.faults disk ≤ D.kind.faults refused.1) }
    ensures told { TellsFaults D.kind disk result }
    ensures nothing { D.kind.tells → IsEmpty (D.kind.seen disk) → catalog ≡ None
        → IfErr result (λ refused. (refused.0 ≡ RecoverError.Nothing) ⊎ (refused.0 ≡ RecoverError.DiskFault)) × OnOk result ⊥ }
{
    wholeness_stays();
    let Ok(empty) = is_empty(&mut disk) else {
        return Err((RecoverError::DiskFault, disk));
    };
    if !empty {
        return restore(alloc, runner, disk, catalog, mode, partitions);
    }
    match catalog {
        Some(catalog) => form(alloc, disk, catalog, mode, partitions),
        None => Err((RecoverError::Nothing, disk)),
    }
}
