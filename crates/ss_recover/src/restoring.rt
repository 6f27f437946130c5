//! An old store.

ghost use Rattle.std.specs.Prelude.{◌≡◌, ◌≢◌, ◌⊎◌, ◌≤◌, ◌^◌, true, false, [], OnOk, OnErr, IfOk, IfErr, IfSome, MatchResult};
ghost use Rattle.ss_model.specs.declared.catalog.Catalog.{Catalog as CatalogValue};
ghost use Rattle.ss_cmdlog.specs.Generation.{Stood};
ghost use Rattle.ss_cmdlog.specs.Log.{IsOpen};
ghost use Rattle.ss_cmdlog.specs.Store.{count_of};
ghost use Rattle.ss_recover.specs.Errors.{opening_refusal, stored_refusal};
ghost use Rattle.ss_shard.specs.Shards.{IsCommitted};
ghost use Rattle.ss_snapshot.specs.Held.{FitsHeld, OfWhatTheyHold, StandForSome};
ghost use Rattle.ss_standing.specs.Checkpoints.{checkpoint_of};
ghost use Rattle.ss_recover.specs.Recovering.{DiffersFrom, IsOwnCatalog, RefusesAsSaid, TellsFaults, WasRecovered};
ghost use Rattle.ss_recover.specs.Renewed.{HasFormCause, IsRenewed, LeavesForm};

use crate::error::RecoverError;
use crate::recovered::Recovered;
use crate::renewing::in_new_form;
use crate::stored::{Stored, StoredError, stored_in};
use ss_cmdlog::{CmdLog, LogError};
use ss_disk::Disk;
use ss_fronts::{
    checkpoints_hold, checkpoints_keep_fronts, held_fronts_stand, weakly_stands_for_one,
};
use ss_model::{Catalog, Mode};
use ss_model_laws::{spares_aside, wholeness_stays};
use ss_nest::a_nested_value_has_one_answer;
use ss_proc::Runner;
use ss_standing::images_are_exact;
use ss_weak_lists::{kept_carries_weak, weak_lists_hold_asked};
use std::alloc::Global;

/// The refusal of a disk that isn't read as a generation.
fn unopened(refused: LogError) -> RecoverError
    ensures { result ≡ opening_refusal refused }
{
    match refused {
        LogError::DiskFault => RecoverError::DiskFault,
        LogError::Foreign { file, at } => RecoverError::Foreign { file, at },
        _ => RecoverError::NoMemory,
    }
}

/// The refusal of what a store holds, read from the file of this number.
fn unstored(file: u8, refused: StoredError) -> RecoverError
    ensures { result ≡ stored_refusal file refused }
{
    match refused {
        StoredError::NoMemory => RecoverError::NoMemory,
        StoredError::Foreign { at } => RecoverError::Foreign { file, at },
    }
}

/// Whether a store is of the other mode than the one that is asked.
fn is_other(stored: Mode, asked: Mode) -> bool
    ensures other { result ≡ true → stored ≢ asked }
    ensures same { result ≡ false → stored ≡ asked }
{
    match stored {
        Mode::Strong => match asked {
            Mode::Strong => false,
            Mode::Weak => true,
        },
        Mode::Weak => match asked {
            Mode::Strong => true,
            Mode::Weak => false,
        },
    }
}

/// What was stored, where no catalogue is given or its catalogue has the text of the given one.
fn agreed(stored: Stored, given: Option<Catalog>) -> Result<Stored, RecoverError>
    ensures ok { IfOk result (λ agreed. agreed ≡ stored) }
    ensures text { OnOk result (IfSome given (λ (catalog : CatalogValue). stored.catalog.text ≡ catalog.text)) }
    ensures other { IfErr result (DiffersFrom stored.catalog given) }
{
    let Some(given) = given else {
        return Ok(stored);
    };
    if stored.catalog.text.as_slice() == given.text.as_slice() {
        return Ok(stored);
    }
    let Stored { catalog, .. } = stored;
    Err(RecoverError::OtherCatalog {
        stored: catalog.text,
        given: given.text,
    })
}

/// The log, which counts from the place that its store was recovered to. That of a strong store counts so already.
fn counting_from<D: Disk>(mut log: CmdLog<D>, place: u64) -> CmdLog<D>
    requires strong { log.mode ≡ Mode.Strong → log.count ≡ place }
    requires fresh { D.kind.tells → (s : Stood) × IsOpen D.kind log s × (log.count ≡ count_of s) }
    requires no_less { log.count ≤ place }
    requires few { place ≤ 2 ^ 60 }
    ensures same { result ≡ record log { count = place } }
    ensures open { (s : Stood) → IsOpen D.kind log s → IsOpen D.kind result s }
{
    if log.mode() == Mode::Weak {
        log.rebase(place);
    }
    log
}

/// What was stored, with the log that goes on behind it in the new form.
fn renewed<D: Disk>(
    alloc: Global,
    stored: Stored,
    log: CmdLog<D>,
) -> Result<Recovered<D>, (RecoverError, D)>
    requires strong { log.mode ≡ Mode.Strong → log.count ≡ stored.first }
    requires fresh { D.kind.tells → (s : Stood) × IsOpen D.kind log s × (log.count ≡ count_of s) }
    requires no_less { log.count ≤ stored.first }
    requires few { stored.first ≤ 2 ^ 60 }
    requires open { (s : Stood) × IsOpen D.kind log s × (s.bodies ≡ stored.bodies) }
    requires committed { IsCommitted stored.catalog stored.database.whole }
    requires held { StandForSome stored.catalog stored.database.whole stored.database.streams.streams }
    ensures goes_on { (s : Stood) → IsOpen D.kind log s → s.bodies ≡ stored.bodies → IfOk result (IsRenewed D.kind stored s) }
    ensures leaves { D.kind.honest → (s : Stood) → IsOpen D.kind log s → s.bodies ≡ stored.bodies
        → OfWhatTheyHold stored.catalog stored.database.whole stored.database.streams.streams (λ d.
        MatchResult result (λ r. LeavesForm D.kind s (checkpoint_of s.mode stored.catalog stored.first d) log.disk r.log.disk)
        (λ refused. LeavesForm D.kind s (checkpoint_of s.mode stored.catalog stored.first d) log.disk refused.1)) }
    ensures room { stored.bodies ≡ false
        → IfErr result (λ refused. (refused.1 ≡ log.disk) ⊎ FitsHeld stored.catalog stored.database.whole stored.database.streams.streams) }
    ensures cause { IfErr result (λ refused. HasFormCause (D.kind.faults log.disk) (D.kind.faults refused.1) refused.0) }
    ensures still { IfOk result (λ r. D.kind.faults r.log.disk ≡ D.kind.faults log.disk) }
    ensures later { IfErr result (λ refused. D.kind.faults log.disk ≤ D.kind.faults refused.1) }
    ensures only { stored.bodies ≡ true → OnErr result ⊥ × IfOk result (λ r. r.log.disk ≡ log.disk) }
{
    let Stored {
        database,
        catalog,
        first,
        known,
        bodies,
        image,
    } = stored;
    let log = counting_from(log, first);
    let log = in_new_form(alloc, log, &catalog, &database, first, bodies)?;
    Ok(Recovered {
        database,
        catalog,
        first,
        known,
        bodies,
        image,
        log,
    })
}

/// Recovers what the store on a disk that isn't empty stands for. It is read and replayed by its own mode before that is compared
/// with the one that is asked, so that what is no store of either mode is told as foreign. One of an older form is renewed behind
/// all of that, which is the first that changes the disk.
pub(crate) fn restore<N: Runner, D: Disk>(
    alloc: Global,
    runner: &N,
    disk: D,
    given: Option<Catalog>,
    mode: Mode,
    partitions: u8,
) -> Result<Recovered<D>, (RecoverError, D)>
    requires own { IfSome given IsOwnCatalog }
    requires some { 1 ≤ partitions }
    requires few { partitions ≤ 8 }
    requires stored { D.kind.tells → (D.kind.seen disk).selector ≢ [] }
    ensures recovered { IfOk result (WasRecovered D.kind mode given partitions disk) }
    ensures refused { IfErr result (λ refused. RefusesAsSaid D.kind mode given disk refused.1 refused.0) }
    ensures later { MatchResult result (λ r. D.kind.faults disk ≤ D.kind.faults r.log.disk) (λ refused. D.kind.faults disk ≤ D.kind.faults refused.1) }
    ensures told { TellsFaults D.kind disk result }
{
    a_nested_value_has_one_answer();
    checkpoints_hold();
    checkpoints_keep_fronts::<D>();
    held_fronts_stand();
    images_are_exact();
    kept_carries_weak();
    spares_aside();
    weak_lists_hold_asked();
    weakly_stands_for_one();
    wholeness_stays();
    let (log, loaded) = match CmdLog::open(alloc, disk) {
        Ok(opened) => opened,
        Err((refused, disk)) => return Err((unopened(refused), disk)),
    };
    let stored = match stored_in(alloc, runner, loaded, &given, partitions) {
        Ok(stored) => stored,
        Err(refused) => return Err((unstored(log.file_number(), refused), log.into_disk())),
    };
    if is_other(log.mode(), mode) {
        let stored = log.mode();
        return Err((RecoverError::OtherMode { stored }, log.into_disk()));
    }
    match agreed(stored, given) {
        Ok(stored) => renewed(alloc, stored, log),
        Err(refused) => Err((refused, log.into_disk())),
    }
}
