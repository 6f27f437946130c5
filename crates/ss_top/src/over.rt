//! A run over the faults of its disk: one incarnation after another, each on the disk that was opened again.
//!
//! Only a strong store is opened again in a run. A weak one is run once.

ghost use Rattle.std.specs.Prelude.{◌≡◌, ◌⊎◌, ◌≤◌, ◌+◌, ◌^◌, ℕ, None, Some, true, length, IfOk, IfSome};
ghost use Rattle.ss_model.specs.declared.entry.Mode.TheVariants.{Strong};
ghost use Rattle.ss_model.specs.Database.{Database as Model};
ghost use Rattle.ss_engine.specs.Sessions.{IsLeftOver};
ghost use Rattle.ss_recover.specs.Recovering.{GoesOn, IsOwnCatalog, recovered_database};
ghost use Rattle.ss_engine.specs.Clients.{AllFit};
ghost use Rattle.ss_refusals.specs.StoreRefusals.{HasTexts};
ghost use Rattle.ss_top.specs.Over.{MayRestart};
ghost use Rattle.ss_top.specs.Turns.{MayGoOn, MayGoOnFrom, catalog_for, GoesOnOnce, ServesFirst, ServesAgain, ClosesEach, ComesFrom, ToldFrom, ComesAtLast, IsOver, LeavesToGoOn, HasServed, HasTurnTexts, LeavesPast, LeavesUnopened, is_fault};

use crate::session::{Printing, Reported, has_failed, report_past, report_session, run_recovered};
use ss_cmdlog::what_is_spelled_is_read;
use ss_disk::Disk;
use ss_engine::{Closed, Finished, Gate};
use ss_incarnations::{incarnations_go_on, opened_at_last, runs_over_restarts};
use ss_model::{Catalog, Mode, Request, copy_catalog};
use ss_model_laws::{spares_aside, wholeness_stays};
use ss_nest::a_nested_body_has_one_answer;
use ss_proc::PlainRunner;
use ss_recover::{RecoverError, Recovered, recover};
use ss_report_laws::answers_resume;
use ss_resume::Past;
use ss_standing::stands_for_one;
use ss_value::{NoMemory, Seq};
use std::alloc::Global;
use std::sync::Wait;
use std::thread::Threads;

/// What had come before a fault of the disk, where an engine had run.
#[derive(Drop)]
pub(crate) struct Begun {
    /// What the run had come to.
    pub(crate) past: Past,
    /// The catalogue of its engine, with the bodies that were found on the disk. The next opening is given this one, so that what was
    /// once installed may still be.
    pub(crate) catalog: Catalog,
}

/// How one opening of the disk, and the engine on it, ended.
#[derive(Drop)]
pub(crate) enum Turn<D: Disk> {
    /// The run is over, with this report.
    Over(Reported<D>),
    /// The run is over, because there was no memory for more. Nothing is told of it but that.
    Short(D),
    /// The run is over, because nothing was recovered.
    Refused(RecoverError, D),
    /// The disk has failed. What had come before, where an engine had run, and the disk.
    Failed(Option<Begun>, D),
}

/// What a session whose disk has failed leaves to the next one. Nothing is copied.
fn failed<D: Disk + Drop>(finished: Finished<D>, first: u64) -> Turn<D>
    ensures { LeavesPast finished first result }
{
    let Finished {
        closed,
        log,
        receipted,
        ..
    } = finished;
    let Closed {
        list,
        answers,
        catalog,
        ..
    } = closed;
    let past = Past {
        list,
        first,
        answers,
        receipted,
    };
    Turn::Failed(Some(Begun { past, catalog }), log.into_disk())
}

/// Runs requests on the first store that could be opened. Where `last` says so, a fault of the disk ends the run, as it always does
/// on a weak store.
pub(crate) fn serve_new<D: Disk + Drop + Send, G: Gate + Drop + Sync, R: Threads + Wait + Sync>(
    rt: &R,
    alloc: Global,
    recovered: Recovered<D>,
    requests: &Seq<Request>,
    partitions: u8,
    gate: G,
    every: Option<u64>,
    limit: u64,
    printing: Printing,
    last: bool,
) -> Turn<D>
    requires own { IsOwnCatalog recovered.catalog }
    requires goes_on { GoesOnOnce D.kind partitions last recovered }
    requires fit { AllFit recovered.catalog requests.now }
    requires partitions { (1 ≤ partitions) × (partitions ≤ 8) }
    requires every { (k : ℕ) → every ≡ Some k → 1 ≤ k }
    ensures new { ServesFirst D.kind partitions every limit printing requests.now last recovered result }
    ensures on { LeavesToGoOn recovered.catalog requests.now result }
    ensures over { last ≡ true → IsOver result }
    ensures served { HasServed result }
{
    // Do nothing: they state the laws by which an engine that was closed is an incarnation, and by which it is one too with more
    // bodies to be installed.
    incarnations_go_on::<D>();
    spares_aside();
    a_nested_body_has_one_answer();
    stands_for_one();
    let first = recovered.first;
    match run_recovered(
        rt,
        alloc,
        recovered,
        requests,
        &[],
        partitions,
        gate,
        every,
        limit,
    ) {
        Ok(finished) if !last && has_failed(&finished.log) => failed(finished, first),
        Ok(finished) => Turn::Over(report_session(alloc, finished, requests, first, printing)),
        Err(disk) => Turn::Short(disk),
    }
}

/// What ran behind another opening joins the past; and where the run is over, it is reported.
fn close_again<D: Disk + Drop>(
    alloc: Global,
    past: Past,
    place: u64,
    finished: Finished<D>,
    requests: &Seq<Request>,
    printing: Printing,
    last: bool,
) -> Turn<D>
    requires place { (past.first ≤ place) × (place ≤ past.first + length past.list) }
    requires on { MayGoOn requests.now past }
    requires told { ToldFrom place past requests.now finished }
    requires small { place + length finished.closed.list ≤ 2 ^ 60 }
    requires left { (d : Model) × IfSome finished.closed.database (IsLeftOver finished.closed.catalog d) }
    requires own { IsOwnCatalog finished.closed.catalog }
    ensures closes { ClosesEach D.kind printing requests.now last past place finished result }
    ensures on { LeavesToGoOn finished.closed.catalog requests.now result }
    ensures over { last ≡ true → IsOver result }
    ensures served { HasServed result }
{
    // Do nothing: they state the laws by which answers that stay and those behind them are a client's, by which one engine more is
    // one incarnation more, and its report that of the run, and by which it is one too with more bodies to be installed.
    answers_resume();
    incarnations_go_on::<D>();
    runs_over_restarts::<D>();
    spares_aside();
    a_nested_body_has_one_answer();
    stands_for_one();
    let Finished {
        closed,
        log,
        receipted,
        flushed,
    } = finished;
    let Ok(past) = past.with(alloc, place, closed.list, closed.answers, receipted) else {
        return Turn::Short(log.into_disk());
    };
    if !last && has_failed(&log) {
        let begun = Begun {
            past,
            catalog: closed.catalog,
        };
        return Turn::Failed(Some(begun), log.into_disk());
    }
    let Past {
        list,
        first,
        answers,
        ..
    } = past;
    let joined = Finished {
        closed: Closed {
            list,
            answers,
            ..closed
        },
        log,
        receipted,
        flushed,
    };
    Turn::Over(report_session(alloc, joined, requests, first, printing))
}

/// Runs what has no answer that stays on what was recovered behind a past, as a strong store.
fn serve_again<D: Disk + Drop + Send, G: Gate + Drop + Sync, R: Threads + Wait + Sync>(
    rt: &R,
    alloc: Global,
    recovered: Recovered<D>,
    begun: Begun,
    requests: &Seq<Request>,
    partitions: u8,
    gate: G,
    every: Option<u64>,
    limit: u64,
    printing: Printing,
    last: bool,
) -> Turn<D>
    requires own { IsOwnCatalog recovered.catalog }
    requires goes_on { GoesOn D.kind Strong partitions recovered (recovered_database recovered) }
    requires fit { AllFit recovered.catalog requests.now }
    requires partitions { (1 ≤ partitions) × (partitions ≤ 8) }
    requires every { (k : ℕ) → every ≡ Some k → 1 ≤ k }
    requires on { MayGoOn requests.now begun.past }
    ensures again { (mid : D) → ServesAgain D.kind Strong every limit printing recovered.catalog requests.now last begun.past mid recovered result }
    ensures on { LeavesToGoOn recovered.catalog requests.now result }
    ensures over { last ≡ true → IsOver result }
    ensures served { HasServed result }
{
    // Do nothing: they state the laws by which a run goes on where no engine was opened.
    incarnations_go_on::<D>();
    runs_over_restarts::<D>();
    let Begun { past, catalog } = begun;
    // What was recovered has a catalogue with all the bodies of this one.
    drop(catalog);
    let place = recovered.first;
    // On an honest disk it may. There is no status for a disk that lies.
    if !past.may_go_on_at(place) {
        return Turn::Short(recovered.log.into_disk());
    }
    let Ok(starts) = past.starts_at(alloc, place) else {
        return Turn::Short(recovered.log.into_disk());
    };
    let room = limit.saturating_sub(place - past.first);
    match run_recovered(
        rt,
        alloc,
        recovered,
        requests,
        starts.as_slice(),
        partitions,
        gate,
        every,
        room,
    ) {
        Ok(finished) => close_again(alloc, past, place, finished, requests, printing, last),
        Err(disk) => Turn::Short(disk),
    }
}

/// Whether a refusal is for a fault of the disk.
fn is_fault(error: &RecoverError) -> bool
    ensures { result ≡ is_fault error.now }
{
    matches!(error, RecoverError::DiskFault)
}

/// How a run ends of which nothing more could be recovered.
fn unopened<D: Disk + Drop>(
    alloc: Global,
    begun: Option<Begun>,
    error: RecoverError,
    disk: D,
    requests: &Seq<Request>,
) -> Turn<D>
    requires texts { HasTexts error }
    requires on { IfSome begun (λ b. MayGoOn requests.now b.past) }
    ensures left { LeavesUnopened begun requests.now error disk result }
    ensures over { IsOver result }
    ensures texts { HasTurnTexts result }
{
    let Some(Begun { past, catalog }) = begun else {
        return Turn::Refused(error, disk);
    };
    match error {
        RecoverError::DiskFault => Turn::Over(report_past(alloc, &catalog, &past, requests, disk)),
        // Behind an engine that ran an honest disk gives no other refusal than want of memory.
        _ => Turn::Short(disk),
    }
}

/// A copy of the catalogue that the next opening is given: behind an engine that ran its own, and else the run's.
fn next_catalog(
    alloc: Global,
    catalog: &Catalog,
    begun: &Option<Begun>,
) -> Result<Catalog, NoMemory>
    ensures { IfOk result (λ copy. copy ≡ catalog_for catalog.now begun.now) }
{
    match begun {
        Some(begun) => copy_catalog(alloc, &begun.catalog),
        None => copy_catalog(alloc, catalog),
    }
}

/// Opens the store of a catalogue in a mode, or makes one on an empty disk, and runs what the past leaves to be run. Where `last` says
/// so, a fault of the disk ends the run. A weak store has no past, and is opened for the last time.
fn incarnate<D: Disk + Drop + Send, G: Gate + Drop + Sync, R: Threads + Wait + Sync>(
    rt: &R,
    alloc: Global,
    disk: D,
    begun: Option<Begun>,
    catalog: &Catalog,
    mode: Mode,
    requests: &Seq<Request>,
    partitions: u8,
    gate: G,
    every: Option<u64>,
    limit: u64,
    printing: Printing,
    last: bool,
) -> Turn<D>
    requires own { IsOwnCatalog catalog.now }
    requires fit { AllFit catalog.now requests.now }
    requires partitions { (1 ≤ partitions) × (partitions ≤ 8) }
    requires every { (k : ℕ) → every ≡ Some k → 1 ≤ k }
    requires on { IfSome begun (MayGoOnFrom catalog.now requests.now) }
    requires alone { ((last ≡ true) × (begun ≡ None)) ⊎ (mode ≡ Strong) }
    ensures comes { ComesFrom D.kind mode every limit printing catalog.now requests.now last disk begun result }
    ensures on { LeavesToGoOn catalog.now requests.now result }
    ensures over { last ≡ true → IsOver result }
    ensures texts { HasTurnTexts result }
{
    // Do nothing: they state the laws by which a store is opened at last, and by which a run goes on where none was; and by which
    // this holds with more bodies to be installed, and of a store of an older form.
    opened_at_last::<D>();
    incarnations_go_on::<D>();
    runs_over_restarts::<D>();
    spares_aside();
    a_nested_body_has_one_answer();
    stands_for_one();
    wholeness_stays();
    what_is_spelled_is_read();
    // A store that isn't opened keeps the catalogue that it was to have.
    let Ok(copy) = next_catalog(alloc, catalog, &begun) else {
        return Turn::Short(disk);
    };
    match recover(alloc, &PlainRunner, disk, Some(copy), mode, partitions) {
        Ok(recovered) => match begun {
            None => serve_new(
                rt, alloc, recovered, requests, partitions, gate, every, limit, printing, last,
            ),
            Some(begun) => serve_again(
                rt, alloc, recovered, begun, requests, partitions, gate, every, limit, printing,
                last,
            ),
        },
        Err((error, disk)) => {
            if !last && is_fault(&error) {
                return Turn::Failed(begun, disk);
            }
            unopened(alloc, begun, error, disk, requests)
        }
    }
}

/// Runs requests on the store of a disk in a mode, which is opened again behind each fault of it, so many times at most.
pub(crate) fn run_over<D: Disk + Drop + Send, G: Gate + Drop + Sync, R: Threads + Wait + Sync>(
    rt: &R,
    alloc: Global,
    disk: D,
    catalog: &Catalog,
    mode: Mode,
    requests: &Seq<Request>,
    partitions: u8,
    gate: G,
    every: Option<u64>,
    limit: u64,
    printing: Printing,
    restarts: u8,
) -> Turn<D>
    requires own { IsOwnCatalog catalog.now }
    requires fit { AllFit catalog.now requests.now }
    requires partitions { (1 ≤ partitions) × (partitions ≤ 8) }
    requires every { (k : ℕ) → every ≡ Some k → 1 ≤ k }
    requires restarts { MayRestart mode restarts }
    ensures comes { ComesAtLast D.kind mode every limit restarts printing catalog.now requests.now disk result }
    ensures texts { HasTurnTexts result }
{
    let mut begun = None;
    let mut left = disk;
    for _ in 0..restarts {
        match incarnate(
            rt, alloc, left, begun, catalog, mode, requests, partitions, &gate, every, limit,
            printing, false,
        ) {
            Turn::Failed(so_far, failed) => {
                begun = so_far;
                left = failed;
            }
            over => return over,
        }
    }
    incarnate(
        rt, alloc, left, begun, catalog, mode, requests, partitions, gate, every, limit, printing,
        true,
    )
}
