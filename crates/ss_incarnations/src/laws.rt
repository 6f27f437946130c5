//! What holds of a run on a strong store, over the faults of its disk.

ghost use Rattle.ss_incarnations.specs.Openings.{NoneIsTried, NoneIsOpened, OpenedAtLast};
ghost use Rattle.ss_incarnations.specs.Pushes.{AcceptedAreConsecutive, AllAreAccepted, AllReportedAreAccepted};
ghost use Rattle.ss_incarnations.specs.Reopening.{FirstIncarnation, NoneIsReopened, NoEngineIsOpened, OneMoreIncarnation};
ghost use Rattle.ss_incarnations.specs.Runs.{RunsOverHoldFromEach, RunsOverRestarts};

use ss_disk::Disk;
use ss_headline::few_stand_behind;
use ss_model_laws::{kept_carries, replays_go_on, replays_have_orders};
use ss_report_laws::answers_make_report;
use ss_standing::stands_for_one;

/// Where a store is opened only at a later try, none was opened before (`untried`, `none`), and on an honest disk it is
/// opened as at the first (`at_last`).
pub fn opened_at_last<D: Disk>()
    ensures untried { NoneIsTried D.kind }
    ensures none { NoneIsOpened D.kind }
    ensures at_last { OpenedAtLast D.kind }
{
    stands_for_one();
}

/// The incarnations of a run, by induction: an opening and an engine that was closed are one (`first`). Where the disk is
/// opened again and an engine on it closed there is one more (`more`), and where no store was opened (`none`), or no engine
/// on it (`alone`), there is none more. Of those before nothing is proved anew.
pub fn incarnations_go_on<D: Disk>()
    ensures first { FirstIncarnation D.kind }
    ensures none { NoneIsReopened D.kind }
    ensures alone { NoEngineIsOpened D.kind }
    ensures more { OneMoreIncarnation D.kind }
{
    stands_for_one();
    few_stand_behind();
    replays_go_on();
    replays_have_orders();
    kept_carries();
}

/// What a run has come to over its incarnations, with the answers to its clients, is a whole run or one that stopped.
pub fn runs_over_restarts<D: Disk>()
    ensures { RunsOverRestarts D.kind }
{
    answers_make_report();
    kept_carries();
}

/// A run over incarnations is one from every place and database that the disk stood for.
pub fn runs_over_hold_from_each<D: Disk>()
    ensures { RunsOverHoldFromEach D.kind }
{
    stands_for_one();
}

/// Of a list that replays, the accepted numbers of each source are consecutive from its next number on, each once
/// (`consecutive`). Where a source's pushes come from one client, with consecutive numbers from there on, and each is
/// listed, all are accepted in that order: by the answers that the client was told (`all`), and so by a report of the
/// list, whose answers stand in the order of all requests (`reported`).
pub fn pushes_are_accepted()
    ensures consecutive { AcceptedAreConsecutive }
    ensures all { AllAreAccepted }
    ensures reported { AllReportedAreAccepted }
{}
