//! The headline's sentences come together.

ghost use Rattle.ss_headline.specs.Disks.{disk_of};
ghost use Rattle.ss_headline.specs.Owed.{OwedIsEnough, FullListsHaveAll};
ghost use Rattle.ss_headline.specs.Untouched.{UncalledIsOnlyRead, NothingRanStands};
ghost use Rattle.ss_headline.specs.Between.{QuietLeaves, QuietStays, CallsGoOn};
ghost use Rattle.ss_headline.specs.Recovering.{AllRecovers, CrashesHoldFromEach, CrashesRecover};
ghost use Rattle.ss_headline.specs.Laws.{FewStandBehind, FewStayFew, LogsEndWithLists, NearGenerationsBegin};
ghost use Rattle.ss_headline.specs.Laws.{WholeSessions, StoppedSessions, SessionsHoldFromEach, WholeRuns, StoppedRuns, RunsHoldFromEach};

use ss_disk::{Claim, Disk};
use ss_fronts::{fronts_recover, weak_fronts_from_each};
use ss_model_laws::{kept_carries, next_is_ready, replays_go_on, settling_terminates};
use ss_report_laws::answers_make_report;
use ss_standing::stands_for_one;

/// Where all but 16 of a client's entries stand below a place, at most 16 of them are from there on (`behind`), and they
/// stand below each later place too (`later`).
pub fn few_stand_behind()
    ensures behind { FewStandBehind }
    ensures later { FewStayFew }
{}

/// A list that replays, of entries that are asked for, none twice, has with what is to follow no more executions than
/// were owed. It is said of any such list, instead of one that an engine made, because this much of it a report tells.
pub fn owed_is_enough()
    ensures { OwedIsEnough }
{}

/// Where there is room for what is owed, nothing is to follow a list that has all of the room.
pub fn full_lists_have_all()
    ensures { FullListsHaveAll }
{
    owed_is_enough();
    settling_terminates();
    next_is_ready();
}

/// A store whose generation has a list behind the entries that it was opened with has a log that ends with the list
/// (`ends`). A whole run says that it does, because a report that the sink cut may be one of several lists, and the log is
/// of one. With checkpoints the log may lack the list's beginning; then a whole run says how few entries stand behind the
/// last checkpoint (`near`), because a recovery replays them.
pub fn logs_end_with_lists()
    ensures ends { LogsEndWithLists }
    ensures near { NearGenerationsBegin }
{}

/// Of a disk that no call has reached nothing has changed, whatever is known of it (`uncalled`). Where nothing ran a crash
/// leaves what it might have left before, or what stands for the same as the disk did (`stands`).
pub fn nothing_ran<D: Disk>()
    ensures uncalled { UncalledIsOnlyRead D.kind }
    ensures stands { NothingRanStands D.kind }
{
    stands_for_one();
}

/// Where nothing was pending on the disk before the call, a crash leaves at each moment what has been promised, if what a
/// read gave has it (`anew`), and of a disk that is as before what a read gave (`as_before`). A new disk is so, and the
/// image that a crash left.
pub fn quiet_leaves<D: Disk, P: Claim>()
    ensures anew { QuietLeaves D.kind P.holds }
    ensures as_before { QuietStays D.kind }
{}

/// An opening, an engine that was settled and closed, and its report are a whole session.
pub fn whole_sessions<D: Disk>()
    ensures { WholeSessions (disk_of D.kind) }
{}

/// An opening, an engine that was closed, its receipts and its stopped report are a stopped session.
pub fn stopped_sessions<D: Disk>()
    ensures { StoppedSessions (disk_of D.kind) }
{
    few_stand_behind();
}

/// What is said of a session from one database holds from each of which the same is kept.
pub fn sessions_hold_from_each<D: Disk>()
    ensures { SessionsHoldFromEach (disk_of D.kind) }
{
    kept_carries();
}

/// An opening, an engine that was settled and closed, and the answers to its clients are a whole run.
pub fn whole_runs<D: Disk>()
    ensures { WholeRuns (disk_of D.kind) }
{
    answers_make_report();
    whole_sessions::<D>();
    sessions_hold_from_each::<D>();
}

/// An opening, an engine that was closed, its receipts, its log and the answers to its clients are a stopped run.
pub fn stopped_runs<D: Disk>()
    ensures { StoppedRuns (disk_of D.kind) }
{
    answers_make_report();
    stopped_sessions::<D>();
    sessions_hold_from_each::<D>();
}

/// Whatever a crash in a weak session leaves anew, recovery has of it the weak list of its requests (`crashes`), and
/// behind a session that ended as done of all of them (`all`): it replays, has the orders, leaves no batch pending, and its
/// pushes come to what they came to. It doesn't matter which database of those is named of which the same is kept
/// (`from_each`).
pub fn crashes_recover<D: Disk>()
    ensures crashes { CrashesRecover (disk_of D.kind) }
    ensures all { AllRecovers }
    ensures from_each { CrashesHoldFromEach (disk_of D.kind) }
{
    kept_carries();
    replays_go_on();
    fronts_recover();
    weak_fronts_from_each();
}

/// A run on a strong store is one from every place and database that the disk stood for.
pub fn runs_hold_from_each<D: Disk>()
    ensures { RunsHoldFromEach (disk_of D.kind) }
{
    stands_for_one();
}

/// On an honest disk a run goes on from the one before it: behind a whole run both lists are one, and behind one that
/// stopped the second goes on from a front of the first, which has all that is receipted.
///
/// The disk may have something pending between the two. A crash in the second call may then take what it could take
/// before, but nothing that the first call promised: this stands at each moment of the second.
pub fn calls_go_on<D: Disk>()
    ensures { CallsGoOn (disk_of D.kind) }
{
    stands_for_one();
    kept_carries();
    replays_go_on();
}
