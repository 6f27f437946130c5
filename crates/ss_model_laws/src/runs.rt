//! Runs: triggers, windows, and that what is well typed stays so.

ghost use Rattle.ss_model.specs.Accepted.{DepthIsEnough};
ghost use Rattle.ss_model.specs.Shows.{WindowsShow};
ghost use Rattle.ss_model.specs.Soundness.{WellTypedAreSound};
ghost use Rattle.ss_model.specs.SoundRuns.{QueriesAreSound, RunsStayWhole};

/// The triggers of an accepted catalogue nest no deeper than there are windows.
pub fn depth_is_enough()
    ensures { DepthIsEnough }
{}

/// A window shows nothing before it is full, and the end of what it shows moves at the unit that fills it and at each
/// slide behind that unit, and at no other.
pub fn windows_show()
    ensures { WindowsShow }
{}

/// A well typed expression over rows and parameters that fit gives a value of its type or aborts.
pub fn well_typed_are_sound()
    ensures { WellTypedAreSound }
{}

/// A well typed query over rows that fit gives rows that fit, or aborts.
pub fn queries_are_sound()
    ensures { QueriesAreSound }
{}

/// A run of an accepted catalogue's procedure on whole contents leaves whole contents, and batches that fit.
pub fn runs_stay_whole()
    ensures { RunsStayWhole }
{}
