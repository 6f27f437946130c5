//! Laws: what holds of a catalogue that the checks do not refuse. Each is the contract of a function that does nothing.

ghost use Rattle.ss_catalog_checks.specs.Guarantees.{AcyclicWorkflowsHaveLevels, UnreturningTriggersHaveRanks, UnreturningBatchesGoForward, UnrefusedSqlIsLocal, UnrefusedStreamsEndWell, UnrefusedWindowsAreOwned};

/// Where no procedure is on a cycle, procedures have levels that rise from an emitter to a consumer.
pub fn acyclic_workflows_have_levels()
    ensures { AcyclicWorkflowsHaveLevels }
{}

/// Where no trigger leads back, windows have ranks below their number that fall from a window to those that its
/// triggers insert into.
pub fn unreturning_triggers_have_ranks()
    ensures { UnreturningTriggersHaveRanks }
{}

/// Where no trigger leads back, a window of batches feeds only later ones.
pub fn unreturning_batches_go_forward()
    ensures { UnreturningBatchesGoForward }
{}

/// Where no stream of a plain catalogue is refused, emitters, consumers, triggers and workflows are those of an accepted
/// catalogue.
pub fn unrefused_streams_end_well()
    ensures { UnrefusedStreamsEndWell }
{}

/// Where no window is refused, a window's owner is a streaming procedure.
pub fn unrefused_windows_are_owned()
    ensures { UnrefusedWindowsAreOwned }
{}

/// Where no SQL and no window of a plain catalogue is refused, each procedure uses the tables that its touch set allows
/// and its own windows, and reads split tables under an argument by that argument alone.
pub fn unrefused_sql_is_local()
    ensures { UnrefusedSqlIsLocal }
{}
