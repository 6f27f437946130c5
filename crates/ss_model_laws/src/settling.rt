//! Settling: when nothing is left to run, and that settling gets there.

ghost use Rattle.ss_model.specs.Settled.{NextIsReadyAlways, DrainedAtRest, StepsLowerPending, LoopsSettle, SettlingTerminates, WeakListsExist};

/// The next step of settling is that of a ready procedure, and where there is none, no procedure is ready.
pub fn next_is_ready()
    ensures { NextIsReadyAlways }
{}

/// In a database that is in step no procedure is ready exactly where all batches are taken.
pub fn drained_at_rest()
    ensures { DrainedAtRest }
{}

/// In a database that is in step each step leaves one step less to run.
pub fn steps_lower_pending()
    ensures { StepsLowerPending }
{}

/// Steps of which each is the next one of settling are what settling runs, once there is no next one.
pub fn loops_settle()
    ensures { LoopsSettle }
{}

/// There is exactly one list that settling runs, with as many steps as are pending; after it all batches are taken.
pub fn settling_terminates()
    ensures { SettlingTerminates }
{}

/// Clients' entries have exactly one weak list, which has a settling before each of them and behind the last; after it
/// all batches are taken.
pub fn weak_lists_exist()
    ensures { WeakListsExist }
{}
