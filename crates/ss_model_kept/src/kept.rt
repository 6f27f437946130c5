//! What is kept of a database is enough to go on from.

ghost use Rattle.ss_model.specs.Settling.{KeptIsEnough};
ghost use Rattle.ss_model.specs.KeptRuns.{RunsNeedWhatIsKept};

/// Where the same is kept of two databases, an entry has the same outcome on both, and the same is kept after it.
pub fn kept_is_enough()
    ensures { KeptIsEnough }
{}

/// A run has the same outcome and batches on contents that differ only in units that no slide shows again.
pub fn runs_need_what_is_kept()
    ensures { RunsNeedWhatIsKept }
{}
