//! Exactly once.

ghost use Rattle.ss_run_laws.specs.Once.{TakesEachOnce};

/// In a list that replays from a database in step, and leaves a drained one, each streaming procedure takes each batch of
/// its workflow that it had not taken before exactly once, in order. These batches are those that were there before, and
/// one for each push that the list accepted.
pub fn takes_each_once()
    ensures { TakesEachOnce }
{}
