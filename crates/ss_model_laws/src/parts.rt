//! Partitions: what a run uses and what an entry touches.

ghost use Rattle.ss_model.specs.parts.Locality.{RunsAreLocal, UsesAreTouched, EntriesAreLocal};
ghost use Rattle.ss_model.specs.parts.ListLocality.{ListsAreLocal};
ghost use Rattle.ss_model.specs.Partitions.{TouchedRun};

/// A run depends only on the rows and windows that its procedure uses, and changes no others.
pub fn runs_are_local()
    ensures { RunsAreLocal }
{}

/// What a procedure of an accepted catalogue uses is in its touch set, and so is its home.
pub fn uses_are_touched()
    ensures { UsesAreTouched }
{}

/// Each partition that an entry touches is one of those that run.
pub fn touched_run()
    ensures { TouchedRun }
{}

/// An entry depends only on the parts that it touches and on its input batches, and leaves the other parts as before.
pub fn entries_are_local()
    ensures { EntriesAreLocal }
{}

/// A list leaves the parts that none of its entries touches as before, and an entry that touches none of the partitions
/// that the list touches has the same effect behind the list as before it.
pub fn lists_are_local()
    ensures { ListsAreLocal }
{}
