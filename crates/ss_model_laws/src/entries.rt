//! Entries: which have a value, and what an entry changes.

ghost use Rattle.ss_model.specs.Database.{AppliedFits, FittingApplies};
ghost use Rattle.ss_model.specs.Aborts.{AbortsChangeNothing};
ghost use Rattle.ss_model.specs.Advances.{StepsMoveOn};

/// An entry that has a value fits the catalogue.
pub fn applied_fits()
    ensures { AppliedFits }
{}

/// An entry that fits, and is ready where it is a step, has a value on every database.
pub fn fitting_applies()
    ensures { FittingApplies }
{}

/// An aborted entry leaves tables, windows and next numbers as before, and emits empty batches; a call leaves the
/// whole database as before.
pub fn aborts_change_nothing()
    ensures { AbortsChangeNothing }
{}

/// A step, done or aborted, raises its procedure's count by one, and adds one batch to each stream that it emits to.
pub fn steps_move_on()
    ensures { StepsMoveOn }
{}
