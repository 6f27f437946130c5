//! Laws of the definitions, each the contract of a function that does nothing.

ghost use Rattle.ss_plan.specs.Laws.{FrontDecides, FoundAreEnough};

/// A row that fails a comparison in the front of a WHERE fails WHERE, which doesn't abort on it, whatever stands behind.
pub fn the_front_decides()
    ensures { FrontDecides }
{}

/// Rows that a search found are enough: the same rows pass WHERE as of all rows, or the same test aborts.
pub fn found_rows_are_enough()
    ensures { FoundAreEnough }
{}
