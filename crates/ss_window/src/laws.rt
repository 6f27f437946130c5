//! What holds of every window. Each law is the contract of a function that does nothing.

ghost use Rattle.ss_window.specs.Laws.{CommitsForGood, ShowsWhenItMoves, ShowsFew};

/// A commit of a window changes nothing that is seen of it, and a second one nothing at all.
pub fn commits_for_good()
    ensures { CommitsForGood }
{}

/// A staged unit that doesn't move the end of what is visible changes nothing that is shown.
pub fn shows_when_it_moves()
    ensures { ShowsWhenItMoves }
{}

/// The rows that are shown have numbers of 64 bits.
pub fn shows_few()
    ensures { ShowsFew }
{}
