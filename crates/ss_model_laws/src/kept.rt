//! What is kept of a database is enough for lists.

ghost use Rattle.ss_model.specs.Settling.{KeptCarries};

/// Where the same is kept of two databases, a list that replays on one replays on the other, with its orders, and the
/// same is kept after it.
pub fn kept_carries()
    ensures { KeptCarries }
{}
