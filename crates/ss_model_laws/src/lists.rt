//! Lists that replay: their orders, and that streams and counts go on matching.

ghost use Rattle.ss_model.specs.Replays.{ReplaysGoOn};
ghost use Rattle.ss_model.specs.Orders.{ReplaysHaveOrders, DatabasesStayMatched};
ghost use Rattle.ss_model.specs.InStep.{DatabasesStayInStep};

/// Of two lists, both replay as one exactly where the first does, and the second on the database after it.
pub fn replays_go_on()
    ensures { ReplaysGoOn }
{}

/// A list that replays has the orders that a reader can check on it.
pub fn replays_have_orders()
    ensures { ReplaysHaveOrders }
{}

/// The streams of the empty database match its counts, and go on matching them after each list that replays.
pub fn databases_stay_matched()
    ensures { DatabasesStayMatched }
{}

/// The empty database is in step, and a database in step stays so.
pub fn databases_stay_in_step()
    ensures { DatabasesStayInStep }
{}
