//! Laws of audits, each the contract of a function that does nothing.

ghost use Rattle.ss_audit_laws.specs.Printed.{PrintedIsRight};
ghost use Rattle.ss_audit_laws.specs.Valid.{RightIsValid, ValidIsRight};

use ss_model_laws::{
    databases_stay_in_step, drained_at_rest, replays_have_orders, whole_databases_stay,
};

/// Where an audit finds nothing, the lines are the report of one list from the empty database, which replays, has its orders, and
/// behind which nothing is left to run; and it counts that list's entries.
pub fn right_is_valid()
    ensures { RightIsValid }
{
    replays_have_orders();
    databases_stay_in_step();
    drained_at_rest();
}

/// Of such a report, whose lines are read as what they say, an audit finds nothing.
pub fn valid_is_right()
    ensures { ValidIsRight }
{
    databases_stay_in_step();
    drained_at_rest();
    whole_databases_stay();
}

/// Nor does it of one that was printed so that its lines are read as what they say, whatever replies make up its bytes. A
/// program knows which replies it printed, and a report's own are known by the list.
pub fn printed_is_right()
    ensures { PrintedIsRight }
{
    databases_stay_in_step();
    drained_at_rest();
    whole_databases_stay();
}
