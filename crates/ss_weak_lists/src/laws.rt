//! What holds of weak lists, and of the pushes in them.

ghost use Rattle.ss_weak_lists.specs.Pushes.{PushesNeedNumbers};
ghost use Rattle.ss_weak_lists.specs.Stops.{LoopsPassLast, WeakStopsOnce};
ghost use Rattle.ss_weak_lists.specs.WeakLists.{KeptCarriesWeak, RunsRecoverWeakly, WeakListsGrow, WeakListsHoldAsked};

use ss_model_laws::{
    applied_fits, kept_carries, replays_have_orders, settling_terminates, weak_lists_exist,
};

/// What pushes come to, whether accepted, duplicates or gaps, depends on the next numbers and on the pushes before them
/// alone: in two lists that replay, from the same next numbers and with the same pushes in the same order, the pushes have
/// the same outcomes, whatever calls, steps and installs stand between them.
pub fn pushes_need_numbers()
    ensures { PushesNeedNumbers }
{}

/// Of calls, pushes and installs a weak list holds just these, in their order: all else in it is steps.
pub fn weak_lists_hold_asked()
    ensures { WeakListsHoldAsked }
{}

/// One more call, push or install, with the settling behind it, makes a weak list one of one entry more. So it may be made entry by
/// entry, from the first.
pub fn weak_lists_grow()
    ensures { WeakListsGrow }
{}

/// Where the same is kept of two databases, settling runs the same on both, and calls, pushes and installs have the same weak list.
pub fn kept_carries_weak()
    ensures { KeptCarriesWeak }
{
    kept_carries();
}

/// The calls, pushes and installs of a list that replays have exactly one weak list, which replays, has the orders and leaves no batch
/// pending; and its pushes come to what they came to in the list. Calls may come to something else than they did there.
pub fn runs_recover_weakly()
    ensures { RunsRecoverWeakly }
{
    applied_fits();
    replays_have_orders();
    weak_lists_exist();
}

/// Where steps of settling have all places that are left, and there is a next one, settling passes the last place. So whoever
/// settles step by step need not look ahead: it stops where it has no place for a step.
pub fn loops_pass_last()
    ensures { LoopsPassLast }
{
    settling_terminates();
}

/// Entries replay weakly, or stop at one of them, or settling what is before them passes the last place, and never two of
/// these; nor do they stop at two of them.
pub fn weak_stops_once()
    ensures { WeakStopsOnce }
{}
