//! What holds of fronts, by how a store is had again. Each law is the contract of a function that does nothing.

ghost use Rattle.ss_fronts.specs.Laws.{CheckpointsHold, CheckpointsKeepFronts, FlushesKeepFronts, FrontsGrow, HeldFrontsStand};
ghost use Rattle.ss_fronts.specs.WeakLaws.{FrontsRecover, WeakFrontsFromEach, WeaklyStandsForOne};

use ss_cmdlog::{files_stand_for_one_thing, first_groups_hold_the_first_entries};
use ss_disk::Disk;
use ss_model_laws::{
    batches_are_bounded, kept_carries, replays_go_on, weak_lists_exist, whole_databases_stay,
    wholeness_stays,
};
use ss_standing::{
    an_image_tells_what_is_kept, checkpoints_stand, entries_tell_a_list, flushes_leave_fronts,
    fronts_stand, generations_go_on, kept_counts_stand_on, one_thing_stands_on,
};
use ss_weak_lists::{kept_carries_weak, runs_recover_weakly};

/// A front of a list is one of each list that goes on from it, and so is what a generation has of it; and it has no more of the
/// longer list than of the shorter one.
pub fn fronts_grow()
    ensures { FrontsGrow }
{
    files_stand_for_one_thing();
}

/// What a generation that has the first entries of a list leaves: a front of the list, also in mid-flush of the next ones, with
/// which it has those too.
pub fn held_fronts_stand()
    ensures { HeldFrontsStand }
{
    first_groups_hold_the_first_entries();
    replays_go_on();
    generations_go_on();
    fronts_stand();
    flushes_leave_fronts();
}

/// An image of the database behind a list has all of the list.
pub fn checkpoints_hold()
    ensures { CheckpointsHold }
{
    replays_go_on();
    whole_databases_stay();
    batches_are_bounded();
    checkpoints_stand();
}

/// What a crash at one moment of a flush could not take of the list, one at no later moment takes.
pub fn flushes_keep_fronts<D: Disk>()
    ensures { FlushesKeepFronts D D.kind.moment D.kind.images }
{
    files_stand_for_one_thing();
    first_groups_hold_the_first_entries();
    held_fronts_stand();
    kept_counts_stand_on::<D>();
}

/// And so it is in a checkpoint.
pub fn checkpoints_keep_fronts<D: Disk>()
    ensures { CheckpointsKeepFronts D D.kind.moment D.kind.images }
{
    files_stand_for_one_thing();
    one_thing_stands_on::<D>();
}

/// Files of a weak store stand for one count, and for one database that is kept.
pub fn weakly_stands_for_one()
    ensures { WeaklyStandsForOne }
{
    files_stand_for_one_thing();
    an_image_tells_what_is_kept();
    kept_carries();
    kept_carries_weak();
    weak_lists_exist();
    entries_tell_a_list();
}

/// A front of the history of a weak run is recovered to the weak list of its requests, of which is known what the model
/// says of it.
pub fn fronts_recover()
    ensures { FrontsRecover }
{
    replays_go_on();
    whole_databases_stay();
    runs_recover_weakly();
}

/// A front from one database is one from each of which the same is kept.
pub fn weak_fronts_from_each()
    ensures { WeakFrontsFromEach }
{
    wholeness_stays();
    kept_carries();
}
