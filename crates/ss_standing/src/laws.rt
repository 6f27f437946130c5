//! What files stand for is one thing, and goes on with the entries behind it.

ghost use Rattle.ss_disk.specs.Kinds.{present};
ghost use Rattle.ss_standing.specs.Laws.{ImageTellsKept, EntriesTellList, StandsForOne, StandsForOneText, GenerationsGoOn};
ghost use Rattle.ss_standing.specs.Laws.{FrontsStand, FlushesLeaveFronts, FormingStands, ReceiptsBoundFronts};
ghost use Rattle.ss_standing.specs.Behind.{BehindGoesOn};
ghost use Rattle.ss_standing.specs.Keeping.{KeepsOverFlush, KeepsGoOn, FlushesKeep, CountsExecutions, LogReceiptsTell, KeptCountsStandOn, OneThingStandsOn};
ghost use Rattle.ss_standing.specs.Checkpoints.{ImagesAreExact, ReadImagesStand, ImagesAreRead};
ghost use Rattle.ss_standing.specs.Checkpoints.{CheckpointsStand, FrontCheckpointsStand, CheckpointsChangeNothing, EitherGenerationStands, KeepsOverCheckpoint};

use ss_cmdlog::{
    files_stand_for_one_thing, first_groups_hold_the_first_entries, groups_hold_the_entries,
};
use ss_disk::Disk;
use ss_model_laws::{batches_are_bounded, kept_carries, replays_go_on, whole_databases_stay};

/// Two whole databases that an image has room for, with the same image of one form, have the same kept.
pub fn an_image_tells_what_is_kept()
    ensures { ImageTellsKept }
{}

/// On one database a list that replays is told by its entries, since these have their outcomes by the model.
pub fn entries_tell_a_list()
    ensures { EntriesTellList }
{}

/// An image of a disk stands for one count and for one kept.
pub fn stands_for_one()
    ensures { StandsForOne }
{
    files_stand_for_one_thing();
    kept_carries();
}

/// Two catalogues of which an image that isn't empty stands for something have one text, where these fit their lengths.
/// They are compared by their texts, since an image holds a text; what catalogue a text is read as is told in
/// `ss_snapshot`.
pub fn stands_for_one_text()
    ensures { StandsForOneText }
{
    files_stand_for_one_thing();
}

/// Entries that replay, behind a generation, stand for the place after them.
pub fn generations_go_on()
    ensures { GenerationsGoOn }
{
    kept_carries();
    replays_go_on();
}

/// A generation with the first entries of a list behind it stands for that front of the list.
pub fn fronts_stand()
    ensures { FrontsStand }
{
    generations_go_on();
    replays_go_on();
}

/// In mid-flush a crash leaves a front of what is flushed.
pub fn flushes_leave_fronts()
    ensures { FlushesLeaveFronts }
{
    first_groups_hold_the_first_entries();
}

/// In mid-format of a strong store a crash leaves an image of the empty database, or an empty disk, which stands for the
/// same. An image has to have room for the procedures' own bodies, which it tells.
pub fn forming_stands()
    ensures { FormingStands }
{
    whole_databases_stay();
}

/// Where an image stands for a prefix of a list, and for so many executions at least, it stands for these entries. A
/// front of a list says where it ends at least; a prefix, and what a receipt leaves, are cases of it, instead of
/// definitions of their own, since what a crash leaves and what a receipt promises are said of one image.
pub fn receipts_bound_fronts()
    ensures { ReceiptsBoundFronts }
{
    stands_for_one();
}

/// What a log counts of a store is how many executions its files stand for.
pub fn counts_are_executions()
    ensures { CountsExecutions }
{
    files_stand_for_one_thing();
}

/// A flush of the entries behind those that a generation has leaves prefixes of the list (`over_flush`), and what stands
/// of a list goes on where the list does (`grows`).
pub fn prefixes_go_on<D: Disk>()
    ensures over_flush { KeepsOverFlush D D.kind.moment D.kind.images }
    ensures grows { KeepsGoOn D D.kind.moment D.kind.images }
{
    replays_go_on();
    fronts_stand();
    flushes_leave_fronts();
}

/// Entries behind entries that are behind a generation are behind it too.
pub fn behind_goes_on()
    ensures { BehindGoesOn }
{}

/// After a flush of the entries behind those that a generation has, a generation with all of them stands for the whole
/// list, and one with the first groups for as many entries more as these have.
pub fn flushes_keep<D: Disk>()
    ensures { FlushesKeep D D.kind.moment D.kind.images }
{
    replays_go_on();
    generations_go_on();
    groups_hold_the_entries();
    first_groups_hold_the_first_entries();
    prefixes_go_on::<D>();
}

/// Where each image that a crash may leave now stands for something, a log's receipt is one for executions.
pub fn log_receipts_tell<D: Disk>()
    ensures { LogReceiptsTell D (present D.kind) }
{
    counts_are_executions();
}

/// Where each image that a crash may leave stands for something, and a log keeps its counts from each moment to the later
/// ones, so many executions as a crash at some moment could not take, a crash at no later moment takes.
pub fn kept_counts_stand_on<D: Disk>()
    ensures { KeptCountsStandOn D D.kind.moment D.kind.images }
{
    counts_are_executions();
}

/// Where a crash at each moment leaves something, and all that it leaves stands for one thing, so many executions as a
/// crash at some moment could not take, a crash at no later moment takes.
pub fn one_thing_stands_on<D: Disk>()
    ensures { OneThingStandsOn D D.kind.moment D.kind.images }
{
    stands_for_one();
}

/// Behind its catalogue's text an image is read as what is kept of a whole database, and nothing else is (`exact`). So
/// bytes that are read to their end are the image of some database (`stand`), and the image of a database is read as what
/// is kept of it (`again`).
pub fn images_are_exact()
    ensures exact { ImagesAreExact }
    ensures stand { ReadImagesStand }
    ensures again { ImagesAreRead }
{}

/// A checkpoint of a whole database stands for its place and for what is kept of the database (`alone`), also of the one
/// behind a front of a list, at the place behind it (`fronts`). While it takes the place of a generation that stands for
/// the same, whatever a crash leaves does (`meanwhile`), whichever of the two files the selector names (`either`).
pub fn checkpoints_stand()
    ensures alone { CheckpointsStand }
    ensures fronts { FrontCheckpointsStand }
    ensures meanwhile { CheckpointsChangeNothing }
    ensures either { EitherGenerationStands }
{
    whole_databases_stay();
    batches_are_bounded();
}

/// What stands of a list goes on over a checkpoint behind all that the log has of it.
pub fn lists_stand_over_checkpoints<D: Disk>()
    ensures { KeepsOverCheckpoint D D.kind.moment D.kind.images }
{}
