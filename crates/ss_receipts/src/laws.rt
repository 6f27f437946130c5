//! What follows where a log holds a list. Each is the contract of a function that does nothing; sessions of `ss_engine` and
//! `ss_top` cite them.

ghost use Rattle.ss_receipts.specs.Laws.{HoldsGoOn, PastIsOfDisk, ReplayedAreRecordable};

use ss_disk::Disk;
use ss_fronts::fronts_grow;
use ss_model::Life;

/// What a log holds of a list it holds of each list that goes on from it.
pub fn holds_go_on<I: Life, D: Disk>()
    ensures { HoldsGoOn D I.recovery I.every I.catalog I.opening I.first I.moment I.faults I.past D.kind }
{
    fronts_grow();
}

/// Where a life's past is that of a disk, and its opening that disk's moment, what is left since the opening is what is left
/// between that disk and the present one.
pub fn the_past_is_of_the_disk<D: Disk>()
    ensures { PastIsOfDisk D D.kind.moment D.kind.images }
{}

/// The entries of a list that replays have records.
pub fn replayed_are_recordable()
    ensures { ReplayedAreRecordable }
{}
