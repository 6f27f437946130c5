//! What an audit answers of what a run printed.

ghost use Rattle.ss_headline.specs.Disks.{disk_of};
ghost use Rattle.ss_audit_runs.specs.Runs.{WholeRunsAreRight};

use ss_audit_laws::printed_is_right;
use ss_disk::Disk;
use ss_fronts::weakly_stands_for_one;
use ss_model_laws::{drained_at_rest, kept_carries};
use ss_standing::stands_for_one;

/// Of the lines of a whole run that began on an empty disk, on a strong store or a weak one, an audit answers yes, with as
/// many entries as its list has. Of the run this takes that it is whole, and that its report was printed so that each line
/// is read as what it says; of the disk that it tells its contents, and was empty.
pub fn whole_runs_are_right<D: Disk>()
    ensures { WholeRunsAreRight (disk_of D.kind) }
{
    stands_for_one();
    weakly_stands_for_one();
    drained_at_rest();
    kept_carries();
    printed_is_right();
}
