//! What the laws come to for runs that are done.

ghost use Rattle.ss_headline.specs.Disks.{disk_of};
ghost use Rattle.ss_run_laws.specs.WholeRun.{WholeRunsTakeEachOnce, WholeRunsOfOneClient, WholeRunsHaveOneList};

use crate::once::takes_each_once;
use crate::one_client::one_client_one_report;
use ss_disk::Disk;
use ss_fronts::weakly_stands_for_one;
use ss_report_laws::a_report_has_one_list;
use ss_standing::stands_for_one;

/// In a whole run, on a strong store or a weak one, each streaming procedure takes each batch of its workflow that it had
/// not taken before exactly once.
pub fn whole_runs_take_each_once<D: Disk>()
    ensures { WholeRunsTakeEachOnce (disk_of D.kind) }
{
    takes_each_once();
}

/// Two whole runs of the requests of one client alone, from one place and from where the same is kept, have one list and
/// the same bytes, where no step was pending before them, one accepted no push, and neither left a request out. Their
/// stores may be strong or weak.
pub fn whole_runs_of_one_client<D: Disk>()
    ensures { WholeRunsOfOneClient (disk_of D.kind) }
{
    one_client_one_report();
}

/// Two whole runs of the same requests with one text have one list and begin at one place, on stores of one mode whose disks
/// tell their contents and had the same before them: what a run wrote determines what ran.
pub fn whole_runs_have_one_list<D: Disk>()
    ensures { WholeRunsHaveOneList (disk_of D.kind) }
{
    stands_for_one();
    weakly_stands_for_one();
    a_report_has_one_list();
}
