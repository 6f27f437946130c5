//! What a nest that was read comes to.

ghost use Rattle.ss_nest_runs.specs.Runs.{ReadNestsMayBe, ReadNestsRunMembers};

use ss_catalog::what_reads_is_accepted;
use ss_nest_laws::nest_steps_run_members;

/// The nests of a value that reads as a catalogue may be nests of what it reads as without them; and a step of one runs its members,
/// one after another, on the next batch of each input of the first, or comes to nothing where that isn't its turn.
pub fn nests_that_are_read_run_as_members()
    ensures may_be { ReadNestsMayBe }
    ensures run { ReadNestsRunMembers }
{
    what_reads_is_accepted();
    nest_steps_run_members();
}
