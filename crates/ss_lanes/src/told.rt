//! A lane that is told what became of the disk, for `client/receipt` of `ss_engine`: its mark sees the posted numbers, without a
//! lock.

ghost use Rattle.std.specs.Prelude.{◌≡◌, ◌≢◌};
ghost use Rattle.ss_lanes.specs.Dues.{failed_at};
ghost use Rattle.ss_lanes.specs.Lanes.{IsLane, lane_view};

use crate::due::Due;
use crate::lane::{Lane, lane_of};
use crate::ticket::Ticket;
use ss_commitlog::{CommitLog, Mark, Note};
use ss_model::{Answer, Life};
use ss_value::Reserved;

/// The lane that is told at which faults the disk has failed, with these. Takes no lock and no memory.
pub fn failed<I: Life>(
    log: &CommitLog<I>,
    ticket: Ticket,
    due: Due,
    mut mark: Mark<I>,
    note: Note<I>,
    answers: Reserved<Answer>,
) -> (Lane<I>, u64)
    requires lane { IsLane I.clients I.first ticket due mark note answers.items }
    requires going { due.faults ≡ 0 }
    requires failed { mark.faults ≢ 0 }
    ensures some { result.1 ≢ 0 }
    ensures lane { result.0 ≡ lane_view ticket (failed_at result.1 due) note answers }
{
    let posted = log.see(&mut mark);
    let due = due.failed_at(posted.faults);
    (lane_of(ticket, due, mark, note, answers), posted.faults)
}
