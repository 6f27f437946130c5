//! How a run ended.

ghost use Rattle.std.specs.Prelude.{◌≡◌};
ghost use Rattle.ss_report.specs.Reported.{missing_answer};

use ss_model::Answer;
use ss_shard::Database;

/// How a run ended, and what its report says of that.
#[derive(Drop)]
pub enum End {
    /// Settled, with the tables of this database.
    Tables(Database),
    /// Stopped with this exit status, when `count` entries were safe and the disk had failed `faults` times.
    Stopped { status: u8, count: u64, faults: u64 },
    /// Settled, with a summary in one line in place of the report: `votes` votes were asked for.
    Voter { votes: u64 },
}

impl End {
    /// The answer to a request that has none: at status 5 that the disk has failed, at status 9 that the list is full, and
    /// else that there was no memory.
    pub fn missing_answer(&self) -> Answer
        ensures { result ≡ missing_answer self.now }
    {
        match self {
            End::Stopped {
                status: 5,
                faults,
                ..
            } => Answer::Halted { faults: *faults },
            End::Stopped {
                status: 9,
                count,
                ..
            } => Answer::ListFull { count: *count },
            _ => Answer::NoMemory,
        }
    }
}
