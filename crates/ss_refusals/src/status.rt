//! How a run ends.

ghost use Rattle.std.specs.Prelude.{◌≡◌};
ghost use Rattle.ss_refusals.specs.Statuses.{status_number};

/// How a run ended; the program's exit status is its number.
#[derive(Clone, Copy, Debug, PartialEq, Eq, Drop)]
pub enum Status {
    /// 0: all requests were answered, and the whole report was written.
    Done,
    /// 1: the words of the command line are no command, or can't be had.
    Usage,
    /// 2: the input is refused, and nothing ran.
    Input,
    /// 3: reading failed, and nothing ran.
    ReadFault,
    /// 4: all is as at 0, but writing the report failed.
    WriteFault,
    /// 5: the disk failed. Before the clients started nothing ran; else no execution below the count that is told is lost.
    Disk,
    /// 6: the run as a whole is out of memory.
    NoMemory,
    /// 7: the disk holds something that is no store, and nothing ran.
    Foreign,
    /// 8: the disk holds a store of another catalogue, and nothing ran.
    OtherCatalog,
    /// 9: the list has as many entries as it may, and a request or a step was to follow.
    Limit,
    /// 11: the disk holds a store of the mode of recovery that isn't asked, and nothing ran.
    OtherMode,
    /// 12: of an audit: the report isn't that of a run of its script, and the first check and line that are wrong were told.
    Differs,
}

impl Status {
    /// The number of the status.
    pub fn number(self) -> u8
        ensures { result ≡ status_number self }
    {
        match self {
            Status::Done => 0,
            Status::Usage => 1,
            Status::Input => 2,
            Status::ReadFault => 3,
            Status::WriteFault => 4,
            Status::Disk => 5,
            Status::NoMemory => 6,
            Status::Foreign => 7,
            Status::OtherCatalog => 8,
            Status::Limit => 9,
            Status::OtherMode => 11,
            Status::Differs => 12,
        }
    }
}
