//! What is printed for people: help, the version, and a line on how the program ended.

use ss_top::Status;

/// What `sstore --help` prints.
const HELP: &str = "\
sstore runs transactions and stream workflows on one database, and prints replies, list and tables.

    sstore FOLDER|- run     [--partitions 1..8] < INPUT      a catalogue on the first line, then a request a line
    sstore FOLDER|- recover [--partitions 1..8]              runs what is pending on the store
    sstore FOLDER|- voter   --seed N --votes N --clients N   runs the benchmark Voter with Leaderboard
    sstore FOLDER|- audit                    < FILE      a script and its report: is the report that of a run?
    sstore --help, sstore --version

With --checkpoint 1..1000000 a run or a voter puts an image of the database in place of the log, each time so many entries
behind the last one, so that recovery has less to replay.
With --restarts 0..16 one whose disk failed opens it again and goes on, so often at most; 0 where nothing is said.
With --recovery weak a store logs calls, pushes and installs alone, and a recovery runs them again with their workflows;
it has no restarts. A store keeps its mode: strong, where nothing is said, logs all executions.

The first word is where the store is: a folder, which has to be there and is held by one process at a time, or - for
memory, which ends with the program.

Status: 0 done, 1 usage, 2 input refused, 3 read fault, 4 write fault, 5 disk fault or folder in use, 6 no memory,
7 not a store, 8 a store of another catalogue, 9 the list is full, 11 a store of the other mode of recovery,
12 an audit found the report wrong.

docs/TUTORIAL.md goes from an idea to a catalogue; docs/FORMATS.md says what may be written and what is printed.
";

/// What `sstore --version` prints: the program's version, and the magic with which its stores begin.
const VERSION: &str =
    "sstore 0.12, stores of format SSTORE2, and of the older SSTORE1 and SSTOREW\n";

/// What is printed for a word that stands alone and asks for it. No such word is a command, so none is lost.
pub fn asked_text(words: &[String]) -> Option<&'static str> {
    let (word, behind) = words.split_first()?;
    if !behind.is_empty() {
        return None;
    }
    match word.as_str() {
        "--help" => Some(HELP),
        "--version" => Some(VERSION),
        _ => None,
    }
}

/// How the program ended, for people; nothing where all is done.
pub fn status_text(status: Status) -> Option<&'static str> {
    match status {
        Status::Done => None,
        Status::Usage => Some("the words are no command; sstore --help lists them"),
        Status::Input => Some(
            "the input is refused, with its line and a code (docs/FORMATS.md); nothing has run",
        ),
        Status::ReadFault => Some("reading the input failed, and nothing has run"),
        Status::WriteFault => Some("all has run, but writing the report failed"),
        Status::Disk => Some(
            "the disk failed; a stopped line, where there is one, tells what is on it",
        ),
        Status::NoMemory => Some(
            "out of memory; a stopped line, where there is one, tells what is on the disk",
        ),
        Status::Foreign => Some(
            "the folder's files are no store, and nothing has run; FILE and AT are the first wrong byte",
        ),
        Status::OtherCatalog => Some("the store is of another catalogue, and nothing has run"),
        Status::OtherMode => {
            Some("the store is of the other mode of recovery, and nothing has run")
        }
        Status::Limit => Some("the list is full; what was answered with list_full has not run"),
        Status::Differs => {
            Some(
                "the report is not that of a run of its script; CHECK and LINE are the first that is wrong",
            )
        }
    }
}
