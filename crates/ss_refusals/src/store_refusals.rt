//! What is written where a disk isn't the store of a run, and with which status.

ghost use Rattle.std.specs.Prelude.{◌≡◌, ◌≤◌, IfOk, IsUtf8, MatchResult, string_bytes};
ghost use Rattle.ss_refusals.specs.Sinks.{sink_of, ExitsAs};
ghost use Rattle.ss_refusals.specs.Statuses.{foreign_text, no_memory_text, other_catalog_text, other_mode_text};
ghost use Rattle.ss_refusals.specs.StoreRefusals.{HasTexts, TellsRefusal, ToldAs, WritesWhole};

use crate::line::line_of;
use crate::refusals::{NO_MEMORY, write_line};
use crate::status::Status;
use ss_lines::{Field, Sink, write_all};
use ss_model::Mode;
use ss_recover::RecoverError;
use std::alloc::{AllocError, Global};
use std::str;

/// The text at status 5, of a fault of the disk before any client started.
const DISK_FAULT: &str = "[\"disk_fault\"]\n";

/// The text at status 11, by the mode of the store.
const OTHER_STRONG: &str = "[\"other_mode\",\"strong\"]\n";

const OTHER_WEAK: &str = "[\"other_mode\",\"weak\"]\n";

/// The report on an empty disk.
const NOTHING: &str = "[\"done\",0]\n";

/// The text that tells the mode of the store. Constant.
fn other_mode(stored: Mode) -> &'static str
    ensures { result.now ≡ other_mode_text stored }
{
    match stored {
        Mode::Strong => OTHER_STRONG,
        Mode::Weak => OTHER_WEAK,
    }
}

/// Writes a text of which all has to be written, and answers how the program ends. Takes no memory.
pub fn write_whole<K: Sink>(sink: &mut K, text: &[u8]) -> Status
    ensures written { WritesWhole result text.now (sink_of K.kind sink.old sink.new) }
    ensures counts { K.kind.faults sink.old ≤ K.kind.faults sink.new }
{
    match write_all(sink, text) {
        Ok(()) => Status::Done,
        Err(_) => Status::WriteFault,
    }
}

/// That a disk holds something that is no store: the file's number, and in it the first byte that can't be.
fn foreign_line(alloc: Global, file: u8, at: u64) -> Result<String, AllocError>
    ensures { IfOk result (λ text. string_bytes text ≡ foreign_text file at) }
{
    let fields = [Field::Number(u64::from(file)), Field::Number(at)];
    line_of(alloc, "foreign", &fields)
}

/// That a disk holds a store of another catalogue: the text of the stored one, and that of the given one.
fn other_catalog_line<'x>(
    alloc: Global,
    stored: &'x [u8],
    given: &'x [u8],
) -> Result<String, AllocError>
    requires stored { IsUtf8 stored.now }
    requires given { IsUtf8 given.now }
    ensures { IfOk result (λ text. string_bytes text ≡ other_catalog_text stored.now given.now) }
{
    let (Ok(stored), Ok(given)) = (str::from_utf8(stored), str::from_utf8(given)) else {
        unreachable!()
    };
    let fields = [Field::Text(stored), Field::Text(given)];
    line_of(alloc, "other_catalog", &fields)
}

/// Writes a text with its status, or that there was no memory for it.
fn tell<K: Sink>(sink: &mut K, status: Status, line: Result<String, AllocError>) -> Status
    ensures told { MatchResult line
        (λ text. ToldAs status result (string_bytes text) (sink_of K.kind sink.old sink.new))
        (λ _. ExitsAs Status.NoMemory result no_memory_text (sink_of K.kind sink.old sink.new)) }
    ensures counts { K.kind.faults sink.old ≤ K.kind.faults sink.new }
{
    match line {
        Ok(text) => {
            write_line(sink, text.as_str());
            status
        }
        Err(_) => {
            write_line(sink, NO_MEMORY);
            Status::NoMemory
        }
    }
}

/// Writes why nothing was recovered, and answers the status.
pub fn refuse_store<K: Sink>(alloc: Global, sink: &mut K, error: &RecoverError) -> Status
    requires texts { HasTexts error.now }
    ensures told { TellsRefusal error.now result (sink_of K.kind sink.old sink.new) }
    ensures counts { K.kind.faults sink.old ≤ K.kind.faults sink.new }
{
    match error {
        RecoverError::NoMemory => {
            write_line(sink, NO_MEMORY);
            Status::NoMemory
        }
        RecoverError::DiskFault => {
            write_line(sink, DISK_FAULT);
            Status::Disk
        }
        RecoverError::Foreign { file, at } => {
            tell(sink, Status::Foreign, foreign_line(alloc, *file, *at))
        }
        RecoverError::OtherMode { stored } => {
            write_line(sink, other_mode(*stored));
            Status::OtherMode
        }
        RecoverError::OtherCatalog { stored, given } => tell(
            sink,
            Status::OtherCatalog,
            other_catalog_line(alloc, stored.as_slice(), given.as_slice()),
        ),
        RecoverError::Nothing => write_whole(sink, NOTHING.as_bytes()),
    }
}
