//! What is written where the words of the command line can't be had.

ghost use Rattle.std.specs.Prelude.{◌≡◌, ◌≤◌};
ghost use Rattle.std.specs.IoError.{error_kind};
ghost use Rattle.ss_refusals.specs.Statuses.{words_status, usage_text, no_memory_text};
ghost use Rattle.ss_refusals.specs.Sinks.{sink_of, Writes};

use crate::refusals::{NO_MEMORY, USAGE, write_line};
use crate::status::Status;
use ss_lines::Sink;
use std::io;

/// Writes why the words can't be had, and answers the status. Takes no memory.
///
/// Out of memory is reported as such. Any other error, as of a word that isn't UTF-8, is a faulty command line.
pub fn refuse_words<K: Sink>(error: &io::Error, sink: &mut K) -> Status
    ensures status { result ≡ words_status (error_kind error.now) }
    ensures usage_line { result ≡ Status.Usage → Writes usage_text (sink_of K.kind sink.old sink.new) }
    ensures memory_line { result ≡ Status.NoMemory → Writes no_memory_text
        (sink_of K.kind sink.old sink.new) }
    ensures counts { K.kind.faults sink.old ≤ K.kind.faults sink.new }
{
    match error.kind() {
        io::ErrorKind::OutOfMemory => {
            write_line(sink, NO_MEMORY);
            Status::NoMemory
        }
        _ => {
            write_line(sink, USAGE);
            Status::Usage
        }
    }
}
