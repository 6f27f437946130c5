//! Sources and sinks over std's readers and writers.

ghost use Rattle.std.specs.Prelude.{◌<◌, ◌≤◌, length, IfOk};
ghost use Rattle.std.specs.Io.{ReadsAtMost};
ghost use Rattle.std.specs.Io.KnownBytes.{ReadConsumes, WriteAppends};
ghost use Rattle.ss_value.specs.FaultCounts.{HasCause};
ghost use Rattle.ss_lines.specs.Causes.{CountsFailures};

use crate::source_sink::{Sink, Source};
use ss_value::Failed;
use std::io::{Read, Write};

/// Any reader of std, with a count of its failures.
///
/// The bytes that it has left are those that the reader's contract says. Of a file or a terminal, it
/// says none. A call costs what the reader's costs.
#[derive(Drop)]
pub struct ReadSource<R> {
    reader: R,
    faults: u64,
}

impl<R: Read> ReadSource<R> {
    ghost use Rattle.std.specs.Prelude.{◌≡◌};
    ghost use Rattle.ss_lines.specs.StdIo.{reader_of, read_faults};

    /// A source of the bytes that the reader has left.
    pub fn new(reader: R) -> ReadSource<R>
        ensures reader { reader_of result ≡ reader }
        ensures faults { read_faults result ≡ 0 }
    {
        ReadSource { reader, faults: 0 }
    }
}

impl<R: Read> Source for ReadSource<R> {
    ghost use Rattle.ss_lines.specs.StdIo.{reader_of, read_faults};

    ghost kind = { record { left = λ s. R.remaining (reader_of s); faults = λ s. read_faults s } };

    /// One `read` of the reader. Every error of it is counted as a fault.
    fn pull(&mut self, buf: &mut [u8]) -> Result<usize, Failed>
        requires { 0 < length buf.old }
        ensures bound { ReadsAtMost result buf.new }
        ensures bytes { ReadConsumes (R.remaining (reader_of self.old)) (R.remaining (reader_of self.new)) result buf.new }
        ensures cause { HasCause (read_faults self.old) (read_faults self.new) result }
        ensures counted { CountsFailures (read_faults self.old) (read_faults self.new) result }
    {
        match self.reader.read(buf) {
            Ok(count) => Ok(count),
            Err(_) => {
                self.faults = self.faults.saturating_add(1);
                Err(Failed)
            }
        }
    }
}

/// Any writer of std, with a count of its failures.
///
/// The bytes that were written are those that the writer's contract says. A write of no byte is a
/// failure, since whoever tries again until all is written would never end. A call costs what the
/// writer's costs.
#[derive(Drop)]
pub struct WriteSink<W> {
    writer: W,
    faults: u64,
}

impl<W: Write> WriteSink<W> {
    ghost use Rattle.std.specs.Prelude.{◌≡◌};
    ghost use Rattle.ss_lines.specs.StdIo.{writer_of, write_faults};

    /// A sink that writes behind what the writer holds.
    pub fn new(writer: W) -> WriteSink<W>
        ensures writer { writer_of result ≡ writer }
        ensures faults { write_faults result ≡ 0 }
    {
        WriteSink { writer, faults: 0 }
    }

    /// The writer, as the sink left it.
    pub fn into_inner(self) -> W
        ensures { result ≡ writer_of self }
    {
        let WriteSink { writer, .. } = self;
        writer
    }
}

impl<W: Write> Sink for WriteSink<W> {
    ghost use Rattle.ss_lines.specs.StdIo.{writer_of, write_faults};

    ghost kind = { record { written = λ s. W.contents (writer_of s); faults = λ s. write_faults s } };

    /// One `write` of the writer. Every error of it is counted as a fault, and so is a write of no byte.
    fn push(&mut self, piece: &[u8]) -> Result<usize, Failed>
        requires { 0 < length piece.now }
        ensures bound { IfOk result (λ n. (0 < n) × (n ≤ length piece.now)) }
        ensures bytes { WriteAppends (W.contents (writer_of self.old)) (W.contents (writer_of self.new)) result piece.now }
        ensures cause { HasCause (write_faults self.old) (write_faults self.new) result }
        ensures counted { CountsFailures (write_faults self.old) (write_faults self.new) result }
    {
        match self.writer.write(piece) {
            Ok(count) if count > 0 => Ok(count),
            _ => {
                self.faults = self.faults.saturating_add(1);
                Err(Failed)
            }
        }
    }
}
