//! The lines of a source.

ghost use Rattle.std.specs.Prelude.{◌≡◌, ◌⊎◌, ◌<◌, ◌≤◌, ◌+◌, length, IfOk, OnOk, IfErr, IfSome};
ghost use Rattle.std.specs.Io.KnownBytes.{IsAtEnd};
ghost use Rattle.ss_value.specs.FaultCounts.{Rose};
ghost use Rattle.ss_lines.specs.Causes.{TakesAtMost};
ghost use Rattle.ss_lines.specs.Lines.{lines_of, max_input};
ghost use Rattle.ss_lines.specs.Refusals.{IsReadRefusal};

use crate::line::{Line, LineError, MAX_INPUT};
use crate::source_sink::Source;
use crate::split::Splitter;
use ss_value::Seq;
use std::alloc::Global;

/// How many bytes are asked for at a time. The buffer for them is on the stack.
const PIECE: usize = 16_384;

/// The lines of the input that aren't blank, in order.
///
/// A line ends at a line feed, which is not part of it, or at the end of input. Lines are numbered
/// from 1. A line of nothing but spaces, tabs and carriage returns is counted and left out.
///
/// `ReadFault` comes exactly where the source counted a fault, and `InputTooLong` exactly where the
/// input has more than `MAX_INPUT` bytes, unless memory runs out or the source fails before that
/// is seen. No other refusal comes but `NoMemory`. At most `MAX_INPUT` bytes and one more are taken
/// from any source.
///
/// Time is linear in the bytes. Each is copied twice: out of the source, in pieces of 16,384 bytes
/// where it gives that many, and into its line. A line that ends in a later piece than it began in
/// grows by doubling, and may be moved for that. Memory is that of the lines and of one piece.
pub fn read_lines<S: Source>(alloc: Global, source: &mut S) -> Result<Seq<Line>, LineError>
    ensures most { TakesAtMost (max_input + 1) (S.kind.left source.old) (S.kind.left source.new) }
    ensures ok { IfOk result (λ lines. IfSome (S.kind.left source.old) (λ input. (lines ≡ lines_of input) × (length input ≤ max_input))) }
    ensures end { OnOk result (IsAtEnd (S.kind.left source.new)) }
    ensures too_long { result ≡ Err LineError.InputTooLong → IfSome (S.kind.left source.old) (λ input. max_input < length input) }
    ensures cause { S.kind.faults source.old ≤ S.kind.faults source.new }
    ensures fault { result ≡ Err LineError.ReadFault → Rose (S.kind.faults source.old) (S.kind.faults source.new) }
    ensures told { (result ≡ Err LineError.ReadFault) ⊎ (S.kind.faults source.new ≡ S.kind.faults source.old) }
    ensures others { IfErr result IsReadRefusal }
{
    let mut splitter = Splitter::new(alloc);
    let mut buf = [0u8; PIECE];
    let mut taken = 0;
    // One byte past the limit is asked for, since only that byte shows that the input is too long.
    while taken <= MAX_INPUT {
        let room = (MAX_INPUT + 1 - taken).min(PIECE);
        let part = &mut buf[..room];
        let count = match source.pull(part) {
            Ok(count) => count,
            Err(_) => return Err(LineError::ReadFault),
        };
        if count == 0 {
            return match splitter.finish() {
                Ok(lines) => Ok(lines),
                Err(_) => Err(LineError::NoMemory),
            };
        }
        let (piece, _) = part.split_at(count);
        if splitter.take(piece).is_err() {
            return Err(LineError::NoMemory);
        }
        taken += count;
    }
    Err(LineError::InputTooLong)
}
