//! A line of the input, and the JSON value that it spells.

ghost use Rattle.std.specs.Prelude.{◌≡◌, IfOk, IfErr};
ghost use Rattle.serde_json.specs.View.{view};
ghost use Rattle.ss_lines.specs.Json.{value_at};
ghost use Rattle.ss_lines.specs.Refusals.{RefusesAs};

use serde_json::Value;
use ss_value::Seq;
use std::alloc::Global;

/// The longest line, in bytes, without its line feed.
pub const MAX_LINE: usize = 1_048_576;

/// The longest input, in bytes.
pub const MAX_INPUT: usize = 67_108_864;

/// A line of the input that isn't blank.
#[derive(Drop)]
pub struct Line {
    /// Which line of the input it is, from 1 on, blank lines counted.
    pub number: u64,
    /// Its bytes, without the line feed. A carriage return stays.
    pub bytes: Seq<u8>,
}

/// Why an input, or a line of it, is refused.
#[derive(Clone, Copy, Debug, PartialEq, Eq, Drop)]
pub enum LineError {
    /// Out of memory.
    NoMemory,
    /// The source failed.
    ReadFault,
    /// The line has more than `MAX_LINE` bytes.
    LineTooLong {
        /// Its number.
        line: u64,
    },
    /// The input has more than `MAX_INPUT` bytes.
    InputTooLong,
    /// The line is not a JSON text.
    NotJson {
        /// Its number.
        line: u64,
    },
}

/// The value of a line that is a JSON text (RFC 8259, in UTF-8).
///
/// `LineTooLong` comes exactly where the line has more than `MAX_LINE` bytes, and `NotJson`
/// exactly where it is shorter and serde_json reads no value from it. `ReadFault` and
/// `InputTooLong` never come.
///
/// Time is linear in the bytes, and the memory is that of the value.
pub fn line_value(alloc: Global, line: &Line) -> Result<Value, LineError>
    ensures ok { IfOk result (λ v. value_at line.now ≡ Ok (view v)) }
    ensures refused { IfErr result (RefusesAs (value_at line.now)) }
{
    if line.bytes.len() > MAX_LINE {
        return Err(LineError::LineTooLong { line: line.number });
    }
    let text = match std::str::from_utf8(line.bytes.as_slice()) {
        Ok(text) => text,
        Err(_) => return Err(LineError::NotJson { line: line.number }),
    };
    match Value::from_str(alloc, text) {
        Ok(value) => Ok(value),
        Err(e) => {
            if e.is_memory() {
                return Err(LineError::NoMemory);
            }
            Err(LineError::NotJson { line: line.number })
        }
    }
}
