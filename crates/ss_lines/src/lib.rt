//! The input by lines, and the output by pieces.
//!
//! A `Source` gives bytes and a `Sink` takes them: in memory, or by any reader and writer of std.
//! `read_lines` takes a source apart into its numbered lines, `line_value` reads a line as JSON,
//! and `write_all` writes bytes to a sink. A failure is answered where the source or the sink has
//! counted it, and nothing else is counted, so a source in memory never brings one about.
//!
//! - `source_sink`: what a source and a sink are
//! - `memory`: both in memory; `failing`: the same, failing at planned calls; `std_io`: both over std's readers and writers
//! - `read`: the lines of a source; `split`: lines out of pieces of the input, as they come
//! - `line`: a line and its JSON value
//! - `fields`: lines to write, each an array of its kind's word and its fields
//! - `write`: bytes to a sink
//!
//! Every call that takes `alloc` may answer `NoMemory`.
#![tactic(auto)]

mod failing;
mod fields;
mod line;
mod memory;
mod read;
mod source_sink;
mod split;
mod std_io;
mod write;

pub use failing::{FailingSink, FailingSource};
pub use fields::{Field, line_json, line_json_with};
pub use line::{Line, LineError, MAX_INPUT, MAX_LINE, line_value};
pub use memory::{MemorySink, MemorySource};
pub use read::read_lines;
pub use source_sink::{Sink, Source};
pub use std_io::{ReadSource, WriteSink};
pub use write::{WriteFault, write_all};
