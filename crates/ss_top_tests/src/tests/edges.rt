//! Inputs at the limit of size. Other limits are cases of `ss_cases`.

use super::run_from;
use ss_engine::NoGate;
use ss_lines::{MAX_INPUT, Source};
use ss_top::Status;
use ss_value::Failed;
use std::test::Fail;

/// The most that a source of letters, or of blanks, gives at a time.
static LETTERS: [u8; 4096] = [b'x'; 4096];

static BLANKS: [u8; 4096] = [b' '; 4096];

/// A source of this many bytes of one kind, so that a long input takes no memory.
#[derive(Drop)]
struct Repeated {
    bytes: &'static [u8],
    left: usize,
}

impl Source for Repeated {
    ghost use Rattle.std.specs.Prelude.{None};

    ghost kind = { record { left = λ _. None; faults = λ _. 0 } };

    fn pull(&mut self, buf: &mut [u8]) -> Result<usize, Failed> {
        let count = self.left.min(buf.len()).min(self.bytes.len());
        let (front, _) = buf.split_at_mut(count);
        let (given, _) = self.bytes.split_at(count);
        front.copy_from_slice(given);
        self.left -= count;
        Ok(count)
    }
}

// An input of one line that is within the limit of an input is refused for the length of that line; and one beyond it for its own
// length, though its only line is blank.
#[test]
fn long_inputs(rt: HostRuntime) -> Result<(), Fail> {
    let refusals = [
        (&LETTERS, MAX_INPUT, "[\"input\",1,\"L2\"]\n"),
        (&BLANKS, MAX_INPUT + 1, "[\"input\",0,\"L3\"]\n"),
    ];
    for (bytes, left, told) in refusals {
        let mut source = Repeated { bytes, left };
        let ended = run_from(&rt, rt.alloc(), &["run"], &mut source, 64, NoGate)?;
        assert!(rt; ended.is(Status::Input, told));
    }
    Ok(())
}
