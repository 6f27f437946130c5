//! Where bytes come from and where they go.

ghost use Rattle.std.specs.Prelude.{◌<◌, ◌≤◌, length, IfOk};
ghost use Rattle.std.specs.Io.{ReadsAtMost};
ghost use Rattle.std.specs.Io.KnownBytes.{ReadConsumes, WriteAppends};
ghost use Rattle.ss_value.specs.FaultCounts.{HasCause};
ghost use Rattle.ss_lines.specs.Kinds.{SourceKind, SinkKind};

use ss_value::Failed;

/// Where bytes come from.
pub trait Source {
    /// What is left of it, and how often it has failed.
    ghost kind: { SourceKind Self };

    /// Puts the next bytes at the front of the buffer, which is not empty, and answers how many.
    ///
    /// 0 comes only at the end of input, where nothing is left. At `Failed` the count of faults
    /// rose, and nothing was taken; else the count stays.
    fn pull(&mut self, buf: &mut [u8]) -> Result<usize, Failed>
        requires { 0 < length buf.old }
        ensures bound { ReadsAtMost result buf.new }
        ensures bytes { ReadConsumes (kind.left self.old) (kind.left self.new) result buf.new }
        ensures cause { HasCause (kind.faults self.old) (kind.faults self.new) result };
}

/// Where bytes go.
pub trait Sink {
    /// What was written to it, and how often it has failed.
    ghost kind: { SinkKind Self };

    /// Takes bytes from the front of the piece, which is not empty, and answers how many: at
    /// least one.
    ///
    /// At `Failed` the count of faults rose, and no byte was taken; else the count stays.
    fn push(&mut self, piece: &[u8]) -> Result<usize, Failed>
        requires { 0 < length piece.now }
        ensures bound { IfOk result (λ n. (0 < n) × (n ≤ length piece.now)) }
        ensures bytes { WriteAppends (kind.written self.old) (kind.written self.new) result piece.now }
        ensures cause { HasCause (kind.faults self.old) (kind.faults self.new) result };
}
