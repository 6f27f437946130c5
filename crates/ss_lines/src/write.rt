//! Bytes to a sink.

ghost use Rattle.std.specs.Prelude.{◌≤◌, ℕ, length, take, OnOk};
ghost use Rattle.std.specs.Io.KnownBytes.{Appends};
ghost use Rattle.ss_value.specs.FaultCounts.{HasCause};

use crate::source_sink::Sink;

/// Why not all bytes were written.
#[derive(Clone, Copy, Debug, PartialEq, Eq, Drop)]
pub enum WriteFault {
    /// The sink failed.
    WriteFault,
}

/// Writes all bytes, in order.
///
/// `WriteFault` comes only where the sink counted a fault, and then a prefix of the bytes was
/// written. No memory is taken, no byte is copied here, and the sink is called at most once for
/// each byte.
pub fn write_all<K: Sink>(sink: &mut K, bytes: &[u8]) -> Result<(), WriteFault>
    ensures ok { OnOk result (Appends (K.kind.written sink.old) (K.kind.written sink.new) bytes.now) }
    ensures part { (n : ℕ) × (n ≤ length bytes.now) × Appends (K.kind.written sink.old) (K.kind.written sink.new) (take n bytes.now) }
    ensures cause { HasCause (K.kind.faults sink.old) (K.kind.faults sink.new) result }
{
    let mut at = 0;
    while at < bytes.len() {
        let (_, rest) = bytes.split_at(at);
        match sink.push(rest) {
            Ok(count) => at += count,
            Err(_) => return Err(WriteFault::WriteFault),
        }
    }
    Ok(())
}
