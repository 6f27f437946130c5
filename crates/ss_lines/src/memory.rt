//! A source and a sink in memory.

ghost use Rattle.std.specs.Prelude.{◌≤◌, vec_capacity, vec_len};

use crate::source_sink::{Sink, Source};
use ss_value::{Failed, NoMemory, Seq};
use std::alloc::Global;

/// Bytes to be read. It never fails.
#[derive(Drop)]
pub struct MemorySource {
    bytes: Seq<u8>,
    at: usize,
}

impl MemorySource {
    ghost use Rattle.std.specs.Prelude.{◌≡◌};
    ghost use Rattle.ss_lines.specs.Memory.{bytes_left};

    /// A source of these bytes, which are moved and not copied.
    pub fn new(bytes: Seq<u8>) -> MemorySource
        ensures { bytes_left result ≡ bytes }
    {
        MemorySource { bytes, at: 0 }
    }
}

impl Source for MemorySource {
    ghost use Rattle.std.specs.Prelude.{◌≡◌, ◌<◌, length, min, Some};
    ghost use Rattle.std.specs.Io.{ReadsAtMost};
    ghost use Rattle.std.specs.Io.KnownBytes.{ReadConsumes};
    ghost use Rattle.ss_value.specs.FaultCounts.{HasCause};
    ghost use Rattle.ss_lines.specs.Memory.{bytes_left};

    ghost kind = { record { left = λ s. Some (bytes_left s); faults = λ _. 0 } };

    /// Gives as many bytes as are left and fit the buffer, in time linear in them. It never fails.
    fn pull(&mut self, buf: &mut [u8]) -> Result<usize, Failed>
        requires { 0 < length buf.old }
        ensures bound { ReadsAtMost result buf.new }
        ensures bytes { ReadConsumes (Some (bytes_left self.old)) (Some (bytes_left self.new)) result buf.new }
        ensures cause { HasCause 0 0 result }
        ensures never { result ≡ Ok (min (length (bytes_left self.old)) (length buf.old)) }
    {
        let rest = self.bytes.as_slice();
        if self.at >= rest.len() {
            return Ok(0);
        }
        let (_, rest) = rest.split_at(self.at);
        let count = rest.len().min(buf.len());
        let (front, _) = buf.split_at_mut(count);
        let (taken, _) = rest.split_at(count);
        front.copy_from_slice(taken);
        self.at += count;
        Ok(count)
    }
}

/// Bytes that were written, up to a number that is fixed when the sink is made.
#[derive(Drop)]
pub struct MemorySink {
    bytes: Vec<u8>,
    room: usize,
    faults: u64,
    ghost reserved: { room ≤ vec_capacity bytes },
    ghost within: { vec_len bytes ≤ room },
}

impl MemorySink {
    ghost use Rattle.std.specs.Prelude.{◌≡◌, [], IfOk};
    ghost use Rattle.ss_lines.specs.Memory.{bytes_taken, fault_count, room_of};

    /// A sink that takes this many bytes in all. Their memory is taken at once, so that no later call takes any.
    pub fn new(alloc: Global, room: usize) -> Result<MemorySink, NoMemory>
        ensures bytes { IfOk result (λ s. bytes_taken s ≡ []) }
        ensures room { IfOk result (λ s. room_of s ≡ room) }
        ensures faults { IfOk result (λ s. fault_count s ≡ 0) }
    {
        match Vec::with_capacity(alloc, room) {
            Ok(bytes) => Ok(MemorySink {
                bytes,
                room,
                faults: 0,
            }),
            Err(_) => Err(NoMemory),
        }
    }

    /// The bytes that it has taken, in constant time.
    pub fn as_bytes(&self) -> &[u8]
        ensures { result.now ≡ bytes_taken self.now }
    {
        self.bytes.as_slice()
    }
}

impl Sink for MemorySink {
    ghost use Rattle.std.specs.Prelude.{◌≡◌, ◌<◌, ◌-◌, length, min, Some, IfOk, OnErr};
    ghost use Rattle.std.specs.Io.KnownBytes.{WriteAppends};
    ghost use Rattle.ss_value.specs.FaultCounts.{HasCause};
    ghost use Rattle.ss_lines.specs.Causes.{CountsFailures};
    ghost use Rattle.ss_lines.specs.Memory.{bytes_taken, fault_count, room_of};

    ghost kind = { record { written = λ s. Some (bytes_taken s); faults = λ s. fault_count s } };

    /// Takes as many bytes as there is room for, in time linear in them. It fails exactly where
    /// its room is full, and counts that.
    fn push(&mut self, piece: &[u8]) -> Result<usize, Failed>
        requires { 0 < length piece.now }
        ensures bound { IfOk result (λ n. (0 < n) × (n ≤ length piece.now)) }
        ensures bytes { WriteAppends (Some (bytes_taken self.old)) (Some (bytes_taken self.new)) result piece.now }
        ensures cause { HasCause (fault_count self.old) (fault_count self.new) result }
        ensures taken { IfOk result (λ n. n ≡ min (length piece.now) (room_of self.old - length (bytes_taken self.old))) }
        ensures full { OnErr result (length (bytes_taken self.old) ≡ room_of self.old) }
        ensures counted { CountsFailures (fault_count self.old) (fault_count self.new) result }
        ensures room { room_of self.new ≡ room_of self.old }
    {
        let free = self.room - self.bytes.len();
        if free == 0 {
            self.faults = self.faults.saturating_add(1);
            return Err(Failed);
        }
        let count = piece.len().min(free);
        let (front, _) = piece.split_at(count);
        match self.bytes.extend_from_slice(front) {
            Ok(()) => Ok(count),
            Err(_) => unreachable!(),
        }
    }
}
