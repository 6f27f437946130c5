//! A source and a sink in memory that fail at planned calls, as tests want them.

ghost use Rattle.std.specs.Prelude.{◌≡◌, ◌≤◌, [], false, true, IfOk};
ghost use Rattle.ss_lines.specs.Failing.{fails_next, call_count, plan_faults, CountsCall, IsPlanOf, source_left, source_plan, sink_taken, sink_room, sink_plan};

use crate::memory::{MemorySink, MemorySource};
use crate::source_sink::{Sink, Source};
use ss_value::{Failed, NoMemory, Seq};
use std::alloc::Global;

/// Which calls are to fail, from 0 on, and how many there were. A call looks through the planned numbers.
#[derive(Drop)]
struct Plan {
    fails: Seq<u64>,
    calls: u64,
    faults: u64,
}

impl Plan {
    ghost use Rattle.std.specs.Prelude.{◌+◌, ◌-◌, ◌^◌, min};
    ghost use Rattle.ss_value.specs.FaultCounts.{Rose};

    /// A plan of which nothing was called yet.
    fn new(fails: Seq<u64>) -> Plan
        ensures { IsPlanOf fails result }
    {
        Plan {
            fails,
            calls: 0,
            faults: 0,
        }
    }

    /// Counts a fault, up to the greatest number of 64 bits.
    fn count_fault(&mut self)
        ensures faults { self.new.faults ≡ min (self.old.faults + 1) (2 ^ 64 - 1) }
        ensures later { self.old.faults ≤ self.new.faults }
        ensures rose { Rose self.old.faults self.new.faults }
        ensures calls { self.new.calls ≡ self.old.calls }
        ensures fails { self.new.fails ≡ self.old.fails }
    {
        self.faults = self.faults.saturating_add(1);
    }

    /// Counts a call, and where it is to fail a fault; tells whether it is.
    fn count_call(&mut self) -> bool
        ensures due { result ≡ fails_next self.old }
        ensures counted { CountsCall self.old self.new }
        ensures failed { result ≡ true → self.new.faults ≡ min (self.old.faults + 1) (2 ^ 64 - 1) }
        ensures later { self.old.faults ≤ self.new.faults }
        ensures rose { result ≡ true → Rose self.old.faults self.new.faults }
        ensures done { result ≡ false → self.new.faults ≡ self.old.faults }
    {
        let failed = self.fails.as_slice().contains(&self.calls);
        self.calls = self.calls.saturating_add(1);
        if failed {
            self.count_fault();
        }
        failed
    }
}

/// Bytes to be read, of which some calls fail. One that fails takes nothing.
#[derive(Drop)]
pub struct FailingSource {
    source: MemorySource,
    plan: Plan,
}

impl FailingSource {
    /// A source of these bytes that fails at the calls with these numbers, from 0. Takes no memory.
    pub fn new(bytes: Seq<u8>, fails: Seq<u64>) -> FailingSource
        ensures bytes { source_left result ≡ bytes }
        ensures plan { IsPlanOf fails (source_plan result) }
    {
        FailingSource {
            source: MemorySource::new(bytes),
            plan: Plan::new(fails),
        }
    }

    /// How many calls there were, those that failed among them, up to the greatest number of 64 bits.
    pub fn calls(&self) -> u64
        ensures { result ≡ call_count (source_plan self.now) }
    {
        self.plan.calls
    }
}

impl Source for FailingSource {
    ghost use Rattle.std.specs.Prelude.{◌<◌, length, Some, is_err};
    ghost use Rattle.std.specs.Io.{ReadsAtMost};
    ghost use Rattle.std.specs.Io.KnownBytes.{ReadConsumes};
    ghost use Rattle.ss_value.specs.FaultCounts.{HasCause};
    ghost use Rattle.ss_lines.specs.Causes.{CountsFailures};

    ghost kind = { record { left = λ s. Some (source_left s); faults = λ s. plan_faults (source_plan s) } };

    /// Gives what a source in memory gives, but where the call is to fail: then nothing, and the fault is counted.
    fn pull(&mut self, buf: &mut [u8]) -> Result<usize, Failed>
        requires { 0 < length buf.old }
        ensures bound { ReadsAtMost result buf.new }
        ensures bytes { ReadConsumes (Some (source_left self.old)) (Some (source_left self.new)) result buf.new }
        ensures cause { HasCause (plan_faults (source_plan self.old)) (plan_faults (source_plan self.new)) result }
        ensures counted { CountsFailures (plan_faults (source_plan self.old)) (plan_faults (source_plan self.new)) result }
        ensures due { is_err result ≡ fails_next (source_plan self.old) }
        ensures call { CountsCall (source_plan self.old) (source_plan self.new) }
    {
        if self.plan.count_call() {
            return Err(Failed);
        }
        self.source.pull(buf)
    }
}

/// Bytes that were written, up to a number that is fixed when the sink is made, where some calls fail. One that fails
/// takes nothing.
#[derive(Drop)]
pub struct FailingSink {
    sink: MemorySink,
    plan: Plan,
}

impl FailingSink {
    /// A sink that takes this many bytes in all and fails at the calls with these numbers, from 0. The bytes' memory is
    /// taken at once.
    pub fn new(alloc: Global, room: usize, fails: Seq<u64>) -> Result<FailingSink, NoMemory>
        ensures bytes { IfOk result (λ s. sink_taken s ≡ []) }
        ensures room { IfOk result (λ s. sink_room s ≡ room) }
        ensures plan { IfOk result (λ s. IsPlanOf fails (sink_plan s)) }
    {
        let sink = MemorySink::new(alloc, room)?;
        Ok(FailingSink {
            sink,
            plan: Plan::new(fails),
        })
    }

    /// The bytes that it has taken, in constant time.
    pub fn as_bytes(&self) -> &[u8]
        ensures { result.now ≡ sink_taken self.now }
    {
        self.sink.as_bytes()
    }

    /// How many calls there were, those that failed among them, up to the greatest number of 64 bits.
    pub fn calls(&self) -> u64
        ensures { result ≡ call_count (sink_plan self.now) }
    {
        self.plan.calls
    }
}

impl Sink for FailingSink {
    ghost use Rattle.std.specs.Prelude.{◌⊎◌, ◌<◌, length, Some, OnErr, is_err};
    ghost use Rattle.std.specs.Io.KnownBytes.{WriteAppends};
    ghost use Rattle.ss_value.specs.FaultCounts.{HasCause};
    ghost use Rattle.ss_lines.specs.Causes.{CountsFailures};

    ghost kind = { record { written = λ s. Some (sink_taken s); faults = λ s. plan_faults (sink_plan s) } };

    /// Takes what a sink in memory takes, but where the call is to fail. It fails there and where its room is full, and
    /// counts that.
    fn push(&mut self, piece: &[u8]) -> Result<usize, Failed>
        requires { 0 < length piece.now }
        ensures bound { IfOk result (λ n. (0 < n) × (n ≤ length piece.now)) }
        ensures bytes { WriteAppends (Some (sink_taken self.old)) (Some (sink_taken self.new)) result piece.now }
        ensures cause { HasCause (plan_faults (sink_plan self.old)) (plan_faults (sink_plan self.new)) result }
        ensures counted { CountsFailures (plan_faults (sink_plan self.old)) (plan_faults (sink_plan self.new)) result }
        ensures due { fails_next (sink_plan self.old) ≡ true → is_err result ≡ true }
        ensures full { OnErr result ((fails_next (sink_plan self.old) ≡ true) ⊎ (length (sink_taken self.old) ≡ sink_room self.old)) }
        ensures room { sink_room self.new ≡ sink_room self.old }
        ensures call { CountsCall (sink_plan self.old) (sink_plan self.new) }
    {
        if self.plan.count_call() {
            return Err(Failed);
        }
        match self.sink.push(piece) {
            Ok(count) => Ok(count),
            Err(_) => {
                self.plan.count_fault();
                Err(Failed)
            }
        }
    }
}
