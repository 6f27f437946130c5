//! The command.

ghost use Rattle.std.specs.Prelude.{◌≤◌, ◌+◌, IfErr, IfOk, IfSome, OnOk};
ghost use Rattle.std.specs.Io.KnownBytes.{IsAtEnd};
ghost use Rattle.ss_lines.specs.Causes.{TakesAtMost};
ghost use Rattle.ss_lines.specs.Lines.{max_input};
ghost use Rattle.ss_refusals.specs.Sinks.{LeavesOfRefusedSource, TellsReading, sink_of, source_of};
ghost use Rattle.ss_audit_input.specs.Refused.{IsRefusedAudit};
ghost use Rattle.ss_audit_input.specs.Told.{AuditComes, HasVerdict, TellsAuditFaults};

use crate::input::audit_lines;
use crate::verdict::tell_verdict;
use ss_audit::Verdict;
use ss_catalog_requests::a_request_has_one_answer;
use ss_lines::{Sink, Source, read_lines};
use ss_nest::a_nested_value_has_one_answer;
use ss_refusals::{InputError, Status, refuse};
use std::alloc::Global;

/// Reads a source to its end, and answers what an audit of its lines answers, or their first refusal.
fn audit_source<S: Source>(alloc: Global, source: &mut S) -> Result<Verdict, InputError>
    ensures taken { TakesAtMost (max_input + 1) (S.kind.left source.old) (S.kind.left source.new) }
    ensures counts { S.kind.faults source.old ≤ S.kind.faults source.new }
    ensures told { TellsReading result (S.kind.faults source.old) (S.kind.faults source.new) }
    ensures end { OnOk result (IsAtEnd (S.kind.left source.new)) }
    ensures ok { IfOk result (HasVerdict (S.kind.left source.old)) }
    ensures refused { IfErr result (λ e. IfSome (S.kind.left source.old) (λ input. IsRefusedAudit input e)) }
    ensures leaves { IfErr result (λ e. LeavesOfRefusedSource e (S.kind.faults source.old) (S.kind.faults source.new)
        (S.kind.left source.old) (S.kind.left source.new)) }
{
    match read_lines(alloc, source) {
        Ok(lines) => audit_lines(alloc, lines.as_slice()),
        Err(error) => Err(InputError::Line(error)),
    }
}

/// The command `audit`: reads an input with a script and a report, and writes whether the report is that of a run of the script on
/// an empty disk.
///
/// Runs on one thread, and uses no disk. Costs what reading the input and the audit cost, in time and memory.
pub fn audit_input<S: Source, K: Sink>(alloc: Global, source: &mut S, sink: &mut K) -> Status
    ensures comes { AuditComes (source_of S.kind source.old source.new)
        (sink_of K.kind sink.old sink.new) result }
    ensures told { TellsAuditFaults result (source_of S.kind source.old source.new) (sink_of K.kind sink.old sink.new) }
    ensures taken { TakesAtMost (max_input + 1) (S.kind.left source.old) (S.kind.left source.new) }
    ensures counts { (S.kind.faults source.old ≤ S.kind.faults source.new) × (K.kind.faults sink.old ≤ K.kind.faults sink.new) }
{
    // Do nothing: they state the laws by which an input with a script and a report isn't refused.
    a_nested_value_has_one_answer();
    a_request_has_one_answer();
    match audit_source(alloc, source) {
        Ok(verdict) => tell_verdict(alloc, sink, verdict),
        Err(error) => refuse(alloc, sink, &error),
    }
}
