//! What is written of a verdict.

ghost use Rattle.std.specs.Prelude.{◌≡◌, ◌≤◌, IfOk, string_bytes};
ghost use Rattle.ss_refusals.specs.Sinks.{sink_of};
ghost use Rattle.ss_audit_input.specs.Told.{TellsVerdict, verdict_status, verdict_text};

use ss_audit::Verdict;
use ss_lines::{Field, Sink, write_all};
use ss_refusals::{NO_MEMORY, Status, line_of, write_line};
use std::alloc::{AllocError, Global};

/// The text of a verdict, with its line feed.
fn verdict_text(alloc: Global, verdict: Verdict) -> Result<String, AllocError>
    ensures { IfOk result (λ text. string_bytes text ≡ verdict_text verdict) }
{
    match verdict {
        Verdict::Yes { count } => {
            let fields = [Field::Text("yes"), Field::Number(count)];
            line_of(alloc, "audit", &fields)
        }
        Verdict::No { check, line } => {
            let check = Field::Number(u64::from(check));
            let fields = [Field::Text("no"), check, Field::Number(line)];
            line_of(alloc, "audit", &fields)
        }
    }
}

/// The status with which a verdict is told whole.
fn verdict_status(verdict: Verdict) -> Status
    ensures { result ≡ verdict_status verdict }
{
    match verdict {
        Verdict::Yes { .. } => Status::Done,
        Verdict::No { .. } => Status::Differs,
    }
}

/// Writes a verdict, and answers its status, or that there was no memory for it, or that the sink failed.
pub(crate) fn tell_verdict<K: Sink>(alloc: Global, sink: &mut K, verdict: Verdict) -> Status
    ensures told { TellsVerdict verdict result (sink_of K.kind sink.old sink.new) }
    ensures counts { K.kind.faults sink.old ≤ K.kind.faults sink.new }
{
    let Ok(text) = verdict_text(alloc, verdict) else {
        write_line(sink, NO_MEMORY);
        return Status::NoMemory;
    };
    match write_all(sink, text.as_bytes()) {
        Ok(()) => verdict_status(verdict),
        Err(_) => Status::WriteFault,
    }
}
