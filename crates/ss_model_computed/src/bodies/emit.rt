//! Rows that a body emits.

ghost use Rattle.std.specs.Prelude.{◌≡◌, OnOk, IfErr, Ok};
ghost use Rattle.ss_model.specs.Bodies.{emit_rows};
ghost use Rattle.ss_model.specs.Stops.{StopsAs};
ghost use Rattle.ss_model_computed.specs.State.{context_of, execution_of};

use crate::bodies::limits::exceeds_row_limit;
use crate::contents::{Context, Execution};
use crate::lists::{add_rows, copy_at, set_at};
use crate::triggers::run_stream_triggers;
use ss_model::{Reason, RunError};
use ss_value::Rows;
use std::alloc::Global;

/// Adds copies of rows to the batch of a stream, and runs the stream's triggers on them. Aborts with `BatchFull` where
/// the batch would have more than 1,024 rows, and where a trigger does.
pub fn emit_rows(
    alloc: Global,
    context: &Context,
    stream: u16,
    rows: &Rows,
    execution: &mut Execution,
) -> Result<(), RunError>
    ensures ok { OnOk result (emit_rows (context_of context.now) stream rows.now (execution_of execution.old) ≡ Ok (execution_of execution.new)) }
    ensures stops { IfErr result (StopsAs (emit_rows (context_of context.now) stream rows.now (execution_of execution.old))) }
{
    let at = usize::from(stream);
    let mut batch = copy_at(alloc, &execution.emitted, at)?;
    if exceeds_row_limit(&batch, rows) {
        return Err(RunError::Abort(Reason::BatchFull(stream)));
    }
    add_rows(alloc, &mut batch, rows)?;
    set_at(&mut execution.emitted, at, batch);
    run_stream_triggers(alloc, context, stream, rows, execution)
}
