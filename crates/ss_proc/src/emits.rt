//! Rows that a body emits, and rows that it adds to its reply.

ghost use Rattle.std.specs.Prelude.{◌≡◌, [], get_or, OnOk, IfErr, Ok};
ghost use Rattle.ss_model.specs.Bodies.{emit_rows, exceeds_row_limit};
ghost use Rattle.ss_model.specs.Stops.{StopsAs};
ghost use Rattle.ss_proc.specs.Executions.{context_of, longer_reply, MayRunOn};
ghost use Rattle.ss_proc.specs.Meanings.{Does};

use crate::cascade::run_stream_triggers;
use crate::limits::exceeds_row_limit;
use crate::row_lists::{RowLists, move_rows};
use crate::work::{Given, Work};
use ss_model::{Reason, RunError};
use ss_shard::Shard;
use ss_value::{Row, Rows};
use std::alloc::Global;

/// Whether the batch of a stream with these rows behind it is over the limit.
fn batch_is_full(stream: u16, emitted: &RowLists, rows: &[Row]) -> bool
    ensures { result ≡ exceeds_row_limit (get_or emitted.now stream []) rows.now }
{
    exceeds_row_limit(emitted.rows(stream), rows)
}

/// Adds rows to the batch of a stream, which has at most 1,024, and runs the stream's triggers on them.
///
/// Aborts with `BatchFull`, and as the triggers do.
pub fn emit_rows(
    alloc: Global,
    given: &Given,
    stream: u16,
    rows: Rows,
    shard: &mut Shard,
    work: &mut Work,
) -> Result<(), RunError>
    requires may_run { MayRunOn given.now.catalog.now shard.old }
    ensures { Does (emit_rows (context_of given.now) stream rows) result shard.old work.old shard.new work.new }
{
    if batch_is_full(stream, &work.emitted, rows.as_slice()) {
        return Err(RunError::Abort(Reason::BatchFull(stream)));
    }
    // The rows are lent to the triggers and then moved: triggers neither see batches nor change them, so no copy is needed.
    run_stream_triggers(alloc, given, stream, rows.as_slice(), shard, work)?;
    work.emitted.append(stream, rows)?;
    Ok(())
}

/// Adds rows to the reply, which has at most 1,024. Aborts with `ReplyFull`. No row is copied.
pub fn reply_rows(rows: Rows, reply: &mut Rows) -> Result<(), RunError>
    ensures ok { OnOk result (longer_reply reply.old rows ≡ Ok reply.new) }
    ensures stops { IfErr result (λ stop. StopsAs (longer_reply reply.old rows) stop) }
{
    if exceeds_row_limit(reply.as_slice(), rows.as_slice()) {
        return Err(RunError::Abort(Reason::ReplyFull));
    }
    move_rows(rows, reply)?;
    Ok(())
}
