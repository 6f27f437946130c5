//! What an execution is given, and how far it is.

ghost use Rattle.std.specs.Prelude.{◌≡◌};
ghost use Rattle.ss_proc.specs.Executions.{empty_work};

use crate::row_lists::RowLists;
use ss_model::Catalog;
use ss_plan::Batches;
use ss_value::{Row, Rows, Seq};
use std::alloc::Global;

/// What an execution is given: its procedure, arguments and batches. A call has no batch, and a step no argument.
#[derive(Clone, Copy, Drop)]
pub struct Given<'a, 'b: 'a> {
    /// The catalogue.
    pub catalog: &'a Catalog,
    /// The procedure's number.
    pub procedure: u16,
    /// The arguments.
    pub args: &'a Row,
    /// The argument that an `arg` procedure's touch set names, and None in every other procedure.
    pub arg: Option<u8>,
    /// The batch of each input, by position. While a step of a procedure with inner streams runs, the batches of these so far
    /// stand behind them.
    pub batches: &'a Batches<'b>,
    /// The procedure's inner streams, in the order of their positions.
    pub inner: &'a [u16],
}

/// How far an execution is, beside its shard: the unit that it has open in each window, its batch for each stream, and its
/// reply.
///
/// After an error batches and reply may hold some of its rows, instead of being cut back, which nobody needs:
/// `run_body` drops them then.
#[derive(Drop)]
pub struct Work {
    /// The open units, by window.
    pub open_units: RowLists,
    /// The batches, by stream.
    pub emitted: RowLists,
    /// The reply.
    pub reply: Rows,
}

/// No row yet in a unit, a batch or the reply. Takes no memory.
pub fn empty_work(alloc: Global, catalog: &Catalog) -> Work
    ensures { result ≡ empty_work catalog.now }
{
    Work {
        open_units: RowLists::new(alloc, catalog.windows.len()),
        emitted: RowLists::new(alloc, catalog.streams.len()),
        reply: Seq::new(alloc),
    }
}
