//! Whole statements: what they make, and the triggers that this sets off.

ghost use Rattle.std.specs.Prelude.{IfErr, OnOk};
ghost use Rattle.ss_model.specs.Depths.{run_and_fire};
ghost use Rattle.ss_model_computed.specs.Meanings.{Brings, StepStops};
ghost use Rattle.ss_model_computed.specs.State.{context_of};

use crate::contents::{Context, Execution};
pub use crate::queries::context_query;
use crate::triggers::execute_to_depth;
use ss_model::RunError;
use ss_sql_trees::Statement;
use ss_value::{Row, Rows};
use std::alloc::Global;

/// Runs a statement, and the triggers of the windows that it moves.
///
/// Aborts where the statement or a trigger does. After an abort or out of memory the execution's state is unspecified.
pub fn execute_statement(
    alloc: Global,
    context: &Context,
    inserted: &Rows,
    params: &Row,
    statement: &Statement,
    execution: &mut Execution,
) -> Result<(), RunError>
    ensures ok { OnOk result (Brings (run_and_fire (context_of context.now) inserted.now params.now statement.now) execution.old execution.new) }
    ensures stops { IfErr result (StepStops (run_and_fire (context_of context.now) inserted.now params.now statement.now) execution.old) }
{
    let depth = context.catalog.windows.len();
    execute_to_depth(
        alloc, depth, context, inserted, params, statement, execution,
    )
}
