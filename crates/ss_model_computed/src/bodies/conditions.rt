//! The test of an `abort_if`.

ghost use Rattle.std.specs.Prelude.{◌≡◌, OnOk, IfErr, Ok};
ghost use Rattle.ss_model.specs.Expressions.{cmp_holds};
ghost use Rattle.ss_model.specs.Statements.{Execution as ModelExecution};
ghost use Rattle.ss_model.specs.Bodies.{check_condition, execute_abort_if};
ghost use Rattle.ss_model.specs.Stops.{StopsAs};
ghost use Rattle.ss_model_computed.specs.State.{context_of};
ghost use Rattle.ss_model_computed.specs.Meanings.{Brings, StepStops};

use crate::contents::{Context, Execution};
use crate::statements::context_query;
use ss_model::{Reason, RunError};
use ss_model_computed_sql::evaluate;
use ss_model_computed_sql::queries::column_value;
use ss_sql_trees::{Cmp, Condition};
use ss_value::{Row, Rows, Seq, compare};
use std::alloc::Global;
use std::cmp::Ordering;

/// Whether a comparison holds, where `order` is that of its left value to its right one.
fn holds_of(comparison: Cmp, order: Ordering) -> bool
    ensures { result ≡ cmp_holds comparison order }
{
    match comparison {
        Cmp::Eq => order.is_eq(),
        Cmp::Ne => order.is_ne(),
        Cmp::Lt => order.is_lt(),
        Cmp::Le => order.is_le(),
        Cmp::Gt => order.is_gt(),
        Cmp::Ge => order.is_ge(),
    }
}

/// Compares the item of a query's one row with the right side. Aborts with `NotOneRow` where there is not one row, and
/// with `Raised` of the code where the comparison holds.
fn check_condition(
    alloc: Global,
    params: &Row,
    test: &Condition,
    code: i64,
    rows: &Rows,
) -> Result<(), RunError>
    ensures ok { OnOk result ((w : ModelExecution) → check_condition params.now test.now code rows.now w ≡ Ok w) }
    ensures stops { IfErr result (λ stop. (w : ModelExecution) → StopsAs (check_condition params.now test.now code rows.now w) stop) }
{
    let [row] = rows.as_slice() else {
        return Err(RunError::Abort(Reason::NotOneRow));
    };
    let nothing = Seq::new(alloc);
    let right = evaluate(alloc, &test.right, &nothing, params)?;
    let left = column_value(alloc, row, 0)?;
    if holds_of(test.cmp, compare(&left, &right)) {
        Err(RunError::Abort(Reason::Raised(code)))
    } else {
        Ok(())
    }
}

/// Runs the query of an `abort_if`, then compares its one row with the right side. Writes nothing.
pub fn execute_abort_if(
    alloc: Global,
    context: &Context,
    params: &Row,
    test: &Condition,
    code: i64,
    execution: &Execution,
) -> Result<(), RunError>
    ensures ok { OnOk result (Brings (execute_abort_if (context_of context.now) params.now test.now code) execution.now execution.now) }
    ensures stops { IfErr result (StepStops (execute_abort_if (context_of context.now) params.now test.now code) execution.now) }
{
    let nothing = Seq::new(alloc);
    let rows = context_query(
        alloc,
        context,
        &nothing,
        params,
        &test.query,
        &execution.contents,
    )?;
    check_condition(alloc, params, test, code, &rows)
}
