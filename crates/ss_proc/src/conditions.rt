//! The test of an `abort_if`.

ghost use Rattle.std.specs.Prelude.{◌≡◌, OnOk, IfErr, Ok};
ghost use Rattle.ss_model.specs.Statements.{Execution};
ghost use Rattle.ss_model.specs.Bodies.{check_condition, execute_abort_if};
ghost use Rattle.ss_model.specs.Stops.{StopsAs};
ghost use Rattle.ss_shard.specs.Shards.{IsOf};
ghost use Rattle.ss_plan.specs.Statements.{SplitByKeys};
ghost use Rattle.ss_proc.specs.Executions.{context_of};
ghost use Rattle.ss_proc.specs.Meanings.{Does};
ghost use Rattle.ss_proc.specs.declared.work.Work.{Work};

use crate::statements::execution_query;
use crate::work::Given;
use ss_model::{Reason, RunError, cmp_holds};
use ss_rows::{Tuple, column_in, evaluate, lent_or_zero};
use ss_shard::Shard;
use ss_sql_trees::Condition;
use ss_value::{Row, Rows, compare};
use std::alloc::Global;

/// Compares the first value of a query's one row with the right side, which is evaluated on no row, and aborts with
/// the code where the comparison holds.
///
/// Any other number of rows than one aborts with `NotOneRow`. The value of an empty row counts as 0. Costs the right side.
fn check_condition<'a>(
    alloc: Global,
    params: &'a Row,
    test: &'a Condition,
    code: i64,
    rows: &Rows,
) -> Result<(), RunError>
    ensures ok { OnOk result ((w : Execution) → check_condition params.now test.now code rows.now w ≡ Ok w) }
    ensures stops { IfErr result (λ stop. (w : Execution) → StopsAs (check_condition params.now test.now code rows.now w) stop) }
{
    let [row] = rows.as_slice() else {
        return Err(RunError::Abort(Reason::NotOneRow));
    };
    let right = evaluate(alloc, &test.right, Tuple::Empty, params)?;
    let left = lent_or_zero(column_in(row, 0));
    if cmp_holds(test.cmp, compare(left.as_value(), right.as_value())) {
        Err(RunError::Abort(Reason::Raised(code)))
    } else {
        Ok(())
    }
}

/// Runs a condition's query, then compares its one row with the right side.
///
/// Aborts as the query and the right side do, with `NotOneRow`, or with the code. Changes nothing. Costs the query and the
/// right side.
pub fn abort_if(
    alloc: Global,
    given: &Given,
    params: &Row,
    test: &Condition,
    code: i64,
    shard: &Shard,
) -> Result<(), RunError>
    requires of_catalog { IsOf given.now.catalog.now shard.now }
    requires keyed { SplitByKeys given.now.catalog.now }
    ensures { (work : Work) → Does (execute_abort_if (context_of given.now) params.now test.now code) result shard.now work shard.now work }
{
    let rows = execution_query(alloc, given, params, &test.query, shard)?;
    check_condition(alloc, params, test, code, &rows)
}
