//! A whole body, and what it leaves.

ghost use Rattle.std.specs.Prelude.{◌≡◌, IfOk, IfErr, Ok, Err};
ghost use Rattle.std.specs.Option.{option_copied};
ghost use Rattle.ss_model.specs.Bodies.{run_body, execution_start};
ghost use Rattle.ss_model.specs.Database.{body_result, run_procedure, split_value_for, with_body};
ghost use Rattle.ss_model.specs.Stops.{StopsAs};
ghost use Rattle.ss_model_computed.specs.State.{contents_of, context_of, execution_of};
ghost use Rattle.ss_model_computed.specs.Runs.{body_result_of};
ghost use Rattle.ss_model_computed.specs.Meanings.{BodyLeaves};

use crate::bodies::open_units::close_owned;
use crate::bodies::steps::execute_steps;
use crate::contents::{Contents, Context, Execution};
use crate::lists::empty_lists;
use ss_model::{Catalog, Outcome, Procedure, Reason, RunError, Step, Touch};
use ss_model_computed_sql::queries::column_value;
use ss_value::{NoMemory, Row, Rows, Seq, Value};
use std::alloc::Global;

/// What the run of a body leaves: tables and windows, the outcome, and its batch per stream.
#[derive(Drop)]
pub struct BodyResult {
    pub contents: Contents,
    pub outcome: Outcome,
    pub emitted: Seq<Rows>,
}

/// What a body leaves that was aborted: the tables and windows as they were, and empty batches.
fn aborted_result(
    alloc: Global,
    catalog: &Catalog,
    contents: &Contents,
    reason: Reason,
) -> Result<BodyResult, NoMemory>
    ensures { IfOk result (λ r. body_result catalog.now (contents_of contents.now) (Err reason) ≡ body_result_of r) }
{
    let emitted = empty_lists(alloc, catalog.streams.len())?;
    // The body's own copy is gone with what it wrote, so an abort copies the contents as they were.
    let contents = contents.copy(alloc)?;
    Ok(BodyResult {
        contents,
        outcome: Outcome::Aborted(reason),
        emitted,
    })
}

/// An execution that begins on these tables and windows: no open unit, no batch and no reply yet.
fn execution_start(
    alloc: Global,
    catalog: &Catalog,
    contents: Contents,
) -> Result<Execution, NoMemory>
    ensures { IfOk result (λ w. execution_of w ≡ execution_start catalog.now (contents_of contents)) }
{
    let open_units = empty_lists(alloc, catalog.windows.len())?;
    let emitted = empty_lists(alloc, catalog.streams.len())?;
    Ok(Execution {
        contents,
        open_units,
        emitted,
        reply: Seq::new(alloc),
    })
}

/// Runs the steps of a body, and then closes the procedure's windows of batches, in written order.
///
/// Costs what its steps and their triggers do, and copies of the batches that it emits. An abort and out of memory drop
/// the tables and windows that were passed.
///
/// Source: transaction executions of S-Store (Meehan et al., PVLDB 8, 2015, section 2).
pub fn run_body(
    alloc: Global,
    context: &Context,
    body: &Seq<Step>,
    contents: Contents,
) -> Result<Execution, RunError>
    ensures ok { IfOk result (λ w. run_body (context_of context.now) body.now (contents_of contents) ≡ Ok (execution_of w)) }
    ensures stops { IfErr result (StopsAs (run_body (context_of context.now) body.now (contents_of contents))) }
{
    let mut execution = execution_start(alloc, context.catalog, contents)?;
    execute_steps(alloc, context, body.as_slice(), &mut execution)?;
    close_owned(alloc, context, &mut execution)?;
    Ok(execution)
}

/// A copy of the value that a procedure's touch set limits split columns to: of the argument that the set is by, and
/// else none.
fn split_value_for(alloc: Global, touch: &Touch, args: &Row) -> Result<Option<Value>, NoMemory>
    ensures { IfOk result (λ value. value ≡ split_value_for touch.now args.now) }
{
    match touch {
        Touch::Arg(arg) => Ok(Some(column_value(alloc, args, usize::from(*arg))?)),
        Touch::Part(_) => Ok(None),
        Touch::Multi(_) => Ok(None),
        Touch::All => Ok(None),
    }
}

/// Runs the body of a procedure on a copy of the tables and windows, limited to this value of split columns, if any.
fn run_limited<'a>(
    alloc: Global,
    catalog: &'a Catalog,
    number: u16,
    body: &'a Seq<Step>,
    args: &'a Row,
    batches: &'a Seq<Rows>,
    inner: &'a Seq<u16>,
    split_value: Option<&'a Value>,
    contents: &'a Contents,
) -> Result<BodyResult, NoMemory>
    ensures { IfOk result (BodyLeaves catalog.now number body.now args.now batches.now inner.now (option_copied split_value.entry) contents.now) }
{
    let context = Context {
        catalog,
        procedure: number,
        args,
        batches,
        inner,
        split_value,
    };
    match run_body(alloc, &context, body, contents.copy(alloc)?) {
        Ok(execution) => Ok(execution.into_result()),
        Err(RunError::Abort(reason)) => aborted_result(alloc, catalog, contents, reason),
        Err(RunError::NoMemory) => Err(NoMemory),
    }
}

/// Runs a procedure with this body, arguments and batches, on a copy of the tables and windows.
///
/// After an abort, tables and windows are as they were, and each batch is empty. Linear in all that tables and windows
/// hold, beside what the body costs.
pub fn run_procedure(
    alloc: Global,
    catalog: &Catalog,
    number: u16,
    procedure: &Procedure,
    body: &Seq<Step>,
    args: &Row,
    batches: &Seq<Rows>,
    contents: &Contents,
) -> Result<BodyResult, NoMemory>
    ensures { IfOk result (λ r.
        run_procedure catalog.now number (with_body body.now procedure.now) args.now batches.now (contents_of contents.now) ≡ body_result_of r) }
{
    let split_value = split_value_for(alloc, &procedure.touch, args)?;
    run_limited(
        alloc,
        catalog,
        number,
        body,
        args,
        batches,
        &procedure.inner,
        split_value.as_ref(),
        contents,
    )
}
