//! The owner's windows of batches, which close after the steps.

ghost use Rattle.std.specs.Prelude.{◌≡◌, IfOk, OnOk, IfErr, Ok, Some};
ghost use Rattle.ss_model.specs.Results.{try_fold};
ghost use Rattle.ss_model.specs.Bodies.{is_batches_unit, is_closed_by, owned_batch_windows, close_window};
ghost use Rattle.ss_model.specs.Stops.{StopsAs};
ghost use Rattle.ss_model_computed.specs.State.{context_of, execution_of};
ghost use Rattle.ss_model.specs.Depths.{close_owned};
ghost use Rattle.ss_model_computed.specs.Meanings.{Brings, StepStops};

use crate::contents::{Context, Execution};
use crate::lists::{copy_at, set_at};
use crate::triggers::close_unit;
use ss_model::{Catalog, RunError, WindowDef};
use ss_value::{NoMemory, Seq, Unit};
use std::alloc::Global;

/// Whether units of this kind are batches.
fn is_batches_unit(unit: Unit) -> bool
    ensures { result ≡ is_batches_unit unit }
{
    match unit {
        Unit::Rows => false,
        Unit::Batches => true,
    }
}

/// Whether a window is a window of batches of this procedure.
fn is_closed_by(procedure: u16, window: &WindowDef) -> bool
    ensures { result ≡ is_closed_by procedure (Some window.now) }
{
    window.owner == procedure && is_batches_unit(window.unit)
}

/// The windows of batches of a procedure, in written order. A window's number over 16 bits, which no catalogue has, is
/// answered as out of memory.
fn owned_batch_windows(
    alloc: Global,
    catalog: &Catalog,
    procedure: u16,
) -> Result<Seq<u16>, NoMemory>
    ensures { IfOk result (λ owned. owned ≡ owned_batch_windows catalog.now procedure) }
{
    let mut owned = Seq::new(alloc);
    for (at, window) in catalog.windows.as_slice().iter().enumerate() {
        if is_closed_by(procedure, window) {
            let Ok(number) = u16::try_from(at) else {
                return Err(NoMemory);
            };
            owned.push(number)?;
        }
    }
    Ok(owned)
}

/// Closes the unit that this execution has open for a window, of which none is open afterwards.
fn close_window(
    alloc: Global,
    context: &Context,
    window: u16,
    execution: &mut Execution,
) -> Result<(), RunError>
    ensures ok { OnOk result (close_window (context_of context.now) window (execution_of execution.old) ≡ Ok (execution_of execution.new)) }
    ensures stops { IfErr result (StopsAs (close_window (context_of context.now) window (execution_of execution.old))) }
{
    // The unit leaves the open ones before it closes, as in the definition: the triggers run with none open.
    let unit = copy_at(alloc, &execution.open_units, usize::from(window))?;
    set_at(
        &mut execution.open_units,
        usize::from(window),
        Seq::new(alloc),
    );
    close_unit(alloc, context, window, unit, execution)
}

/// Closes the units of these windows, one after another, up to the first abort.
fn close_each(
    alloc: Global,
    context: &Context,
    windows: &[u16],
    execution: &mut Execution,
) -> Result<(), RunError>
    ensures ok { OnOk result (try_fold (close_window (context_of context.now)) windows.now (execution_of execution.old) ≡ Ok (execution_of execution.new)) }
    ensures stops { IfErr result (StopsAs (try_fold (close_window (context_of context.now)) windows.now (execution_of execution.old))) }
{
    for window in windows {
        close_window(alloc, context, *window, execution)?;
    }
    Ok(())
}

/// Closes the unit of each window of batches that the procedure owns, in written order, up to the first abort.
pub fn close_owned(
    alloc: Global,
    context: &Context,
    execution: &mut Execution,
) -> Result<(), RunError>
    ensures ok { OnOk result (Brings (close_owned (context_of context.now)) execution.old execution.new) }
    ensures stops { IfErr result (StepStops (close_owned (context_of context.now)) execution.old) }
{
    let owned = owned_batch_windows(alloc, context.catalog, context.procedure)?;
    close_each(alloc, context, owned.as_slice(), execution)
}
