//! The batches that an execution emitted.

ghost use Rattle.std.specs.Prelude.{◌≡◌, ◌≤◌, [], ◌∷◌, ◌++◌, get_or, set, length, IfOk, OnOk};
ghost use Rattle.std.specs.List.{list_any};
ghost use Rattle.ss_model.specs.Database.{emits_to, output_streams};
ghost use Rattle.ss_proc.specs.Entries.{batches_for};

use crate::row_lists::RowLists;
use ss_model::{Catalog, Emitted, Procedure, Step};
use ss_value::{NoMemory, Seq};
use std::alloc::Global;

/// Whether a step of a body emits to a stream.
fn emits_to(stream: u16, step: &Step) -> bool
    ensures { result ≡ emits_to stream step.now }
{
    match step {
        Step::Emit { stream: to, .. } => stream == *to,
        _ => false,
    }
}

/// Whether a body emits to a stream.
fn emits(stream: u16, body: &[Step]) -> bool
    ensures { result ≡ list_any (emits_to stream) body.now }
{
    for step in body {
        if emits_to(stream, step) {
            return true;
        }
    }
    false
}

/// Takes the batch of a stream out of `left`, and puts it behind the others in `batches`.
fn add_output(stream: u16, left: &mut RowLists, batches: &mut Seq<Emitted>) -> Result<(), NoMemory>
    ensures ok { OnOk result (batches.new ≡ batches.old ++ record { stream = stream; rows = get_or left.old stream [] } ∷ []) }
    ensures left { OnOk result (left.new ≡ set left.old stream []) }
{
    let rows = left.take(stream);
    batches.push(Emitted { stream, rows })?;
    Ok(())
}

/// The batch of each stream that a procedure emits to, empty ones too, in rising order of streams. Those of its inner streams
/// go no further. The rows are moved. Linear in the steps of the body for each stream.
pub fn emitted_batches(
    alloc: Global,
    catalog: &Catalog,
    procedure: &Procedure,
    emitted: RowLists,
) -> Result<Seq<Emitted>, NoMemory>
    requires { length catalog.now.streams ≤ 32 }
    ensures { IfOk result (λ batches. batches ≡ batches_for (output_streams catalog.now procedure.now) emitted) }
{
    let mut left = emitted;
    let mut batches = Seq::new(alloc);
    for n in 0..catalog.streams.len() {
        if emits(n as u16, procedure.body.as_slice()) {
            add_output(n as u16, &mut left, &mut batches)?;
        }
    }
    Ok(batches)
}
