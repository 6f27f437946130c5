//! What procedures are, emit to and own.

ghost use Rattle.std.specs.Prelude.{◌≡◌, length, slice_get};
ghost use Rattle.ss_model.specs.Contents.{window_owner};
ghost use Rattle.ss_model.specs.Orders.{procedure_emits};
ghost use Rattle.ss_catalog_checks.specs.StreamEnds.{is_interior};
ghost use Rattle.ss_catalog_checks.specs.Runs.{is_owner, runs_in};

use ss_model::{Catalog, On, ProcedureKind};

/// Whether procedures of this kind are interior.
pub(crate) fn is_interior(kind: ProcedureKind) -> bool
    ensures { result ≡ is_interior kind }
{
    match kind {
        ProcedureKind::Call => false,
        ProcedureKind::Border => false,
        ProcedureKind::Interior => true,
    }
}

/// Whether a procedure emits to this stream. Linear in its body.
pub(crate) fn procedure_emits(catalog: &Catalog, procedure: usize, stream: usize) -> bool
    ensures { result ≡ procedure_emits catalog.now procedure stream }
{
    match catalog.procedures.get(procedure) {
        Some(procedure) => procedure.emits(stream),
        None => false,
    }
}

/// Whether a procedure owns a window.
fn owns(catalog: &Catalog, window: usize, procedure: usize) -> bool
    ensures { result ≡ is_owner procedure (window_owner catalog.now window) }
{
    match catalog.windows.get(window) {
        Some(window) => usize::from(window.owner) == procedure,
        None => false,
    }
}

/// Whether a trigger that waits for this runs in a procedure: for a stream, where the procedure emits to it; for a
/// window, where the procedure owns it. Linear in the procedure's body.
pub(crate) fn runs_in(catalog: &Catalog, on: On, procedure: usize) -> bool
    ensures { result ≡ runs_in catalog.now on procedure }
{
    match on {
        On::Stream(stream) => procedure_emits(catalog, procedure, usize::from(stream)),
        On::Window(window) => owns(catalog, usize::from(window), procedure),
    }
}
