//! Windows and their owners.

ghost use Rattle.std.specs.Prelude.{◌≡◌, ◌&&◌};
ghost use Rattle.std.specs.List.{list_any};
ghost use Rattle.ss_model.specs.Feeds.{goes_into};
ghost use Rattle.ss_model.specs.Settling.{procedure_numbers};
ghost use Rattle.ss_catalog_checks.specs.Owners.{reads_from, joins_with, query_names, statement_names, inner_names, step_names, trigger_names, steps_name, runs_outside, is_named_outside, is_call_procedure, is_misowned, is_refused_window, refused_window};

use crate::procedures::runs_in;
use ss_model::{Catalog, Inner, On, Step, TriggerDef};
use ss_sql_trees::{Joined, Query, SourceId, Statement, Target};

/// Whether a source is this window.
fn reads_from(window: usize, source: SourceId) -> bool
    ensures { result ≡ reads_from window source }
{
    match source {
        SourceId::Window(read) => usize::from(read) == window,
        SourceId::Table(_) => false,
        SourceId::Batch(_) => false,
        SourceId::Inserted => false,
    }
}

/// Whether a JOIN is with this window.
fn joins_with(window: usize, joined: &Option<Joined>) -> bool
    ensures { result ≡ joins_with window joined.now }
{
    match joined {
        Some(joined) => reads_from(window, joined.source),
        None => false,
    }
}

/// Whether a query reads this window.
fn query_names(window: usize, query: &Query) -> bool
    ensures { result ≡ query_names window query.now }
{
    reads_from(window, query.from) || joins_with(window, &query.joined)
}

/// Whether a target is this window.
pub(crate) fn goes_into(window: usize, target: Target) -> bool
    ensures { result ≡ goes_into window target }
{
    match target {
        Target::Window(into) => usize::from(into) == window,
        Target::Table(_) => false,
    }
}

/// Whether a statement reads this window or inserts into it.
fn statement_names(window: usize, statement: &Statement) -> bool
    ensures { result ≡ statement_names window statement.now }
{
    match statement {
        Statement::InsertValues { target, .. } => goes_into(window, *target),
        Statement::InsertQuery { target, query } => goes_into(window, *target)
            || query_names(window, query),
        // UPDATE and DELETE name a table alone.
        Statement::Update { .. } => false,
        Statement::Delete { .. } => false,
    }
}

/// Whether a step inside a `for_each` names this window.
fn inner_names(window: usize, inner: &Inner) -> bool
    ensures { result ≡ inner_names window inner.now }
{
    match inner {
        Inner::Sql(statement) => statement_names(window, statement),
        Inner::AbortIf { test, .. } => query_names(window, &test.query),
    }
}

/// Whether one of these steps inside a `for_each` names this window. A function of its own, since the prover doesn't find
/// the walk inside an arm of a match.
fn inners_name(window: usize, body: &[Inner]) -> bool
    ensures { result ≡ list_any (inner_names window) body.now }
{
    body.iter().any(|inner| inner_names(window, inner))
}

/// Whether a step names this window.
fn step_names(window: usize, step: &Step) -> bool
    ensures { result ≡ step_names window step.now }
{
    match step {
        Step::Sql(statement) => statement_names(window, statement),
        Step::AbortIf { test, .. } => query_names(window, &test.query),
        Step::ForEach { body, .. } => inners_name(window, body.as_slice()),
        Step::Emit { query, .. } => query_names(window, query),
        Step::Local { query, .. } => query_names(window, query),
        Step::Return(query) => query_names(window, query),
    }
}

/// Whether a trigger names this window.
fn trigger_names(window: usize, trigger: &TriggerDef) -> bool
    ensures { result ≡ trigger_names window trigger.now }
{
    trigger
        .statements
        .as_slice()
        .iter()
        .any(|statement| statement_names(window, statement))
}

/// Whether a step of a body names this window. A function of its own as `inners_name` is.
fn body_names(window: usize, body: &[Step]) -> bool
    ensures { result ≡ list_any (step_names window) body.now }
{
    body.iter().any(|step| step_names(window, step))
}

/// Whether this procedure is another than the owner, and a step of it names this window.
fn steps_name(catalog: &Catalog, owner: usize, window: usize, procedure: usize) -> bool
    ensures { result ≡ steps_name catalog.now owner window procedure }
{
    if procedure == owner {
        return false;
    }
    match catalog.procedures.get(procedure) {
        Some(procedure) => body_names(window, procedure.body.as_slice()),
        None => false,
    }
}

/// Whether a step of another procedure than the owner names this window.
fn any_step_names(catalog: &Catalog, owner: usize, window: usize) -> bool
    ensures { result ≡ list_any (steps_name catalog.now owner window) (procedure_numbers catalog.now) }
{
    (0..catalog.procedures.len()).any(|procedure| steps_name(catalog, owner, window, procedure))
}

/// Whether a trigger that waits for this runs in another procedure than the owner.
fn runs_outside(catalog: &Catalog, owner: usize, on: On) -> bool
    ensures { result ≡ runs_outside catalog.now owner on }
{
    (0..catalog.procedures.len()).any(|procedure| procedure != owner
        && runs_in(catalog, on, procedure))
}

/// Whether a trigger that runs in another procedure than the owner names this window.
fn triggers_name(catalog: &Catalog, owner: usize, window: usize) -> bool
    ensures { result ≡ list_any (λ t. trigger_names window t && runs_outside catalog.now owner t.on) catalog.now.triggers }
{
    catalog.triggers.as_slice().iter().any(|trigger| trigger_names(window, trigger)
        && runs_outside(catalog, owner, trigger.on))
}

/// Whether SQL that names this window runs in another procedure than its owner.
fn is_named_outside(catalog: &Catalog, owner: usize, window: usize) -> bool
    ensures { result ≡ is_named_outside catalog.now owner window }
{
    any_step_names(catalog, owner, window) || triggers_name(catalog, owner, window)
}

/// Whether a procedure is a call procedure.
fn is_call_procedure(catalog: &Catalog, procedure: usize) -> bool
    ensures { result ≡ is_call_procedure catalog.now procedure }
{
    match catalog.procedures.get(procedure) {
        Some(procedure) => procedure.kind.is_call(),
        None => false,
    }
}

/// Whether a window is refused: its owner is a call procedure, or SQL that names it runs in another procedure.
fn is_refused(catalog: &Catalog, window: usize) -> bool
    ensures { result ≡ is_refused_window catalog.now window }
{
    match catalog.windows.get(window) {
        Some(found) => {
            let owner = usize::from(found.owner);
            is_call_procedure(catalog, owner) || is_named_outside(catalog, owner, window)
        }
        None => false,
    }
}

/// The first window whose owner is a call procedure, or that is named by SQL which runs in another procedure than the
/// owner. SQL names a window as a source, in a JOIN or as the target of an INSERT; a trigger doesn't name the window that
/// it waits for. None where there is no such window.
///
/// A trigger runs in the procedures that emit to its stream, or in the owner of its window. Takes no memory. For
/// each window linear in all SQL, and in all procedures for each trigger that names it.
///
/// Source: windows are the state of one stored procedure, S-Store (Meehan et al., PVLDB 8, 2015), section 2.
pub fn refused_window(catalog: &Catalog) -> Option<usize>
    ensures { result ≡ refused_window catalog.now }
{
    (0..catalog.windows.len()).find(|window| is_refused(catalog, *window))
}
