//! SQL that a procedure's touch set does not allow.

ghost use Rattle.std.specs.Prelude.{◌≡◌, ◌++◌, ◌∷◌, [], map, slice_get, not, IfOk, OnOk};
ghost use Rattle.std.specs.List.{list_any, position, flat_map};
ghost use Rattle.ss_model.specs.Orders.{procedure_has};
ghost use Rattle.ss_model.specs.Settling.{procedure_numbers};
ghost use Rattle.ss_catalog_checks.specs.Firsts.{IsFirstWith};
ghost use Rattle.ss_catalog_checks.specs.Localities.{is_local_statement, is_local_inner, is_local_query, verdicts, first_refused, refused_step, breaks_in, refused_statement, IsFirstSite};

use crate::allowed::{is_local_query, is_local_statement};
use crate::procedures::runs_in;
use ss_model::{Catalog, Inner, On, Step, Touch};
use ss_sql_trees::Statement;
use ss_value::{NoMemory, Seq};
use std::alloc::Global;

/// A SQL text of a catalogue, by numbers from 0: of a procedure and its step, or of a trigger and its statement. Steps
/// count in document order, a `for_each` before its inner steps.
#[derive(Clone, Copy, Debug, PartialEq, Eq, Drop)]
pub enum Site {
    /// A step of a procedure's body.
    Step { procedure: usize, step: usize },
    /// A statement of a trigger.
    Statement { trigger: usize, statement: usize },
}

/// Whether a step inside a `for_each` is allowed.
fn is_local_inner(catalog: &Catalog, touch: &Touch, inner: &Inner) -> bool
    ensures { result ≡ is_local_inner catalog.now touch.now inner.now }
{
    match inner {
        Inner::Sql(statement) => is_local_statement(catalog, touch, statement),
        Inner::AbortIf { test, .. } => is_local_query(catalog, touch, &test.query),
    }
}

/// Adds a verdict: whether a step is allowed.
fn add(all: &mut Seq<bool>, verdict: bool) -> Result<(), NoMemory>
    ensures { OnOk result (all.new ≡ all.old ++ verdict ∷ []) }
{
    all.push(verdict)?;
    Ok(())
}

/// Adds the verdicts on the inner steps of a `for_each`.
fn add_inner(
    catalog: &Catalog,
    touch: &Touch,
    body: &[Inner],
    all: &mut Seq<bool>,
) -> Result<(), NoMemory>
    ensures { OnOk result (all.new ≡ all.old ++ map (is_local_inner catalog.now touch.now) body.now) }
{
    for inner in body {
        add(all, is_local_inner(catalog, touch, inner))?;
    }
    Ok(())
}

/// Adds the verdicts on a step and its inner steps.
fn add_step(
    catalog: &Catalog,
    touch: &Touch,
    step: &Step,
    all: &mut Seq<bool>,
) -> Result<(), NoMemory>
    ensures { OnOk result (all.new ≡ all.old ++ verdicts catalog.now touch.now step.now) }
{
    match step {
        Step::Sql(statement) => add(all, is_local_statement(catalog, touch, statement)),
        Step::AbortIf { test, .. } => add(all, is_local_query(catalog, touch, &test.query)),
        Step::ForEach { body, .. } => {
            // Has no SQL of its own, but a number.
            add(all, true)?;
            add_inner(catalog, touch, body.as_slice(), all)
        }
        Step::Emit { query, .. } => add(all, is_local_query(catalog, touch, query)),
        Step::Local { query, .. } => add(all, is_local_query(catalog, touch, query)),
        Step::Return(query) => add(all, is_local_query(catalog, touch, query)),
    }
}

/// Whether each step of a body is allowed, in document order, so that a verdict's index is the number of its step.
fn body_verdicts(
    alloc: Global,
    catalog: &Catalog,
    touch: &Touch,
    body: &[Step],
) -> Result<Seq<bool>, NoMemory>
    ensures { IfOk result (λ all. all ≡ flat_map (verdicts catalog.now touch.now) body.now) }
{
    let mut all = Seq::new(alloc);
    for step in body {
        add_step(catalog, touch, step, &mut all)?;
    }
    Ok(all)
}

/// The number of the first step that is not allowed.
fn first_no(all: &[bool]) -> Option<usize>
    ensures { result ≡ position not all.now }
{
    all.iter().position(|verdict| !*verdict)
}

/// The first step of a procedure that its touch set does not allow.
fn refused_step(
    alloc: Global,
    catalog: &Catalog,
    procedure: usize,
) -> Result<Option<usize>, NoMemory>
    ensures { IfOk result (λ step. step ≡ refused_step catalog.now procedure) }
{
    match catalog.procedures.get(procedure) {
        Some(found) => {
            let all = body_verdicts(alloc, catalog, &found.touch, found.body.as_slice())?;
            Ok(first_no(all.as_slice()))
        }
        None => Ok(None),
    }
}

/// The first procedure with a step that its touch set does not allow, and the step.
fn first_step(alloc: Global, catalog: &Catalog) -> Result<Option<(usize, usize)>, NoMemory>
    ensures { IfOk result (λ found. IsFirstWith (refused_step catalog.now) found) }
{
    for procedure in 0..catalog.procedures.len() {
        match refused_step(alloc, catalog, procedure)? {
            Some(step) => return Ok(Some((procedure, step))),
            None => {}
        }
    }
    Ok(None)
}

/// Whether a procedure's touch set allows a statement.
fn allows(catalog: &Catalog, procedure: usize, statement: &Statement) -> bool
    ensures { result ≡ procedure_has (λ p. is_local_statement catalog.now p.touch statement.now) (slice_get catalog.now.procedures procedure) }
{
    match catalog.procedures.get(procedure) {
        Some(found) => is_local_statement(catalog, &found.touch, statement),
        None => false,
    }
}

/// Whether a statement of a trigger that waits for this runs in this procedure, whose touch set does not allow it.
fn breaks_in(catalog: &Catalog, on: On, statement: &Statement, procedure: usize) -> bool
    ensures { result ≡ breaks_in catalog.now on statement.now procedure }
{
    runs_in(catalog, on, procedure) && !allows(catalog, procedure, statement)
}

/// Whether a statement of a trigger that waits for this runs in some procedure whose touch set does not allow it.
fn breaks(catalog: &Catalog, on: On, statement: &Statement) -> bool
    ensures { result ≡ list_any (breaks_in catalog.now on statement.now) (procedure_numbers catalog.now) }
{
    (0..catalog.procedures.len()).any(|procedure| breaks_in(catalog, on, statement, procedure))
}

/// The first of these statements that runs in a procedure whose touch set does not allow it.
fn first_breaking(catalog: &Catalog, on: On, statements: &[Statement]) -> Option<usize>
    ensures { result ≡ position (λ s. list_any (breaks_in catalog.now on s) (procedure_numbers catalog.now)) statements.now }
{
    statements
        .iter()
        .position(|statement| breaks(catalog, on, statement))
}

/// The first statement of the trigger of this number that runs in a procedure whose touch set does not allow it.
fn refused_statement(catalog: &Catalog, trigger: usize) -> Option<usize>
    ensures { result ≡ refused_statement catalog.now trigger }
{
    match catalog.triggers.get(trigger) {
        Some(found) => first_breaking(catalog, found.on, found.statements.as_slice()),
        None => None,
    }
}

/// The first trigger with a statement that runs in a procedure whose touch set does not allow it, and the statement.
fn first_statement(catalog: &Catalog) -> Option<(usize, usize)>
    ensures { IsFirstWith (refused_statement catalog.now) result }
{
    for trigger in 0..catalog.triggers.len() {
        match refused_statement(catalog, trigger) {
            Some(statement) => return Some((trigger, statement)),
            None => {}
        }
    }
    None
}

/// The first step that its procedure's touch set does not allow, or else the first statement of a trigger that runs in a
/// procedure whose touch set does not allow it. None where all are allowed.
///
/// SQL is allowed where each table that it names may be used under the touch set: a table on one part under `all`, and
/// under a `part` or `multi` that has this part; a split table under `all` and under `arg`. Under `arg` each query, UPDATE
/// and DELETE has the conjunct `splitcolumn = :thatargument` for each split table that it reads or changes, and each
/// INSERT gives just that argument for the split column. A trigger is checked under each procedure in which it runs.
///
/// Linear in all SQL, and in all bodies for each statement of a trigger. Takes one byte a step of the longest body.
pub fn refused_site(alloc: Global, catalog: &Catalog) -> Result<Option<Site>, NoMemory>
    ensures { IfOk result (λ found. IsFirstSite catalog.now found) }
{
    if let Some((procedure, step)) = first_step(alloc, catalog)? {
        return Ok(Some(Site::Step { procedure, step }));
    }
    match first_statement(catalog) {
        Some((trigger, statement)) => Ok(Some(Site::Statement { trigger, statement })),
        None => Ok(None),
    }
}
