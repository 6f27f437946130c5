//! What a statement makes of tables, or stages in a window.

ghost use Rattle.std.specs.Prelude.{◌≡◌, [], IfOk, IfErr, OnOk, Ok};
ghost use Rattle.ss_model.specs.Results.{try_map, try_fold};
ghost use Rattle.ss_model.specs.Expressions.{expr_value};
ghost use Rattle.ss_model.specs.Statements.{insert_row, insert_into};
ghost use Rattle.ss_model.specs.Stops.{StopsAs};
ghost use Rattle.ss_model_computed.specs.State.{contents_of, context_of};
ghost use Rattle.ss_model_computed.specs.Effects.{LeavesContents};
ghost use Rattle.ss_model_computed.specs.Meanings.{InsertMakes, StatementMakes, StatementStops};

use crate::contents::{Contents, Context};
use crate::edits::{delete_rows, update_rows};
use crate::lists::one_item;
use crate::queries::context_query;
use crate::stored_rows::insert_row;
use ss_model::{Catalog, RunError};
use ss_model_computed_sql::evaluate;
use ss_sql_trees::{Expr, Query, Statement, Target};
use ss_value::{Row, Rows, Seq};
use std::alloc::Global;

/// What a statement made: it wrote to tables, or these rows are to be staged in a window. Staging sets triggers off,
/// so it is left to `triggers`.
#[derive(Drop)]
pub enum Effect {
    Wrote,
    Staged { window: u16, rows: Rows },
}

/// The row of the values of expressions that see no row, in order. Aborts as the first one that does.
fn given_row(alloc: Global, params: &Row, values: &[Expr]) -> Result<Row, RunError>
    ensures ok { IfOk result (λ row. try_map (expr_value [] params.now) values.now ≡ Ok row) }
    ensures stops { IfErr result (λ stop. StopsAs (try_map (expr_value [] params.now) values.now) stop) }
{
    let nothing = Seq::new(alloc);
    let mut row = Seq::new(alloc);
    for value in values {
        let value = evaluate(alloc, value, &nothing, params)?;
        row.push(value)?;
    }
    Ok(row)
}

/// Inserts rows into a table one by one. Aborts as the first row that does.
fn insert_rows(
    alloc: Global,
    catalog: &Catalog,
    table: u16,
    rows: Rows,
    contents: &mut Contents,
) -> Result<(), RunError>
    ensures ok { OnOk result (try_fold (insert_row catalog.now table) rows (contents_of contents.old) ≡ Ok (contents_of contents.new)) }
    ensures stops { IfErr result (λ stop. StopsAs (try_fold (insert_row catalog.now table) rows (contents_of contents.old)) stop) }
{
    for row in rows.into_vec() {
        insert_row(alloc, catalog, table, row, contents)?;
    }
    Ok(())
}

/// Inserts rows into a table, or hands them back to be staged where the target is a window.
fn insert_into(
    alloc: Global,
    context: &Context,
    target: Target,
    rows: Rows,
    contents: &mut Contents,
) -> Result<Effect, RunError>
    ensures ok { IfOk result (InsertMakes context.now target rows contents.old contents.new) }
    ensures keeps { IfOk result (λ effect. LeavesContents effect contents.old contents.new) }
    ensures stops { IfErr result (λ stop. StopsAs (insert_into (context_of context.now) target rows (contents_of contents.old)) stop) }
{
    match target {
        Target::Table(table) => {
            insert_rows(alloc, context.catalog, table, rows, contents)?;
            Ok(Effect::Wrote)
        }
        Target::Window(window) => Ok(Effect::Staged { window, rows }),
    }
}

/// An INSERT of the row of these values.
fn insert_values(
    alloc: Global,
    context: &Context,
    inserted: &Rows,
    params: &Row,
    target: Target,
    values: &Seq<Expr>,
    contents: &mut Contents,
) -> Result<Effect, RunError>
    ensures ok { IfOk result (StatementMakes context.now inserted.now params.now (Statement.InsertValues target values.now) contents.old contents.new) }
    ensures keeps { IfOk result (λ effect. LeavesContents effect contents.old contents.new) }
    ensures stops { IfErr result (StatementStops context.now inserted.now params.now (Statement.InsertValues target values.now) contents.old) }
{
    let row = given_row(alloc, params, values.as_slice())?;
    let rows = one_item(alloc, row)?;
    insert_into(alloc, context, target, rows, contents)
}

/// An INSERT of the rows of a query.
fn insert_query(
    alloc: Global,
    context: &Context,
    inserted: &Rows,
    params: &Row,
    target: Target,
    query: &Query,
    contents: &mut Contents,
) -> Result<Effect, RunError>
    ensures ok { IfOk result (StatementMakes context.now inserted.now params.now (Statement.InsertQuery target query.now) contents.old contents.new) }
    ensures keeps { IfOk result (λ effect. LeavesContents effect contents.old contents.new) }
    ensures stops { IfErr result (StatementStops context.now inserted.now params.now (Statement.InsertQuery target query.now) contents.old) }
{
    let rows = context_query(alloc, context, inserted, params, query, contents)?;
    insert_into(alloc, context, target, rows, contents)
}

/// What a statement makes of tables, or stages. Where it stages rows, tables and windows are as before.
pub fn statement_effect(
    alloc: Global,
    context: &Context,
    inserted: &Rows,
    params: &Row,
    statement: &Statement,
    contents: &mut Contents,
) -> Result<Effect, RunError>
    ensures ok { IfOk result (StatementMakes context.now inserted.now params.now statement.now contents.old contents.new) }
    ensures keeps { IfOk result (λ effect. LeavesContents effect contents.old contents.new) }
    ensures stops { IfErr result (StatementStops context.now inserted.now params.now statement.now contents.old) }
{
    match statement {
        Statement::InsertValues { target, values } => {
            insert_values(alloc, context, inserted, params, *target, values, contents)
        }
        Statement::InsertQuery { target, query } => {
            insert_query(alloc, context, inserted, params, *target, query, contents)
        }
        Statement::Update { table, sets, test } => {
            update_rows(alloc, context, params, *table, sets, test, contents)?;
            Ok(Effect::Wrote)
        }
        Statement::Delete { table, test } => {
            delete_rows(alloc, context, params, *table, test, contents)?;
            Ok(Effect::Wrote)
        }
    }
}
