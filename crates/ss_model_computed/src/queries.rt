//! Queries in an execution: the rows of their sources, and the rows that they give.

ghost use Rattle.std.specs.Prelude.{◌≡◌, IfOk, IfErr, Ok};
ghost use Rattle.std.specs.FinMap as finmap;
ghost use Rattle.ss_model.specs.Queries.{join_source};
ghost use Rattle.ss_model.specs.Statements.{context_query};
ghost use Rattle.ss_model.specs.Stops.{StopsAs};
ghost use Rattle.ss_model_computed.specs.State.{contents_of, context_of};
ghost use Rattle.ss_model_computed.specs.Meanings.{table_seen, source_seen};

use crate::contents::{Contents, Context};
use crate::lists::copy_at;
use crate::stored_rows::{rows_of, visible_entries};
use crate::windows::visible_rows;
use ss_model::RunError;
use ss_model_computed_sql::query_rows;
use ss_sql_trees::{Joined, Query, SourceId};
use ss_value::{Copies, NoMemory, Row, Rows, Seq};
use std::alloc::Global;

/// The rows of a table that an execution sees, in key order.
#[tactic(auto, unfolding(ss_model::specs::Contents::visible_table))]
fn table_rows(
    alloc: Global,
    context: &Context,
    contents: &Contents,
    table: u16,
) -> Result<Rows, NoMemory>
    ensures { IfOk result (λ rows. rows ≡ finmap.values (table_seen context.now contents.now table)) }
{
    let entries = visible_entries(alloc, context, contents, table)?;
    rows_of(alloc, entries)
}

/// Copies of the rows of a source, where `inserted` are the rows just inserted.
fn source_rows(
    alloc: Global,
    context: &Context,
    inserted: &Rows,
    contents: &Contents,
    source: SourceId,
) -> Result<Rows, NoMemory>
    ensures { IfOk result (λ rows. rows ≡ source_seen context.now inserted.now contents.now source) }
{
    match source {
        SourceId::Table(table) => table_rows(alloc, context, contents, table),
        SourceId::Window(window) => visible_rows(alloc, context.catalog, window, contents),
        SourceId::Batch(batch) => copy_at(alloc, context.batches, usize::from(batch)),
        SourceId::Inserted => inserted.duplicate(alloc),
    }
}

/// Copies of the rows of the JOIN's source, and no row where a query has no JOIN.
fn joined_rows(
    alloc: Global,
    context: &Context,
    inserted: &Rows,
    contents: &Contents,
    joined: &Option<Joined>,
) -> Result<Rows, NoMemory>
    ensures { IfOk result (λ rows. join_source (λ _. rows) joined.now ≡ join_source (source_seen context.now inserted.now contents.now) joined.now) }
{
    match joined {
        Some(joined) => source_rows(alloc, context, inserted, contents, joined.source),
        None => Ok(Seq::new(alloc)),
    }
}

/// The rows of a query, where `inserted` are the rows just inserted.
///
/// Aborts as `query_rows` does: WHERE on all tuples first, and then the items. Costs as it does, with a copy of all
/// rows of both sources.
pub fn context_query(
    alloc: Global,
    context: &Context,
    inserted: &Rows,
    params: &Row,
    query: &Query,
    contents: &Contents,
) -> Result<Rows, RunError>
    ensures ok { IfOk result (λ rows. context_query (context_of context.now) inserted.now params.now query.now (contents_of contents.now) ≡ Ok rows) }
    ensures stops { IfErr result (λ stop. StopsAs (context_query (context_of context.now) inserted.now params.now query.now (contents_of contents.now)) stop) }
{
    let outer = source_rows(alloc, context, inserted, contents, query.from)?;
    let joined = joined_rows(alloc, context, inserted, contents, &query.joined)?;
    query_rows(alloc, query, &outer, &joined, params)
}
