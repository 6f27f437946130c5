//! Queries over the rows that an execution sees.

ghost use Rattle.std.specs.Prelude.{◌≡◌, IfOk, IfErr, IfSome, None, Ok};
ghost use Rattle.ss_model.specs.Stops.{StopsAs};
ghost use Rattle.ss_rows.specs.Frames.{params_of};
ghost use Rattle.ss_shard.specs.Shards.{HasTables, HasWindows};
ghost use Rattle.ss_plan.specs.Plans.{RowsAreEnough, query_of_seen};
ghost use Rattle.ss_plan.specs.Statements.{SplitByKeys};
ghost use Rattle.ss_plan.specs.StatementMeanings.{QueryGives, QueryStops};

use crate::found::FoundRows;
use crate::inputs::Inputs;
use crate::plan::planned_rows;
use crate::visible_rows::{ShardRows, rows_seen};
use ss_model::{Catalog, RunError};
use ss_rows::{Frame, run_query};
use ss_shard::Shard;
use ss_sql_trees::{Query, SourceId};
use ss_value::{NoMemory, Row, Rows, Value};
use std::alloc::Global;

/// The rows that may pass the WHERE of a query of one table, by the plan for it, and None where its sources are to be
/// walked: by a scan, in a JOIN, and where the source is no table. Costs what the plan costs.
fn rows_of_query<'a, 'b>(
    alloc: Global,
    from: ShardRows<'a, 'b>,
    query: &Query,
    params: &Row,
) -> Result<Option<FoundRows<'a>>, NoMemory>
    requires tables { HasTables from.catalog.now from.shard.now.tables }
    ensures ok { IfOk result (λ found. IfSome found (λ rows. query.now.joined ≡ None)) }
    ensures enough { IfOk result (λ found. IfSome found (RowsAreEnough from.entry query.now.from params.now query.now.test)) }
{
    if query.joined.is_some() {
        return Ok(None);
    }
    let SourceId::Table(table) = query.from else {
        return Ok(None);
    };
    planned_rows(alloc, from, table, &query.test, params)
}

/// The rows of a query over the rows that are seen, of which those of its one table are found by the plan for its WHERE.
/// Aborts as the query does.
///
/// Costs what the query costs, with what the plan costs in place of the walk.
fn planned_query<'a, 'b>(
    alloc: Global,
    from: ShardRows<'a, 'b>,
    query: &Query,
    frame: &Frame,
) -> Result<Rows, RunError>
    requires tables { HasTables from.catalog.now from.shard.now.tables }
    ensures ok { IfOk result (λ rows. query_of_seen from.entry (params_of frame.now) query.now ≡ Ok rows) }
    ensures stops { IfErr result (StopsAs (query_of_seen from.entry (params_of frame.now) query.now)) }
{
    match rows_of_query(alloc, from, query, frame.params())? {
        None => run_query(alloc, &from, query, frame),
        Some(found) => run_query(alloc, &found, query, frame),
    }
}

/// The rows of a query over the rows that the execution sees. Aborts as the query does.
///
/// Costs what the query costs, with a walk over each of its sources; a query of one table, without a JOIN, costs what the plan
/// for its WHERE costs in place of that walk.
pub fn query_shard(
    alloc: Global,
    catalog: &Catalog,
    shard: &Shard,
    query: &Query,
    frame: &Frame,
    inputs: &Inputs,
) -> Result<Rows, RunError>
    requires tables { HasTables catalog.now shard.now.tables }
    requires windows { HasWindows catalog.now shard.now.windows }
    requires keyed { SplitByKeys catalog.now }
    ensures ok { IfOk result (QueryGives catalog.now frame.now inputs.now query.now shard.now) }
    ensures stops { IfErr result (QueryStops catalog.now frame.now inputs.now query.now shard.now) }
{
    let zero = Value::Int(0);
    let from = rows_seen(catalog, shard, *frame, *inputs, &zero);
    planned_query(alloc, from, query, frame)
}
