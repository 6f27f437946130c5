//! Statements and queries of an execution.

ghost use Rattle.std.specs.Prelude.{◌≡◌, IfOk, IfErr, Ok};
ghost use Rattle.ss_model.specs.Stops.{StopsAs};
ghost use Rattle.ss_shard.specs.Shards.{IsOf, Changed};
ghost use Rattle.ss_plan.specs.Statements.{SplitByKeys, FitsTables, WroteBy};
ghost use Rattle.ss_proc.specs.Meanings.{EffectMade, EffectStops, rows_of_query};

use crate::work::Given;
use ss_model::RunError;
use ss_plan::{Inputs, Wrote, query_shard, run_statement};
use ss_rows::Frame;
use ss_shard::Shard;
use ss_sql_trees::{Query, Statement};
use ss_value::{Row, Rows, Seq};
use std::alloc::Global;

/// Runs a statement with these parameters, where `inserted` are the rows of the emit at hand: it changes tables, or gives the
/// rows to be staged. Aborts as the statement does.
pub fn statement_effect(
    alloc: Global,
    given: &Given,
    inserted: &[Row],
    params: &Row,
    statement: &Statement,
    shard: &mut Shard,
) -> Result<Wrote, RunError>
    requires of_catalog { IsOf given.now.catalog.now shard.old }
    requires keyed { SplitByKeys given.now.catalog.now }
    requires fits { FitsTables given.now.catalog.now statement.now }
    ensures ok { IfOk result (EffectMade given.now inserted.now params.now statement.now shard.old shard.new) }
    ensures stops { IfErr result (EffectStops given.now inserted.now params.now statement.now shard.old) }
    ensures changed { Changed shard.old shard.new }
    ensures unchanged { shard.new.windows ≡ shard.old.windows }
    ensures wrote { IfOk result (λ wrote. WroteBy statement.now shard.old shard.new wrote) }
{
    let frame = Frame {
        args: given.args,
        current: Some(params),
        arg: given.arg,
    };
    let inputs = Inputs {
        batches: given.batches,
        inserted,
    };
    run_statement(alloc, given.catalog, shard, statement, &frame, &inputs)
}

/// The rows of a query with these parameters. Aborts as the query does.
pub fn execution_query(
    alloc: Global,
    given: &Given,
    params: &Row,
    query: &Query,
    shard: &Shard,
) -> Result<Rows, RunError>
    requires of_catalog { IsOf given.now.catalog.now shard.now }
    requires keyed { SplitByKeys given.now.catalog.now }
    ensures ok { IfOk result (λ rows. rows_of_query given.now params.now query.now shard.now ≡ Ok rows) }
    ensures stops { IfErr result (StopsAs (rows_of_query given.now params.now query.now shard.now)) }
{
    let frame = Frame {
        args: given.args,
        current: Some(params),
        arg: given.arg,
    };
    let nothing = Seq::new(alloc);
    let inputs = Inputs {
        batches: given.batches,
        inserted: nothing.as_slice(),
    };
    query_shard(alloc, given.catalog, shard, query, &frame, &inputs)
}
