//! The rows that UPDATE and DELETE choose.

ghost use Rattle.std.specs.Prelude.{◌<◌, length, IfOk, IfErr};
ghost use Rattle.ss_value.specs.declared.value.Value.TheVariants.{Int};
ghost use Rattle.ss_model.specs.Stops.{StopsAs};
ghost use Rattle.ss_rows.specs.Frames.{params_of};
ghost use Rattle.ss_shard.specs.Shards.{HasTables};
ghost use Rattle.ss_plan.specs.Scans.{slots_passing};
ghost use Rattle.ss_plan.specs.Statements.{split_of, SplitByKeys, Matches};
ghost use Rattle.ss_plan.specs.StatementMeanings.{entries_matching, seen_matching, MatchesSeen};

use crate::inputs::Inputs;
use crate::passing::PassingSlots;
use crate::plan::planned_positions;
use crate::visible_rows::{ShardRows, rows_seen};
use ss_model::{Catalog, RunError};
use ss_rows::Frame;
use ss_shard::Shard;
use ss_sql_trees::Expr;
use ss_value::{Row, Value};
use std::alloc::Global;

/// The slots of those of these rows of a table that pass WHERE, by key. Aborts as the first test that aborts.
///
/// The contract of `planned_positions` in the words of the model, whose statements choose entries of a table.
fn matching_slots<'a, 'b>(
    alloc: Global,
    from: ShardRows<'a, 'b>,
    table: u16,
    test: &Option<Expr>,
    params: &Row,
) -> Result<PassingSlots, RunError>
    requires tables { HasTables from.catalog.now from.shard.now.tables }
    requires keyed { SplitByKeys from.catalog.now }
    requires there { table < length from.catalog.now.tables }
    ensures ok { IfOk result (λ slots. MatchesSeen from.entry table params.now test.now (slots_passing slots)) }
    ensures stops { IfErr result (StopsAs (seen_matching from.entry table params.now test.now)) }
{
    planned_positions(alloc, from, table, test, params)
}

/// The slots of the rows of a table that the execution sees and that pass WHERE, by key. Aborts as the first test that
/// aborts.
///
/// Costs what the plan for WHERE costs, and a test of each row that it finds. Takes memory for the plan, and for a list of the
/// slots where the plan is no key.
pub fn chosen_slots(
    alloc: Global,
    catalog: &Catalog,
    shard: &Shard,
    table: u16,
    test: &Option<Expr>,
    frame: &Frame,
    inputs: &Inputs,
) -> Result<PassingSlots, RunError>
    requires tables { HasTables catalog.now shard.now.tables }
    requires keyed { SplitByKeys catalog.now }
    requires there { table < length catalog.now.tables }
    ensures ok { IfOk result (λ slots. Matches catalog.now (split_of frame.now) shard.now table (params_of frame.now) test.now (slots_passing slots)) }
    ensures stops { IfErr result (StopsAs (entries_matching catalog.now (split_of frame.now) shard.now table (params_of frame.now) test.now)) }
{
    let zero = Value::Int(0);
    let from = rows_seen(catalog, shard, *frame, *inputs, &zero);
    matching_slots(alloc, from, table, test, frame.params())
}
