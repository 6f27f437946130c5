//! The slots of the rows that a plan finds.

ghost use Rattle.std.specs.Prelude.{◌≡◌, ◌<◌, length, map, IfOk};
ghost use Rattle.ss_sql_trees.specs.declared.typed.SourceId.TheVariants.{Table as FromTable};
ghost use Rattle.ss_rows.specs.Frames.{params_of};
ghost use Rattle.ss_shard.specs.Shards.{HasTables};
ghost use Rattle.ss_plan.specs.Found.{lent_rows};
ghost use Rattle.ss_plan.specs.Plans.{seen_in, seen_through, SlotsAreEnough};
ghost use Rattle.ss_plan.specs.declared.plan.Plan.TheVariants.{Scan};

use crate::batches::Batches;
use crate::inputs::Inputs;
use crate::plan::{Plan, rows_by_plan};
use crate::visible_rows::{ShardRows, rows_seen};
use ss_model::Catalog;
use ss_rows::{Frame, RowsOf};
use ss_shard::Shard;
use ss_sql_trees::{Expr, SourceId};
use ss_value::{NoMemory, Row, Slot, Value};
use std::alloc::Global;

/// The positions of all rows of a source, in their order.
fn all_positions<X: RowsOf>(
    alloc: Global,
    from: &X,
    source: &SourceId,
) -> Result<Vec<usize>, NoMemory>
    ensures { IfOk result (λ positions. positions.items ≡ map (λ p. p.0) (X.positioned from.now source.now)) }
{
    let mut positions = Vec::new(alloc);
    let (mut at, mut hint) = from.first(source);
    while let Some(position) = at {
        positions.push(position)?;
        let (next, near) = from.after(source, position, hint);
        at = next;
        hint = near;
    }
    Ok(positions)
}

/// The slots of rows, in their order.
fn slots_in<'a>(alloc: Global, rows: &[(Slot, &'a Row)]) -> Result<Vec<Slot>, NoMemory>
    ensures { IfOk result (λ slots. slots.items ≡ map (λ p. p.0) (lent_rows rows.now)) }
{
    let mut slots = Vec::new(alloc);
    for (slot, _) in rows {
        slots.push(*slot)?;
    }
    Ok(slots)
}

/// The slots of the rows of a table that a plan finds, of those that are seen, in the order of their keys.
fn slots_by_plan<'a, 'b>(
    alloc: Global,
    from: ShardRows<'a, 'b>,
    table: u16,
    plan: Plan,
    test: &Option<Expr>,
    params: &Row,
) -> Result<Vec<Slot>, NoMemory>
    requires tables { HasTables from.catalog.now from.shard.now.tables }
    requires there { table < length from.catalog.now.tables }
    ensures ok { IfOk result (λ slots. SlotsAreEnough (seen_in from.entry (FromTable table)) params.now test.now slots.items) }
    ensures scan { plan ≡ Scan → IfOk result (λ slots. slots.items ≡ map (λ p. p.0) (seen_in from.entry (FromTable table))) }
{
    match rows_by_plan(alloc, from, table, plan, test, params)? {
        None => all_positions(alloc, &from, &SourceId::Table(table)),
        Some(found) => slots_in(alloc, found.as_slice()),
    }
}

/// The slots of the rows of a table that a plan finds for a WHERE, of the live rows that an execution with this frame
/// sees: each once, in the order of their keys, and none that may pass is missing. By a `Scan` all of them.
///
/// This holds of whatever plan is asked for: where WHERE names no key or no range for it, it finds more rows than needed,
/// up to all. Costs what the plan costs, and takes memory for the slots.
pub fn slots_of(
    alloc: Global,
    catalog: &Catalog,
    shard: &Shard,
    table: u16,
    plan: Plan,
    test: &Option<Expr>,
    frame: &Frame,
) -> Result<Vec<Slot>, NoMemory>
    requires tables { HasTables catalog.now shard.now.tables }
    requires there { table < length catalog.now.tables }
    ensures ok { IfOk result (λ slots. SlotsAreEnough (seen_through catalog.now frame.now shard.now.tables table) (params_of frame.now) test.now slots.items) }
    ensures scan { plan ≡ Scan → IfOk result (λ slots. slots.items ≡ map (λ p. p.0) (seen_through catalog.now frame.now shard.now.tables table)) }
{
    let zero = Value::Int(0);
    let nothing = Batches::new(alloc);
    let inputs = Inputs {
        batches: &nothing,
        inserted: &[],
    };
    let from = rows_seen(catalog, shard, *frame, inputs, &zero);
    slots_by_plan(alloc, from, table, plan, test, frame.params())
}
