//! Executions: an entry is executed on the batches that the streams lend it, by any runner, because the run on one thread
//! and recovery both stand on it.

ghost use Rattle.std.specs.Prelude.{◌≡◌, true, map, IfOk, OnErr};
ghost use Rattle.std.specs.List.{AllByRecursion};
ghost use Rattle.ss_model.specs.Accepted.{Accepted};
ghost use Rattle.ss_model.specs.Database.{Database as Model, fits_entry};
ghost use Rattle.ss_shard.specs.Shards.{CanRollBack, IsOf, IsCommitted, Same};
ghost use Rattle.ss_shard.specs.Windows.{HoldsDatabase};
ghost use Rattle.ss_proc.specs.Entries.{EntryHasSource};
ghost use Rattle.ss_proc.specs.Lending.{HasBatch, HasBatches, IsReadyOn, RanWhereReady, batch_at, lent_batches};

use crate::runner::{Executed, Runner};
use ss_model::{Catalog, Entry};
use ss_plan::{Batches, Inputs};
use ss_shard::Shard;
use ss_stream::Streams;
use ss_value::{NoMemory, Seq};
use std::alloc::Global;

/// The batches with this number of these streams, lent and not copied.
fn lend_batches<'a>(
    alloc: Global,
    streams: &'a Streams,
    inputs: &[u16],
    r: u64,
) -> Result<Batches<'a>, NoMemory>
    requires { AllByRecursion (HasBatch streams.now r) inputs.now }
    ensures { IfOk result (λ batches. batches ≡ map (batch_at streams.now r) inputs.now) }
{
    let mut batches = Batches::new(alloc);
    for stream in inputs {
        let Some(batch) = streams.batch(*stream, r) else {
            unreachable!()
        };
        batches.push(batch)?;
    }
    Ok(batches)
}

/// The batches that an entry takes: a step takes from each of its inputs the one with its number, a call or a push none.
fn input_batches<'a>(
    alloc: Global,
    catalog: &Catalog,
    streams: &'a Streams,
    entry: &Entry,
) -> Result<Batches<'a>, NoMemory>
    requires { HasBatches catalog.now streams.now entry.now }
    ensures { IfOk result (λ batches. batches ≡ lent_batches catalog.now streams.now entry.now) }
{
    let Entry::Step { procedure, batch } = entry else {
        return Ok(Batches::new(alloc));
    };
    // The contract gives a procedure that isn't there no inputs, so this is an answer like another.
    let Some(found) = catalog.procedures.get(usize::from(*procedure)) else {
        return Ok(Batches::new(alloc));
    };
    lend_batches(alloc, streams, found.inputs.as_slice(), *batch)
}

/// Executes an entry on a shard between executions, a step on the batches that its inputs lend, each as the runner does it.
/// The caller then commits it or rolls it back.
///
/// Costs its body, and a look at each of its inputs. After an error the shard stands for what it stood for before.
pub fn execute_entry<N: Runner>(
    alloc: Global,
    catalog: &Catalog,
    runner: &N,
    whole: &mut Shard,
    streams: &Streams,
    entry: &Entry,
) -> Result<Executed, NoMemory>
    requires accepted { Accepted catalog.now }
    requires fits { fits_entry catalog.now entry.now ≡ true }
    requires committed { IsCommitted catalog.now whole.old }
    requires ready { IsReadyOn catalog.now whole.old streams.now.streams entry.now }
    ensures ok { IfOk result (RanWhereReady catalog.now whole.old whole.new streams.now.streams entry.now) }
    ensures sourced { IfOk result (λ x. EntryHasSource entry.now x.outcome whole.new.sources) }
    ensures of_catalog { IsOf catalog.now whole.new }
    ensures back { IfOk result (λ x. CanRollBack whole.old whole.new) }
    ensures holds { OnErr result ((db : Model) → HoldsDatabase catalog.now whole.old db → HoldsDatabase catalog.now whole.new db) }
    ensures err { OnErr result (Same whole.old whole.new) }
    ensures committed { OnErr result (IsCommitted catalog.now whole.new) }
{
    let Ok(batches) = input_batches(alloc, catalog, streams, entry) else {
        return Err(NoMemory);
    };
    // Only a trigger is given inserted rows, and an entry begins with its body.
    let no_row = Seq::new(alloc);
    let inputs = Inputs {
        batches: &batches,
        inserted: no_row.as_slice(),
    };
    runner.execute(alloc, catalog, whole, &inputs, entry)
}
