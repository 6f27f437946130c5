//! Steps: a streaming procedure takes the next batch of each of its inputs.

ghost use Rattle.std.specs.Prelude.{◌≡◌, [], map, get_or, nat_lt, length, IfOk, OnErr, IfNone};
ghost use Rattle.std.specs.List.{list_all};
ghost use Rattle.ss_model.specs.Database.{is_streaming, is_ready, append_batches};
ghost use Rattle.ss_model_computed.specs.Databases.{StepAnswers, appended_batch, database_of};

use crate::bodies::runs::run_procedure;
use crate::entries::database::{Applied, Database};
use crate::entries::installs::present_steps;
use crate::lists::{copy_at, set_at};
use ss_model::{Catalog, Procedure, ProcedureKind};
use ss_value::{Copies, NoMemory, Rows, Seq};
use std::alloc::Global;

/// Whether procedures of this kind take batches.
fn is_streaming(kind: ProcedureKind) -> bool
    ensures { result ≡ is_streaming kind }
{
    !kind.is_call()
}

/// Whether a stream has had the batch of this number.
fn has_batch(streams: &Seq<Seq<Rows>>, stream: u16, batch: u64) -> bool
    ensures { result ≡ nat_lt batch (length (get_or streams.now stream [])) }
{
    match streams.get(usize::from(stream)) {
        Some(batches) => batch < batches.len() as u64,
        None => false,
    }
}

/// Whether each of these inputs has had the batch of this number.
fn all_have_batch(streams: &Seq<Seq<Rows>>, inputs: &[u16], batch: u64) -> bool
    ensures { result ≡ list_all (λ s. nat_lt batch (length (get_or streams.now s []))) inputs.now }
{
    inputs.iter().all(|input| has_batch(streams, *input, batch))
}

/// How many batches a procedure has taken, 0 past the end.
fn batch_count(counts: &Seq<u64>, number: u16) -> u64
    ensures { result ≡ get_or counts.now number 0 }
{
    match counts.get(usize::from(number)) {
        Some(count) => *count,
        None => 0,
    }
}

/// Whether a procedure is a streaming one whose next batch is this, and each of its inputs has had it.
fn is_ready(database: &Database, number: u16, batch: u64, procedure: &Procedure) -> bool
    ensures { result ≡ is_ready (database_of database.now) number batch procedure.now }
{
    is_streaming(procedure.kind)
        && batch_count(&database.counts, number) == batch
        && all_have_batch(&database.streams, procedure.inputs.as_slice(), batch)
}

/// Copies of the batch of this number of each of these inputs.
fn input_batches(
    alloc: Global,
    streams: &Seq<Seq<Rows>>,
    inputs: &[u16],
    batch: u64,
) -> Result<Seq<Rows>, NoMemory>
    ensures { IfOk result (λ batches. batches ≡ map (λ s. get_or (get_or streams.now s []) batch []) inputs.now) }
{
    let mut batches = Seq::new(alloc);
    for input in inputs {
        let stream = copy_at(alloc, streams, usize::from(*input))?;
        let rows = copy_at(alloc, &stream, batch as usize)?;
        batches.push(rows)?;
    }
    Ok(batches)
}

/// A copy of a stream, with the procedure's batch behind it where the procedure emits to this stream.
fn appended_batch(
    alloc: Global,
    procedure: &Procedure,
    emitted: &Seq<Rows>,
    stream: usize,
    batches: &Seq<Rows>,
) -> Result<Seq<Rows>, NoMemory>
    ensures { IfOk result (λ longer. longer ≡ appended_batch procedure.now emitted.now stream batches.now) }
{
    let mut longer = batches.duplicate(alloc)?;
    if procedure.emits(stream) {
        let batch = copy_at(alloc, emitted, stream)?;
        longer.push(batch)?;
    }
    Ok(longer)
}

/// Copies of all streams, with one batch more on each that the procedure emits to.
fn append_batches(
    alloc: Global,
    procedure: &Procedure,
    emitted: &Seq<Rows>,
    streams: &Seq<Seq<Rows>>,
) -> Result<Seq<Seq<Rows>>, NoMemory>
    ensures { IfOk result (λ longer. longer ≡ append_batches procedure.now emitted.now streams.now) }
{
    let mut longer = Seq::new(alloc);
    for (stream, batches) in streams.as_slice().iter().enumerate() {
        let batches = appended_batch(alloc, procedure, emitted, stream, batches)?;
        longer.push(batches)?;
    }
    Ok(longer)
}

/// Applies a step: runs its procedure on the next batch of each input, and counts the batch even where that aborts.
pub fn apply_step(
    alloc: Global,
    catalog: &Catalog,
    database: &mut Database,
    number: u16,
    batch: u64,
) -> Result<Option<Applied>, NoMemory>
    ensures ok { IfOk result (StepAnswers catalog.now database.old database.new number batch) }
    ensures refused { IfOk result (λ applied. IfNone applied (database.new ≡ database.old)) }
    ensures err { OnErr result (database.new ≡ database.old) }
{
    let Some(procedure) = catalog.procedures.get(usize::from(number)) else {
        return Ok(None);
    };
    if !is_ready(database, number, batch, procedure) {
        return Ok(None);
    }
    let Some(count) = batch.checked_add(1) else {
        return Err(NoMemory);
    };
    let batches = input_batches(alloc, &database.streams, procedure.inputs.as_slice(), batch)?;
    let args = Seq::new(alloc);
    let left = run_procedure(
        alloc,
        catalog,
        number,
        procedure,
        present_steps(catalog, database, number, procedure),
        &args,
        &batches,
        &database.contents,
    )?;
    let streams = append_batches(alloc, procedure, &left.emitted, &database.streams)?;
    // Nothing from here on takes memory: all is made before the first change, so an error changes nothing.
    database.contents = left.contents;
    database.streams = streams;
    set_at(&mut database.counts, usize::from(number), count);
    Ok(Some(Applied {
        outcome: left.outcome,
        emitted: left.emitted,
    }))
}
