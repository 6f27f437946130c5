//! Pushes: batches of clients, numbered by the source that a push names.

ghost use Rattle.std.specs.Prelude.{◌≡◌, get_or, set, IfOk, OnOk, OnErr, IfNone};
ghost use Rattle.std.specs.List.{list_all};
ghost use Rattle.std.specs.FinMap as finmap;
ghost use Rattle.ss_value.specs.Fit.{fits_schema};
ghost use Rattle.ss_model.specs.Database.{stream_schema, push_fits, next_number, accept_batch, numbered_push, apply_push};
ghost use Rattle.ss_model_computed.specs.Databases.{Answers, database_of, applied_of};

use crate::bodies::limits::ROW_LIMIT;
use crate::entries::calls::CLIENT_LIMIT;
use crate::entries::database::{Applied, Database};
use crate::entries::numbers::NextNumbers;
use crate::lists::{copy_at, set_at};
use ss_model::{Catalog, Outcome};
use ss_value::{Copies, Name, NoMemory, Row, Rows, Schema, Seq, fits};
use std::alloc::Global;

/// Sequence numbers are below this.
const SEQ_LIMIT: u64 = 1 << 63;

/// Whether each row fits these columns.
fn all_fit(schema: &Schema, rows: &[Row]) -> bool
    ensures { result ≡ list_all (fits_schema schema.now) rows.now }
{
    rows.iter().all(|row| fits(schema, row))
}

/// Whether each row fits the columns of a stream; a stream past the end has no columns.
fn fit_stream(alloc: Global, catalog: &Catalog, stream: u16, rows: &[Row]) -> bool
    ensures { result ≡ list_all (fits_schema (stream_schema catalog.now stream)) rows.now }
{
    match catalog.streams.get(usize::from(stream)) {
        Some(stream) => all_fit(&stream.schema, rows),
        None => all_fit(&Seq::new(alloc), rows),
    }
}

/// Whether a push has a client below 8, a border stream, at most 1,024 rows that fit its columns, and a sequence number
/// below 2^63.
fn push_fits(
    alloc: Global,
    catalog: &Catalog,
    client: u8,
    stream: u16,
    seq: u64,
    rows: &Rows,
) -> bool
    ensures { result ≡ push_fits catalog.now client stream seq rows.now }
{
    client < CLIENT_LIMIT
        && catalog.is_border_stream(usize::from(stream))
        && rows.len() <= ROW_LIMIT
        && seq < SEQ_LIMIT
        && fit_stream(alloc, catalog, stream, rows.as_slice())
}

/// The number that the next push of a source has to carry.
fn next_number(
    alloc: Global,
    database: &Database,
    stream: u16,
    source: &Name,
) -> Result<u64, NoMemory>
    ensures { IfOk result (λ next. next ≡ next_number (database_of database.now) stream source.now) }
{
    match database.next_numbers.get(usize::from(stream)) {
        Some(numbers) => numbers.next(alloc, source),
        None => Ok(0),
    }
}

/// Gives a source of a stream this next number. Out of memory changes nothing.
fn set_number(
    alloc: Global,
    streams: &mut Seq<NextNumbers>,
    stream: u16,
    source: &Name,
    next: u64,
) -> Result<(), NoMemory>
    ensures ok { OnOk result (streams.new ≡ set streams.old stream (finmap.insert (get_or streams.old stream finmap.empty) source.now next)) }
    ensures err { OnErr result (streams.new ≡ streams.old) }
{
    match streams.get_mut(usize::from(stream)) {
        Some(numbers) => numbers.set(alloc, source, next),
        None => Ok(()),
    }
}

/// Adds a copy of a batch to its stream, and raises the source's next number. Out of memory changes nothing.
fn accept_batch(
    alloc: Global,
    database: &mut Database,
    stream: u16,
    source: &Name,
    seq: u64,
    rows: &Rows,
) -> Result<(), NoMemory>
    ensures ok { OnOk result (database_of database.new ≡ accept_batch (database_of database.old) stream source.now seq rows.now) }
    ensures err { OnErr result (database.new ≡ database.old) }
{
    // The number of a push that fits is below 2^63, so it never ends here.
    let Some(next) = seq.checked_add(1) else {
        return Err(NoMemory);
    };
    let mut batches = copy_at(alloc, &database.streams, usize::from(stream))?;
    batches.push(rows.duplicate(alloc)?)?;
    // The last call that may be out of memory: the stream changes behind it, so that an error changes nothing.
    set_number(alloc, &mut database.next_numbers, stream, source, next)?;
    set_at(&mut database.streams, usize::from(stream), batches);
    Ok(())
}

/// Accepts a push whose number is the next one; one with an earlier number is a duplicate, and one with a later a gap.
fn numbered_push(
    alloc: Global,
    database: &mut Database,
    stream: u16,
    source: &Name,
    seq: u64,
    rows: &Rows,
    next: u64,
) -> Result<Applied, NoMemory>
    ensures ok { IfOk result (λ applied. numbered_push (database_of database.old) stream source.now seq rows.now next ≡ applied_of database.new applied) }
    ensures err { OnErr result (database.new ≡ database.old) }
{
    let outcome = if seq == next {
        accept_batch(alloc, database, stream, source, seq, rows)?;
        Outcome::Done(Seq::new(alloc))
    } else if seq < next {
        Outcome::Duplicate(next)
    } else {
        Outcome::Gap(next)
    };
    Ok(Applied {
        outcome,
        emitted: Seq::new(alloc),
    })
}

/// Applies a push: where its number is the next one of its source, its stream gains its batch.
pub fn apply_push(
    alloc: Global,
    catalog: &Catalog,
    database: &mut Database,
    client: u8,
    stream: u16,
    source: &Name,
    seq: u64,
    rows: &Rows,
) -> Result<Option<Applied>, NoMemory>
    ensures ok { IfOk result (Answers (apply_push catalog.now (database_of database.old) client stream source.now seq rows.now) database.new) }
    ensures refused { IfOk result (λ applied. IfNone applied (database.new ≡ database.old)) }
    ensures err { OnErr result (database.new ≡ database.old) }
{
    if !push_fits(alloc, catalog, client, stream, seq, rows) {
        return Ok(None);
    }
    let next = next_number(alloc, database, stream, source)?;
    let applied = numbered_push(alloc, database, stream, source, seq, rows, next)?;
    Ok(Some(applied))
}
