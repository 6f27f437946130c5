//! What is read of the list, of streams and of counts, with the log's lock held. `looking` alone calls it.

ghost use Rattle.std.specs.Prelude.{◌≡◌, ◌<◌, ◌↔◌, ℕ, IfOk, length, drop};
ghost use Rattle.std.specs.Int.{IsBitSet};
ghost use Rattle.ss_model.specs.Database.{Database};
ghost use Rattle.ss_sched.specs.Progress.{HasProgress};
ghost use Rattle.ss_commitlog.specs.Reading.{batch_at_hand, ready_there, IsReadyBelow, IsSound};

use ss_model::{Catalog, Listed, copy_listed};
use ss_sched::ready::ready;
use ss_stream::Streams;
use ss_value::{Copies, NoMemory, ProcSet, Rows, Seq};
use std::alloc::Global;

/// A copy of the batch that a consumer finds, and None where there is none for it. Linear in the batch.
pub(crate) fn batch_for(
    streams: &Streams,
    counts: &Seq<u64>,
    alloc: Global,
    stream: u16,
    consumer: u16,
    r: u64,
) -> Result<Option<Rows>, NoMemory>
    requires { (stream < length streams.now.streams) × (consumer < length counts.now) }
    ensures { IfOk result (λ found. found ≡ batch_at_hand streams.now counts.now stream consumer r) }
{
    let count = counts.at(usize::from(consumer));
    if r < *count {
        return Ok(None);
    }
    match streams.batch(stream, r) {
        None => Ok(None),
        Some(rows) => Ok(Some(rows.duplicate(alloc)?)),
    }
}

/// Copies of the entries from a place of the list on. Linear in them.
pub(crate) fn copy_from(
    alloc: Global,
    list: &[Listed],
    from: usize,
) -> Result<Seq<Listed>, NoMemory>
    ensures { IfOk result (λ copies. copies ≡ drop from list.now) }
{
    let mut copies = Seq::new(alloc);
    if from >= list.len() {
        return Ok(copies);
    }
    let rest = &list[from..];
    for listed in rest {
        let copy = copy_listed(alloc, listed)?;
        if copies.push(copy).is_err() {
            return Err(NoMemory);
        }
    }
    Ok(copies)
}

/// Whether the home of a procedure is this partition, and it is ready. Costs a look at its inputs where it is at home there.
fn is_ready_there(
    catalog: &Catalog,
    streams: &Streams,
    counts: &Seq<u64>,
    homes: &Seq<u8>,
    p: u8,
    q: u16,
) -> bool
    requires sound { IsSound catalog.now streams.now.streams counts.now homes.now }
    requires there { q < length catalog.now.procedures }
    ensures { (db : Database) → HasProgress db counts.now streams.now.streams → result ≡ ready_there catalog.now db homes.now p q }
{
    let home = homes.at(usize::from(q));
    if *home != p {
        return false;
    }
    ready(catalog, counts.as_slice(), streams, q)
}

/// The procedures whose home is this partition and that are ready. Costs a look at each procedure's home, and at the inputs
/// of those that are at home there.
pub(crate) fn ready_set(
    catalog: &Catalog,
    streams: &Streams,
    counts: &Seq<u64>,
    homes: &Seq<u8>,
    p: u8,
) -> ProcSet
    requires { IsSound catalog.now streams.now.streams counts.now homes.now }
    ensures { (db : Database) → HasProgress db counts.now streams.now.streams
        → (q : ℕ) → IsBitSet result q ↔ IsReadyBelow (length homes.now) catalog.now db homes.now p q }
{
    let mut set = ProcSet::empty();
    for q in 0..homes.len() {
        if is_ready_there(catalog, streams, counts, homes, p, q as u16) {
            set.insert(q as u8);
        }
    }
    set
}
