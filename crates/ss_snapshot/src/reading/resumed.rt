//! Streams of the program from those of an image.

ghost use Rattle.std.specs.Prelude.{◌≡◌, map, IfOk};
ghost use Rattle.ss_model.specs.Accepted.{Accepted};
ghost use Rattle.ss_model.specs.Database.{Database};
ghost use Rattle.ss_stream.specs.OfDatabase.{AreStreamsOf};
ghost use Rattle.ss_snapshot.specs.Resumed.{AreKeptOf, batches_of};
ghost use Rattle.ss_snapshot.specs.Streams.{as_kept};

use crate::reading::streams::KeptStream;
use ss_model::Catalog;
use ss_stream::{Streams, consumers};
use ss_value::{NoMemory, Rows, Seq};
use std::alloc::Global;

/// The kept batches of each stream, moved out of it.
fn kept_batches(alloc: Global, streams: Seq<KeptStream>) -> Result<Seq<Seq<Rows>>, NoMemory>
    ensures { IfOk result (λ lists. lists ≡ batches_of (map as_kept streams)) }
{
    let mut lists = Seq::new(alloc);
    for stream in streams.into_vec() {
        lists.push(stream.batches)?;
    }
    Ok(lists)
}

/// The streams of the database of which these and the counts are kept: each consumer of a stream is at its procedure's count,
/// and so a stream's first kept batch is the next one of the least of them.
///
/// Linear in the inputs of all procedures for each stream. The batches are moved.
pub(crate) fn resumed_streams(
    alloc: Global,
    catalog: &Catalog,
    streams: Seq<KeptStream>,
    counts: &[u64],
) -> Result<Streams, NoMemory>
    requires accepted { Accepted catalog.now }
    requires kept { (d : Database) × AreKeptOf catalog.now (map as_kept streams) counts.now d }
    ensures { IfOk result (λ made. (d : Database) → AreKeptOf catalog.now (map as_kept streams) counts.now d → AreStreamsOf catalog.now d made.streams) }
{
    let takers = consumers(alloc, catalog)?;
    let lists = kept_batches(alloc, streams)?;
    let Ok(made) = Streams::resume(alloc, takers.as_slice(), counts, lists) else {
        return Err(NoMemory);
    };
    Ok(made)
}
