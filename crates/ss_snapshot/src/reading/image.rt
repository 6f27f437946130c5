//! What an image has behind its catalogue's text but for the bodies, from bytes: the tables into a shard, and the rest beside it.

ghost use Rattle.std.specs.Prelude.{◌≡◌, map, IfOk, OnOk};
ghost use Rattle.std.specs.FinMap as finmap;
ghost use Rattle.std.specs.List.{AllByRecursion};
ghost use Rattle.ss_model.specs.Accepted.{Accepted};
ghost use Rattle.ss_shard.specs.Contents.{tables_of};
ghost use Rattle.ss_shard.specs.Databases.{WindowIsSound};
ghost use Rattle.ss_shard.specs.Shards.{IsCommitted};
ghost use Rattle.ss_shard.specs.Sources.{positive};
ghost use Rattle.ss_snapshot.specs.Beside.{as_beside, as_progress, beside_of, but_bodies_of, counts_and_sources_of, progress_of};
ghost use Rattle.ss_snapshot.specs.Parts.{Reads};
ghost use Rattle.ss_snapshot.specs.Streams.{as_kept};
ghost use Rattle.ss_snapshot.specs.Tables.{Settles};
ghost use Rattle.ss_snapshot.specs.Windows.{AreRestored};

use crate::reading::counts::counts_in;
use crate::reading::fields::PartError;
use crate::reading::sources::sources_in;
use crate::reading::streams::{KeptStream, streams_in};
use crate::reading::tables::tables_into;
use crate::reading::windows::windows_in;
use ss_model::Catalog;
use ss_shard::{Shard, Sources};
use ss_value::Seq;
use ss_window::Window;
use std::alloc::Global;

/// How far the streams, the procedures and the sources have come.
#[derive(Drop)]
pub(crate) struct Progress {
    /// The streams.
    pub streams: Seq<KeptStream>,
    /// How many batches each procedure has taken.
    pub counts: Seq<u64>,
    /// The sources of each stream, with their next numbers.
    pub sources: Seq<Sources>,
}

/// What an image has beside the tables.
#[derive(Drop)]
pub(crate) struct Beside {
    /// The windows.
    pub windows: Seq<Window>,
    /// How far all else has come.
    pub progress: Progress,
}

/// The counts of the procedures, and the sources of the streams.
fn counts_and_sources_in<'a>(
    alloc: Global,
    bytes: &'a [u8],
    catalog: &Catalog,
    streams: &[KeptStream],
) -> Result<((Seq<u64>, Seq<Sources>), &'a [u8]), PartError>
    ensures { Reads (λ x. ((x.0.0, map positive x.0.1), x.1.now)) result (counts_and_sources_of catalog.now (map as_kept streams.now) bytes.now) }
{
    let (counts, rest) = counts_in(alloc, bytes, catalog, streams)?;
    let (sources, rest) = sources_in(alloc, rest, catalog)?;
    Ok(((counts, sources), rest))
}

/// The streams, the counts that go with them, and the sources. No stream has had more than `most` batches, and one inside of a
/// nest none.
fn progress_in<'a>(
    alloc: Global,
    bytes: &'a [u8],
    catalog: &Catalog,
    most: u64,
) -> Result<(Progress, &'a [u8]), PartError>
    ensures { Reads (λ x. (as_progress x.0, x.1.now)) result (progress_of catalog.now most bytes.now) }
{
    let (streams, rest) = streams_in(alloc, bytes, catalog, most)?;
    let (behind, rest) = counts_and_sources_in(alloc, rest, catalog, streams.as_slice())?;
    let (counts, sources) = behind;
    let progress = Progress {
        streams,
        counts,
        sources,
    };
    Ok((progress, rest))
}

/// The windows, and what is behind them.
fn beside_in<'a>(
    alloc: Global,
    bytes: &'a [u8],
    catalog: &Catalog,
    most: u64,
) -> Result<(Beside, &'a [u8]), PartError>
    requires { AllByRecursion WindowIsSound catalog.now.windows }
    ensures read { Reads (λ x. (as_beside x.0, x.1.now)) result (beside_of catalog.now most bytes.now) }
    ensures restored { IfOk result (λ x. AreRestored catalog.now.windows x.0.windows) }
{
    let (windows, rest) = windows_in(alloc, bytes, catalog.windows.as_slice())?;
    let (progress, rest) = progress_in(alloc, rest, catalog, most)?;
    Ok((Beside { windows, progress }, rest))
}

/// What an image has behind its catalogue's text but for the bodies: the tables are put into those of a shard without a row, and the rest is told
/// beside it. No stream has had more than `most` batches.
///
/// Linear in the bytes, an insert for each row, and what `counts_in` and `sources_in` cost. What is refused may leave some rows
/// in the shard.
pub(crate) fn but_bodies_in<'a>(
    alloc: Global,
    bytes: &'a [u8],
    catalog: &Catalog,
    most: u64,
    whole: &mut Shard,
) -> Result<(Beside, &'a [u8]), PartError>
    requires accepted { Accepted catalog.now }
    requires committed { IsCommitted catalog.now whole.old }
    requires empty { tables_of whole.old.tables ≡ map (λ d. finmap.empty) catalog.now.tables }
    ensures read { Reads (λ x. ((tables_of whole.new.tables, as_beside x.0), x.1.now)) result (but_bodies_of catalog.now most bytes.now) }
    ensures settled { OnOk result (Settles catalog.now whole.old whole.new) }
    ensures restored { IfOk result (λ x. AreRestored catalog.now.windows x.0.windows) }
{
    let rest = tables_into(alloc, bytes, catalog, whole)?;
    beside_in(alloc, rest, catalog, most)
}
