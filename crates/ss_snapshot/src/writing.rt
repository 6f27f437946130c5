//! Images of whole databases, written from what a shard and its streams hold.
//!
//! - `numbers`: numbers and counts, where they have room; `rows`: rows, and the tables
//! - `windows`: windows and their units; `streams`: streams and their kept batches
//! - `counts`: the counts of the procedures, and the next numbers of sources; `bodies`: the texts of their bodies

ghost use Rattle.std.specs.Prelude.{◌<◌, ◌^◌, length, OnOk, IfOk};
ghost use Rattle.ss_shard.specs.Shards.{IsCommitted};
ghost use Rattle.ss_snapshot.specs.Held.{StandForSome, SpellsHeld, FitsHeld};

mod bodies;
mod counts;
mod numbers;
mod rows;
mod streams;
mod windows;

use crate::text::push_text;
use crate::writing::bodies::push_bodies;
use crate::writing::counts::{push_counts, push_next_numbers};
use crate::writing::rows::push_tables;
use crate::writing::streams::push_streams;
use crate::writing::windows::push_windows;
use ss_model::Catalog;
use ss_shard::Shard;
use ss_stream::Streams;
use ss_value::{NoMemory, Seq};
use std::alloc::Global;

/// The image of the whole database that a shard and streams stand for: what is kept of it, behind its catalogue's text.
///
/// One walk over the tables, the windows, the batches that some procedure has still to take, the counts, the sources and the
/// bodies.
/// Nothing of them is copied but into the image, of which the memory is the size, with at most as much again as spare room,
/// and a reference for each row of one table, or for each source of one stream.
///
/// What an image has no room for is reported as out of memory: a text of 2^32 bytes, also of a body, which no line has room
/// for, a row of more than 16 values, a batch of more than 65,535 rows, and a window of 2^32 kept units. No accepted catalogue has such
/// rows or windows, and no whole database such batches.
pub fn write_image(
    alloc: Global,
    catalog: &Catalog,
    whole: &Shard,
    streams: &Streams,
) -> Result<Seq<u8>, NoMemory>
    requires committed { IsCommitted catalog.now whole.now }
    requires held { StandForSome catalog.now whole.now streams.now.streams }
    ensures spelled { IfOk result (SpellsHeld catalog.now whole.now streams.now.streams) }
    ensures fits { OnOk result (FitsHeld catalog.now whole.now streams.now.streams) }
    ensures short { OnOk result (length catalog.now.text < 2 ^ 32) }
{
    let mut image = Vec::new(alloc);
    push_text(&mut image, catalog.text.as_slice())?;
    push_tables(alloc, &mut image, whole.tables())?;
    push_windows(alloc, &mut image, whole.windows())?;
    push_streams(alloc, &mut image, streams)?;
    push_counts(&mut image, whole.cursors())?;
    push_next_numbers(alloc, &mut image, catalog, whole)?;
    push_bodies(&mut image, catalog, whole)?;
    Ok(Seq::from_vec(image))
}
