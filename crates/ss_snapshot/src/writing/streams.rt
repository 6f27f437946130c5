//! Streams, with the batches that some procedure has still to take.

ghost use Rattle.std.specs.Prelude.{◌≡◌, ◌++◌, ◌<◌, ◌^◌, length, map, OnOk, All};
ghost use Rattle.std.specs.List.{flat_map};
ghost use Rattle.ss_stream.specs.Streams.{stream_at};
ghost use Rattle.ss_standing.specs.FitsImage.{FitRows, FitsStream};
ghost use Rattle.ss_standing.specs.Image.{counted_rows, stream_bytes};
ghost use Rattle.ss_snapshot.specs.Held.{held_stream};

use crate::writing::numbers::{push_long, short_count};
use crate::writing::rows::push_batch;
use ss_stream::Streams;
use ss_value::NoMemory;
use std::alloc::Global;

/// Adds all kept batches of a stream.
fn push_batches(
    alloc: Global,
    out: &mut Vec<u8>,
    streams: &Streams,
    stream: u16,
) -> Result<(), NoMemory>
    requires { stream < length streams.now.streams }
    ensures spelled { OnOk result (out.new.items ≡ out.old.items ++ flat_map (counted_rows 2) (stream_at streams.now stream).batches) }
    ensures fits { OnOk result (All (FitRows (2 ^ 16)) (stream_at streams.now stream).batches) }
{
    for number in streams.first_kept(stream)..streams.emitted_count(stream) {
        let Some(batch) = streams.batch(stream, number) else {
            unreachable!()
        };
        push_batch(alloc, out, batch)?;
    }
    Ok(())
}

/// Adds a stream: how many batches it has had, which of them is the first kept one, and the kept ones.
fn push_stream(
    alloc: Global,
    out: &mut Vec<u8>,
    streams: &Streams,
    stream: u16,
) -> Result<(), NoMemory>
    requires { stream < length streams.now.streams }
    ensures spelled { OnOk result (out.new.items ≡ out.old.items ++ stream_bytes (held_stream (stream_at streams.now stream))) }
    ensures fits { OnOk result (FitsStream (held_stream (stream_at streams.now stream))) }
{
    push_long(out, streams.emitted_count(stream))?;
    push_long(out, streams.first_kept(stream))?;
    push_batches(alloc, out, streams, stream)?;
    Ok(())
}

/// Adds all streams, one after another. More than 65,535, which have no numbers, are reported as out of memory: no
/// catalogue has as many.
pub(crate) fn push_streams(
    alloc: Global,
    out: &mut Vec<u8>,
    streams: &Streams,
) -> Result<(), NoMemory>
    ensures spelled { OnOk result (out.new.items ≡ out.old.items ++ flat_map stream_bytes (map held_stream streams.now.streams)) }
    ensures fits { OnOk result (All FitsStream (map held_stream streams.now.streams)) }
{
    let count = short_count(streams.len())?;
    for stream in 0..count {
        push_stream(alloc, out, streams, stream)?;
    }
    Ok(())
}
