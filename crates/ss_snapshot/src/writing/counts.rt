//! How many batches each procedure has taken, and the numbers of the next pushes.

ghost use Rattle.std.specs.Prelude.{◌≡◌, ◌++◌, ◌<◌, ◌≤◌, ◌^◌, ℕ, List, length, map, OnOk, All};
ghost use Rattle.std.specs.Borrow.{Bor};
ghost use Rattle.std.specs.List.{flat_map};
ghost use Rattle.ss_record.specs.Numbers.{number_bytes};
ghost use Rattle.ss_shard.specs.Sources.{lent_source, positive, numbers_at};
ghost use Rattle.ss_standing.specs.FitsImage.{FitNumbers};
ghost use Rattle.ss_snapshot.specs.Held.{HaveNoSources};
ghost use Rattle.ss_standing.specs.Image.{source_bytes, sources_bytes, all_sources};

use crate::writing::numbers::{push_long, short_count};
use ss_model::Catalog;
use ss_shard::Shard;
use ss_value::NoMemory;
use std::alloc::Global;

/// Adds the counts of the procedures.
pub(crate) fn push_counts(out: &mut Vec<u8>, counts: &[u64]) -> Result<(), NoMemory>
    ensures spelled { OnOk result (out.new.items ≡ out.old.items ++ flat_map (number_bytes 8) counts.now) }
    ensures fits { OnOk result (All (λ n. n < 2 ^ 64) counts.now) }
{
    for count in counts {
        push_long(out, *count)?;
    }
    Ok(())
}

/// Adds a source and its next number.
fn push_source(out: &mut Vec<u8>, source: &[u8], next: u64) -> Result<(), NoMemory>
    requires { length source.now ≤ 32 }
    ensures spelled { OnOk result (out.new.items ≡ out.old.items ++ source_bytes (source.now, next)) }
    ensures fits { OnOk result (next < 2 ^ 64) }
{
    out.push(source.len() as u8)?;
    out.extend_from_slice(source)?;
    push_long(out, next)?;
    Ok(())
}

/// Adds sources with their next numbers, one after another.
fn push_sources(out: &mut Vec<u8>, sources: &[(&[u8], u64)]) -> Result<(), NoMemory>
    requires { All (λ (next : Bor (List ℕ) × ℕ). length next.0.now ≤ 32) sources.now }
    ensures spelled { OnOk result (out.new.items ≡ out.old.items ++ flat_map source_bytes (map lent_source sources.now)) }
    ensures fits { OnOk result (All (λ (next : List ℕ × ℕ). next.1 < 2 ^ 64) (map lent_source sources.now)) }
{
    for next in sources {
        push_source(out, next.0, next.1)?;
    }
    Ok(())
}

/// Adds the sources of a stream, whose names are in order, behind their number.
fn push_stream_sources(
    alloc: Global,
    out: &mut Vec<u8>,
    whole: &Shard,
    stream: u16,
) -> Result<(), NoMemory>
    ensures spelled { OnOk result (out.new.items ≡ out.old.items ++ sources_bytes (positive (numbers_at whole.now.sources stream))) }
    ensures fits { OnOk result (FitNumbers (positive (numbers_at whole.now.sources stream))) }
{
    // A law: a source is a name, and so its length has room in a byte.
    whole.sources_are_names();
    let sources = whole.numbered_sources(alloc, stream)?;
    push_long(out, sources.len() as u64)?;
    push_sources(out, sources.as_slice())?;
    Ok(())
}

/// Adds the sources of the border streams, stream by stream; another stream has none. More than 65,535 streams, which have
/// no numbers, are reported as out of memory: no catalogue has as many.
pub(crate) fn push_next_numbers(
    alloc: Global,
    out: &mut Vec<u8>,
    catalog: &Catalog,
    whole: &Shard,
) -> Result<(), NoMemory>
    requires streams { length whole.now.sources ≡ length catalog.now.streams }
    requires border { HaveNoSources catalog.now whole.now.sources }
    ensures spelled { OnOk result (out.new.items ≡ out.old.items ++ all_sources catalog.now (map positive whole.now.sources)) }
    ensures fits { OnOk result (All FitNumbers (map positive whole.now.sources)) }
{
    let count = short_count(catalog.streams.len())?;
    for stream in 0..count {
        if catalog.is_border_stream(usize::from(stream)) {
            push_stream_sources(alloc, out, whole, stream)?;
        }
    }
    Ok(())
}
