//! What is kept of an empty database: numbers that are 0, no rows, and the procedures' own bodies.

ghost use Rattle.std.specs.Prelude.{◌≡◌, [], ◌++◌, true, length, OnOk};
ghost use Rattle.std.specs.FinMap as finmap;
ghost use Rattle.std.specs.List.{flat_map};
ghost use Rattle.ss_model.specs.Database.{own_bodies};
ghost use Rattle.ss_record.specs.Numbers.{number_bytes};
ghost use Rattle.ss_standing.specs.FitsImage.{FitBodies};
ghost use Rattle.ss_standing.specs.Image.{text_bytes, table_bytes, window_bytes, stream_bytes, border_streams, sources_bytes, repeated};

use crate::text::push_text;
use ss_model::Catalog;
use ss_record::{push_u32, push_u64};
use ss_value::NoMemory;

/// Tables without rows.
pub(crate) fn push_tables(out: &mut Vec<u8>, tables: usize) -> Result<(), NoMemory>
    ensures { OnOk result (out.new.items ≡ out.old.items ++ repeated table_bytes tables finmap.empty) }
{
    for _ in 0..tables {
        push_u64(out, 0)?;
    }
    Ok(())
}

/// Windows that have had no unit, and of which none is kept.
pub(crate) fn push_windows(out: &mut Vec<u8>, windows: usize) -> Result<(), NoMemory>
    ensures { OnOk result (out.new.items ≡ out.old.items ++ repeated window_bytes windows (0, [])) }
{
    for _ in 0..windows {
        push_u64(out, 0)?;
        push_u32(out, 0)?;
    }
    Ok(())
}

/// Streams that have had no batch, so that the first kept one would be batch 0.
pub(crate) fn push_streams(out: &mut Vec<u8>, streams: usize) -> Result<(), NoMemory>
    ensures { OnOk result (out.new.items ≡ out.old.items ++ repeated stream_bytes streams (0, (0, []))) }
{
    for _ in 0..streams {
        push_u64(out, 0)?;
        push_u64(out, 0)?;
    }
    Ok(())
}

/// Procedures that have taken no batch.
pub(crate) fn push_counts(out: &mut Vec<u8>, procedures: usize) -> Result<(), NoMemory>
    ensures { OnOk result (out.new.items ≡ out.old.items ++ repeated (number_bytes 8) procedures 0) }
{
    for _ in 0..procedures {
        push_u64(out, 0)?;
    }
    Ok(())
}

/// Border streams without sources. Linear in the inputs of all procedures for each stream.
pub(crate) fn push_sources(out: &mut Vec<u8>, catalog: &Catalog) -> Result<(), NoMemory>
    ensures { OnOk result (out.new.items ≡ out.old.items ++ repeated sources_bytes (length (border_streams catalog.now)) finmap.empty) }
{
    for stream in 0..catalog.streams.len() {
        if catalog.is_border_stream(stream) {
            push_u64(out, 0)?;
        }
    }
    Ok(())
}

/// The texts of the procedures' own bodies. One of 2^32 bytes or more is reported as out of memory.
pub(crate) fn push_bodies(out: &mut Vec<u8>, catalog: &Catalog) -> Result<(), NoMemory>
    ensures spelled { OnOk result (out.new.items ≡ out.old.items ++ flat_map text_bytes (own_bodies catalog.now)) }
    ensures fits { OnOk result (FitBodies true catalog.now (own_bodies catalog.now)) }
{
    for procedure in 0..catalog.procedures.len() {
        push_text(out, catalog.own_text(procedure))?;
    }
    Ok(())
}
