//! Windows of an image from bytes.

ghost use Rattle.std.specs.Prelude.{◌≡◌, ◌≤◌, ◌^◌, ◌+◌, ◌==◌, map, length, nat_le, IfOk};
ghost use Rattle.std.specs.List.{AllByRecursion};
ghost use Rattle.ss_model.specs.Contents.{first_kept};
ghost use Rattle.ss_standing.specs.ImageForm.{is_unit, number_where, rows_of, window_of};
ghost use Rattle.ss_standing.specs.Readers.{each};
ghost use Rattle.ss_shard.specs.Databases.{WindowIsSound};
ghost use Rattle.ss_shard.specs.Windows.{kept_part};
ghost use Rattle.ss_snapshot.specs.ImageParts.{many_units};
ghost use Rattle.ss_snapshot.specs.Parts.{Reads};
ghost use Rattle.ss_snapshot.specs.Windows.{AreRestored, IsRestored};

use crate::reading::fields::{PartError, u32_in, u64_in};
use crate::reading::rows::rows_in;
use ss_model::WindowDef;
use ss_shard::WINDOW_UNITS;
use ss_value::{Rows, Schema, Seq, Unit};
use ss_window::{Window, first_kept};
use std::alloc::Global;

/// Whether a unit may have so many rows.
fn is_unit(kind: Unit, rows: u64) -> bool
    ensures { result ≡ is_unit kind rows }
{
    match kind {
        Unit::Rows => rows == 1,
        Unit::Batches => true,
    }
}

/// The number of a unit's rows.
fn unit_rows_in(bytes: &[u8], kind: Unit) -> Result<(u64, &[u8]), PartError>
    ensures { Reads (λ x. (x.0, x.1.now)) result (number_where 8 (is_unit kind) bytes.now) }
{
    let (rows, rest) = u64_in(bytes)?;
    if !is_unit(kind, rows) {
        return Err(PartError::Foreign { left: bytes.len() });
    }
    Ok((rows, rest))
}

/// A unit: its rows behind their number.
fn unit_in<'a>(
    alloc: Global,
    bytes: &'a [u8],
    kind: Unit,
    schema: &Schema,
) -> Result<(Rows, &'a [u8]), PartError>
    ensures { Reads (λ x. (x.0, x.1.now)) result (rows_of 8 (is_unit kind) schema.now bytes.now) }
{
    let (rows, rest) = unit_rows_in(bytes, kind)?;
    rows_in(alloc, rest, schema, rows)
}

/// So many units.
fn units_in<'a>(
    alloc: Global,
    bytes: &'a [u8],
    window: &WindowDef,
    count: u32,
) -> Result<(Seq<Rows>, &'a [u8]), PartError>
    ensures read { Reads (λ x. (x.0, x.1.now)) result (many_units window.now.unit window.now.schema count bytes.now) }
    ensures many { IfOk result (λ x. length x.0 ≡ count) }
{
    let mut units = Seq::new(alloc);
    let mut rest = bytes;
    for _ in 0..count {
        let (unit, behind) = unit_in(alloc, rest, window.unit, &window.schema)?;
        if units.push(unit).is_err() {
            return Err(PartError::NoMemory);
        }
        rest = behind;
    }
    Ok((units, rest))
}

/// How many units a window has had.
fn had_in(bytes: &[u8]) -> Result<(u64, &[u8]), PartError>
    ensures read { Reads (λ x. (x.0, x.1.now)) result (number_where 8 (λ k. nat_le k (2 ^ 62)) bytes.now) }
    ensures small { IfOk result (λ x. x.0 ≤ 2 ^ 62) }
{
    let (had, rest) = u64_in(bytes)?;
    if had > WINDOW_UNITS {
        return Err(PartError::Foreign { left: bytes.len() });
    }
    Ok((had, rest))
}

/// How many units of a window are kept that has had so many, which follows from that.
fn kept_in<'a>(bytes: &'a [u8], window: &WindowDef, had: u64) -> Result<(u32, &'a [u8]), PartError>
    requires moves { 1 ≤ window.now.slide }
    requires small { had ≤ 2 ^ 62 }
    ensures read { Reads (λ x. (x.0, x.1.now)) result (number_where 4 (λ n. first_kept window.now had + n == had) bytes.now) }
    ensures whole { IfOk result (λ x. first_kept window.now had + x.0 ≡ had) }
{
    let (kept, rest) = u32_in(bytes)?;
    let first = first_kept(window.size, window.slide, had);
    if first + u64::from(kept) != had {
        return Err(PartError::Foreign { left: bytes.len() });
    }
    Ok((kept, rest))
}

/// How many bytes these are.
fn byte_count(bytes: &[u8]) -> usize
    ensures { result ≡ length bytes.now }
{
    bytes.len()
}

/// A window, between executions. Linear in its bytes.
fn window_in<'a>(
    alloc: Global,
    bytes: &'a [u8],
    window: &WindowDef,
) -> Result<(Window, &'a [u8]), PartError>
    requires { WindowIsSound window.now }
    ensures read { Reads (λ x. (kept_part x.0, x.1.now)) result (window_of window.now bytes.now) }
    ensures restored { IfOk result (λ x. IsRestored window.now x.0) }
{
    let (had, rest) = had_in(bytes)?;
    let (count, rest) = kept_in(rest, window, had)?;
    // Each row takes one of these bytes at least, so all rows can be counted.
    let _ = byte_count(rest);
    let (kept, rest) = units_in(alloc, rest, window, count)?;
    let restored = Window::resume(window.unit, window.size, window.slide, had, kept);
    // A law: it does nothing.
    restored.invariant_holds();
    Ok((restored, rest))
}

/// The windows of these definitions, between executions. Linear in their bytes.
pub(crate) fn windows_in<'a>(
    alloc: Global,
    bytes: &'a [u8],
    windows: &[WindowDef],
) -> Result<(Seq<Window>, &'a [u8]), PartError>
    requires { AllByRecursion WindowIsSound windows.now }
    ensures read { Reads (λ x. (map kept_part x.0, x.1.now)) result (each window_of windows.now bytes.now) }
    ensures restored { IfOk result (λ x. AreRestored windows.now x.0) }
{
    let mut restored = Seq::new(alloc);
    let mut rest = bytes;
    for window in windows {
        let (window, behind) = window_in(alloc, rest, window)?;
        if restored.push(window).is_err() {
            return Err(PartError::NoMemory);
        }
        rest = behind;
    }
    Ok((restored, rest))
}
