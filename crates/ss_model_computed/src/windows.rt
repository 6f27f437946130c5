//! The units of windows, and those that are visible.

ghost use Rattle.std.specs.Prelude.{◌≡◌, ◌<◌, ◌≤◌, ◌+◌, ◌*◌, ◌/◌, ◌++◌, suc, ◌^◌, not, ◌==◌, length, get_or, set, [], ◌∷◌, IfOk, OnOk};
ghost use Rattle.std.specs.List.{flat_map};
ghost use Rattle.ss_model.specs.Contents.{window_def, window_units, append_unit, first_kept, visible_count, visible_end, visible_rows};
ghost use Rattle.ss_model_computed.specs.State.{contents_of};

use crate::contents::Contents;
use crate::lists::add_rows;
use ss_model::Catalog;
use ss_value::{NoMemory, Row, Rows, Seq, Unit};
use std::alloc::Global;

/// What the units of a window are: rows where there is no such window.
pub fn window_unit(catalog: &Catalog, window: u16) -> Unit
    ensures { result ≡ (window_def catalog.now window).unit }
{
    match catalog.windows.get(usize::from(window)) {
        Some(def) => def.unit,
        None => Unit::Rows,
    }
}

/// How many units a window shows: 1 where there is no such window.
fn window_size(catalog: &Catalog, window: u16) -> usize
    ensures size { result ≡ (window_def catalog.now window).size }
    ensures small { result < 2 ^ 32 }
{
    match catalog.windows.get(usize::from(window)) {
        Some(def) => def.size as usize,
        None => 1,
    }
}

/// By how many units a window slides: 1 where there is no such window.
fn window_slide(catalog: &Catalog, window: u16) -> usize
    ensures { result ≡ (window_def catalog.now window).slide }
{
    match catalog.windows.get(usize::from(window)) {
        Some(def) => def.slide as usize,
        None => 1,
    }
}

/// The greatest multiple of `slide` up to `count`, and 0 where `slide` is 0.
fn last_slide(count: usize, slide: usize) -> usize
    ensures multiple { result ≡ count / slide * slide }
    ensures below { result ≤ count }
{
    if slide == 0 { 0 } else { count / slide * slide }
}

/// After `count` units, the position of the first one of a window that may still be seen.
fn first_kept(catalog: &Catalog, window: u16, count: usize) -> usize
    ensures { result ≡ first_kept (window_def catalog.now window) count }
{
    let size = window_size(catalog, window);
    if count < size {
        0
    } else {
        last_slide(count - size, window_slide(catalog, window))
    }
}

/// After `count` units, how many of them are visible: the window's size, or none before it is full.
fn visible_count(catalog: &Catalog, window: u16, count: usize) -> usize
    ensures visible { result ≡ visible_count (window_def catalog.now window) count }
    ensures within { first_kept (window_def catalog.now window) count + result ≤ count }
{
    let size = window_size(catalog, window);
    if count < size { 0 } else { size }
}

/// After `count` units, the position where the visible ones end, and 0 where a window shows nothing.
pub fn visible_end(catalog: &Catalog, window: u16, count: usize) -> usize
    ensures { result ≡ visible_end (window_def catalog.now window) count }
{
    first_kept(catalog, window, count) + visible_count(catalog, window, count)
}

/// Copies of the rows of units, in order.
fn unit_rows(alloc: Global, units: &[Rows]) -> Result<Rows, NoMemory>
    ensures { IfOk result (λ rows. rows ≡ flat_map (λ u. u) units.now) }
{
    let mut rows = Seq::new(alloc);
    for unit in units {
        add_rows(alloc, &mut rows, unit)?;
    }
    Ok(rows)
}

/// Copies of the rows that a window with these units shows.
fn shown_rows(
    alloc: Global,
    catalog: &Catalog,
    window: u16,
    units: &Seq<Rows>,
) -> Result<Rows, NoMemory>
    ensures { IfOk result (λ rows. rows ≡ visible_rows (window_def catalog.now window) units.now) }
{
    let first = first_kept(catalog, window, units.len());
    let count = visible_count(catalog, window, units.len());
    let kept = &units.as_slice()[first..];
    unit_rows(alloc, &kept[..count])
}

/// Copies of the rows that a window shows, and none where there is no such window.
#[tactic(auto, unfolding(ss_model::specs::Contents::window_units))]
pub fn visible_rows(
    alloc: Global,
    catalog: &Catalog,
    window: u16,
    contents: &Contents,
) -> Result<Rows, NoMemory>
    ensures { IfOk result (λ rows. rows ≡ visible_rows (window_def catalog.now window) (window_units (contents_of contents.now) window)) }
{
    match contents.windows.get(usize::from(window)) {
        Some(units) => shown_rows(alloc, catalog, window, units),
        // The catalogue may define a window that these contents lack; it has had no unit.
        None => shown_rows(alloc, catalog, window, &Seq::new(alloc)),
    }
}

/// How many units a window has had, and 0 where there is no such window.
#[tactic(auto, unfolding(ss_model::specs::Contents::window_units))]
pub fn units_count(contents: &Contents, window: u16) -> usize
    ensures { result ≡ length (window_units (contents_of contents.now) window) }
{
    match contents.windows.get(usize::from(window)) {
        Some(units) => units.len(),
        None => 0,
    }
}

/// Adds one unit to a window; changes nothing where there is no such window.
#[tactic(auto, unfolding(ss_model::specs::Contents::window_units, ss_model::specs::Contents::append_unit))]
pub fn append_unit(window: u16, unit: Rows, contents: &mut Contents) -> Result<(), NoMemory>
    ensures { OnOk result (contents_of contents.new ≡ append_unit (contents_of contents.old) window unit) }
{
    match contents.windows.get_mut(usize::from(window)) {
        Some(units) => {
            units.push(unit)?;
        }
        None => {}
    }
    Ok(())
}

/// Adds one row to the open unit of a window; changes nothing where there is no such window.
pub fn join_unit(window: u16, row: Row, open_units: &mut Seq<Rows>) -> Result<(), NoMemory>
    ensures { OnOk result (open_units.new ≡ set open_units.old window (get_or open_units.old window [] ++ row ∷ [])) }
{
    match open_units.get_mut(usize::from(window)) {
        Some(unit) => {
            unit.push(row)?;
        }
        None => {}
    }
    Ok(())
}
