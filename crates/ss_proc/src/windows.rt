//! The windows of batches that a procedure owns, each of which gets its unit behind the last step of the body.

ghost use Rattle.std.specs.Prelude.{◌≡◌, ◌<◌, ◌≤◌, length, Some};
ghost use Rattle.ss_model.specs.Bodies.{is_closed_by, close_window};
ghost use Rattle.ss_proc.specs.Executions.{context_of, MayRunOn};
ghost use Rattle.ss_model.specs.Depths.{close_owned};
ghost use Rattle.ss_proc.specs.Meanings.{Does};

use crate::cascade::close_unit;
use crate::work::{Given, Work};
use ss_model::{RunError, WindowDef};
use ss_shard::Shard;
use ss_value::Unit;
use std::alloc::Global;

/// Whether a window is a window of batches that this procedure owns.
fn is_closed_by(procedure: u16, window: &WindowDef) -> bool
    ensures { result ≡ is_closed_by procedure (Some window.now) }
{
    window.owner == procedure
        && match window.unit {
            Unit::Rows => false,
            Unit::Batches => true,
        }
}

/// Closes the unit that the execution has open in a window, with the window's triggers if this moves the end of what it shows.
///
/// The unit is moved into the window and none of its rows stays open, in the model too, which changes no outcome, since
/// a window closes once, at the end.
fn close_window(
    alloc: Global,
    given: &Given,
    window: u16,
    shard: &mut Shard,
    work: &mut Work,
) -> Result<(), RunError>
    requires may_run { MayRunOn given.now.catalog.now shard.old }
    requires there { window < length given.now.catalog.now.windows }
    ensures { Does (close_window (context_of given.now) window) result shard.old work.old shard.new work.new }
{
    let unit = work.open_units.take(window);
    close_unit(alloc, given, window, unit, shard, work)
}

/// Closes the unit of each window of batches that the procedure owns, in written order, up to the first abort.
pub fn close_owned(
    alloc: Global,
    given: &Given,
    shard: &mut Shard,
    work: &mut Work,
) -> Result<(), RunError>
    requires may_run { MayRunOn given.now.catalog.now shard.old }
    requires few { length given.now.catalog.now.windows ≤ 32 }
    ensures { Does (close_owned (context_of given.now)) result shard.old work.old shard.new work.new }
{
    for (n, window) in given.catalog.windows.as_slice().iter().enumerate() {
        if is_closed_by(given.procedure, window) {
            close_window(alloc, given, n as u16, shard, work)?;
        }
    }
    Ok(())
}
