//! Windows, with the units that may still be seen.

ghost use Rattle.std.specs.Prelude.{◌≡◌, ◌++◌, ◌^◌, length, map, OnOk, All};
ghost use Rattle.std.specs.List.{flat_map};
ghost use Rattle.ss_undo.specs.Windows.{IsCommittedWindow, AreCommittedWindows};
ghost use Rattle.ss_shard.specs.Windows.{kept_part};
ghost use Rattle.ss_standing.specs.FitsImage.{FitRows, FitsWindow};
ghost use Rattle.ss_standing.specs.Image.{counted_rows, window_bytes};

use crate::writing::numbers::{push_count, push_long};
use crate::writing::rows::push_unit;
use ss_value::NoMemory;
use ss_window::Window;
use std::alloc::Global;

/// Adds all units that a committed window holds.
fn push_units(alloc: Global, out: &mut Vec<u8>, window: &Window) -> Result<(), NoMemory>
    requires { (window.now).fresh ≡ 0 }
    ensures spelled { OnOk result (out.new.items ≡ out.old.items ++ flat_map (counted_rows 8) (window.now).kept) }
    ensures fits { OnOk result (All (FitRows (2 ^ 64)) (window.now).kept) }
{
    for at in 0..window.kept_count() {
        let Some(unit) = window.kept(at) else {
            unreachable!()
        };
        push_unit(alloc, out, unit)?;
    }
    Ok(())
}

/// Adds a committed window: how many units it has had, how many of them may still be seen, and these, which are all that it
/// holds. 2^32 of them are reported as out of memory: no accepted catalogue has a window that shows as many.
fn push_window(alloc: Global, out: &mut Vec<u8>, window: &Window) -> Result<(), NoMemory>
    requires { IsCommittedWindow window.now }
    ensures spelled { OnOk result (out.new.items ≡ out.old.items ++ window_bytes (kept_part window.now)) }
    ensures fits { OnOk result (FitsWindow (kept_part window.now)) }
{
    push_long(out, window.units())?;
    push_count(out, window.kept_count())?;
    push_units(alloc, out, window)?;
    Ok(())
}

/// Adds committed windows, one after another.
pub(crate) fn push_windows(
    alloc: Global,
    out: &mut Vec<u8>,
    windows: &[Window],
) -> Result<(), NoMemory>
    requires { AreCommittedWindows windows.now }
    ensures spelled { OnOk result (out.new.items ≡ out.old.items ++ flat_map window_bytes (map kept_part windows.now)) }
    ensures fits { OnOk result (All FitsWindow (map kept_part windows.now)) }
{
    for window in windows {
        push_window(alloc, out, window)?;
    }
    Ok(())
}
