//! The part of a row.

ghost use Rattle.std.specs.Prelude.{◌≡◌, ◌≤◌};
ghost use Rattle.std.specs.Option.{option_copied};
ghost use Rattle.ss_table.specs.Routes.{optional_part, part_of, IsRoute};
ghost use Rattle.ss_table.specs.TableValue.{HasKey, key_of};

use ss_value::{Row, Value, value_partition};

/// How the rows of a table are dealt to parts.
#[derive(Clone, Copy, Drop)]
pub enum Route {
    /// All to the part with this number.
    Placed(u8),
    /// By the value in this place of the key, to so many parts: 1 at least.
    Split(usize, u8),
}

/// The part of a value that may be missing.
fn optional_part(parts: u8, value: Option<&Value>) -> u8
    requires { 1 ≤ parts }
    ensures { result ≡ optional_part parts (option_copied value.entry) }
{
    match value {
        None => 0,
        Some(value) => value_partition(parts, value),
    }
}

/// The part of a key. A division, and linear in the bytes of the Text that is there.
pub fn part_of(route: Route, key: &[Value]) -> u8
    requires { IsRoute route }
    ensures { result ≡ part_of route key.now }
{
    match route {
        Route::Placed(part) => part,
        Route::Split(place, parts) => optional_part(parts, key.get(place)),
    }
}

/// The part of a row, by its key in these columns. No copy of the key is made.
pub fn part_of_row(route: Route, key: &[u8], row: &Row) -> u8
    requires route { IsRoute route }
    requires has_key { HasKey key.now row.now }
    ensures { result ≡ part_of route (key_of key.now row.now) }
{
    match route {
        Route::Placed(part) => part,
        Route::Split(place, parts) => match key.get(place) {
            None => 0,
            Some(column) => optional_part(parts, row.get(usize::from(*column))),
        },
    }
}
