//! Homes: the partition on which a procedure's counts and windows are kept, and a border stream's next numbers.

ghost use Rattle.std.specs.Prelude.{◌≡◌, ◌≤◌, [], Some, IfOk, cond, false, slice_get};
ghost use Rattle.std.specs.List.{find, range_with_len};
ghost use Rattle.std.specs.Option.{option_copied};
ghost use Rattle.ss_model.specs.Database.{is_border, takes_stream};
ghost use Rattle.ss_model.specs.Partitions.{in_touch_set, least_touched, home_of, home_partition, border_procedure, window_partition};
ghost use Rattle.ss_partition.specs.Homes.{homes_of};

use crate::touching::in_touch_set;
use ss_model::{Catalog, Procedure, Touch};
use ss_value::{NoMemory, Seq};
use std::alloc::Global;

/// The least partition of a touch set, if it has one.
fn least_partition(touch: &Touch, parts: u8) -> Option<u8>
    requires { 1 ≤ parts }
    ensures { result ≡ find (in_touch_set parts touch.now []) (range_with_len 0 parts) }
{
    (0..parts).find(|partition| in_touch_set(touch, &[], parts, *partition))
}

/// The home of a procedure with this touch set: its least partition, of so many. Linear in the parts that it lists, for
/// each partition.
pub fn home(touch: &Touch, parts: u8) -> u8
    requires { 1 ≤ parts }
    ensures { result ≡ least_touched parts touch.now }
{
    least_partition(touch, parts).unwrap_or(0)
}

/// The home of the procedure of this number, and 0 where there is none.
fn procedure_home(catalog: &Catalog, procedure: u16, parts: u8) -> u8
    requires { 1 ≤ parts }
    ensures { result ≡ home_of catalog.now parts procedure }
{
    match catalog.procedures.get(usize::from(procedure)) {
        Some(procedure) => home(&procedure.touch, parts),
        None => 0,
    }
}

/// The home of each procedure, by number. Linear in the procedures, times what `home` takes; takes a byte for each.
pub fn homes(alloc: Global, catalog: &Catalog, parts: u8) -> Result<Seq<u8>, NoMemory>
    requires { 1 ≤ parts }
    ensures { IfOk result (λ homes. homes ≡ homes_of catalog.now parts) }
{
    let mut homes = Seq::new(alloc);
    for procedure in catalog.procedures.as_slice() {
        homes.push(home(&procedure.touch, parts))?;
    }
    Ok(homes)
}

/// Whether a procedure is a border procedure that takes a stream.
fn is_border_of(procedure: &Procedure, stream: usize) -> bool
    ensures { result ≡ cond (is_border procedure.now.kind) (takes_stream stream procedure.now) false }
{
    procedure.kind.is_border() && procedure.takes(stream)
}

/// The border procedure that takes a stream.
fn border_procedure(catalog: &Catalog, stream: usize) -> Option<&Procedure>
    ensures { option_copied result ≡ border_procedure catalog.now stream }
{
    catalog
        .procedures
        .as_slice()
        .iter()
        .find(|procedure| is_border_of(procedure, stream))
}

/// The home of the border procedure that takes a stream, and 0 where there is none. Linear in the procedures and their
/// inputs.
pub fn border_home(catalog: &Catalog, stream: u16, parts: u8) -> u8
    requires { 1 ≤ parts }
    ensures { result ≡ home_partition parts (border_procedure catalog.now stream) }
{
    match border_procedure(catalog, usize::from(stream)) {
        Some(procedure) => home(&procedure.touch, parts),
        None => 0,
    }
}

/// The partition of a window: the home of its owner, and 0 where there is no such window.
pub fn window_home(catalog: &Catalog, window: u16, parts: u8) -> u8
    requires { 1 ≤ parts }
    ensures { result ≡ window_partition catalog.now parts window }
{
    match catalog.windows.get(usize::from(window)) {
        Some(window) => procedure_home(catalog, window.owner, parts),
        None => 0,
    }
}
