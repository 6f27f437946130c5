//! Windows, counts and sources of two shards that change places, by their homes.

ghost use Rattle.std.specs.Prelude.{◌≡◌, ◌≤◌, ◌==◌, length};
ghost use Rattle.ss_model.specs.Partitions.{window_partition, home_of, home_partition, border_procedure};
ghost use Rattle.ss_shard.specs.Exchanges.{exchanged};

use crate::sources::Sources;
use ss_model::Catalog;
use ss_partition::{border_home, home, window_home};
use ss_value::Seq;
use ss_window::Window;

/// The windows that are at home on a partition change places. Linear in the windows, times what `window_home` takes; takes no
/// memory.
pub fn exchange_windows(
    catalog: &Catalog,
    parts: u8,
    partition: u8,
    windows: &mut Seq<Window>,
    others: &mut Seq<Window>,
)
    requires some { 1 ≤ parts }
    requires few { length windows.old ≤ 64 }
    requires alike { length others.old ≡ length windows.old }
    ensures here { windows.new ≡ exchanged (λ w. window_partition catalog.now parts w == partition) windows.old others.old }
    ensures there { others.new ≡ exchanged (λ w. window_partition catalog.now parts w == partition) others.old windows.old }
{
    for number in 0..windows.len() {
        if window_home(catalog, number as u16, parts) == partition {
            exchange_at(windows, others, number);
        }
    }
}

/// The counts of the procedures that are at home on a partition change places. Linear in the procedures, times what
/// `home` takes; takes no memory.
pub fn exchange_cursors(
    catalog: &Catalog,
    parts: u8,
    partition: u8,
    cursors: &mut Seq<u64>,
    others: &mut Seq<u64>,
)
    requires some { 1 ≤ parts }
    requires each { length cursors.old ≡ length catalog.now.procedures }
    requires alike { length others.old ≡ length cursors.old }
    ensures here { cursors.new ≡ exchanged (λ q. home_of catalog.now parts q == partition) cursors.old others.old }
    ensures there { others.new ≡ exchanged (λ q. home_of catalog.now parts q == partition) others.old cursors.old }
{
    for (number, procedure) in catalog.procedures.as_slice().iter().enumerate() {
        if home(&procedure.touch, parts) == partition {
            exchange_at(cursors, others, number);
        }
    }
}

/// The sources of the streams whose border procedure is at home on a partition change places. Linear in the streams, times what
/// `border_home` takes; takes no memory.
pub fn exchange_sources(
    catalog: &Catalog,
    parts: u8,
    partition: u8,
    sources: &mut Seq<Sources>,
    others: &mut Seq<Sources>,
)
    requires some { 1 ≤ parts }
    requires few { length sources.old ≤ 64 }
    requires alike { length others.old ≡ length sources.old }
    ensures here { sources.new ≡ exchanged (λ s. home_partition parts (border_procedure catalog.now s) == partition) sources.old others.old }
    ensures there { others.new ≡ exchanged (λ s. home_partition parts (border_procedure catalog.now s) == partition) others.old sources.old }
{
    for number in 0..sources.len() {
        if border_home(catalog, number as u16, parts) == partition {
            exchange_at(sources, others, number);
        }
    }
}

/// Two items at one place change places, where both lists have one there. Constant.
fn exchange_at<T>(items: &mut Seq<T>, others: &mut Seq<T>, place: usize)
    ensures here { items.new ≡ exchanged (λ i. i == place) items.old others.old }
    ensures there { others.new ≡ exchanged (λ i. i == place) others.old items.old }
{
    let Some(item) = items.get_mut(place) else {
        return;
    };
    let Some(other) = others.get_mut(place) else {
        return;
    };
    std::mem::swap(item, other);
}
