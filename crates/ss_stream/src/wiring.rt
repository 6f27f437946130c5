//! Which procedures take the streams of a catalogue.

ghost use Rattle.std.specs.Prelude.{◌≡◌, ◌≤◌, map, length, IfOk};
ghost use Rattle.std.specs.List.{range_with_len};
ghost use Rattle.ss_model.specs.Database.{empty_database};
ghost use Rattle.ss_model.specs.Orders.{procedure_takes};
ghost use Rattle.ss_stream.specs.OfDatabase.{AreStreamsOf, consumers_of};

use crate::streams::Streams;
use ss_model::Catalog;
use ss_value::{NoMemory, Seq};
use std::alloc::Global;

/// Whether a procedure takes a stream, and false where there is none of this number.
fn takes(catalog: &Catalog, procedure: usize, stream: usize) -> bool
    ensures { result ≡ procedure_takes catalog.now procedure stream }
{
    match catalog.procedures.get(procedure) {
        Some(found) => found.takes(stream),
        None => false,
    }
}

/// The procedures that take a stream, in rising order.
fn consumers_of(alloc: Global, catalog: &Catalog, stream: usize) -> Result<Seq<u16>, NoMemory>
    requires { length catalog.now.procedures ≤ 64 }
    ensures { IfOk result (λ consumers. consumers ≡ consumers_of catalog.now stream) }
{
    let mut consumers = Seq::new(alloc);
    for procedure in 0..catalog.procedures.len() {
        if takes(catalog, procedure, stream) {
            consumers.push(procedure as u16)?;
        }
    }
    Ok(consumers)
}

/// Of each stream the procedures that take it, in rising order.
///
/// Needs no more procedures than a catalogue may have, so that each number fits in 16 bits. A look at each input of the
/// catalogue for each stream.
pub fn consumers(alloc: Global, catalog: &Catalog) -> Result<Seq<Seq<u16>>, NoMemory>
    requires { length catalog.now.procedures ≤ 64 }
    ensures { IfOk result (λ consumers. consumers ≡ map (consumers_of catalog.now) (range_with_len 0 (length catalog.now.streams))) }
{
    let mut consumers = Seq::new(alloc);
    for stream in 0..catalog.streams.len() {
        let takers = consumers_of(alloc, catalog, stream)?;
        consumers.push(takers)?;
    }
    Ok(consumers)
}

/// The streams of a catalogue before the first entry. Needs and costs what `consumers` does.
pub fn empty_streams(alloc: Global, catalog: &Catalog) -> Result<Streams, NoMemory>
    requires { length catalog.now.procedures ≤ 64 }
    ensures { IfOk result (λ made. AreStreamsOf catalog.now (empty_database catalog.now) made.streams) }
{
    let consumers = consumers(alloc, catalog)?;
    Streams::new(alloc, consumers)
}
