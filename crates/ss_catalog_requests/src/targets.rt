//! What a request's name is the name of.
//!
//! A name is looked up by a walk over the catalogue: there are at most 64 procedures and 32 streams, and a request
//! has one name, so that an index of them would cost more to make and carry than it saves.

ghost use Rattle.std.specs.Prelude.{◌≡◌, slice_get};
ghost use Rattle.ss_catalog_requests.specs.Targets.{is_procedure_named, procedure_named, is_call_named, call_named, is_stream_named, is_border_stream_named, border_stream_named};

use ss_model::Catalog;

fn is_call_named(catalog: &Catalog, name: &[u8], procedure: usize) -> bool
    ensures { result ≡ is_call_named name.now (slice_get catalog.now.procedures procedure) }
{
    match catalog.procedures.get(procedure) {
        Some(found) => found.name.as_bytes() == name && found.kind.is_call(),
        None => false,
    }
}

/// The number of the first call procedure of this name; no other kind is called. Linear in the procedures and the name's
/// bytes.
pub(crate) fn call_named(catalog: &Catalog, name: &[u8]) -> Option<usize>
    ensures { result ≡ call_named catalog.now name.now }
{
    (0..catalog.procedures.len()).find(|procedure| is_call_named(catalog, name, *procedure))
}

fn is_procedure_named(catalog: &Catalog, name: &[u8], procedure: usize) -> bool
    ensures { result ≡ is_procedure_named name.now (slice_get catalog.now.procedures procedure) }
{
    match catalog.procedures.get(procedure) {
        Some(found) => found.name.as_bytes() == name,
        None => false,
    }
}

/// The number of the first procedure of this name, of whatever kind. Linear in the procedures and the name's bytes.
pub(crate) fn procedure_named(catalog: &Catalog, name: &[u8]) -> Option<usize>
    ensures { result ≡ procedure_named catalog.now name.now }
{
    (0..catalog.procedures.len()).find(|procedure| is_procedure_named(catalog, name, *procedure))
}

fn is_stream_named(catalog: &Catalog, name: &[u8], stream: usize) -> bool
    ensures { result ≡ is_stream_named name.now (slice_get catalog.now.streams stream) }
{
    match catalog.streams.get(stream) {
        Some(found) => found.name.as_bytes() == name,
        None => false,
    }
}

fn is_border_stream_named(catalog: &Catalog, name: &[u8], stream: usize) -> bool
    ensures { result ≡ is_border_stream_named catalog.now name.now stream }
{
    is_stream_named(catalog, name, stream) && catalog.is_border_stream(stream)
}

/// The number of the first border stream of this name; no other stream is pushed to. Linear in the streams, the
/// procedures' inputs and the name's bytes.
pub(crate) fn border_stream_named(catalog: &Catalog, name: &[u8]) -> Option<usize>
    ensures { result ≡ border_stream_named catalog.now name.now }
{
    (0..catalog.streams.len()).find(|stream| is_border_stream_named(catalog, name, *stream))
}
