//! The input: a catalogue, and then a request on each line.

ghost use Rattle.std.specs.Prelude.{◌≡◌, IfOk, OnOk, true};
ghost use Rattle.ss_model.specs.Accepted.{Accepted};
ghost use Rattle.ss_model.specs.AcceptedBodies.{OtherBodies};
ghost use Rattle.ss_model.specs.Database.{fits_entry};
ghost use Rattle.ss_model.specs.Report.{asked_entry};
ghost use Rattle.ss_model.specs.SparesAside.{with_spares, GoesOnWith};
ghost use Rattle.ss_nest.specs.Reads.{WasNested};
ghost use Rattle.ss_run.specs.RunAnswers.{all_fit};

use serde_json::Value as Json;
use ss_catalog_requests::request_of;
use ss_lines::{Line, Source, read_lines};
use ss_model::{Catalog, Request};
use ss_model_laws::spares_aside;
use ss_nest::read_nested;
use ss_value::Seq;
use std::alloc::Global;
use std::io;

/// What an input asks for: a catalogue, in which the bodies may be installed that requests install, and requests in order.
#[derive(Drop)]
pub struct ParsedInput {
    pub catalog: Catalog,
    pub requests: Seq<Request>,
}

/// The error of an input that is refused, or for which there is no memory.
fn refused() -> io::Error {
    io::Error::other("the input is refused or too large; `sstore - run` says where and why")
}

/// The catalogue of a line.
fn catalog_at(alloc: Global, line: &Line) -> io::Result<Catalog>
    ensures accepted { IfOk result Accepted }
    ensures read { IfOk result WasNested }
{
    let Ok(value) = Json::from_slice(alloc, line.bytes.as_slice()) else {
        return Err(refused());
    };
    match read_nested(alloc, value) {
        Ok(catalog) => Ok(catalog),
        Err(_) => Err(refused()),
    }
}

/// The request of a line. The body that it installs may then be installed.
fn request_at(alloc: Global, catalog: &mut Catalog, line: &Line) -> io::Result<Request>
    requires was_read { WasNested catalog.old }
    requires spares { OtherBodies catalog.old }
    ensures fits { IfOk result (λ r. fits_entry catalog.new (asked_entry r.client 0 r.what) ≡ true) }
    ensures same { OnOk result (catalog.new ≡ with_spares catalog.old catalog.new.spares) }
    ensures goes_on { OnOk result (GoesOnWith catalog.old catalog.new.spares) }
    ensures stays_read { OnOk result (WasNested catalog.new) }
    ensures stand { OnOk result (OtherBodies catalog.new) }
{
    let Ok(value) = Json::from_slice(alloc, line.bytes.as_slice()) else {
        return Err(refused());
    };
    request_of(alloc, catalog, line.number, &value).map_err(|_| refused())
}

/// The requests of the lines behind the first. The bodies that they install may then be installed.
fn requests_at(alloc: Global, catalog: &mut Catalog, lines: &[Line]) -> io::Result<Seq<Request>>
    requires accepted { Accepted catalog.old }
    requires was_read { WasNested catalog.old }
    ensures accepted { OnOk result (Accepted catalog.new) }
    ensures fit { IfOk result (λ requests. all_fit catalog.new requests ≡ true) }
{
    // A law, which does nothing: with a body more a catalogue stays accepted.
    spares_aside();
    let mut requests = Seq::new(alloc);
    for line in lines {
        let request = request_at(alloc, catalog, line)?;
        if requests.push(request).is_err() {
            return Err(refused());
        }
    }
    Ok(requests)
}

/// Reads a source to its end. Its lines are freed when this returns.
pub fn read_input<S: Source>(alloc: Global, source: &mut S) -> io::Result<ParsedInput>
    ensures accepted { IfOk result (λ p. Accepted p.catalog) }
    ensures fit { IfOk result (λ p. all_fit p.catalog p.requests ≡ true) }
{
    let Ok(lines) = read_lines(alloc, source) else {
        return Err(refused());
    };
    let Some((first, rest)) = lines.as_slice().split_first() else {
        return Err(refused());
    };
    let mut catalog = catalog_at(alloc, first)?;
    let requests = requests_at(alloc, &mut catalog, rest)?;
    Ok(ParsedInput { catalog, requests })
}
