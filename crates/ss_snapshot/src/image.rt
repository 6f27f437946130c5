//! The image of an empty database, written, and that of any whole database, read.

ghost use Rattle.std.specs.Prelude.{◌≡◌, ◌<◌, ◌≤◌, ◌^◌, true, length, OnOk, IfOk, IfErr};
ghost use Rattle.ss_model.specs.Accepted.{Accepted};
ghost use Rattle.ss_model.specs.Database.{own_bodies};
ghost use Rattle.ss_shard.specs.Databases.{IsWhole};
ghost use Rattle.ss_shard.specs.Parts.{IsWholeShard};
ghost use Rattle.ss_standing.specs.FitsImage.{FitBodies};
ghost use Rattle.ss_standing.specs.Image.{empty_image_of};
ghost use Rattle.ss_snapshot.specs.Foreign.{rest_refusal};
ghost use Rattle.ss_snapshot.specs.Images.{FindsImage, IsReadAs, Refuses};
ghost use Rattle.ss_snapshot.specs.Read.{IsReadBehindText};

use crate::error::ImageError;
use crate::kept::{
    push_bodies, push_counts, push_sources, push_streams, push_tables, push_windows,
};
use crate::laws::bytes_have_one_answer;
use crate::reading::{PartError, database_in};
use crate::text::{catalog_of, push_text, text_in};
use ss_model::Catalog;
use ss_shard::Database;
use ss_standing::images_are_exact;
use ss_value::{NoMemory, Seq};
use std::alloc::Global;

/// The image of a catalogue's empty database.
///
/// A catalogue's text, and that of a body, may have 2^32 - 1 bytes, which its length has room for; a longer one, which no
/// line has room for, is reported as out of memory. Time is linear in the text and the definitions, and for each stream in the inputs of all
/// procedures. The memory is that of the image, which is the text and a few bytes for each definition.
pub fn empty_image(alloc: Global, catalog: &Catalog) -> Result<Seq<u8>, NoMemory>
    ensures ok { IfOk result (λ image. image ≡ empty_image_of catalog.now) }
    ensures short { OnOk result (length catalog.now.text < 2 ^ 32) }
    ensures fits { OnOk result (FitBodies true catalog.now (own_bodies catalog.now)) }
{
    let mut image = Vec::new(alloc);
    push_text(&mut image, catalog.text.as_slice())?;
    push_tables(&mut image, catalog.tables.len())?;
    push_windows(&mut image, catalog.windows.len())?;
    push_streams(&mut image, catalog.streams.len())?;
    push_counts(&mut image, catalog.procedures.len())?;
    push_sources(&mut image, catalog)?;
    push_bodies(&mut image, catalog)?;
    Ok(Seq::from_vec(image))
}

/// The refusal of what is behind a catalogue's text. A subtraction that stops at 0, since no reader's clause says that no more
/// bytes are left than there are.
fn refusal(bytes: &[u8], refused: PartError) -> ImageError
    ensures { result ≡ rest_refusal bytes.now refused }
{
    match refused {
        PartError::NoMemory => ImageError::NoMemory,
        PartError::Foreign { left } => ImageError::Foreign {
            at: bytes.len().saturating_sub(left) as u64,
        },
    }
}

/// The catalogue whose text the bytes begin with, and the database of those behind it.
fn catalog_and_database_in(
    alloc: Global,
    bytes: &[u8],
    first: u64,
    partitions: u8,
    bodies: bool,
) -> Result<(Catalog, Database), ImageError>
    requires some { 1 ≤ partitions }
    requires few { partitions ≤ 8 }
    requires place { first ≤ 2 ^ 60 }
    ensures read { IfOk result (IsReadBehindText bodies bytes.now first) }
    ensures whole { IfOk result (λ read. IsWholeShard read.0 partitions read.1.whole) }
    ensures refused { IfErr result (Refuses bodies first bytes.now) }
{
    let (text, rest) = text_in(bytes)?;
    let mut catalog = catalog_of(alloc, text)?;
    match database_in(alloc, rest, &mut catalog, first, partitions, bodies) {
        Ok(database) => Ok((catalog, database)),
        Err(refused) => Err(refusal(bytes, refused)),
    }
}

/// The catalogue and the database of which the bytes are the image at this place, dealt to so many partitions, 1 to 8; or the
/// first byte that can't be. `bodies` says whether the bytes are of the form that tells the bodies of the procedures, which
/// the generation around an image knows; without them each procedure has its own.
///
/// The bodies of the image that aren't the procedures' own are to be installed in the catalogue that is read (`spares`).
///
/// What `empty_image` and `write_image` write is read again to the same catalogue, where that is what its text is read as,
/// and to a database that stands for whatever the written one stood for. What is read is accepted, and whole.
///
/// `Foreign` tells the end of bytes that end inside the text or its length, which has four bytes; the text's first byte
/// where it isn't UTF-8 or JSON, where `read_nested` refuses it, or where it isn't the compact text of its value; the
/// first byte of a body's text that is no body's (`nested_body_of`); and else the first byte of the first field that can't be,
/// with the bounds that follow from the catalogue, from the fields before it and from the place, which no stream has had
/// more batches than; a stream inside of a nest has had none.
///
/// Costs what `read_nested` costs, and that again for each body that isn't the procedure's own, and an insert for each
/// row. There are two copies of the text, of which the catalogue keeps one.
pub fn read_image(
    alloc: Global,
    bytes: &[u8],
    first: u64,
    partitions: u8,
    bodies: bool,
) -> Result<(Catalog, Database), ImageError>
    requires some { 1 ≤ partitions }
    requires few { partitions ≤ 8 }
    requires place { first ≤ 2 ^ 60 }
    ensures image { IfOk result (IsReadAs bodies bytes.now first) }
    ensures accepted { IfOk result (λ read. Accepted read.0) }
    ensures is_whole { IfOk result (λ read. IsWholeShard read.0 partitions read.1.whole × IsWhole read.0 read.1) }
    ensures refused { IfErr result (Refuses bodies first bytes.now) }
    ensures again { FindsImage bodies bytes.now first result }
{
    // Laws: behind its text an image is read as what is kept of its database, and nothing else is.
    images_are_exact();
    bytes_have_one_answer();
    catalog_and_database_in(alloc, bytes, first, partitions, bodies)
}
