//! Images: what is kept of a database as bytes, written and read again.
//!
//! A store begins with an image and goes on with the entries behind it, so that a database is recovered from both. The
//! image of a new store is that of its catalogue's empty database: `empty_image` writes it. `read_image` reads the image of
//! any whole database, or tells the first byte that can't be.
//!
//! - `image`: these two calls; `error`: why bytes are refused
//! - `text`: the catalogue's text, with which an image begins; `kept`: what is behind it
//! - `writing`: the image of any whole database, from the shard and the streams that stand for it
//! - `reading`: parts of the image of any database, from their bytes, and the database that they make
//! - `laws`: bytes have one answer, what is held tells what is kept, and the other way round
//!
//! The definitions are `specs/Images`, which bytes are the image of a database, and the first byte of others that can't be,
//! for which `specs/Own` and `specs/Foreign` have the catalogue's text and `specs/Bodies` its bodies; and `specs/Held`, what
//! is kept of a database told by the shard and the streams that stand for it. How an image spells what is kept of a database is `ss_standing`'s
//! `specs/Image`, and how it is read `specs/ImageForm`.
//!
//! Calls that take `alloc` may answer `NoMemory` in place of their answer.
//!
//! # Promises
//!
//! - `empty_image` is exactly the bytes that spell what is kept of a catalogue's empty database (`ok`).
//! - `write_image` is exactly the bytes that spell what is kept of whatever whole database a shard and streams stand for
//!   (`spelled`), for which these bytes have room (`fits`, `short`).
//! - What is kept of a whole database is told by any shard and streams that stand for it
//!   (`what_is_held_tells_what_is_kept`); and those that tell it stand for it (`what_is_kept_tells_what_is_held`).
//! - `read_image` gives a catalogue, which is accepted (`accepted`), and a database, which is whole (`is_whole`) and stands
//!   for one of which the bytes are the image (`image`); or the first byte that can't be (`refused`). Of bytes that are the
//!   image of a database it gives its catalogue, and what stands for it (`again`).
//!
//! # Choices
//!
//! - Whether an image tells the bodies of the procedures is told by the generation around it, so `read_image` is told it. What
//!   is written tells them.
//! - A catalogue's text doesn't tell which bodies may be installed. So an image is one of any catalogue of its text whose
//!   bodies to be installed are read from their texts (`IsReadFromItsText`), and two such catalogues are the same, these
//!   aside (`SameButSpares`).
//! - A stream inside of a nest is spelled as one without batches, instead of being left out, because then an image has each
//!   stream of the catalogue in its turn. Another number of batches than 0 is told there.
//! - The first byte that can't be is the furthest to which the bytes are read with whatever bodies to be installed
//!   (`NoneGetsFurther`), instead of being told by a reader that knows which texts are bodies: which they are is a relation.
#![tactic(auto)]

mod error;
mod image;
mod kept;
mod laws;
mod reading;
mod text;
mod writing;

pub use error::ImageError;
pub use image::{empty_image, read_image};
pub use laws::{
    bytes_have_one_answer, what_is_held_tells_what_is_kept, what_is_kept_tells_what_is_held,
};
pub use writing::write_image;
