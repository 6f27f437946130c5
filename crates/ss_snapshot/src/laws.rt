//! Bytes have one answer as an image of a database, and a shard and streams tell what an image spells.
//!
//! Which catalogue a text is read as is a relation, so what bytes are an image of is one too. The laws here are the
//! contract of a function that does nothing: it only calls the laws of a catalogue's value and of images, which are such
//! functions too.

ghost use Rattle.ss_snapshot.specs.Held.{HeldTellsKept, KeptTellsHeld};
ghost use Rattle.ss_snapshot.specs.Images.{HasOneKept, IsImageOrForeign, HasOneOffset};

use ss_model_laws::spares_aside;
use ss_nest::{a_nested_body_has_one_answer, a_nested_value_has_one_answer};
use ss_standing::{an_image_tells_what_is_kept, images_are_exact};

/// Bytes are the image of databases of one catalogue at most, bodies to be installed aside, of which the same is kept; those that are one have no first
/// byte that can't be; and others have one such byte at most.
pub fn bytes_have_one_answer()
    ensures kept { HasOneKept }
    ensures either { IsImageOrForeign }
    ensures offset { HasOneOffset }
{
    a_nested_value_has_one_answer();
    a_nested_body_has_one_answer();
    spares_aside();
    an_image_tells_what_is_kept();
    images_are_exact();
}

/// What is kept of a whole database is told by any shard and streams that stand for it: so an image is written from these
/// alone.
pub fn what_is_held_tells_what_is_kept()
    ensures { HeldTellsKept }
{}

/// A shard that tells what is kept of a whole database stands for it, with streams that do, and whose cursors are at the
/// counts: so what is read of an image stands for each database of which the image is one.
pub fn what_is_kept_tells_what_is_held()
    ensures { KeptTellsHeld }
{}
