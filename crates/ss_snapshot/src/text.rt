//! The catalogue's text, with which an image begins.

ghost use Rattle.std.specs.Prelude.{◌≡◌, ◌++◌, ◌<◌, ◌≤◌, ◌^◌, length, Some, OnOk, IfOk, IfErr, IsUtf8};
ghost use Rattle.serde_json.specs.Data.{depth};
ghost use Rattle.serde_json.specs.Read.{max_depth, read};
ghost use Rattle.serde_json.specs.View.{view};
ghost use Rattle.ss_model.specs.Accepted.{Accepted};
ghost use Rattle.ss_standing.specs.Image.{text_bytes};
ghost use Rattle.ss_snapshot.specs.Own.{IsReadFromItsText};
ghost use Rattle.ss_snapshot.specs.Foreign.{RefusesCut, RefusesText, length_refusal, text_refusal};

use crate::error::ImageError;
use serde_json::Value;
use ss_model::Catalog;
use ss_nest::{NestError, a_nested_value_has_one_answer, read_nested};
use ss_record::{push_u32, u32_of};
use ss_value::{NoMemory, ValueError};
use std::alloc::Global;

/// The offset of the text's first byte, behind the four of its length.
const TEXT_AT: u64 = 4;

/// Adds a text behind its length, which takes four bytes. A longer text than these can tell, which no line has room
/// for, is reported as out of memory, instead of being ruled out by a premise: no clause bounds a catalogue's text.
/// That the compact text of a value is no longer than the text that the value was read from is no law.
pub(crate) fn push_text(out: &mut Vec<u8>, text: &[u8]) -> Result<(), NoMemory>
    ensures spelled { OnOk result (out.new.items ≡ out.old.items ++ text_bytes text.now) }
    ensures short { OnOk result (length text.now < 2 ^ 32) }
{
    let Ok(length) = u32::try_from(text.len()) else {
        return Err(NoMemory);
    };
    push_u32(out, length)?;
    out.extend_from_slice(text)?;
    Ok(())
}

/// The refusal of bytes that end inside a text or its length.
fn cut(bytes: &[u8]) -> ImageError
    ensures { result ≡ ImageError.Foreign (length bytes.now) }
{
    ImageError::Foreign {
        at: bytes.len() as u64,
    }
}

/// The refusal of bytes that don't begin with a number.
fn uncounted(bytes: &[u8], refused: ValueError) -> ImageError
    ensures { result ≡ length_refusal bytes.now refused }
{
    match refused {
        ValueError::NoMemory => ImageError::NoMemory,
        _ => cut(bytes),
    }
}

/// The text that the bytes begin with, whatever it says, and the bytes behind it.
pub(crate) fn text_in(bytes: &[u8]) -> Result<(&[u8], &[u8]), ImageError>
    ensures short { IfOk result (λ x. length x.0.now < 2 ^ 32) }
    ensures found { IfOk result (λ x. bytes.now ≡ text_bytes x.0.now ++ x.1.now) }
    ensures refused { IfErr result (RefusesCut bytes.now) }
{
    let (length, rest) = match u32_of(bytes) {
        Ok(counted) => counted,
        Err(refused) => return Err(uncounted(bytes, refused)),
    };
    if rest.len() < length as usize {
        return Err(cut(bytes));
    }
    let (text, behind) = rest.split_at(length as usize);
    Ok((text, behind))
}

/// The value that a text spells.
fn value_of(alloc: Global, text: &[u8]) -> Result<Value, ImageError>
    ensures ok { IfOk result (λ value. IsUtf8 text.now × (read text.now ≡ Some (view value))) }
    ensures nests { IfOk result (λ value. depth (view value) ≤ max_depth) }
    ensures refused { IfErr result (RefusesText text.now) }
{
    match Value::from_slice(alloc, text) {
        Ok(value) => Ok(value),
        Err(refused) => {
            if refused.is_memory() {
                return Err(ImageError::NoMemory);
            }
            Err(ImageError::Foreign { at: TEXT_AT })
        }
    }
}

/// The refusal of a text whose value is refused.
fn refusal(refused: &NestError) -> ImageError
    ensures { result ≡ text_refusal refused.now }
{
    match refused {
        NestError::NoMemory => ImageError::NoMemory,
        _ => ImageError::Foreign { at: TEXT_AT },
    }
}

/// The catalogue that is read from a text, as one is read from the first line of an input; the text has to be its own.
///
/// That it is UTF-8 is a part of that beside what `ReadsNested` says (`IsReadFromItsText`), since what JSON a text is doesn't
/// depend on it, and bytes that aren't UTF-8 are refused before they are read.
pub(crate) fn catalog_of(alloc: Global, text: &[u8]) -> Result<Catalog, ImageError>
    ensures own { IfOk result IsReadFromItsText }
    ensures text { IfOk result (λ catalog. catalog.text ≡ text.now) }
    ensures accepted { IfOk result Accepted }
    ensures refused { IfErr result (RefusesText text.now) }
{
    a_nested_value_has_one_answer();
    let value = value_of(alloc, text)?;
    let catalog = match read_nested(alloc, value) {
        Ok(catalog) => catalog,
        Err(refused) => return Err(refusal(&refused)),
    };
    if catalog.text.as_slice() != text {
        return Err(ImageError::Foreign { at: TEXT_AT });
    }
    Ok(catalog)
}
