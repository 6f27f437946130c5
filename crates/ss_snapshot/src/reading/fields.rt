//! Fields of an image from bytes.

ghost use Rattle.std.specs.Prelude.{◌≡◌};
ghost use Rattle.ss_record.specs.Reading.{number_at};
ghost use Rattle.ss_cmdlog.specs.Reading.{whole};
ghost use Rattle.ss_standing.specs.ImageForm.{row_of};
ghost use Rattle.ss_snapshot.specs.Parts.{Reads, row_error};

use ss_record::{decode_row, u16_of, u32_of, u64_of};
use ss_value::{Row, Schema, ValueError, fits};
use std::alloc::Global;

/// Why bytes aren't read as a part of an image. A fault is told by how many bytes are left, instead of by its place, so
/// that no reader of a field carries a place: whoever has all of the bytes makes one of it.
#[derive(Clone, Copy, Debug, PartialEq, Eq, Drop)]
pub(crate) enum PartError {
    /// Want of memory.
    NoMemory,
    /// So many bytes are left from the first on that can't be.
    Foreign { left: usize },
}

impl From<ValueError> for PartError {
    ghost use Rattle.std.specs.Prelude.{◌≡◌};
    ghost use Rattle.ss_snapshot.specs.Parts.{number_error};

    ghost from_gives = { λ refused e. e ≡ number_error refused };

    fn from(refused: ValueError) -> PartError {
        match refused {
            ValueError::NoMemory => PartError::NoMemory,
            _ => PartError::Foreign { left: 0 },
        }
    }
}

/// A number of two bytes, whatever it is.
pub(crate) fn u16_in(bytes: &[u8]) -> Result<(u16, &[u8]), PartError>
    ensures { Reads (λ x. (x.0, x.1.now)) result (whole (number_at 2 bytes.now)) }
{
    match u16_of(bytes) {
        Ok(number) => Ok(number),
        Err(refused) => Err(PartError::from(refused)),
    }
}

/// A number of four bytes, whatever it is.
pub(crate) fn u32_in(bytes: &[u8]) -> Result<(u32, &[u8]), PartError>
    ensures { Reads (λ x. (x.0, x.1.now)) result (whole (number_at 4 bytes.now)) }
{
    match u32_of(bytes) {
        Ok(number) => Ok(number),
        Err(refused) => Err(PartError::from(refused)),
    }
}

/// A number of eight bytes, whatever it is.
pub(crate) fn u64_in(bytes: &[u8]) -> Result<(u64, &[u8]), PartError>
    ensures { Reads (λ x. (x.0, x.1.now)) result (whole (number_at 8 bytes.now)) }
{
    match u64_of(bytes) {
        Ok(number) => Ok(number),
        Err(refused) => Err(PartError::from(refused)),
    }
}

/// The refusal of a row, which is one field.
fn refused_row(bytes: &[u8], refused: ValueError) -> PartError
    ensures { result ≡ row_error bytes.now refused }
{
    match refused {
        ValueError::NoMemory => PartError::NoMemory,
        ValueError::Truncated => PartError::Foreign { left: 0 },
        _ => PartError::Foreign { left: bytes.len() },
    }
}

/// A row that fits the columns. Linear in its bytes, of which its texts are copies.
pub(crate) fn fitting_row_in<'a>(
    alloc: Global,
    bytes: &'a [u8],
    schema: &Schema,
) -> Result<(Row, &'a [u8]), PartError>
    ensures { Reads (λ x. (x.0, x.1.now)) result (row_of schema.now bytes.now) }
{
    let (row, taken) = match decode_row(alloc, bytes) {
        Ok(read) => read,
        Err(refused) => return Err(refused_row(bytes, refused)),
    };
    let (_, rest) = bytes.split_at(taken);
    if !fits(schema, &row) {
        return Err(PartError::Foreign { left: bytes.len() });
    }
    Ok((row, rest))
}
