//! Rows from bytes.

ghost use Rattle.std.specs.Prelude.{◌≤◌, drop, IfOk};
ghost use Rattle.ss_record.specs.Found.{IsRowInFront, FindsRow};
ghost use Rattle.ss_record.specs.Reading.{byte_at, number_at, text_at, int_value_at, text_value_at, value_at, values_at, row_at, bytes_at, Gives};

use byteorder::{BigEndian, ByteOrder};
use ss_value::{Row, Seq, Text, Value, ValueError, text_of};
use std::alloc::Global;

/// The row at the front of the bytes, and how many of them are its. Linear in these, of which the row's texts are copies.
///
/// The first fault from the left is refused: `Truncated` where the bytes end, `WrongShape` at a count over 16,
/// `BadKind` at a value that is neither an Int nor a Text, `NotUtf8` at a text that isn't one.
pub fn decode_row(alloc: Global, bytes: &[u8]) -> Result<(Row, usize), ValueError>
    ensures found { IfOk result (λ r. IsRowInFront bytes.now r.0 r.1) }
    ensures only { FindsRow bytes.now result }
    ensures exact { Gives (λ r. (r.0, drop r.1 bytes.now)) result (row_at bytes.now) }
{
    match row_in(alloc, bytes) {
        Ok((row, rest)) => {
            let taken = bytes.len() - rest.len();
            Ok((row, taken))
        }
        Err(refused) => Err(refused),
    }
}

/// The byte in front, and the bytes behind it. `Truncated` where there is none.
pub fn byte_of(bytes: &[u8]) -> Result<(u8, &[u8]), ValueError>
    ensures { Gives (λ x. (x.0, x.1.now)) result (byte_at bytes.now) }
{
    match bytes.split_first() {
        None => Err(ValueError::Truncated),
        Some((byte, rest)) => Ok((*byte, rest)),
    }
}

/// The number of two bytes in front, and the bytes behind it. `Truncated` where there are fewer.
pub fn u16_of(bytes: &[u8]) -> Result<(u16, &[u8]), ValueError>
    ensures { Gives (λ x. (x.0, x.1.now)) result (number_at 2 bytes.now) }
{
    if bytes.len() < 2 {
        return Err(ValueError::Truncated);
    }
    let (front, rest) = bytes.split_at(2);
    Ok((BigEndian::read_u16(front), rest))
}

/// The number of four bytes in front, and the bytes behind it. `Truncated` where there are fewer.
pub fn u32_of(bytes: &[u8]) -> Result<(u32, &[u8]), ValueError>
    ensures { Gives (λ x. (x.0, x.1.now)) result (number_at 4 bytes.now) }
{
    if bytes.len() < 4 {
        return Err(ValueError::Truncated);
    }
    let (front, rest) = bytes.split_at(4);
    Ok((BigEndian::read_u32(front), rest))
}

/// The number of eight bytes in front, and the bytes behind it. `Truncated` where there are fewer.
pub fn u64_of(bytes: &[u8]) -> Result<(u64, &[u8]), ValueError>
    ensures { Gives (λ x. (x.0, x.1.now)) result (number_at 8 bytes.now) }
{
    if bytes.len() < 8 {
        return Err(ValueError::Truncated);
    }
    let (front, rest) = bytes.split_at(8);
    Ok((BigEndian::read_u64(front), rest))
}

fn text_of_length(alloc: Global, bytes: &[u8], count: usize) -> Result<(Text, &[u8]), ValueError>
    requires { count ≤ 255 }
    ensures { Gives (λ x. (x.0, x.1.now)) result (bytes_at count bytes.now) }
{
    if bytes.len() < count {
        return Err(ValueError::Truncated);
    }
    let (front, rest) = bytes.split_at(count);
    match text_of(alloc, front) {
        Ok(text) => Ok((text, rest)),
        Err(refused) => Err(refused),
    }
}

#[tactic(auto, unfolding(crate::specs::Reading::text_at))]
fn text_in(alloc: Global, bytes: &[u8]) -> Result<(Text, &[u8]), ValueError>
    ensures { Gives (λ x. (x.0, x.1.now)) result (text_at bytes.now) }
{
    let (count, rest) = byte_of(bytes)?;
    text_of_length(alloc, rest, usize::from(count))
}

fn int_in(bytes: &[u8]) -> Result<(Value, &[u8]), ValueError>
    ensures { Gives (λ x. (x.0, x.1.now)) result (int_value_at bytes.now) }
{
    let (n, rest) = u64_of(bytes)?;
    Ok((Value::Int(n.cast_signed()), rest))
}

fn text_value_in(alloc: Global, bytes: &[u8]) -> Result<(Value, &[u8]), ValueError>
    ensures { Gives (λ x. (x.0, x.1.now)) result (text_value_at bytes.now) }
{
    let (text, rest) = text_in(alloc, bytes)?;
    Ok((Value::Text(text), rest))
}

#[tactic(auto, unfolding(crate::specs::Reading::value_at))]
fn value_in(alloc: Global, bytes: &[u8]) -> Result<(Value, &[u8]), ValueError>
    ensures { Gives (λ x. (x.0, x.1.now)) result (value_at bytes.now) }
{
    let (kind, rest) = byte_of(bytes)?;
    match kind {
        0 => int_in(rest),
        1 => text_value_in(alloc, rest),
        _ => Err(ValueError::BadKind),
    }
}

#[tactic(auto, unfolding(crate::specs::Reading::row_at))]
pub(crate) fn row_in(alloc: Global, bytes: &[u8]) -> Result<(Row, &[u8]), ValueError>
    ensures { Gives (λ x. (x.0, x.1.now)) result (row_at bytes.now) }
{
    let (count, rest) = byte_of(bytes)?;
    if count > 16 {
        return Err(ValueError::WrongShape);
    }
    values_in(alloc, rest, count)
}

/// So many values, one after another.
fn values_in(alloc: Global, bytes: &[u8], count: u8) -> Result<(Row, &[u8]), ValueError>
    ensures { Gives (λ x. (x.0, x.1.now)) result (values_at count bytes.now) }
{
    let mut row = Seq::new(alloc);
    let mut rest = bytes;
    for _ in 0..count {
        let (value, behind) = value_in(alloc, rest)?;
        if row.push(value).is_err() {
            return Err(ValueError::NoMemory);
        }
        rest = behind;
    }
    Ok((row, rest))
}
