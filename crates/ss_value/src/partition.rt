//! The partition of a value, by which the rows of a split table are placed.

ghost use Rattle.std.specs.Prelude.{◌≡◌, ◌≤◌, ◌%◌, length, sum, pos, unsigned_abs};
ghost use Rattle.std.specs.Int.{int_rem_euclid};
ghost use Rattle.ss_value.specs.ValuePartition.{value_partition};

use crate::value::Value;

/// The partition of an Int.
fn int_partition(parts: u8, number: i64) -> u8
    requires { 1 ≤ parts }
    ensures { result ≡ unsigned_abs (int_rem_euclid number (pos parts)) }
{
    let rest = number.rem_euclid(i64::from(parts));
    rest.unsigned_abs() as u8
}

/// The partition of a Text of these bytes.
fn text_partition(parts: u8, bytes: &[u8]) -> u8
    requires some { 1 ≤ parts }
    requires short { length bytes.now ≤ 255 }
    ensures { result ≡ sum bytes.now % parts }
{
    let total: u16 = bytes.iter().map(|byte| u16::from(*byte)).sum();
    (total % u16::from(parts)) as u8
}

/// The partition of a value, of so many: an Int's Euclidean remainder, or that of the sum of a Text's bytes, which are 255
/// at most. A division, and linear in a Text's bytes.
pub fn value_partition(parts: u8, value: &Value) -> u8
    requires { 1 ≤ parts }
    ensures { result ≡ value_partition parts value.now }
{
    match value {
        Value::Int(number) => int_partition(parts, *number),
        Value::Text(text) => {
            // The proof needs the most bytes that a text has, so that their sum fits.
            let _short = text.len();
            text_partition(parts, text.as_bytes())
        }
    }
}
