//! Marks: slots with the prefixes of their rows' keys. A prefix is the front of a key as a number: its first column, and
//! where that is a Text that ends in the prefix, the second one behind it.
//!
//! A search through an order compares prefixes, which are side by side in memory, and reads a row, which is
//! elsewhere, only where two prefixes are equal. And not even there where the prefix decides the key, as that of a key that
//! is an Int not far from 0 does, or a short Text with a small number behind it: no other key of as many columns has it.

ghost use Rattle.std.specs.Prelude.{◌≡◌, ◌≤◌, ◌<◌, ◌+◌, ◌-◌, ◌^◌, suc};
ghost use Rattle.std.specs.Option.{option_copied};
ghost use Rattle.ss_fragment.specs.Prefixes.{number_prefix, next_prefix, share, text_prefix, columns_prefix, column_at, sought_prefix};
ghost use Rattle.ss_fragment.specs.Deciding.{is_inside, text_decides, columns_decide, sought_decides};

use ss_value::Value;

/// A slot in an order, with the prefix of its row's key.
#[derive(Clone, Copy, Drop)]
pub struct PrefixedSlot {
    pub prefix: u64,
    pub slot: usize,
}

/// The least Int whose prefix is its own: half of all Ints have one.
const LEAST: i64 = -(1 << 62);

/// The least prefix of a Text: those of Ints are below it.
const TEXTS: u64 = (1 << 63) - 1;

/// The room of Texts.
const ROOM: u64 = 1 << 63;

/// The parts of a room.
const PARTS: u64 = 512;

/// The parts of a room for the end of a Text.
const END: u64 = 32;

/// The first of the bytes with eight parts, which are the small letters and a few more.
const LETTERS: u64 = 96;

/// The first byte behind those.
const BEHIND_LETTERS: u64 = 128;

/// An Int as a number without a sign, in the same order.
#[inline]
fn number_prefix(number: i64) -> u64
    ensures { result ≡ number_prefix number }
{
    number.max(LEAST).abs_diff(LEAST).min(TEXTS - 1)
}

/// What stands behind a Text as a number in a room. Ints below 0 have one number, and so have those past the room.
#[inline]
fn next_prefix(room: u64, next: Option<&Value>) -> u64
    requires { 0 < room }
    ensures { result ≡ next_prefix room (option_copied next.entry) }
{
    match next {
        None => 0,
        Some(Value::Int(number)) => (*number).max(0).unsigned_abs().min(room - 1),
        Some(Value::Text(_)) => room - 1,
    }
}

/// Whether a number is neither 0 nor at the top, where the numbers of many values stand.
#[inline]
fn is_inside(number: u64, top: u64) -> bool
    ensures { result ≡ is_inside number top }
{
    0 < number && number < top
}

/// The part at which a byte's parts begin, and how many they are.
#[inline]
fn share(byte: u8) -> (u64, u64)
    ensures begin { result.0 ≡ share byte }
    ensures parts { result.1 ≡ share (suc byte) - share byte }
{
    let number = u64::from(byte);
    if LETTERS <= number && number < BEHIND_LETTERS {
        (128 + 8 * (number - LETTERS), 8)
    } else if number < LETTERS {
        (END + number, 1)
    } else {
        (256 + number, 1)
    }
}

/// A number with that of a Text and what stands behind it added, in a room, and whether that decides both. One step for each
/// byte that has room: ten small letters, or seven other bytes.
fn with_text(number: u64, room: u64, bytes: &[u8], next: Option<&Value>) -> (u64, bool)
    requires { number + room < 2 ^ 64 }
    ensures prefix { result.0 ≡ number + text_prefix room bytes.now (option_copied next.entry) }
    ensures decides { result.1 ≡ text_decides room bytes.now (option_copied next.entry) }
{
    let part = room / PARTS;
    if part == 0 {
        return (number, false);
    }
    match bytes.split_first() {
        None => {
            let end = END * part;
            let behind = next_prefix(end, next);
            (number + behind, is_inside(behind, end - 1))
        }
        Some((byte, rest)) => {
            let (begin, parts) = share(*byte);
            with_text(number + begin * part, parts * part, rest, next)
        }
    }
}

/// The prefix of a key of so many columns, of which these are the first two, and whether it decides the key.
#[inline]
fn columns_prefix(count: usize, first: Option<&Value>, next: Option<&Value>) -> (u64, bool)
    ensures prefix { result.0 ≡ columns_prefix (option_copied first.entry) (option_copied next.entry) }
    ensures decides { result.1 ≡ columns_decide count (option_copied first.entry) (option_copied next.entry) }
{
    match first {
        None => (0, false),
        Some(Value::Int(number)) => {
            let prefix = number_prefix(*number);
            (prefix, count == 1 && is_inside(prefix, TEXTS - 1))
        }
        Some(Value::Text(text)) => {
            let (prefix, decides) = with_text(TEXTS, ROOM, text.as_bytes(), next);
            (prefix, count == 2 && decides)
        }
    }
}

/// A row's value in a column, where there are both.
#[inline]
fn column_at<'a>(row: &'a [Value], column: Option<&u8>) -> Option<&'a Value>
    ensures { option_copied result ≡ column_at row.now (option_copied column.entry) }
{
    match column {
        None => None,
        Some(column) => row.get(usize::from(*column)),
    }
}

/// The prefix of what is sought, a key or the key of a row, and whether it decides that key among those of these columns.
pub fn sought_prefix(key: &[u8], is_key: bool, values: &[Value]) -> (u64, bool)
    ensures prefix { result.0 ≡ sought_prefix is_key key.now values.now }
    ensures decides { result.1 ≡ sought_decides is_key key.now values.now }
{
    if is_key {
        // A key with more values than the fragment's, or fewer, may have the prefix of one that is there.
        let (prefix, decides) = columns_prefix(key.len(), values.first(), values.get(1));
        return (prefix, decides && values.len() == key.len());
    }
    columns_prefix(
        key.len(),
        column_at(values, key.first()),
        column_at(values, key.get(1)),
    )
}
