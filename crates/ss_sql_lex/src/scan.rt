//! Reading one token at the front of some bytes.

ghost use Rattle.std.specs.Prelude.{◌≡◌, ◌+◌, ◌<◌, ◌≤◌, ◌∷◌, length, option_map, nat_lt, IfSome, if◌then◌else◌};
ghost use Rattle.ss_value.specs.Words.{is_letter, is_word_byte};
ghost use Rattle.ss_sql_lex.specs.Bytes.{next_is, is_joined, is_digit};
ghost use Rattle.ss_sql_lex.specs.Spelling.{value_from, has, seconds};
ghost use Rattle.ss_sql_lex.specs.Reading.{run, close, scan, number_scan, name_scan, text_scan, symbol_scan, test_of, lengths};

use crate::token::TokenKind;

/// A class of bytes.
#[derive(Clone, Copy, Debug, PartialEq, Eq)]
pub enum Class {
    /// A to Z.
    Upper,
    /// 0 to 9.
    Digit,
    /// a to z, 0 to 9 and _.
    Name,
}

fn is_of(byte: u8, class: Class) -> bool
    ensures { result ≡ test_of class byte }
{
    match class {
        Class::Upper => byte.is_ascii_uppercase(),
        Class::Digit => byte.is_ascii_digit(),
        Class::Name => byte.is_ascii_lowercase() || byte.is_ascii_digit() || byte == b'_',
    }
}

/// How many bytes at the front are of a class. Linear in that number.
pub fn run_of(bytes: &[u8], class: Class) -> usize
    ensures run { result ≡ run (test_of class) bytes.now }
    ensures within { result ≤ length bytes.now }
{
    let mut count = 0;
    for byte in bytes {
        if !is_of(*byte, class) {
            return count;
        }
        count += 1;
    }
    count
}

/// Of what stands behind a text's opening quote: how many bytes the text's value has, and how many
/// bytes stand behind its closing quote. None where it is not closed. Linear in the bytes up to the
/// closing quote.
pub fn close_of(quoted: &[u8]) -> Option<(usize, usize)>
    ensures lengths { result ≡ option_map (lengths 0) (close quoted.now) }
    ensures within { IfSome result (λ x. x.0 + x.1 < length quoted.now) }
{
    let mut count = 0;
    let mut rest = quoted;
    while let Some((first, after)) = rest.split_first() {
        rest = after;
        if *first == b'\'' {
            match after.split_first() {
                Some((b'\'', behind)) => rest = behind,
                _ => return Some((count, after.len())),
            }
        }
        count += 1;
    }
    None
}

/// The greatest Int.
const MAX_INT: u64 = 9223372036854775807;

/// Whether digits spell an Int.
#[tactic(auto, using(crate::proofs::Values::value_low))]
fn is_int(digits: &[u8]) -> bool
    ensures { result ≡ nat_lt (value_from 0 digits.now) 9223372036854775808 }
{
    let mut value: u64 = 0;
    for digit in digits {
        // One more digit would bring the number over the greatest Int.
        if value > MAX_INT / 10 {
            return false;
        }
        value = value * 10 + u64::from(digit.saturating_sub(48));
    }
    value <= MAX_INT
}

/// Whether the next byte is a letter, a digit or `_`, which may not follow a number at once.
fn next_is_joined(rest: &[u8]) -> bool
    ensures { result ≡ next_is is_joined rest.now }
{
    match rest.split_first() {
        Some((first, _)) => first.is_ascii_uppercase() || is_of(*first, Class::Name),
        None => false,
    }
}

/// A number at the front, by its digits.
fn number_of(bytes: &[u8]) -> Option<(TokenKind, usize)>
    ensures { result ≡ number_scan (run is_digit bytes.now) bytes.now }
{
    let count = run_of(bytes, Class::Digit);
    let (own, rest) = bytes.split_at(count);
    if is_int(own) && !next_is_joined(rest) {
        Some((TokenKind::Number, count))
    } else {
        None
    }
}

/// A name of this many characters, with `more` bytes before it: a parameter's colon. None where it is too long.
fn name_of(kind: TokenKind, count: usize, more: usize) -> Option<(TokenKind, usize)>
    requires { more < 2 }
    ensures { result ≡ name_scan kind count more }
{
    if count < 33 {
        Some((kind, count + more))
    } else {
        None
    }
}

/// Whether the next byte is one of the letters a to z.
pub fn next_is_letter(rest: &[u8]) -> bool
    ensures { result ≡ next_is is_letter rest.now }
{
    match rest.split_first() {
        Some((first, _)) => first.is_ascii_lowercase(),
        None => false,
    }
}

/// A parameter, by what stands behind its colon. None where no name does.
fn param_of(after: &[u8]) -> Option<(TokenKind, usize)>
    ensures { result ≡ (if next_is is_letter after.now then name_scan TokenKind.Param (run is_word_byte after.now) 1 else None) }
{
    if next_is_letter(after) {
        name_of(TokenKind::Param, run_of(after, Class::Name), 1)
    } else {
        None
    }
}

/// A text, by what stands behind its opening quote. None where it is not closed or too long.
fn text_of(after: &[u8]) -> Option<(TokenKind, usize)>
    ensures { result ≡ text_scan (length after.now + 1) (close after.now) }
{
    match close_of(after) {
        Some((count, behind)) if count < 256 => {
            Some((TokenKind::Text, after.len() + 1 - behind))
        }
        _ => None,
    }
}

/// Whether two bytes are a symbol.
fn is_pair(first: u8, second: u8) -> bool
    ensures { result ≡ has (seconds first) second }
{
    match first {
        b'<' => second == b'>' || second == b'=',
        b'>' => second == b'=',
        b'|' => second == b'|',
        _ => false,
    }
}

/// The longest symbol that begins with the first byte.
fn symbol_of(first: u8, after: &[u8]) -> Option<(TokenKind, usize)>
    ensures { result ≡ symbol_scan (first ∷ after.now) }
{
    match after.split_first() {
        Some((second, _)) if is_pair(first, *second) => Some((TokenKind::Symbol, 2)),
        _ if b"(),.*=<>+-/%".contains(&first) => Some((TokenKind::Symbol, 1)),
        _ => None,
    }
}

/// The kind of the token at the front of the bytes and its length in bytes, if one stands there.
/// Linear in that length, and for a text that is not closed, in all the bytes.
pub fn front_token(bytes: &[u8]) -> Option<(TokenKind, usize)>
    ensures { result ≡ scan bytes.now }
{
    let Some((first, after)) = bytes.split_first() else {
        return None;
    };
    match *first {
        b'A'..=b'Z' => Some((TokenKind::Word, run_of(bytes, Class::Upper))),
        b'a'..=b'z' => name_of(TokenKind::Name, run_of(bytes, Class::Name), 0),
        b'0'..=b'9' => number_of(bytes),
        b'\'' => text_of(after),
        b':' => param_of(after),
        first => symbol_of(first, after),
    }
}
