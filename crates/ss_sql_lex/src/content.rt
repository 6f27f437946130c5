//! The contents of tokens, by their spelling.

ghost use Rattle.std.specs.Prelude.{◌≡◌, ◌∷◌, pos, IfOk, slice_range};
ghost use Rattle.std.specs.Str.{IsUtf8};
ghost use Rattle.ss_sql_lex.specs.Content.{number_of, param_of, text_of, up_to_quote, content_of};
ghost use Rattle.ss_sql_lex.specs.Spans.{IsTokenOf};
ghost use Rattle.ss_sql_lex.specs.Spelling.{IsSpelling};

use crate::token::{Token, TokenKind};
use ss_value::{Name, NoMemory, Text, ValueError};
use std::alloc::Global;

/// The content of a token.
#[derive(Drop)]
pub enum Content {
    /// A word or a symbol: its spelling says all.
    Plain,
    /// The number of a Number.
    Number(i64),
    /// The name of a Name, or the one behind a parameter's colon.
    Name(Name),
    /// The value of a Text: what stands between its quotes, and one quote for each that is written
    /// twice.
    Text(Text),
}

/// The bytes of a token of the text. Constant.
pub fn spelling<'a>(text: &'a [u8], token: &Token) -> &'a [u8]
    requires { IsTokenOf text.now token.now }
    ensures { result.now ≡ slice_range text.now token.now.from token.now.to }
{
    &text[token.from..token.to]
}

/// The number that digits spell. Linear in the digits.
pub fn number_value(digits: &[u8]) -> i64
    requires { IsSpelling TokenKind.Number digits.now }
    ensures { result ≡ pos (number_of digits.now) }
{
    let mut value: u64 = 0;
    for digit in digits {
        value = value * 10 + u64::from(digit.saturating_sub(48));
    }
    // The spelling of a Number is at most the greatest Int.
    value as i64
}

/// The name that a Name spells. Copies its bytes, 32 at most.
pub fn name_value(alloc: Global, own: &[u8]) -> Result<Name, NoMemory>
    requires { IsSpelling TokenKind.Name own.now }
    ensures { IfOk result (λ name. name ≡ own.now) }
{
    match ss_value::name_of(alloc, own) {
        Ok(name) => Ok(name),
        Err(ValueError::NoMemory) => Err(NoMemory),
        // The spelling of a Name is a name.
        Err(_) => unreachable!(),
    }
}

/// The name of a parameter. Copies its bytes, 32 at most.
pub fn param_value(alloc: Global, own: &[u8]) -> Result<Name, NoMemory>
    requires { IsSpelling TokenKind.Param own.now }
    ensures { IfOk result (λ name. name ≡ param_of own.now) }
{
    let (_, name) = own.split_at(1);
    name_value(alloc, name)
}

/// What stands before the closing quote.
fn unquote(alloc: Global, quoted: &[u8]) -> Result<Vec<u8>, NoMemory>
    ensures { IfOk result (λ value. value.items ≡ up_to_quote quoted.now) }
{
    let mut value = Vec::new(alloc);
    let mut rest = quoted;
    while let Some((first, after)) = rest.split_first() {
        rest = after;
        if *first == b'\'' {
            match after.split_first() {
                Some((b'\'', behind)) => rest = behind,
                _ => return Ok(value),
            }
        }
        value.push(*first)?;
    }
    Ok(value)
}

/// The value of a Text. Linear in its bytes; copies its value, 255 bytes at most.
pub fn text_value(alloc: Global, own: &[u8]) -> Result<Text, NoMemory>
    requires spelled { IsSpelling TokenKind.Text own.now }
    requires utf8 { IsUtf8 own.now }
    ensures { IfOk result (λ text. text ≡ text_of own.now) }
{
    let (_, quoted) = own.split_at(1);
    let value = unquote(alloc, quoted)?;
    match ss_value::text_of(alloc, value.as_slice()) {
        Ok(text) => Ok(text),
        // The value of a Text has at most 255 bytes, and is UTF-8 where its spelling is.
        Err(ValueError::TextTooLong) => unreachable!(),
        Err(ValueError::NotUtf8) => unreachable!(),
        Err(ValueError::NoMemory) => Err(NoMemory),
        Err(_) => unreachable!(),
    }
}

/// The content of a token of a text. The text is UTF-8, and so is the value of each Text in it.
/// Linear in the token's bytes; copies those of a name and of a text's value.
pub fn content_of(alloc: Global, text: &[u8], token: &Token) -> Result<Content, NoMemory>
    requires token { IsTokenOf text.now token.now }
    requires utf8 { IsUtf8 text.now }
    ensures { IfOk result (λ content. content ≡ content_of token.now.kind (slice_range text.now token.now.from token.now.to)) }
{
    let own = spelling(text, token);
    match token.kind {
        TokenKind::Word | TokenKind::Symbol => Ok(Content::Plain),
        TokenKind::Number => Ok(Content::Number(number_value(own))),
        TokenKind::Name => Ok(Content::Name(name_value(alloc, own)?)),
        TokenKind::Param => Ok(Content::Name(param_value(alloc, own)?)),
        TokenKind::Text => Ok(Content::Text(text_value(alloc, own)?)),
    }
}
