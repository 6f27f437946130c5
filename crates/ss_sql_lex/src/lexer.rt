//! The tokens of a text.

ghost use Rattle.std.specs.Prelude.{◌≡◌, ◌+◌, ◌≤◌, ◌<◌, ◌^◌, length, false, All, IfOk, IfErr, ◌==◌};
ghost use Rattle.ss_sql_lex.specs.Bytes.{is_blank};
ghost use Rattle.ss_sql_lex.specs.Lexing.{Spells};
ghost use Rattle.ss_sql_lex.specs.Faults.{IsRefused, fault_at};
ghost use Rattle.ss_sql_lex.specs.Spans.{IsTokenOf, Rise};
ghost use Rattle.ss_sql_lex.specs.Reading.{StandsAt, IsFaultAt};

use crate::scan::{front_token, next_is_letter};
use crate::token::{LexError, Token};
use ss_value::Seq;
use std::alloc::Global;

fn is_blank(byte: u8) -> bool
    ensures { result ≡ is_blank byte }
{
    matches!(byte, b' ' | b'\t' | b'\n' | b'\r')
}

/// The fault at the front of the rest, where no token stands there. The rest is not empty.
fn fault_of(rest: &[u8], at: usize) -> LexError
    requires { at + length rest.now < 2 ^ 63 }
    ensures { result ≡ fault_at at rest.now }
{
    match rest.split_first() {
        // A letter begins a name, so what stands there can only be too long, by its 33rd character.
        Some((b'a'..=b'z', _)) => LexError::BadCharacter(at + 32),
        Some((b'0'..=b'9', _)) => LexError::BadNumber(at),
        Some((b'\'', _)) => LexError::OpenText(at),
        Some((b':', after)) if next_is_letter(after) => { LexError::BadCharacter(at + 33) }
        _ => LexError::BadCharacter(at),
    }
}

/// The token at the front of the rest, which begins at the offset `at` of the text.
#[tactic(auto, using(crate::proofs::Stands::scan_at))]
fn token_at(rest: &[u8], at: usize) -> Result<Token, LexError>
    requires { at + length rest.now < 2 ^ 63 }
    ensures ok { IfOk result (StandsAt at rest.now) }
    ensures refused { IfErr result (IsFaultAt at rest.now) }
{
    match front_token(rest) {
        Some((kind, long)) => Ok(Token {
            kind,
            from: at,
            to: at + long,
        }),
        None => Err(fault_of(rest, at)),
    }
}

/// The tokens of a text, in the text's order, each with the offset of its first byte and the offset
/// behind its last. Between them stand blanks: space, tab, line feed and carriage return. A token
/// goes on as far as it can, and no blank is needed between two.
///
/// Refused is a text that has no tokens, with its first fault from the left: see [`LexError`].
///
/// Takes time linear in the bytes, and memory only for the tokens: no byte is copied.
pub fn tokens(alloc: Global, text: &[u8]) -> Result<Seq<Token>, LexError>
    ensures ok { IfOk result (Spells text.now) }
    ensures spans { IfOk result (All (IsTokenOf text.now)) }
    ensures order { IfOk result (Rise 0) }
    ensures refused { IfErr result (IsRefused text.now) }
{
    let mut tokens = Seq::new(alloc);
    let mut at = 0;
    let mut rest = text;
    while let Some((first, after)) = rest.split_first() {
        if is_blank(*first) {
            at += 1;
            rest = after;
        } else {
            let token = token_at(rest, at)?;
            (_, rest) = rest.split_at(token.to - at);
            at = token.to;
            tokens.push(token)?;
        }
    }
    Ok(tokens)
}
