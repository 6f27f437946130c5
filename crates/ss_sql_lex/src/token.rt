//! Tokens, and why a text has none.

use ss_value::NoMemory;

/// What a token is.
#[derive(Clone, Copy, Debug, PartialEq, Eq, Drop)]
pub enum TokenKind {
    /// A run of A to Z, as `SELECT`.
    Word,
    /// 1 to 32 characters of a to z, 0 to 9 and _, the first a letter, as `account_1`.
    Name,
    /// A run of digits up to 9223372036854775807, with no letter or _ joined to it.
    Number,
    /// At most 255 bytes between quotes; a quote inside is written twice.
    Text,
    /// A colon and a name, as `:amount`.
    Param,
    /// One of `( ) , . * = < <> <= > >= + - / % ||`.
    Symbol,
}

/// A token of a text: its spelling is the bytes from `from` up to `to`, exclusive.
#[derive(Clone, Copy, Debug, PartialEq, Eq, Drop)]
pub struct Token {
    /// What it is.
    pub kind: TokenKind,
    /// The byte offset of its first byte.
    pub from: usize,
    /// The byte offset behind its last byte.
    pub to: usize,
}

/// Why a text has no tokens, with the offset of the fault in bytes.
#[derive(Clone, Copy, Debug, PartialEq, Eq, Drop)]
pub enum LexError {
    /// Out of memory for the list of tokens.
    NoMemory,
    /// A byte that begins no token, a parameter's colon with no name behind it, or the 33rd
    /// character of a name: the offset of that byte.
    BadCharacter(usize),
    /// A number over 9223372036854775807, or one that a letter or _ follows at once: the offset of
    /// its first digit.
    BadNumber(usize),
    /// A text that is not closed, or whose value is over 255 bytes: the offset of its opening quote.
    OpenText(usize),
}

impl<T: Drop> From<(NoMemory, T)> for LexError {
    ghost use Rattle.std.specs.Prelude.{◌≡◌};
    ghost use Rattle.ss_sql_lex.specs.declared.token.LexError.TheVariants.{NoMemory as OutOfMemory};

    ghost from_gives = { λ _ e. e ≡ OutOfMemory };

    fn from(_: (NoMemory, T)) -> LexError {
        LexError::NoMemory
    }
}
