//! Parsing whole texts.

ghost use Rattle.std.specs.Prelude.{◌≡◌, IfOk, IfErr, drop};
ghost use Rattle.std.specs.Str.{IsUtf8};
ghost use Rattle.ss_sql_parse.specs.Gives.{Gives};
ghost use Rattle.ss_sql_parse.specs.Whole.{whole_by, offset_at};
ghost use Rattle.ss_sql_parse.specs.Texts.{read_limited, GivesAt, IsLexemesOf, IsLexical, IsReading, IsStopped, IsTextOf, IsParseError};
ghost use Rattle.ss_sql_parse.specs.Statements.{statement, query, condition};
ghost use Rattle.ss_sql_parse.specs.declared.parse.ParseError.TheVariants.{NoMemory as OutOfMemory};

use crate::lexeme::{Lexeme, Lexemes};
use crate::list::Element;
use crate::stop::Stop;
use crate::words::lexemes_of;
use ss_sql_lex::{ConditionTree, LexError, QueryTree, StatementTree, tokens};
use ss_value::NoMemory;
use std::alloc::Global;

/// Why a text is refused.
#[derive(Clone, Copy, Debug, PartialEq, Eq, Drop)]
pub enum ParseError {
    /// Out of memory.
    NoMemory,
    /// The text doesn't fall into tokens: its first fault from the left.
    Lex(LexError),
    /// The offset of the first token such that no text of the grammar begins with the tokens up to it,
    /// or of token 513 where that one comes first. It is the text's length where more is expected at
    /// the end.
    Unexpected(usize),
}

impl From<NoMemory> for ParseError {
    ghost from_gives = { λ _ e. e ≡ OutOfMemory };

    fn from(_e: NoMemory) -> ParseError {
        ParseError::NoMemory
    }
}

/// How many tokens are read at most. It bounds how deep the calls nest.
const MAX_TOKENS: usize = 512;

/// The tree of all the tokens, or how many are left from the first that is not expected.
fn all_of<E: Element>(alloc: Global, tokens: Lexemes<'_>) -> Result<E, Stop>
    ensures { Gives (λ tree. tree) result (whole_by E.reads tokens.now) }
{
    let (tree, rest) = E::read(alloc, tokens)?;
    if rest.is_empty() {
        Ok(tree)
    } else {
        Err(Stop::Left(rest.len()))
    }
}

/// The offset of the token behind the first `count`, or `end`.
fn offset_behind(tokens: Lexemes<'_>, count: usize, end: usize) -> usize
    ensures { result ≡ offset_at end (drop count tokens.now) }
{
    match tokens.get(count) {
        Some(next) => next.from,
        None => end,
    }
}

/// The tree of all the tokens of a text of `end` bytes, if there are 512 at most.
fn read_limited<E: Element>(alloc: Global, tokens: Lexemes<'_>, end: usize) -> Result<E, ParseError>
    ensures { GivesAt result (read_limited E.reads tokens.now end) }
{
    if tokens.len() <= MAX_TOKENS {
        match all_of::<E>(alloc, tokens) {
            Ok(tree) => Ok(tree),
            Err(Stop::Memory) => Err(ParseError::NoMemory),
            Err(Stop::Left(left)) => {
                let read = tokens.len().saturating_sub(left);
                Err(ParseError::Unexpected(offset_behind(tokens, read, end)))
            }
        }
    } else {
        // The first 512 are read all the same, since a fault among them comes before token 513.
        let (front, _) = tokens.split_at(MAX_TOKENS);
        match all_of::<E>(alloc, front) {
            Ok(_) => Err(ParseError::Unexpected(offset_behind(tokens, MAX_TOKENS, end))),
            Err(Stop::Memory) => Err(ParseError::NoMemory),
            Err(Stop::Left(left)) => {
                let read = MAX_TOKENS.saturating_sub(left);
                Err(ParseError::Unexpected(offset_behind(tokens, read, end)))
            }
        }
    }
}

/// The tokens of a text with their contents.
fn lexemes_in<'t>(alloc: Global, text: &'t [u8]) -> Result<Vec<Lexeme<'t>>, ParseError>
    requires { IsUtf8 text.now }
    ensures ok { IfOk result (λ found. IsLexemesOf text.now found.items) }
    ensures refused { IfErr result (IsLexical text.now) }
{
    match tokens(alloc, text) {
        Ok(tokens) => match lexemes_of(alloc, text, tokens.as_slice()) {
            Ok(found) => Ok(found),
            Err(_) => Err(ParseError::NoMemory),
        },
        Err(LexError::NoMemory) => Err(ParseError::NoMemory),
        Err(LexError::BadCharacter(at)) => Err(ParseError::Lex(LexError::BadCharacter(at))),
        Err(LexError::BadNumber(at)) => Err(ParseError::Lex(LexError::BadNumber(at))),
        Err(LexError::OpenText(at)) => Err(ParseError::Lex(LexError::OpenText(at))),
    }
}

/// The tree that a text spells.
fn parse<E: Element>(alloc: Global, text: &[u8]) -> Result<E, ParseError>
    requires { IsUtf8 text.now }
    ensures ok { IfOk result (IsReading E.reads text.now) }
    ensures refused { IfErr result (IsStopped E.reads text.now) }
{
    let found = lexemes_in(alloc, text)?;
    read_limited::<E>(alloc, found.as_slice(), text.len())
}

/// The statement that a text spells.
///
/// Ok is the tree of the text's tokens, and they have no other. The text is refused with its first
/// lexical fault; else at the first token with which no statement begins, or at its length where more
/// is expected there; or at token 513, where the first 512 begin a statement. See [`ParseError`].
///
/// Takes time and memory linear in the bytes of the text.
pub fn parse_statement(alloc: Global, text: &[u8]) -> Result<StatementTree, ParseError>
    requires { IsUtf8 text.now }
    ensures ok { IfOk result (IsTextOf statement text.now) }
    ensures refused { IfErr result (IsParseError statement text.now) }
{
    parse::<StatementTree>(alloc, text)
}

/// The query that a text spells: as [`parse_statement`] does it for a statement.
pub fn parse_query(alloc: Global, text: &[u8]) -> Result<QueryTree, ParseError>
    requires { IsUtf8 text.now }
    ensures ok { IfOk result (IsTextOf query text.now) }
    ensures refused { IfErr result (IsParseError query text.now) }
{
    parse::<QueryTree>(alloc, text)
}

/// The condition that a text spells: as [`parse_statement`] does it for a statement.
pub fn parse_condition(alloc: Global, text: &[u8]) -> Result<ConditionTree, ParseError>
    requires { IsUtf8 text.now }
    ensures ok { IfOk result (IsTextOf condition text.now) }
    ensures refused { IfErr result (IsParseError condition text.now) }
{
    parse::<ConditionTree>(alloc, text)
}
