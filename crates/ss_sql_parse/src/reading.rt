//! Reading one token.

ghost use Rattle.std.specs.Prelude.{◌≡◌, ◌==◌, ◌∷◌, [], ◌<◌, ℕ, List, Result, length, IfOk};
ghost use Rattle.ss_sql_grammar.specs.Grammar.{begins, read, token as token_at};
ghost use Rattle.ss_sql_parse.specs.Terminals.{code, kind};
ghost use Rattle.ss_sql_parse.specs.Gives.{Gives};
ghost use Rattle.ss_sql_parse.specs.Sql.{sql, inner, name, number, text, parameter, column};

use crate::lexeme::{Content, Lexeme, Lexemes, Terminal};
use crate::stop::Stop;
use ss_sql_lex::{ColumnTree, NameTree, NumberTree, TextTree};
use std::alloc::Global;

/// What was read from the front, and the tokens behind it; or why reading stops.
pub type Read<'t, T> = Result<(T, Lexemes<'t>), Stop>;

/// The kind of a name. Keywords and symbols have the kinds below it, the numbers of [`Terminal`].
pub const NAME: u8 = 41;
/// The kind of a number.
pub const NUMBER: u8 = 42;
/// The kind of a text.
pub const TEXT: u8 = 43;
/// The kind of a parameter.
pub const PARAM: u8 = 44;

fn kind_of(lexeme: &Lexeme<'_>) -> u8
    ensures { result ≡ kind lexeme.now }
{
    match &lexeme.content {
        Content::Plain(terminal) => *terminal as u8,
        Content::Name(_) => NAME,
        Content::Number(_) => NUMBER,
        Content::Text(_) => TEXT,
        Content::Param(_) => PARAM,
    }
}

/// Whether the first token is of a kind.
pub fn begins_kind(tokens: Lexemes<'_>, sort: u8) -> bool
    ensures { result ≡ begins kind (sort ∷ []) tokens.now }
{
    match tokens.split_first() {
        Some((first, _)) => kind_of(first) == sort,
        None => false,
    }
}

/// Whether the first token is this keyword or symbol.
pub fn begins(tokens: Lexemes<'_>, terminal: Terminal) -> bool
    ensures { result ≡ begins kind (code terminal ∷ []) tokens.now }
{
    begins_kind(tokens, terminal as u8)
}

/// Reads this keyword or symbol, and gives its token.
pub fn token<'t>(tokens: Lexemes<'t>, terminal: Terminal) -> Read<'t, &'t Lexeme<'t>>
    ensures read { Gives (λ x. (x.0.now, x.1.now)) result (token_at kind (code terminal) tokens.now) }
    ensures shorter { IfOk result (λ x. length x.1.now < length tokens.now) }
{
    match tokens.split_first() {
        Some((first, rest)) if kind_of(first) == terminal as u8 => Ok((first, rest)),
        _ => Err(Stop::Left(tokens.len())),
    }
}

/// Reads a name.
pub fn name_of<'t>(alloc: Global, tokens: Lexemes<'t>) -> Read<'t, NameTree>
    ensures read { Gives (λ x. (x.0, x.1.now)) result (read sql inner name tokens.now) }
    ensures shorter { IfOk result (λ x. length x.1.now < length tokens.now) }
{
    let (first, rest) = tokens.split_first().ok_or(Stop::Left(0))?;
    let at = first.from;
    match &first.content {
        Content::Name(word) => {
            let name = word.name(alloc)?;
            Ok((NameTree { at, name }, rest))
        }
        _ => Err(Stop::Left(tokens.len())),
    }
}

/// Reads a parameter.
pub fn param_of<'t>(alloc: Global, tokens: Lexemes<'t>) -> Read<'t, NameTree>
    ensures read { Gives (λ x. (x.0, x.1.now)) result (read sql inner parameter tokens.now) }
    ensures shorter { IfOk result (λ x. length x.1.now < length tokens.now) }
{
    let (first, rest) = tokens.split_first().ok_or(Stop::Left(0))?;
    let at = first.from;
    match &first.content {
        Content::Param(word) => {
            let name = word.name(alloc)?;
            Ok((NameTree { at, name }, rest))
        }
        _ => Err(Stop::Left(tokens.len())),
    }
}

/// Reads a number.
pub fn number_of<'t>(tokens: Lexemes<'t>) -> Read<'t, NumberTree>
    ensures read { Gives (λ x. (x.0, x.1.now)) result (read sql inner number tokens.now) }
    ensures shorter { IfOk result (λ x. length x.1.now < length tokens.now) }
{
    let (first, rest) = tokens.split_first().ok_or(Stop::Left(0))?;
    let at = first.from;
    match &first.content {
        Content::Number(value) => {
            let value = *value;
            Ok((NumberTree { at, value }, rest))
        }
        _ => Err(Stop::Left(tokens.len())),
    }
}

/// Reads a text.
pub fn text_of<'t>(alloc: Global, tokens: Lexemes<'t>) -> Read<'t, TextTree>
    ensures read { Gives (λ x. (x.0, x.1.now)) result (read sql inner text tokens.now) }
    ensures shorter { IfOk result (λ x. length x.1.now < length tokens.now) }
{
    let (first, rest) = tokens.split_first().ok_or(Stop::Left(0))?;
    let at = first.from;
    match &first.content {
        Content::Text(quoted) => {
            let value = quoted.text(alloc)?;
            Ok((TextTree { at, value }, rest))
        }
        _ => Err(Stop::Left(tokens.len())),
    }
}

/// Reads a column, as `name` or as `source.name`.
pub fn column_of<'t>(alloc: Global, tokens: Lexemes<'t>) -> Read<'t, ColumnTree>
    ensures read { Gives (λ x. (x.0, x.1.now)) result (read sql inner column tokens.now) }
    ensures shorter { IfOk result (λ x. length x.1.now < length tokens.now) }
{
    let (name, rest) = name_of(alloc, tokens)?;
    if begins(rest, Terminal::Dot) {
        let source = Some(name);
        let (_, rest) = token(rest, Terminal::Dot)?;
        let (name, rest) = name_of(alloc, rest)?;
        Ok((ColumnTree { source, name }, rest))
    } else {
        Ok((ColumnTree { source: None, name }, rest))
    }
}
