//! From the tokens of a text to lexemes: tokens with their contents.

ghost use Rattle.std.specs.Prelude.{◌≡◌, IfOk, All, bytes_eq};
ghost use Rattle.std.specs.Str.{IsUtf8};
ghost use Rattle.ss_sql_lex.specs.Spans.{IsTokenOf};
ghost use Rattle.ss_sql_parse.specs.Keywords.{look_up, clause_words, item_words, statement_words, marks, signs, word_of, symbol_of, lexeme, lexemes};

use crate::lexeme::{Content, Lexeme, Quoted, Terminal, Word};
use ss_sql_lex::{Token, TokenKind, number_value, spelling};
use ss_value::NoMemory;
use std::alloc::Global;

/// Whether the bytes are these. A chain of such tests, and no match, since proof search fails on a match over many words.
fn spells(own: &[u8], word: &[u8]) -> bool
    ensures { result ≡ bytes_eq own.now word.now }
{
    own == word
}

/// A keyword of the parts of a query.
fn clause_word(own: &[u8]) -> Option<Terminal>
    ensures { result ≡ look_up clause_words own.now }
{
    if spells(own, b"SELECT") {
        Some(Terminal::Select)
    } else if spells(own, b"FROM") {
        Some(Terminal::From)
    } else if spells(own, b"JOIN") {
        Some(Terminal::Join)
    } else if spells(own, b"ON") {
        Some(Terminal::On)
    } else if spells(own, b"WHERE") {
        Some(Terminal::Where)
    } else if spells(own, b"GROUP") {
        Some(Terminal::Group)
    } else if spells(own, b"BY") {
        Some(Terminal::By)
    } else if spells(own, b"LIMIT") {
        Some(Terminal::Limit)
    } else {
        None
    }
}

/// A keyword within the parts of a query.
fn item_word(own: &[u8]) -> Option<Terminal>
    ensures { result ≡ look_up item_words own.now }
{
    if spells(own, b"COUNT") {
        Some(Terminal::Count)
    } else if spells(own, b"SUM") {
        Some(Terminal::Sum)
    } else if spells(own, b"MIN") {
        Some(Terminal::Min)
    } else if spells(own, b"MAX") {
        Some(Terminal::Max)
    } else if spells(own, b"ORDER") {
        Some(Terminal::Order)
    } else if spells(own, b"ASC") {
        Some(Terminal::Asc)
    } else if spells(own, b"DESC") {
        Some(Terminal::Desc)
    } else {
        None
    }
}

/// A keyword of a statement, or an operator that is a word.
fn statement_word(own: &[u8]) -> Option<Terminal>
    ensures { result ≡ look_up statement_words own.now }
{
    if spells(own, b"INSERT") {
        Some(Terminal::Insert)
    } else if spells(own, b"INTO") {
        Some(Terminal::Into)
    } else if spells(own, b"VALUES") {
        Some(Terminal::Values)
    } else if spells(own, b"UPDATE") {
        Some(Terminal::Update)
    } else if spells(own, b"SET") {
        Some(Terminal::Set)
    } else if spells(own, b"DELETE") {
        Some(Terminal::Delete)
    } else if spells(own, b"OR") {
        Some(Terminal::Or)
    } else if spells(own, b"AND") {
        Some(Terminal::And)
    } else if spells(own, b"NOT") {
        Some(Terminal::Not)
    } else {
        None
    }
}

/// A symbol that separates parts, or a comparison.
fn mark(own: &[u8]) -> Option<Terminal>
    ensures { result ≡ look_up marks own.now }
{
    if spells(own, b"(") {
        Some(Terminal::Open)
    } else if spells(own, b")") {
        Some(Terminal::Close)
    } else if spells(own, b",") {
        Some(Terminal::Comma)
    } else if spells(own, b".") {
        Some(Terminal::Dot)
    } else if spells(own, b"=") {
        Some(Terminal::Equal)
    } else if spells(own, b"<>") {
        Some(Terminal::NotEqual)
    } else if spells(own, b"<") {
        Some(Terminal::Less)
    } else if spells(own, b"<=") {
        Some(Terminal::AtMost)
    } else if spells(own, b">") {
        Some(Terminal::Greater)
    } else if spells(own, b">=") {
        Some(Terminal::AtLeast)
    } else {
        None
    }
}

/// A symbol of an operator on values, or `*`.
fn sign(own: &[u8]) -> Option<Terminal>
    ensures { result ≡ look_up signs own.now }
{
    if spells(own, b"*") {
        Some(Terminal::Star)
    } else if spells(own, b"+") {
        Some(Terminal::Plus)
    } else if spells(own, b"-") {
        Some(Terminal::Minus)
    } else if spells(own, b"/") {
        Some(Terminal::Slash)
    } else if spells(own, b"%") {
        Some(Terminal::Percent)
    } else if spells(own, b"||") {
        Some(Terminal::Concat)
    } else {
        None
    }
}

/// The keyword that a word is, if it is one.
fn word_of(own: &[u8]) -> Terminal
    ensures { result ≡ word_of own.now }
{
    if let Some(terminal) = clause_word(own) {
        return terminal;
    }
    if let Some(terminal) = item_word(own) {
        return terminal;
    }
    match statement_word(own) {
        Some(terminal) => terminal,
        None => Terminal::OtherWord,
    }
}

/// Which symbol it is.
fn symbol_of(own: &[u8]) -> Terminal
    ensures { result ≡ symbol_of own.now }
{
    if let Some(terminal) = mark(own) {
        return terminal;
    }
    match sign(own) {
        Some(terminal) => terminal,
        // No symbol of the lexer comes here; the definition has to answer for all bytes.
        None => Terminal::OtherWord,
    }
}

/// A token of a text with its content. Linear in its bytes, of which none is copied.
fn lexeme_of<'t>(text: &'t [u8], token: &Token) -> Lexeme<'t>
    requires token { IsTokenOf text.now token.now }
    requires utf8 { IsUtf8 text.now }
    ensures { result ≡ lexeme text.now token.now }
{
    let own = spelling(text, token);
    let content = match token.kind {
        TokenKind::Word => Content::Plain(word_of(own)),
        TokenKind::Name => Content::Name(Word::new(own)),
        TokenKind::Number => Content::Number(number_value(own)),
        TokenKind::Text => Content::Text(Quoted::new(own)),
        TokenKind::Param => {
            let (_, name) = own.split_at(1);
            Content::Param(Word::new(name))
        }
        TokenKind::Symbol => Content::Plain(symbol_of(own)),
    };
    Lexeme {
        from: token.from,
        content,
    }
}

/// The tokens of a text with their contents. Linear in the text's bytes, of which none is copied.
pub fn lexemes_of<'t>(
    alloc: Global,
    text: &'t [u8],
    tokens: &[Token],
) -> Result<Vec<Lexeme<'t>>, NoMemory>
    requires tokens { All (IsTokenOf text.now) tokens.now }
    requires utf8 { IsUtf8 text.now }
    ensures { IfOk result (λ found. found.items ≡ lexemes text.now tokens.now) }
{
    let mut found = Vec::new(alloc);
    for token in tokens {
        found.push(lexeme_of(text, token))?;
    }
    Ok(found)
}
