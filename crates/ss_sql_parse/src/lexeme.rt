//! Tokens with their contents.
//!
//! A [`Lexeme`] borrows from the text: a name or the value of a text is copied where a tree is made
//! of it, and not before.

ghost use Rattle.std.specs.Prelude.{◌≡◌, IfOk};
ghost use Rattle.std.specs.Str.{IsUtf8};
ghost use Rattle.ss_sql_lex.specs.Content.{text_of};
ghost use Rattle.ss_sql_lex.specs.Spelling.{IsSpelling};

use ss_sql_lex::{TokenKind, name_value, text_value};
use ss_value::{Name, NoMemory, Text};
use std::alloc::Global;
use std::marker::Model;

/// A keyword or a symbol.
#[derive(Clone, Copy, Debug, PartialEq, Eq)]
pub enum Terminal {
    /// `SELECT`
    Select,
    /// `FROM`
    From,
    /// `JOIN`
    Join,
    /// `ON`
    On,
    /// `WHERE`
    Where,
    /// `GROUP`
    Group,
    /// `BY`
    By,
    /// `ORDER`
    Order,
    /// `ASC`
    Asc,
    /// `DESC`
    Desc,
    /// `LIMIT`
    Limit,
    /// `COUNT`
    Count,
    /// `SUM`
    Sum,
    /// `MIN`
    Min,
    /// `MAX`
    Max,
    /// `INSERT`
    Insert,
    /// `INTO`
    Into,
    /// `VALUES`
    Values,
    /// `UPDATE`
    Update,
    /// `SET`
    Set,
    /// `DELETE`
    Delete,
    /// `OR`
    Or,
    /// `AND`
    And,
    /// `NOT`
    Not,
    /// A word that is no keyword.
    OtherWord,
    /// `(`
    Open,
    /// `)`
    Close,
    /// `,`
    Comma,
    /// `.`
    Dot,
    /// `*`
    Star,
    /// `=`
    Equal,
    /// `<>`
    NotEqual,
    /// `<`
    Less,
    /// `<=`
    AtMost,
    /// `>`
    Greater,
    /// `>=`
    AtLeast,
    /// `+`
    Plus,
    /// `-`
    Minus,
    /// `/`
    Slash,
    /// `%`
    Percent,
    /// `||`
    Concat,
}

/// A name, lent from the text in which it stands.
#[derive(Drop)]
pub struct Word<'t> {
    own: &'t [u8],
}

impl<'t> Model for Word<'t> {
    ghost use Rattle.std.specs.Prelude.{List, ℕ};

    ghost Value = { List ℕ };

    ghost use Rattle.ss_sql_lex.specs.declared.token.TokenKind.TheVariants as k;
    ghost use Rattle.ss_sql_lex.specs.Spelling.{IsSpelling};

    ghost view = { λ w. w.own.now };

    ghost invariant = { λ w. IsSpelling k.Name w.own.now };
}

impl<'t> Word<'t> {
    /// The name that bytes spell.
    pub fn new(own: &'t [u8]) -> Word<'t>
        requires { IsSpelling TokenKind.Name own.now }
        ensures { result ≡ own.now }
    {
        Word { own }
    }

    /// A copy of the name. Linear in its bytes.
    pub fn name(&self, alloc: Global) -> Result<Name, NoMemory>
        ensures { IfOk result (λ name. name ≡ self.now) }
    {
        let own = self.own;
        name_value(alloc, own)
    }
}

/// A text, lent with its quotes from the SQL text in which it stands. Contracts see its value.
#[derive(Drop)]
pub struct Quoted<'t> {
    own: &'t [u8],
}

impl<'t> Model for Quoted<'t> {
    ghost use Rattle.std.specs.Prelude.{List, ℕ};

    ghost Value = { List ℕ };

    ghost use Rattle.std.specs.Str.{IsUtf8};
    ghost use Rattle.ss_sql_lex.specs.declared.token.TokenKind.TheVariants as k;
    ghost use Rattle.ss_sql_lex.specs.Content.{text_of};
    ghost use Rattle.ss_sql_lex.specs.Spelling.{IsSpelling};

    ghost view = { λ q. text_of q.own.now };

    ghost invariant = { λ q. IsSpelling k.Text q.own.now × IsUtf8 q.own.now };
}

impl<'t> Quoted<'t> {
    /// The text that these bytes spell, quotes included.
    pub fn new(own: &'t [u8]) -> Quoted<'t>
        requires spelled { IsSpelling TokenKind.Text own.now }
        requires utf8 { IsUtf8 own.now }
        ensures { result ≡ text_of own.now }
    {
        Quoted { own }
    }

    /// A copy of the value. Linear in its bytes.
    pub fn text(&self, alloc: Global) -> Result<Text, NoMemory>
        ensures { IfOk result (λ text. text ≡ self.now) }
    {
        let own = self.own;
        text_value(alloc, own)
    }
}

/// The content of a token.
#[derive(Drop)]
pub enum Content<'t> {
    /// A keyword or a symbol.
    Plain(Terminal),
    /// A name.
    Name(Word<'t>),
    /// A number.
    Number(i64),
    /// A text.
    Text(Quoted<'t>),
    /// A parameter, by its name.
    Param(Word<'t>),
}

/// A token with its offset and its content.
#[derive(Drop)]
pub struct Lexeme<'t> {
    /// The offset of its first byte.
    pub from: usize,
    /// Its content.
    pub content: Content<'t>,
}

/// Tokens of a text, in order.
pub type Lexemes<'t> = &'t [Lexeme<'t>];
