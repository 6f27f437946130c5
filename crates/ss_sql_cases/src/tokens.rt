//! The tokens of a text, printed: each by a letter for its kind and the bytes where it begins and ends.
//!
//! `W` is a word, `N` a name, `I` a number, `T` a text, `P` a parameter and `S` a symbol: `SELECT a` has `W0-6 N7-8`.

use crate::shown::{Show, shown_answer};
use ss_case_files::Wrong;
use ss_sql_lex::{Token, TokenKind, tokens};
use ss_value::Seq;
use std::alloc::Global;
use std::fmt;

/// The letter of a kind.
fn kind_letter(kind: TokenKind) -> &'static str {
    match kind {
        TokenKind::Word => "W",
        TokenKind::Name => "N",
        TokenKind::Number => "I",
        TokenKind::Text => "T",
        TokenKind::Param => "P",
        TokenKind::Symbol => "S",
    }
}

impl Show for Seq<Token> {
    fn show<W: fmt::Write>(&self, f: &mut fmt::Formatter<W>) -> fmt::Result {
        let mut blank = "";
        for token in self.as_slice() {
            let letter = kind_letter(token.kind);
            write!(f, "{blank}{letter}{}-{}", token.from, token.to)?;
            blank = " ";
        }
        Ok(())
    }
}

/// The printed tokens of a text, or its refusal.
pub fn tokens_text(alloc: Global, text: &str) -> Result<String, Wrong> {
    shown_answer(alloc, tokens(alloc, text.as_bytes()))
}
