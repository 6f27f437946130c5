//! The tokens of SQL texts, and their plain trees.
//!
//! [`lexer::tokens`] gives the tokens of a text, or its first fault. A [`token::Token`] has a kind
//! and a span: its spelling is the bytes of the text from `from` up to `to`. Proved is that the
//! text spells these tokens (`Spells`), that each spelling is one of its kind (`IsTokenOf`) and
//! that the spans rise (`Rise`); of a refusal, that it is the first fault (`IsRefused`). By the
//! laws in [`laws`] there is no other answer: a text has one list of tokens or one first fault, and
//! each fault has its cause (`HasCause`). [`scan`] reads one token.
//!
//! [`content`] gives the content of a token: the number of a Number, the name of a Name or of a
//! parameter, the value of a Text, by [`content::content_of`] or one by one. It asks for
//! `IsTokenOf`, which `tokens` promises of each of its tokens, and that the whole text is UTF-8.
//! Which word or symbol a token is, [`content::spelling`] shows.
//!
//! A proof in a crate above may cite `proofs.Once` (`spells_one_list`, `spells_or_fails`,
//! `fails_once`), `proofs.Quotes` (`taken`, `value_of`, `spelling_utf8`) and `proofs.Spanned`
//! (`spans`, `rises`).
//!
//! [`tree`] has the plain trees that a parser makes, with offsets, and [`tree_copies`] their exact copies. What a typer makes
//! of them stands in `ss_sql_trees`.
//!
//! Every call that takes `alloc` may answer `NoMemory`.
#![tactic(auto)]

mod content;
mod laws;
mod lexer;
mod scan;
mod token;
mod tree;
mod tree_copies;

pub use content::{
    Content, content_of, name_value, number_value, param_value, spelling, text_value,
};
pub use laws::{a_text_has_one_answer, faults_have_causes, quotes_are_taken};
pub use lexer::tokens;
pub use token::{LexError, Token, TokenKind};
pub use tree::{
    ColumnTree, ConditionTree, ExprTree, ItemTree, JoinTree, NameTree, NumberTree, OrderTree,
    QueryTree, SetTree, StatementTree, TextTree,
};
pub use tree_copies::copy_expr_tree;
