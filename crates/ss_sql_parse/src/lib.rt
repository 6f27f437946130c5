//! The parser of SQL texts: [`parse::parse_statement`], [`parse::parse_query`] and
//! [`parse::parse_condition`].
//!
//! The lexer cuts a text into tokens. [`words`] gives each its content, borrowed from the text
//! ([`lexeme`]). Then [`expr`], [`query`] and [`statement`] read the tree from the front by recursive
//! descent, and look at one token to decide: [`reading`] reads one token, [`operators`] an operator,
//! [`list`] a list. [`parse`] reads whole texts, and gives the offset of what is not expected;
//! [`stop`] is why reading stops.
//!
//! # What is proved
//!
//! `specs/Sql.antt` and `specs/Statements.antt` are the grammar, a line for each rule. What a rule
//! spells is a definition of `ss_sql_grammar`, apart from any parser. A call that answers Ok gives the
//! tree of the text's tokens, at most 512, and they have no other (`IsTextOf`). A call that refuses a
//! text gives its first lexical fault, or the offset of a token: those before it, 512 at most, begin
//! some text of the grammar, and those with it begin none, or it is token 513 behind 512 that begin
//! one; at the text's end the whole begins a text and is none (`IsParseError`). By the laws of [`laws`]
//! the two answers exclude each other, and a text has one of either at most: one tree, or one fault at
//! one offset. `NoMemory` says nothing of the text.
//!
//! Both INSERTs share their front in the grammar, since one token has to decide: the texts and the
//! trees are those of two rules.
//!
//! # Costs
//!
//! Time and memory are linear in the bytes of the text. Names and texts are copied once, where a leaf
//! of the tree is made of them. Every call that takes `alloc` may stop because memory runs out.
//!
//! The calls nest as the text does: an opening bracket costs five, a minus sign or a NOT two. A text
//! has 512 tokens at most, so fewer than 512 brackets, signs and NOTs nest. No clause can speak of the
//! stack. The tests read texts of 512 tokens that open brackets, signs or NOTs to the end, on the stack
//! that the system gives, and limit it nowhere. That 512 KB are enough for these, in programs of LLVM
//! and of Rattle's own compiler, was measured by hand only.
//!
//! The tests are cases of `ss_sql_cases`: texts with the tree that a person reads in them.
#![tactic(auto)]

mod expr;
mod laws;
mod lexeme;
mod list;
mod operators;
mod parse;
mod query;
mod reading;
mod statement;
mod stop;
mod words;

pub use expr::{expr_of, sum_of};
pub use laws::{a_list_has_one_tree, a_text_has_one_answer};
pub use lexeme::{Content, Lexeme, Lexemes, Quoted, Terminal, Word};
pub use list::{Element, list_of};
pub use operators::{Level, begins_cmp, begins_operator, cmp_of, operator_of};
pub use parse::{ParseError, parse_condition, parse_query, parse_statement};
pub use query::{maybe_where, query_of};
pub use reading::{
    NAME, NUMBER, PARAM, Read, TEXT, begins, begins_kind, column_of, name_of, number_of, param_of,
    text_of, token,
};
pub use statement::{condition_of, statement_of};
pub use stop::Stop;
pub use words::lexemes_of;
