//! SQL texts with their trees, and with their typed trees.
//!
//! ```text
//! parse FORM     TEXT ~ TREE, where FORM is `statement`, `query` or `condition`
//! parse tokens   TEXT ~ TOKENS
//! type FORM      TEXT ~ TYPED TREE, where it may be `emit` too: a query whose rows go to a stream
//! ```
//!
//! `parsed_trees` and `typed_trees` say how trees, and refusals in place of them, are printed, `tokens` how tokens are, and
//! `scopes` says what names stand for.

ghost use Rattle.std.specs.Prelude.{IsTrue};
ghost use Rattle.ss_sql_type.specs.Queries.{scope_narrow};

use crate::parsed_trees::ParsedTree;
use crate::scopes::scope_of;
use crate::shown::shown_answer;
use crate::tokens::tokens_text;
use ss_case_files::{Wrong, column, text_of};
use ss_sql_parse::{ParseError, parse_condition, parse_query, parse_statement};
use ss_sql_type::{Scope, is_narrow, type_condition, type_query, type_statement};
use std::alloc::Global;

/// The word for tokens in place of a form.
const TOKENS: &str = "tokens";

/// What a text is.
#[derive(Clone, Copy, Debug, PartialEq, Eq, Drop)]
enum Form {
    Statement,
    Query,
    /// A query whose rows go to a stream.
    Emit,
    Condition,
}

/// The form with this word.
fn form_of(alloc: Global, word: &str) -> Result<Form, Wrong> {
    match word {
        "statement" => Ok(Form::Statement),
        "query" => Ok(Form::Query),
        "emit" => Ok(Form::Emit),
        "condition" => Ok(Form::Condition),
        _ => Err(Wrong::text(alloc, "no form of a text")),
    }
}

// ---- plain trees

/// The tree of a text.
fn tree_of(alloc: Global, form: Form, text: &str) -> Result<ParsedTree, ParseError> {
    let text = text.as_bytes();
    Ok(match form {
        Form::Statement => ParsedTree::Statement(parse_statement(alloc, text)?),
        Form::Query | Form::Emit => ParsedTree::Query(parse_query(alloc, text)?),
        Form::Condition => ParsedTree::Condition(parse_condition(alloc, text)?),
    })
}

// ---- typed trees

/// The printed typed tree of a tree in a scope, or its refusal.
fn typed_text_in(alloc: Global, scope: &Scope, tree: &ParsedTree) -> Result<String, Wrong>
    requires { IsTrue (scope_narrow scope.now) }
{
    match tree {
        ParsedTree::Statement(tree) => shown_answer(alloc, type_statement(alloc, scope, tree)),
        ParsedTree::Query(tree) => shown_answer(alloc, type_query(alloc, scope, tree)),
        ParsedTree::Condition(tree) => shown_answer(alloc, type_condition(alloc, scope, tree)),
    }
}

/// The same, where the scope is one that texts can be typed in.
fn typed_text_if_narrow(alloc: Global, scope: &Scope, tree: &ParsedTree) -> Result<String, Wrong> {
    if is_narrow(scope) {
        typed_text_in(alloc, scope, tree)
    } else {
        Err(Wrong::text(alloc, "too many columns"))
    }
}

/// The printed typed tree of a tree in the scope of all rows, or its refusal.
fn typed_text(alloc: Global, form: Form, tree: &ParsedTree) -> Result<String, Wrong> {
    let scope = scope_of(alloc, form == Form::Emit)?;
    let text = typed_text_if_narrow(alloc, &scope, tree);
    // So it is let go by one call.
    drop(scope);
    text
}

// ---- rows

/// What a text comes to, printed: its tree, which is typed where that is asked for, or its refusal.
fn tree_text(alloc: Global, is_typed: bool, form: Form, text: &str) -> Result<String, Wrong> {
    match tree_of(alloc, form, text) {
        Ok(tree) if is_typed => typed_text(alloc, form, &tree),
        tree => shown_answer(alloc, tree),
    }
}

/// What a text comes to in the form of a block, printed.
fn came_of(alloc: Global, is_typed: bool, form: &str, text: &str) -> Result<String, Wrong> {
    if form == TOKENS && !is_typed {
        tokens_text(alloc, text)
    } else {
        tree_text(alloc, is_typed, form_of(alloc, form)?, text)
    }
}

/// Compares a printed tree.
fn check_tree(alloc: Global, tree: &str, want: &str) -> Result<(), Wrong> {
    if tree == text_of(alloc, want)?.as_str() {
        return Ok(());
    }
    Err(Wrong::answer(alloc, want, tree))
}

/// A row of `type`, or of `parse`.
pub fn check_row(alloc: Global, is_typed: bool, form: &str, row: &str) -> Result<(), Wrong> {
    let (text, want) = column(alloc, row)?;
    let text = text_of(alloc, text)?;
    let tree = came_of(alloc, is_typed, form, text.as_str())?;
    check_tree(alloc, tree.as_str(), want)
}
