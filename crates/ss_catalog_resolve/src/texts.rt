//! SQL texts, parsed and typed.

ghost use Rattle.std.specs.Prelude.{◌≡◌, IsTrue};
ghost use Rattle.ss_sql_type.specs.Queries.{scope_narrow};
ghost use Rattle.ss_catalog_resolve.specs.Answers.{Answers, fault_of};
ghost use Rattle.ss_catalog_resolve.specs.Texts.{fault_at, parse_fault, type_refusal, RefusesAs, StatementSays, ConditionSays, QuerySays};

use crate::fault::{SqlFault, SqlRefusal};
use ss_catalog_json::Word;
use ss_sql_lex::LexError;
use ss_sql_parse::{ParseError, parse_condition, parse_query, parse_statement};
use ss_sql_trees::{Condition, Query, Statement};
use ss_sql_type::{Scope, TypeError, type_condition, type_query, type_statement};
use std::alloc::Global;

/// The fault of this code at this offset.
fn fault_at(code: u8, at: usize) -> SqlRefusal<SqlFault>
    ensures { fault_of result ≡ Some (fault_at code at) }
{
    SqlRefusal::Fault(SqlFault { code, at })
}

/// The refusal of a text that the parser refuses.
fn parse_fault(error: ParseError) -> SqlRefusal<SqlFault>
    ensures { fault_of result ≡ parse_fault error }
{
    match error {
        ParseError::NoMemory => SqlRefusal::NoMemory,
        ParseError::Lex(LexError::NoMemory) => SqlRefusal::NoMemory,
        ParseError::Lex(LexError::BadCharacter(place)) => fault_at(1, place),
        ParseError::Lex(LexError::BadNumber(place)) => fault_at(2, place),
        ParseError::Lex(LexError::OpenText(place)) => fault_at(3, place),
        ParseError::Unexpected(place) => fault_at(4, place),
    }
}

/// The refusal of a tree that breaks a rule of types.
fn type_refusal(error: TypeError) -> SqlRefusal<SqlFault>
    ensures { fault_of result ≡ type_refusal error }
{
    match error {
        TypeError::NoMemory => SqlRefusal::NoMemory,
        TypeError::UnknownName(place) => fault_at(5, place),
        TypeError::WrongType(place) => fault_at(6, place),
        TypeError::KeyIsSet(place) => fault_at(7, place),
        TypeError::WrongCount(place) => fault_at(8, place),
        TypeError::NotAggregated(place) => fault_at(9, place),
    }
}

/// What typing answers for a tree, with its refusal as one of the text. Whoever calls it with a call lets the tree go once,
/// and not once for each answer.
fn with_fault<T>(typed: Result<T, TypeError>) -> Result<T, SqlRefusal<SqlFault>>
    ensures { RefusesAs typed result }
{
    match typed {
        Ok(tree) => Ok(tree),
        Err(error) => Err(type_refusal(error)),
    }
}

/// The statement of a text, or its first fault.
///
/// Takes time and memory linear in the text and the columns of what it names, and walks the names in scope up to
/// twice.
pub fn statement_of(
    alloc: Global,
    scope: &Scope,
    text: &Word,
) -> Result<Statement, SqlRefusal<SqlFault>>
    requires { IsTrue (scope_narrow scope.now) }
    ensures { Answers (StatementSays scope.now text.now) result }
{
    match parse_statement(alloc, text.as_str().as_bytes()) {
        Ok(tree) => with_fault(type_statement(alloc, scope, &tree)),
        Err(error) => Err(parse_fault(error)),
    }
}

/// The condition of a text, or its first fault. As [`statement_of`].
pub fn condition_of(
    alloc: Global,
    scope: &Scope,
    text: &Word,
) -> Result<Condition, SqlRefusal<SqlFault>>
    requires { IsTrue (scope_narrow scope.now) }
    ensures { Answers (ConditionSays scope.now text.now) result }
{
    match parse_condition(alloc, text.as_str().as_bytes()) {
        Ok(tree) => with_fault(type_condition(alloc, scope, &tree)),
        Err(error) => Err(parse_fault(error)),
    }
}

/// The query of a text, or its first fault. As [`statement_of`].
pub fn query_of(alloc: Global, scope: &Scope, text: &Word) -> Result<Query, SqlRefusal<SqlFault>>
    requires { IsTrue (scope_narrow scope.now) }
    ensures { Answers (QuerySays scope.now text.now) result }
{
    match parse_query(alloc, text.as_str().as_bytes()) {
        Ok(tree) => with_fault(type_query(alloc, scope, &tree)),
        Err(error) => Err(parse_fault(error)),
    }
}
