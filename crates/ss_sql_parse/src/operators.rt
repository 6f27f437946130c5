//! Reading operators and comparisons.

ghost use Rattle.std.specs.Prelude.{◌≡◌, ◌<◌, length, IfOk};
ghost use Rattle.ss_sql_grammar.specs.Grammar.{begins, starts, read};
ghost use Rattle.ss_sql_parse.specs.Terminals.{kind};
ghost use Rattle.ss_sql_parse.specs.Gives.{Gives};
ghost use Rattle.ss_sql_parse.specs.Sql.{sql, inner, cmp};
ghost use Rattle.ss_sql_parse.specs.Levels.{operator_rule};

use crate::lexeme::{Lexemes, Terminal};
use crate::reading::{Read, begins, token};
use ss_sql_trees::{BinaryOp, Cmp};

/// The levels of operators that may repeat and group from the left. The one that binds least comes first.
#[derive(Clone, Copy, Debug, PartialEq, Eq)]
pub enum Level {
    /// `OR`
    Or,
    /// `AND`
    And,
    /// `+`, `-` and `||`
    Add,
    /// `*`, `/` and `%`
    Mul,
}

/// Whether an operator of a level comes next.
pub fn begins_operator(tokens: Lexemes<'_>, level: Level) -> bool
    ensures { result ≡ begins kind (starts sql (operator_rule level)) tokens.now }
{
    match level {
        Level::Or => begins(tokens, Terminal::Or),
        Level::And => begins(tokens, Terminal::And),
        Level::Add => {
            begins(tokens, Terminal::Plus)
                || begins(tokens, Terminal::Minus)
                || begins(tokens, Terminal::Concat)
        }
        Level::Mul => {
            begins(tokens, Terminal::Star)
                || begins(tokens, Terminal::Slash)
                || begins(tokens, Terminal::Percent)
        }
    }
}

/// Reads `+`, `-` or `||`.
fn add_of<'t>(tokens: Lexemes<'t>) -> Read<'t, BinaryOp>
    ensures read { Gives (λ x. (x.0, x.1.now)) result (read sql inner (operator_rule Level.Add) tokens.now) }
    ensures shorter { IfOk result (λ x. length x.1.now < length tokens.now) }
{
    if begins(tokens, Terminal::Plus) {
        let (_, rest) = token(tokens, Terminal::Plus)?;
        Ok((BinaryOp::Add, rest))
    } else if begins(tokens, Terminal::Minus) {
        let (_, rest) = token(tokens, Terminal::Minus)?;
        Ok((BinaryOp::Sub, rest))
    } else {
        let (_, rest) = token(tokens, Terminal::Concat)?;
        Ok((BinaryOp::Concat, rest))
    }
}

/// Reads `*`, `/` or `%`.
fn mul_of<'t>(tokens: Lexemes<'t>) -> Read<'t, BinaryOp>
    ensures read { Gives (λ x. (x.0, x.1.now)) result (read sql inner (operator_rule Level.Mul) tokens.now) }
    ensures shorter { IfOk result (λ x. length x.1.now < length tokens.now) }
{
    if begins(tokens, Terminal::Star) {
        let (_, rest) = token(tokens, Terminal::Star)?;
        Ok((BinaryOp::Mul, rest))
    } else if begins(tokens, Terminal::Slash) {
        let (_, rest) = token(tokens, Terminal::Slash)?;
        Ok((BinaryOp::Div, rest))
    } else {
        let (_, rest) = token(tokens, Terminal::Percent)?;
        Ok((BinaryOp::Rem, rest))
    }
}

/// Reads an operator of a level.
pub fn operator_of<'t>(tokens: Lexemes<'t>, level: Level) -> Read<'t, BinaryOp>
    ensures read { Gives (λ x. (x.0, x.1.now)) result (read sql inner (operator_rule level) tokens.now) }
    ensures shorter { IfOk result (λ x. length x.1.now < length tokens.now) }
{
    match level {
        Level::Or => {
            let (_, rest) = token(tokens, Terminal::Or)?;
            Ok((BinaryOp::Or, rest))
        }
        Level::And => {
            let (_, rest) = token(tokens, Terminal::And)?;
            Ok((BinaryOp::And, rest))
        }
        Level::Add => add_of(tokens),
        Level::Mul => mul_of(tokens),
    }
}

/// Whether a comparison comes next.
pub fn begins_cmp(tokens: Lexemes<'_>) -> bool
    ensures { result ≡ begins kind (starts sql cmp) tokens.now }
{
    begins(tokens, Terminal::Equal)
        || begins(tokens, Terminal::NotEqual)
        || begins(tokens, Terminal::Less)
        || begins(tokens, Terminal::AtMost)
        || begins(tokens, Terminal::Greater)
        || begins(tokens, Terminal::AtLeast)
}

/// Reads a comparison.
pub fn cmp_of<'t>(tokens: Lexemes<'t>) -> Read<'t, Cmp>
    ensures read { Gives (λ x. (x.0, x.1.now)) result (read sql inner cmp tokens.now) }
    ensures shorter { IfOk result (λ x. length x.1.now < length tokens.now) }
{
    if begins(tokens, Terminal::Equal) {
        let (_, rest) = token(tokens, Terminal::Equal)?;
        Ok((Cmp::Eq, rest))
    } else if begins(tokens, Terminal::NotEqual) {
        let (_, rest) = token(tokens, Terminal::NotEqual)?;
        Ok((Cmp::Ne, rest))
    } else if begins(tokens, Terminal::Less) {
        let (_, rest) = token(tokens, Terminal::Less)?;
        Ok((Cmp::Lt, rest))
    } else if begins(tokens, Terminal::AtMost) {
        let (_, rest) = token(tokens, Terminal::AtMost)?;
        Ok((Cmp::Le, rest))
    } else if begins(tokens, Terminal::Greater) {
        let (_, rest) = token(tokens, Terminal::Greater)?;
        Ok((Cmp::Gt, rest))
    } else {
        let (_, rest) = token(tokens, Terminal::AtLeast)?;
        Ok((Cmp::Ge, rest))
    }
}
