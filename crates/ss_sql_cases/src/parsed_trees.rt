//! Trees of SQL texts, printed in one line, as the rows of `parse` have them.
//!
//! In front of each node stands its offset, the byte of the text at which it begins. A leaf in brackets has the offset of
//! the brackets and then its own, as `0/1#5` for `(5)`. `#` stands before a number and `:` before a parameter; `signs`
//! has the operators.
//!
//! ```text
//! D T, W C                  DELETE FROM T WHERE C
//! U T C=E,.. W C            UPDATE
//! V T E,..                  INSERT with values
//! I T Q                     INSERT with a query
//! Q I,.. FT JT C=C W C G C,.. O #N^,#Nv L#N
//!                           a query: items, FROM, JOIN, WHERE, GROUP BY, ORDER BY (`v` is DESC), LIMIT
//! C Q = E                   a condition
//! ```

use crate::shown::{Show, Shown, ShownIfAny, ShownList, show_behind};
use crate::signs::{binary_sign, cmp_sign, unary_sign};
use ss_sql_lex::{
    ColumnTree, ConditionTree, ExprTree, ItemTree, JoinTree, LexError, NameTree, NumberTree,
    OrderTree, QueryTree, SetTree, StatementTree,
};
use ss_sql_parse::ParseError;
use std::fmt;

// ---- expressions

/// The offset of a leaf, and behind it that of its token where this is another one.
#[derive(Clone, Copy, Drop)]
struct Place {
    at: usize,
    token: usize,
}

impl Place {
    /// The place of a leaf at this offset.
    fn new(at: usize, token: usize) -> Place {
        Place { at, token }
    }
}

impl fmt::Display for Place {
    fn fmt<W: fmt::Write>(&self, f: &mut fmt::Formatter<W>) -> fmt::Result {
        let at = self.at;
        let token = self.token;
        if at == token {
            write!(f, "{at}")
        } else {
            write!(f, "{at}/{token}")
        }
    }
}

/// The names of a column, without the offset of the first.
#[derive(Drop)]
struct ColumnNames<'a>(&'a ColumnTree);

impl fmt::Display for ColumnNames<'_> {
    fn fmt<W: fmt::Write>(&self, f: &mut fmt::Formatter<W>) -> fmt::Result {
        let at = self.0.name.at;
        let name = self.0.name.name.as_str();
        match &self.0.source {
            Some(source) => write!(f, "{}.{at}{name}", source.name.as_str()),
            None => f.write_str(name),
        }
    }
}

/// The offset of a column's first name.
fn first_offset(column: &ColumnTree) -> usize {
    match &column.source {
        Some(source) => source.at,
        None => column.name.at,
    }
}

impl Show for NameTree {
    fn show<W: fmt::Write>(&self, f: &mut fmt::Formatter<W>) -> fmt::Result {
        write!(f, "{}{}", self.at, self.name.as_str())
    }
}

impl Show for NumberTree {
    fn show<W: fmt::Write>(&self, f: &mut fmt::Formatter<W>) -> fmt::Result {
        write!(f, "{}#{}", self.at, self.value)
    }
}

impl Show for ColumnTree {
    fn show<W: fmt::Write>(&self, f: &mut fmt::Formatter<W>) -> fmt::Result {
        write!(f, "{}{}", first_offset(self), ColumnNames(self))
    }
}

impl Show for ExprTree {
    fn show<W: fmt::Write>(&self, f: &mut fmt::Formatter<W>) -> fmt::Result {
        match self {
            ExprTree::Number { at, number } => {
                let place = Place::new(*at, number.at);
                write!(f, "{place}#{}", number.value)
            }
            ExprTree::Text { at, text } => {
                let place = Place::new(*at, text.at);
                write!(f, "{place}'{}'", text.value.as_str())
            }
            ExprTree::Param { at, param } => {
                let place = Place::new(*at, param.at);
                write!(f, "{place}:{}", param.name.as_str())
            }
            ExprTree::Column { at, column } => {
                let place = Place::new(*at, first_offset(column));
                write!(f, "{place}{}", ColumnNames(column))
            }
            ExprTree::Unary { at, op, side } => {
                write!(f, "{at}{}", unary_sign(*op))?;
                side.get().show(f)
            }
            ExprTree::Binary {
                at,
                op,
                left,
                right,
            } => {
                write!(f, "{at}(")?;
                show_behind(left.get().show(f), f, binary_sign(*op))?;
                show_behind(right.get().show(f), f, ")")
            }
        }
    }
}

// ---- queries

impl Show for ItemTree {
    fn show<W: fmt::Write>(&self, f: &mut fmt::Formatter<W>) -> fmt::Result {
        let (at, word, side) = match self {
            ItemTree::Count { at } => return write!(f, "{at}COUNT"),
            ItemTree::Sum { at, side } => (at, "SUM", side),
            ItemTree::Min { at, side } => (at, "MIN", side),
            ItemTree::Max { at, side } => (at, "MAX", side),
            ItemTree::Plain(tree) => return tree.show(f),
        };
        write!(f, "{at}{word} {}", Shown(side))
    }
}

impl Show for JoinTree {
    fn show<W: fmt::Write>(&self, f: &mut fmt::Formatter<W>) -> fmt::Result {
        let name = Shown(&self.name);
        write!(f, "{name} {}={}", Shown(&self.left), Shown(&self.right))
    }
}

impl Show for OrderTree {
    fn show<W: fmt::Write>(&self, f: &mut fmt::Formatter<W>) -> fmt::Result {
        let arrow = if self.descending { "v" } else { "^" };
        write!(f, "{}{arrow}", Shown(&self.number))
    }
}

impl Show for QueryTree {
    fn show<W: fmt::Write>(&self, f: &mut fmt::Formatter<W>) -> fmt::Result {
        let items = ShownList(" ", self.items.as_slice());
        let joined = ShownIfAny(" J", &self.joined);
        let test = ShownIfAny(" W ", &self.test);
        let groups = ShownList(" G ", self.groups.as_slice());
        let order = ShownList(" O ", self.order.as_slice());
        let limit = ShownIfAny(" L", &self.limit);
        write!(
            f,
            "{}Q{items} F{}{joined}{test}{groups}{order}{limit}",
            self.at,
            Shown(&self.from)
        )
    }
}

// ---- statements and conditions

impl Show for SetTree {
    fn show<W: fmt::Write>(&self, f: &mut fmt::Formatter<W>) -> fmt::Result {
        write!(f, "{}={}", Shown(&self.column), Shown(&self.value))
    }
}

impl Show for StatementTree {
    fn show<W: fmt::Write>(&self, f: &mut fmt::Formatter<W>) -> fmt::Result {
        match self {
            StatementTree::InsertValues { at, target, values } => {
                let values = ShownList(" ", values.as_slice());
                write!(f, "{at}V {}{values}", Shown(target))
            }
            StatementTree::InsertQuery { at, target, query } => {
                write!(f, "{at}I {} {}", Shown(target), Shown(query))
            }
            StatementTree::Update {
                at,
                table,
                sets,
                test,
            } => {
                let sets = ShownList(" ", sets.as_slice());
                write!(f, "{at}U {}{sets}{}", Shown(table), ShownIfAny(" W ", test))
            }
            StatementTree::Delete { at, table, test } => {
                write!(f, "{at}D {}{}", Shown(table), ShownIfAny(" W ", test))
            }
        }
    }
}

impl Show for ConditionTree {
    fn show<W: fmt::Write>(&self, f: &mut fmt::Formatter<W>) -> fmt::Result {
        let query = Shown(&self.query);
        let sign = cmp_sign(self.cmp);
        write!(f, "{}C {query} {sign} {}", self.at, Shown(&self.right))
    }
}

// ---- trees of any form

/// The tree of a text.
pub enum ParsedTree {
    /// A statement.
    Statement(StatementTree),
    /// A query.
    Query(QueryTree),
    /// A condition.
    Condition(ConditionTree),
}

// By hand, so that letting it go is one call here and one for each tree there, and not one for each part of a tree.
impl Drop for ParsedTree {
    fn drop(self) {
        match self {
            ParsedTree::Statement(tree) => drop(tree),
            ParsedTree::Query(tree) => drop(tree),
            ParsedTree::Condition(tree) => drop(tree),
        }
    }
}

impl Show for ParsedTree {
    fn show<W: fmt::Write>(&self, f: &mut fmt::Formatter<W>) -> fmt::Result {
        match self {
            ParsedTree::Statement(tree) => tree.show(f),
            ParsedTree::Query(tree) => tree.show(f),
            ParsedTree::Condition(tree) => tree.show(f),
        }
    }
}

// ---- refusals

/// Why a text has no tokens: the number of the fault, and where it is.
impl Show for LexError {
    fn show<W: fmt::Write>(&self, f: &mut fmt::Formatter<W>) -> fmt::Result {
        let (code, at) = match self {
            // What makes a text of it then reports want of memory, as it does of its own.
            LexError::NoMemory => return Err(fmt::Error),
            LexError::BadCharacter(at) => ("S1", at),
            LexError::BadNumber(at) => ("S2", at),
            LexError::OpenText(at) => ("S3", at),
        };
        write!(f, "{code} {at}")
    }
}

/// Why a text has no tree: `!12` where something else has to stand at its byte 12, or why it has no tokens.
impl Show for ParseError {
    fn show<W: fmt::Write>(&self, f: &mut fmt::Formatter<W>) -> fmt::Result {
        match self {
            ParseError::NoMemory => Err(fmt::Error),
            ParseError::Lex(error) => error.show(f),
            ParseError::Unexpected(at) => write!(f, "!{at}"),
        }
    }
}
