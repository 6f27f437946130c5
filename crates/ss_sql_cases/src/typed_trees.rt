//! Typed trees, printed in one line, as the rows of `type` have them.
//!
//! A column is its source's number, a dot and its position; a parameter is `:` and its position; `signs` has the
//! operators. Behind the items of a query stand its source, and behind `J` the joined source and the columns of ON,
//! behind `W` the condition, `G` the groups, `O` the order (`d` is DESC) and `L` the limit. A source is `T0` for a
//! table, `W0` for a window, `B0` for a batch, and `I` for the rows that a trigger is given.
//!
//! ```text
//! +T0 (E,..)                INSERT with values, and with a query in place of the brackets
//! T0 {1:=E,..} W C          UPDATE
//! -T0 W C                   DELETE
//! (Q)=E                     a condition
//! ```

use crate::shown::{Show, Shown, ShownIfAny, ShownList, show_behind};
use crate::signs::{binary_sign, cmp_sign, unary_sign};
use ss_sql_trees::{
    ColAt, Condition, Expr, Joined, OrderBy, Query, SelectItem, SetTo, SourceId, Statement, Target,
};
use ss_sql_type::TypeError;
use ss_value::Value;
use std::fmt;

// ---- expressions

impl Show for Value {
    fn show<W: fmt::Write>(&self, f: &mut fmt::Formatter<W>) -> fmt::Result {
        match self {
            Value::Int(number) => write!(f, "{number}"),
            Value::Text(text) => write!(f, "'{}'", text.as_str()),
        }
    }
}

impl Show for Expr {
    fn show<W: fmt::Write>(&self, f: &mut fmt::Formatter<W>) -> fmt::Result {
        match self {
            Expr::Lit(value) => value.show(f),
            Expr::Param(number) => write!(f, ":{number}"),
            Expr::Col { source, column } => write!(f, "{source}.{column}"),
            Expr::Unary { op, side } => {
                f.write_str(unary_sign(*op))?;
                side.get().show(f)
            }
            Expr::Binary { op, left, right } => {
                f.write_str("(")?;
                show_behind(left.get().show(f), f, binary_sign(*op))?;
                show_behind(right.get().show(f), f, ")")
            }
        }
    }
}

// ---- queries

impl Show for SelectItem {
    fn show<W: fmt::Write>(&self, f: &mut fmt::Formatter<W>) -> fmt::Result {
        let (word, side) = match self {
            SelectItem::Count => return f.write_str("COUNT"),
            SelectItem::Sum(side) => ("SUM ", side),
            SelectItem::Min(side) => ("MIN ", side),
            SelectItem::Max(side) => ("MAX ", side),
            SelectItem::Plain(side) => ("", side),
        };
        f.write_str(word)?;
        side.show(f)
    }
}

impl Show for SourceId {
    fn show<W: fmt::Write>(&self, f: &mut fmt::Formatter<W>) -> fmt::Result {
        let (letter, number) = match self {
            SourceId::Table(number) => ("T", number),
            SourceId::Window(number) => ("W", number),
            SourceId::Batch(number) => ("B", number),
            SourceId::Inserted => return f.write_str("I"),
        };
        write!(f, "{letter}{number}")
    }
}

impl Show for ColAt {
    fn show<W: fmt::Write>(&self, f: &mut fmt::Formatter<W>) -> fmt::Result {
        write!(f, "{}.{}", self.source, self.column)
    }
}

impl Show for Joined {
    fn show<W: fmt::Write>(&self, f: &mut fmt::Formatter<W>) -> fmt::Result {
        let source = Shown(&self.source);
        write!(f, "{source} {}={}", Shown(&self.left), Shown(&self.right))
    }
}

impl Show for OrderBy {
    fn show<W: fmt::Write>(&self, f: &mut fmt::Formatter<W>) -> fmt::Result {
        let down = if self.descending { "d" } else { "" };
        write!(f, "{}{down}", self.item)
    }
}

/// A limit.
impl Show for u64 {
    fn show<W: fmt::Write>(&self, f: &mut fmt::Formatter<W>) -> fmt::Result {
        write!(f, "{self}")
    }
}

impl Show for Query {
    fn show<W: fmt::Write>(&self, f: &mut fmt::Formatter<W>) -> fmt::Result {
        let items = ShownList("", self.items.as_slice());
        let from = Shown(&self.from);
        let joined = ShownIfAny(" J ", &self.joined);
        let test = ShownIfAny(" W ", &self.test);
        let groups = ShownList(" G ", self.groups.as_slice());
        let order = ShownList(" O ", self.order.as_slice());
        let limit = ShownIfAny(" L ", &self.limit);
        write!(f, "[{items}] {from}{joined}{test}{groups}{order}{limit}")
    }
}

// ---- statements and conditions

impl Show for SetTo {
    fn show<W: fmt::Write>(&self, f: &mut fmt::Formatter<W>) -> fmt::Result {
        write!(f, "{}:={}", self.column, Shown(&self.value))
    }
}

impl Show for Target {
    fn show<W: fmt::Write>(&self, f: &mut fmt::Formatter<W>) -> fmt::Result {
        match self {
            Target::Table(n) => write!(f, "T{n}"),
            Target::Window(n) => write!(f, "W{n}"),
        }
    }
}

impl Show for Statement {
    fn show<W: fmt::Write>(&self, f: &mut fmt::Formatter<W>) -> fmt::Result {
        match self {
            Statement::InsertValues { target, values } => {
                let values = ShownList("", values.as_slice());
                write!(f, "+{} ({values})", Shown(target))
            }
            Statement::InsertQuery { target, query } => {
                write!(f, "+{} {}", Shown(target), Shown(query))
            }
            Statement::Update { table, sets, test } => {
                let sets = ShownList("", sets.as_slice());
                write!(f, "T{table} {{{sets}}}{}", ShownIfAny(" W ", test))
            }
            Statement::Delete { table, test } => {
                write!(f, "-T{table}{}", ShownIfAny(" W ", test))
            }
        }
    }
}

impl Show for Condition {
    fn show<W: fmt::Write>(&self, f: &mut fmt::Formatter<W>) -> fmt::Result {
        let query = Shown(&self.query);
        let sign = cmp_sign(self.cmp);
        write!(f, "({query}){sign}{}", Shown(&self.right))
    }
}

// ---- refusals

/// Why a tree has no type: the number of the refusal, and its offset in the text.
impl Show for TypeError {
    fn show<W: fmt::Write>(&self, f: &mut fmt::Formatter<W>) -> fmt::Result {
        let (code, at) = match self {
            // What makes a text of it then reports want of memory, as it does of its own.
            TypeError::NoMemory => return Err(fmt::Error),
            TypeError::UnknownName(at) => ("S5", at),
            TypeError::WrongType(at) => ("S6", at),
            TypeError::KeyIsSet(at) => ("S7", at),
            TypeError::WrongCount(at) => ("S8", at),
            TypeError::NotAggregated(at) => ("S9", at),
        };
        write!(f, "{code}@{at}")
    }
}
