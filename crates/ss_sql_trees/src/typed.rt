//! Typed trees: sources, columns and parameters are numbers in them.
//!
//! A tree takes one heap block for each side of an operator, one for each list in it and one for
//! each text. Its numbers are positions: of a table or a window in the catalogue, of a batch in the
//! inputs of the procedure that the statement belongs to, of a column in its source, of a parameter
//! in the procedure.

use ss_value::{Boxed, Seq, Value};

/// Where the rows of a query come from.
#[derive(Clone, Copy, Debug, PartialEq, Eq, Drop)]
pub enum SourceId {
    /// The table at this position in the catalogue.
    Table(u16),
    /// The window at this position in the catalogue.
    Window(u16),
    /// The batch that the step takes of the stream at this position in the procedure's inputs.
    Batch(u16),
    /// The rows of the emit that a stream's trigger runs on.
    Inserted,
}

/// A comparison.
#[derive(Clone, Copy, Debug, PartialEq, Eq, Drop)]
pub enum Cmp {
    /// `=`
    Eq,
    /// `<>`
    Ne,
    /// `<`
    Lt,
    /// `<=`
    Le,
    /// `>`
    Gt,
    /// `>=`
    Ge,
}

/// An operator with one side.
#[derive(Clone, Copy, Debug, PartialEq, Eq, Drop)]
pub enum UnaryOp {
    /// `NOT`
    Not,
    /// `-` before an operand.
    Negate,
}

/// An operator with two sides.
#[derive(Clone, Copy, Debug, PartialEq, Eq, Drop)]
pub enum BinaryOp {
    /// `OR`
    Or,
    /// `AND`
    And,
    /// A comparison.
    Compare(Cmp),
    /// `+`
    Add,
    /// `-` between operands.
    Sub,
    /// `||`, one text behind the other.
    Concat,
    /// `*`
    Mul,
    /// `/`
    Div,
    /// `%`
    Rem,
}

/// An expression.
#[derive(Drop)]
pub enum Expr {
    /// A number or a text of the statement.
    Lit(Value),
    /// The parameter at this position.
    Param(u8),
    /// A column.
    Col {
        /// 0 is FROM or the statement's target, 1 is JOIN.
        source: u8,
        /// The column's position in that source.
        column: u8,
    },
    /// An operator and its side.
    Unary {
        /// The operator.
        op: UnaryOp,
        /// What it works on.
        side: Boxed<Expr>,
    },
    /// An operator between its sides.
    Binary {
        /// The operator.
        op: BinaryOp,
        /// What stands left of it.
        left: Boxed<Expr>,
        /// What stands right of it.
        right: Boxed<Expr>,
    },
}

/// An item of SELECT.
#[derive(Drop)]
pub enum SelectItem {
    /// `COUNT(*)`
    Count,
    /// `SUM` of an expression.
    Sum(Expr),
    /// `MIN` of an expression.
    Min(Expr),
    /// `MAX` of an expression.
    Max(Expr),
    /// An expression with no aggregate.
    Plain(Expr),
}

/// A column of one of a query's sources.
#[derive(Clone, Copy, Debug, PartialEq, Eq, Drop)]
pub struct ColAt {
    /// 0 is FROM, 1 is JOIN.
    pub source: u8,
    /// The column's position in that source.
    pub column: u8,
}

/// The JOIN of a query.
#[derive(Clone, Copy, Debug, PartialEq, Eq, Drop)]
pub struct Joined {
    /// The source that is joined.
    pub source: SourceId,
    /// The column on the left of the `=` behind ON.
    pub left: ColAt,
    /// The column on the right of it.
    pub right: ColAt,
}

/// What rows are sorted by.
#[derive(Clone, Copy, Debug, PartialEq, Eq, Drop)]
pub struct OrderBy {
    /// The number of the item as the text has it, counted from 1.
    pub item: u8,
    /// DESC: the greatest first.
    pub descending: bool,
}

/// A query.
#[derive(Drop)]
pub struct Query {
    /// The items of SELECT.
    pub items: Seq<SelectItem>,
    /// The source behind FROM.
    pub from: SourceId,
    /// The JOIN, if there is one.
    pub joined: Option<Joined>,
    /// The condition behind WHERE, if there is one.
    pub test: Option<Expr>,
    /// The columns behind GROUP BY, or none.
    pub groups: Seq<ColAt>,
    /// What stands behind ORDER BY, or nothing.
    pub order: Seq<OrderBy>,
    /// The number behind LIMIT, if there is one, in rows.
    pub limit: Option<u64>,
}

/// A comparison of the one value that a query gives.
#[derive(Drop)]
pub struct Condition {
    /// The query, in brackets.
    pub query: Query,
    /// The comparison behind it.
    pub cmp: Cmp,
    /// What the value is compared with.
    pub right: Expr,
}

/// A column that SET gives a value.
#[derive(Drop)]
pub struct SetTo {
    /// The column's position in the table.
    pub column: u8,
    /// Its new value.
    pub value: Expr,
}

/// Where INSERT puts rows.
#[derive(Clone, Copy, Debug, PartialEq, Eq, Drop)]
pub enum Target {
    /// The table at this position in the catalogue.
    Table(u16),
    /// The window at this position in the catalogue.
    Window(u16),
}

/// A statement.
#[derive(Drop)]
pub enum Statement {
    /// INSERT of one row of values.
    InsertValues {
        /// Where the row goes.
        target: Target,
        /// A value for each column, in the columns' order.
        values: Seq<Expr>,
    },
    /// INSERT of a query's rows.
    InsertQuery {
        /// Where the rows go.
        target: Target,
        /// The query.
        query: Query,
    },
    /// UPDATE.
    Update {
        /// The table's position in the catalogue.
        table: u16,
        /// The columns that are set, in the text's order.
        sets: Seq<SetTo>,
        /// The condition behind WHERE, if there is one.
        test: Option<Expr>,
    },
    /// DELETE.
    Delete {
        /// The table's position in the catalogue.
        table: u16,
        /// The condition behind WHERE, if there is one.
        test: Option<Expr>,
    },
}
