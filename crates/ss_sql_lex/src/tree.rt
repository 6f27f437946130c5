//! Plain trees: SQL texts as the grammar reads them, with the offsets of their parts.
//!
//! The offset of a node is that of its first token's first byte in the text. Each use of a rule that
//! does not merely pass to another has a node. Brackets leave none: a bracketed expression has the
//! offset of its outermost bracket. A name, a column, a number, a text and a parameter have the
//! offsets of their own tokens besides.
//!
//! A tree takes one heap block for each side of an operator, one for each list in it, and one for
//! each name and text. Two trees are equal to contracts where they are the same tree.

ghost use Rattle.std.specs.Prelude.{◌≡◌};
ghost use Rattle.ss_sql_lex.specs.Trees.{offset_of, with_offset};

use ss_sql_trees::{BinaryOp, Cmp, UnaryOp};
use ss_value::{Boxed, Name, Seq, Text};

/// A name, or the name of a parameter.
#[derive(Drop)]
pub struct NameTree {
    /// The offset of its token.
    pub at: usize,
    /// The name itself, without a parameter's colon.
    pub name: Name,
}

/// A number.
#[derive(Drop)]
pub struct NumberTree {
    /// The offset of its token.
    pub at: usize,
    /// Its value, from 0 to 9223372036854775807.
    pub value: i64,
}

/// A text.
#[derive(Drop)]
pub struct TextTree {
    /// The offset of its token, which is its opening quote.
    pub at: usize,
    /// What stands between its quotes, each doubled quote once.
    pub value: Text,
}

/// A column, as `name` or as `source.name`.
#[derive(Drop)]
pub struct ColumnTree {
    /// The name before the dot.
    pub source: Option<NameTree>,
    /// The name of the column.
    pub name: NameTree,
}

/// An expression. Each variant has the offset of its first token, brackets included.
#[derive(Drop)]
pub enum ExprTree {
    /// A number.
    Number {
        /// The offset of the node.
        at: usize,
        /// The number.
        number: NumberTree,
    },
    /// A text.
    Text {
        /// The offset of the node.
        at: usize,
        /// The text.
        text: TextTree,
    },
    /// A parameter.
    Param {
        /// The offset of the node.
        at: usize,
        /// The parameter's name.
        param: NameTree,
    },
    /// A column.
    Column {
        /// The offset of the node.
        at: usize,
        /// The column.
        column: ColumnTree,
    },
    /// An operator before its side.
    Unary {
        /// The offset of the node.
        at: usize,
        /// The operator.
        op: UnaryOp,
        /// What it works on.
        side: Boxed<ExprTree>,
    },
    /// An operator between its sides.
    Binary {
        /// The offset of the node, which is its left side's.
        at: usize,
        /// The operator.
        op: BinaryOp,
        /// The left side.
        left: Boxed<ExprTree>,
        /// The right side.
        right: Boxed<ExprTree>,
    },
}

impl ExprTree {
    /// The offset of its first token, brackets included. Constant.
    pub fn offset(&self) -> usize
        ensures { result ≡ offset_of self.now }
    {
        match self {
            ExprTree::Number { at, .. } => *at,
            ExprTree::Text { at, .. } => *at,
            ExprTree::Param { at, .. } => *at,
            ExprTree::Column { at, .. } => *at,
            ExprTree::Unary { at, .. } => *at,
            ExprTree::Binary { at, .. } => *at,
        }
    }

    /// The same expression at another offset, as an opening bracket gives it one. Constant.
    pub fn with_offset(self, at: usize) -> ExprTree
        ensures { result ≡ with_offset at self }
    {
        match self {
            ExprTree::Number { number, .. } => ExprTree::Number { at, number },
            ExprTree::Text { text, .. } => ExprTree::Text { at, text },
            ExprTree::Param { param, .. } => ExprTree::Param { at, param },
            ExprTree::Column { column, .. } => ExprTree::Column { at, column },
            ExprTree::Unary { op, side, .. } => ExprTree::Unary { at, op, side },
            ExprTree::Binary {
                op,
                left,
                right,
                ..
            } => ExprTree::Binary {
                at,
                op,
                left,
                right,
            },
        }
    }
}

/// An item of SELECT.
#[derive(Drop)]
pub enum ItemTree {
    /// `COUNT(*)`
    Count {
        /// The offset of its keyword.
        at: usize,
    },
    /// `SUM(side)`
    Sum {
        /// The offset of its keyword.
        at: usize,
        /// What stands between its brackets.
        side: ExprTree,
    },
    /// `MIN(side)`
    Min {
        /// The offset of its keyword.
        at: usize,
        /// What stands between its brackets.
        side: ExprTree,
    },
    /// `MAX(side)`
    Max {
        /// The offset of its keyword.
        at: usize,
        /// What stands between its brackets.
        side: ExprTree,
    },
    /// An expression.
    Plain(ExprTree),
}

/// `JOIN name ON left = right`
pub struct JoinTree {
    /// The joined source.
    pub name: NameTree,
    /// The column before `=`.
    pub left: ColumnTree,
    /// The column behind `=`.
    pub right: ColumnTree,
}

// By hand, so that letting it go is one call and not one for each of its parts.
impl Drop for JoinTree {
    fn drop(self) {
        let JoinTree {
            name: _,
            left: _,
            right: _,
        } = self;
    }
}

/// `number`, `number ASC` or `number DESC` behind ORDER BY.
#[derive(Drop)]
pub struct OrderTree {
    /// Which item to sort by.
    pub number: NumberTree,
    /// DESC stands behind it.
    pub descending: bool,
}

/// `column = value` behind SET.
#[derive(Drop)]
pub struct SetTree {
    /// The column that is set.
    pub column: NameTree,
    /// What it is set to.
    pub value: ExprTree,
}

/// A query.
pub struct QueryTree {
    /// The offset of SELECT.
    pub at: usize,
    /// The items, one at least.
    pub items: Seq<ItemTree>,
    /// The source behind FROM.
    pub from: NameTree,
    /// What stands behind JOIN.
    pub joined: Option<JoinTree>,
    /// What stands behind WHERE.
    pub test: Option<ExprTree>,
    /// The columns behind GROUP BY; none where there is no GROUP BY.
    pub groups: Seq<ColumnTree>,
    /// What stands behind ORDER BY; none where there is no ORDER BY.
    pub order: Seq<OrderTree>,
    /// The number behind LIMIT.
    pub limit: Option<NumberTree>,
}

// By hand, so that letting it go is one call and not one for each of its parts.
impl Drop for QueryTree {
    fn drop(self) {
        let QueryTree {
            at: _,
            items: _,
            from: _,
            joined: _,
            test: _,
            groups: _,
            order: _,
            limit: _,
        } = self;
    }
}

/// A statement. Each variant has the offset of its first keyword.
#[derive(Drop)]
pub enum StatementTree {
    /// `INSERT INTO target VALUES (values)`
    InsertValues {
        /// The offset of INSERT.
        at: usize,
        /// What the row goes into.
        target: NameTree,
        /// The values, one at least.
        values: Seq<ExprTree>,
    },
    /// `INSERT INTO target query`
    InsertQuery {
        /// The offset of INSERT.
        at: usize,
        /// What the rows go into.
        target: NameTree,
        /// The query that gives the rows.
        query: QueryTree,
    },
    /// `UPDATE table SET sets WHERE test`
    Update {
        /// The offset of UPDATE.
        at: usize,
        /// The table.
        table: NameTree,
        /// What is set, one column at least.
        sets: Seq<SetTree>,
        /// What stands behind WHERE.
        test: Option<ExprTree>,
    },
    /// `DELETE FROM table WHERE test`
    Delete {
        /// The offset of DELETE.
        at: usize,
        /// The table.
        table: NameTree,
        /// What stands behind WHERE.
        test: Option<ExprTree>,
    },
}

/// `(query) cmp right`
pub struct ConditionTree {
    /// The offset of its opening bracket.
    pub at: usize,
    /// The query between the brackets.
    pub query: QueryTree,
    /// The comparison.
    pub cmp: Cmp,
    /// The right side.
    pub right: ExprTree,
}

// By hand, so that letting it go is one call and not one for each of its parts.
impl Drop for ConditionTree {
    fn drop(self) {
        let ConditionTree {
            at: _,
            query: _,
            cmp: _,
            right: _,
        } = self;
    }
}
