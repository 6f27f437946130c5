//! Exact copies of plain trees, with their offsets, at any depth.
//!
//! A copy takes time and memory linear in the tree, and calls itself once for each level of an expression, as the
//! parser does.

ghost use Rattle.std.specs.Prelude.{◌≡◌, IfOk};
ghost use Rattle.ss_sql_lex.specs.declared.tree.ExprTree.TheVariants.{Unary, Binary};
ghost use Rattle.ss_sql_lex.specs.declared.tree.StatementTree.TheVariants.{Update};

use crate::tree::{
    ColumnTree, ConditionTree, ExprTree, ItemTree, JoinTree, NameTree, NumberTree, OrderTree,
    QueryTree, SetTree, StatementTree, TextTree,
};
use ss_sql_trees::{BinaryOp, UnaryOp};
use ss_value::{Boxed, Copies, NoMemory, Seq};
use std::alloc::Global;

impl Copies for NameTree {
    fn duplicate(&self, alloc: Global) -> Result<NameTree, NoMemory> {
        let name = self.name.duplicate(alloc)?;
        Ok(NameTree { at: self.at, name })
    }
}

impl Copies for NumberTree {
    fn duplicate(&self, _alloc: Global) -> Result<NumberTree, NoMemory> {
        Ok(NumberTree {
            at: self.at,
            value: self.value,
        })
    }
}

impl Copies for TextTree {
    fn duplicate(&self, alloc: Global) -> Result<TextTree, NoMemory> {
        let value = self.value.duplicate(alloc)?;
        Ok(TextTree { at: self.at, value })
    }
}

/// A copy of a source's name, if there is one.
fn copy_source(alloc: Global, source: &Option<NameTree>) -> Result<Option<NameTree>, NoMemory>
    ensures { IfOk result (λ copy. copy ≡ source.now) }
{
    match source {
        None => Ok(None),
        Some(name) => Ok(Some(name.duplicate(alloc)?)),
    }
}

impl Copies for ColumnTree {
    fn duplicate(&self, alloc: Global) -> Result<ColumnTree, NoMemory> {
        let source = copy_source(alloc, &self.source)?;
        let name = self.name.duplicate(alloc)?;
        Ok(ColumnTree { source, name })
    }
}

/// The tree of an operator before its side.
fn unary_tree(alloc: Global, at: usize, op: UnaryOp, side: ExprTree) -> Result<ExprTree, NoMemory>
    ensures { IfOk result (λ tree. tree ≡ Unary at op side) }
{
    let side = Boxed::new(alloc, side)?;
    Ok(ExprTree::Unary { at, op, side })
}

/// The tree of an operator between its sides.
fn binary_tree(
    alloc: Global,
    at: usize,
    op: BinaryOp,
    left: ExprTree,
    right: ExprTree,
) -> Result<ExprTree, NoMemory>
    ensures { IfOk result (λ tree. tree ≡ Binary at op left right) }
{
    let left = Boxed::new(alloc, left)?;
    let right = Boxed::new(alloc, right)?;
    Ok(ExprTree::Binary {
        at,
        op,
        left,
        right,
    })
}

/// A copy of an expression.
pub fn copy_expr_tree(alloc: Global, expr: &ExprTree) -> Result<ExprTree, NoMemory>
    ensures { IfOk result (λ copy. copy ≡ expr.now) }
{
    match expr {
        ExprTree::Number { at, number } => {
            let number = number.duplicate(alloc)?;
            Ok(ExprTree::Number { at: *at, number })
        }
        ExprTree::Text { at, text } => {
            let text = text.duplicate(alloc)?;
            Ok(ExprTree::Text { at: *at, text })
        }
        ExprTree::Param { at, param } => {
            let param = param.duplicate(alloc)?;
            Ok(ExprTree::Param { at: *at, param })
        }
        ExprTree::Column { at, column } => {
            let column = column.duplicate(alloc)?;
            Ok(ExprTree::Column { at: *at, column })
        }
        ExprTree::Unary { at, op, side } => {
            let side = copy_expr_tree(alloc, side.get())?;
            unary_tree(alloc, *at, *op, side)
        }
        ExprTree::Binary {
            at,
            op,
            left,
            right,
        } => {
            let left = copy_expr_tree(alloc, left.get())?;
            let right = copy_expr_tree(alloc, right.get())?;
            binary_tree(alloc, *at, *op, left, right)
        }
    }
}

impl Copies for ExprTree {
    fn duplicate(&self, alloc: Global) -> Result<ExprTree, NoMemory> {
        copy_expr_tree(alloc, self)
    }
}

impl Copies for ItemTree {
    fn duplicate(&self, alloc: Global) -> Result<ItemTree, NoMemory> {
        match self {
            ItemTree::Count { at } => Ok(ItemTree::Count { at: *at }),
            ItemTree::Sum { at, side } => {
                let side = copy_expr_tree(alloc, side)?;
                Ok(ItemTree::Sum { at: *at, side })
            }
            ItemTree::Min { at, side } => {
                let side = copy_expr_tree(alloc, side)?;
                Ok(ItemTree::Min { at: *at, side })
            }
            ItemTree::Max { at, side } => {
                let side = copy_expr_tree(alloc, side)?;
                Ok(ItemTree::Max { at: *at, side })
            }
            ItemTree::Plain(expr) => Ok(ItemTree::Plain(copy_expr_tree(alloc, expr)?)),
        }
    }
}

impl Copies for JoinTree {
    fn duplicate(&self, alloc: Global) -> Result<JoinTree, NoMemory> {
        let name = self.name.duplicate(alloc)?;
        let left = self.left.duplicate(alloc)?;
        let right = self.right.duplicate(alloc)?;
        Ok(JoinTree { name, left, right })
    }
}

impl Copies for OrderTree {
    fn duplicate(&self, alloc: Global) -> Result<OrderTree, NoMemory> {
        let number = self.number.duplicate(alloc)?;
        Ok(OrderTree {
            number,
            descending: self.descending,
        })
    }
}

impl Copies for SetTree {
    fn duplicate(&self, alloc: Global) -> Result<SetTree, NoMemory> {
        let column = self.column.duplicate(alloc)?;
        let value = copy_expr_tree(alloc, &self.value)?;
        Ok(SetTree { column, value })
    }
}

/// A copy of a JOIN, if there is one.
fn copy_join(alloc: Global, joined: &Option<JoinTree>) -> Result<Option<JoinTree>, NoMemory>
    ensures { IfOk result (λ copy. copy ≡ joined.now) }
{
    match joined {
        None => Ok(None),
        Some(join) => Ok(Some(join.duplicate(alloc)?)),
    }
}

/// A copy of the expression behind WHERE, if there is one.
fn copy_where(alloc: Global, test: &Option<ExprTree>) -> Result<Option<ExprTree>, NoMemory>
    ensures { IfOk result (λ copy. copy ≡ test.now) }
{
    match test {
        None => Ok(None),
        Some(expr) => Ok(Some(copy_expr_tree(alloc, expr)?)),
    }
}

/// A copy of a LIMIT, if there is one.
fn copy_limit(alloc: Global, limit: &Option<NumberTree>) -> Result<Option<NumberTree>, NoMemory>
    ensures { IfOk result (λ copy. copy ≡ limit.now) }
{
    match limit {
        None => Ok(None),
        Some(number) => Ok(Some(number.duplicate(alloc)?)),
    }
}

impl Copies for QueryTree {
    fn duplicate(&self, alloc: Global) -> Result<QueryTree, NoMemory> {
        // JOIN and WHERE last: what takes many calls to let go would be let go at each copy behind it that fails.
        let items = self.items.duplicate(alloc)?;
        let groups = self.groups.duplicate(alloc)?;
        let order = self.order.duplicate(alloc)?;
        let limit = copy_limit(alloc, &self.limit)?;
        let from = self.from.duplicate(alloc)?;
        let joined = copy_join(alloc, &self.joined)?;
        let test = copy_where(alloc, &self.test)?;
        Ok(QueryTree {
            at: self.at,
            items,
            from,
            joined,
            test,
            groups,
            order,
            limit,
        })
    }
}

/// A copy of an UPDATE.
fn copy_update(
    alloc: Global,
    at: usize,
    table: &NameTree,
    sets: &Seq<SetTree>,
    test: &Option<ExprTree>,
) -> Result<StatementTree, NoMemory>
    ensures { IfOk result (λ copy. copy ≡ Update at table.now sets.now test.now) }
{
    let table = table.duplicate(alloc)?;
    let sets = sets.duplicate(alloc)?;
    let test = copy_where(alloc, test)?;
    Ok(StatementTree::Update {
        at,
        table,
        sets,
        test,
    })
}

impl Copies for StatementTree {
    fn duplicate(&self, alloc: Global) -> Result<StatementTree, NoMemory> {
        match self {
            StatementTree::InsertValues { at, target, values } => {
                let target = target.duplicate(alloc)?;
                let values = values.duplicate(alloc)?;
                Ok(StatementTree::InsertValues {
                    at: *at,
                    target,
                    values,
                })
            }
            StatementTree::InsertQuery { at, target, query } => {
                let target = target.duplicate(alloc)?;
                let query = query.duplicate(alloc)?;
                Ok(StatementTree::InsertQuery {
                    at: *at,
                    target,
                    query,
                })
            }
            StatementTree::Update {
                at,
                table,
                sets,
                test,
            } => copy_update(alloc, *at, table, sets, test),
            StatementTree::Delete { at, table, test } => {
                let table = table.duplicate(alloc)?;
                let test = copy_where(alloc, test)?;
                Ok(StatementTree::Delete {
                    at: *at,
                    table,
                    test,
                })
            }
        }
    }
}

impl Copies for ConditionTree {
    fn duplicate(&self, alloc: Global) -> Result<ConditionTree, NoMemory> {
        let right = copy_expr_tree(alloc, &self.right)?;
        let query = self.query.duplicate(alloc)?;
        Ok(ConditionTree {
            at: self.at,
            query,
            cmp: self.cmp,
            right,
        })
    }
}
