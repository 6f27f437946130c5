//! Exact copies of typed trees, at any depth.
//!
//! A copy takes time and memory linear in the tree, and calls itself once for each level of an expression. It is
//! written by hand, since a derived `clone` promises a copy that is equal only one level deep.

ghost use Rattle.std.specs.Prelude.{◌≡◌, IfOk};

use crate::typed::{ColAt, Condition, Expr, OrderBy, Query, SelectItem, SetTo, Statement};
use ss_value::{Boxed, Copies, NoMemory};
use std::alloc::Global;

/// A copy of an expression.
pub fn copy_expr(alloc: Global, expr: &Expr) -> Result<Expr, NoMemory>
    ensures { IfOk result (λ copy. copy ≡ expr.now) }
{
    match expr {
        Expr::Lit(value) => Ok(Expr::Lit(value.copy(alloc)?)),
        Expr::Param(n) => Ok(Expr::Param(*n)),
        Expr::Col { source, column } => Ok(Expr::Col {
            source: *source,
            column: *column,
        }),
        Expr::Unary { op, side } => {
            let side = copy_expr(alloc, side.get())?;
            let side = Boxed::new(alloc, side)?;
            Ok(Expr::Unary { op: *op, side })
        }
        Expr::Binary { op, left, right } => {
            let left = copy_expr(alloc, left.get())?;
            let left = Boxed::new(alloc, left)?;
            let right = copy_expr(alloc, right.get())?;
            let right = Boxed::new(alloc, right)?;
            Ok(Expr::Binary {
                op: *op,
                left,
                right,
            })
        }
    }
}

impl Copies for Expr {
    fn duplicate(&self, alloc: Global) -> Result<Expr, NoMemory> {
        copy_expr(alloc, self)
    }
}

impl Copies for SelectItem {
    fn duplicate(&self, alloc: Global) -> Result<SelectItem, NoMemory> {
        match self {
            SelectItem::Count => Ok(SelectItem::Count),
            SelectItem::Sum(expr) => Ok(SelectItem::Sum(copy_expr(alloc, expr)?)),
            SelectItem::Min(expr) => Ok(SelectItem::Min(copy_expr(alloc, expr)?)),
            SelectItem::Max(expr) => Ok(SelectItem::Max(copy_expr(alloc, expr)?)),
            SelectItem::Plain(expr) => Ok(SelectItem::Plain(copy_expr(alloc, expr)?)),
        }
    }
}

impl Copies for ColAt {
    fn duplicate(&self, _alloc: Global) -> Result<ColAt, NoMemory> {
        Ok(*self)
    }
}

impl Copies for OrderBy {
    fn duplicate(&self, _alloc: Global) -> Result<OrderBy, NoMemory> {
        Ok(*self)
    }
}

/// A copy of an expression, if there is one.
pub fn copy_test(alloc: Global, test: &Option<Expr>) -> Result<Option<Expr>, NoMemory>
    ensures { IfOk result (λ copy. copy ≡ test.now) }
{
    match test {
        None => Ok(None),
        Some(expr) => Ok(Some(copy_expr(alloc, expr)?)),
    }
}

impl Copies for Query {
    fn duplicate(&self, alloc: Global) -> Result<Query, NoMemory> {
        let items = self.items.duplicate(alloc)?;
        let test = copy_test(alloc, &self.test)?;
        let groups = self.groups.duplicate(alloc)?;
        let order = self.order.duplicate(alloc)?;
        Ok(Query {
            items,
            from: self.from,
            joined: self.joined,
            test,
            groups,
            order,
            limit: self.limit,
        })
    }
}

impl Copies for Condition {
    fn duplicate(&self, alloc: Global) -> Result<Condition, NoMemory> {
        let query = self.query.duplicate(alloc)?;
        let right = copy_expr(alloc, &self.right)?;
        Ok(Condition {
            query,
            cmp: self.cmp,
            right,
        })
    }
}

impl Copies for SetTo {
    fn duplicate(&self, alloc: Global) -> Result<SetTo, NoMemory> {
        let value = copy_expr(alloc, &self.value)?;
        Ok(SetTo {
            column: self.column,
            value,
        })
    }
}

impl Copies for Statement {
    fn duplicate(&self, alloc: Global) -> Result<Statement, NoMemory> {
        match self {
            Statement::InsertValues { target, values } => {
                let values = values.duplicate(alloc)?;
                Ok(Statement::InsertValues {
                    target: *target,
                    values,
                })
            }
            Statement::InsertQuery { target, query } => {
                let query = query.duplicate(alloc)?;
                Ok(Statement::InsertQuery {
                    target: *target,
                    query,
                })
            }
            Statement::Update { table, sets, test } => {
                let sets = sets.duplicate(alloc)?;
                let test = copy_test(alloc, test)?;
                Ok(Statement::Update {
                    table: *table,
                    sets,
                    test,
                })
            }
            Statement::Delete { table, test } => {
                let test = copy_test(alloc, test)?;
                Ok(Statement::Delete {
                    table: *table,
                    test,
                })
            }
        }
    }
}
