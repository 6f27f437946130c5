//! Typing of expressions.

ghost use Rattle.std.specs.Prelude.{◌≡◌, IsTrue, IfOk, OnOk, Some, None};
ghost use Rattle.ss_sql_trees.specs.declared.typed.Expr.TheVariants.{Unary, Binary};
ghost use Rattle.ss_sql_type.specs.Kinds.{sign_kind, gives};
ghost use Rattle.ss_sql_type.specs.Refusals.{least_of};
ghost use Rattle.ss_sql_type.specs.Names.{is_narrow, resolve, column_named};
ghost use Rattle.ss_sql_type.specs.Expressions.{typed_param, typed_column, typed_expr, is_grouped, side_faults, sides_faults, grouping, set_of, Shows, expr_faults};

use crate::first_fault::{check, record_fault};
use crate::grouped::Grouped;
use crate::kinds::{Needs, ValueKind, fits, gives, may_be, may_compare, sign_kind};
use crate::names::{Names, column_offset, kind_at, kind_in, resolve};
use crate::scope::TypeError;
use ss_sql_lex::{ColumnTree, ExprTree, NameTree};
use ss_sql_trees::{BinaryOp, ColAt, Expr, UnaryOp};
use ss_value::{Boxed, Copies, NoMemory, Value};
use std::alloc::Global;

/// A typed expression, with its type and its offset.
#[derive(Drop)]
pub struct TypedExpr {
    /// The expression. A name that is not known is number 0 in it: its fault refuses the whole tree.
    pub expr: Expr,
    /// Its type; None where its name is not known.
    pub kind: Option<ValueKind>,
    /// The offset of its first token.
    pub at: usize,
}

/// Types a parameter. Takes the time of a hash.
fn param_of(names: &Names, at: usize, name: &NameTree, found: &mut Option<TypeError>) -> TypedExpr
    requires { IsTrue (is_narrow names.now) }
    ensures expr { Shows result (typed_param names.now at name.now (column_named names.now.params name.now.name)) }
    ensures faults { found.new ≡ least_of found.old (typed_param names.now at name.now (column_named names.now.params name.now.name)).faults }
{
    match names.in_params(&name.name) {
        Some(number) => TypedExpr {
            expr: Expr::Param(number),
            kind: kind_in(names.params(), number),
            at,
        },
        None => {
            record_fault(found, TypeError::UnknownName(name.at));
            TypedExpr {
                expr: Expr::Param(0),
                kind: None,
                at,
            }
        }
    }
}

/// Whether a column is grouped, where it has to be.
fn is_grouped(grouped: Option<&Grouped>, column: ColAt) -> bool
    ensures { result ≡ is_grouped (grouping grouped.entry) (Some column) }
{
    match grouped {
        Some(grouped) => grouped.has(column),
        None => true,
    }
}

/// Types a column. Takes the time of two hashes, and of one more where it has to be grouped.
fn column_of(
    names: &Names,
    grouped: Option<&Grouped>,
    at: usize,
    tree: &ColumnTree,
    found: &mut Option<TypeError>,
) -> TypedExpr
    requires { IsTrue (is_narrow names.now) }
    ensures expr { Shows result (typed_column names.now (grouping grouped.entry) at tree.now (resolve names.now tree.now)) }
    ensures faults { found.new ≡ least_of found.old (typed_column names.now (grouping grouped.entry) at tree.now (resolve names.now tree.now)).faults }
{
    match resolve(names, tree) {
        Ok(column) => {
            let right = is_grouped(grouped, column);
            check(found, right, TypeError::NotAggregated(column_offset(tree)));
            TypedExpr {
                expr: Expr::Col {
                    source: column.source,
                    column: column.column,
                },
                kind: kind_at(names, column),
                at,
            }
        }
        Err(fault) => {
            record_fault(found, fault);
            TypedExpr {
                expr: Expr::Col {
                    source: 0,
                    column: 0,
                },
                kind: None,
                at,
            }
        }
    }
}

/// Checks a side of an operator against the type that the operator takes.
fn check_side(found: &mut Option<TypeError>, kind: ValueKind, side: &TypedExpr)
    ensures { found.new ≡ least_of found.old (side_faults kind (set_of side.now)) }
{
    check(
        found,
        may_be(kind, side.kind),
        TypeError::WrongType(side.at),
    );
}

/// Checks both sides of an operator.
fn check_sides(found: &mut Option<TypeError>, op: BinaryOp, left: &TypedExpr, right: &TypedExpr)
    ensures { found.new ≡ least_of found.old (sides_faults op (set_of left.now) (set_of right.now)) }
{
    // A comparison takes either type, so neither side is wrong by itself, and the fault is the right one's.
    if let BinaryOp::Compare(_) = op {
        check(
            found,
            may_compare(left.kind, right.kind),
            TypeError::WrongType(right.at),
        );
    } else {
        check_side(found, gives(op), left);
        check_side(found, gives(op), right);
    }
}

/// Types an expression. Linear in its nodes and the bytes of its texts.
///
/// Where `grouped` is given, each column of the expression has to be one of these.
pub(crate) fn expr_of(
    alloc: Global,
    names: &Names,
    grouped: Option<&Grouped>,
    tree: &ExprTree,
    found: &mut Option<TypeError>,
) -> Result<TypedExpr, NoMemory>
    requires { IsTrue (is_narrow names.now) }
    ensures ok { IfOk result (λ typed. Shows typed (typed_expr names.now (grouping grouped.entry) tree.now)) }
    ensures faults { OnOk result (found.new ≡ least_of found.old (typed_expr names.now (grouping grouped.entry) tree.now).faults) }
{
    match tree {
        ExprTree::Number { at, number } => Ok(TypedExpr {
            expr: Expr::Lit(Value::Int(number.value)),
            kind: Some(ValueKind::Int),
            at: *at,
        }),
        ExprTree::Text { at, text } => Ok(TypedExpr {
            expr: Expr::Lit(Value::Text(text.value.copy(alloc)?)),
            kind: Some(ValueKind::Text),
            at: *at,
        }),
        ExprTree::Param { at, param } => Ok(param_of(names, *at, param, found)),
        ExprTree::Column { at, column } => Ok(column_of(names, grouped, *at, column, found)),
        ExprTree::Unary { at, op, side } => {
            let side = expr_of(alloc, names, grouped, side.get(), found)?;
            check_side(found, sign_kind(*op), &side);
            unary_of(alloc, *at, *op, side)
        }
        ExprTree::Binary {
            at,
            op,
            left,
            right,
        } => {
            let left = expr_of(alloc, names, grouped, left.get(), found)?;
            let right = expr_of(alloc, names, grouped, right.get(), found)?;
            check_sides(found, *op, &left, &right);
            binary_of(alloc, *at, *op, left, right)
        }
    }
}

/// An operator before its side.
fn unary_of(alloc: Global, at: usize, op: UnaryOp, side: TypedExpr) -> Result<TypedExpr, NoMemory>
    ensures { IfOk result (λ typed. (typed.expr ≡ Unary op side.expr) × (typed.kind ≡ Some (sign_kind op)) × (typed.at ≡ at)) }
{
    let side = Boxed::new(alloc, side.expr)?;
    Ok(TypedExpr {
        expr: Expr::Unary { op, side },
        kind: Some(sign_kind(op)),
        at,
    })
}

/// An operator between its sides.
fn binary_of(
    alloc: Global,
    at: usize,
    op: BinaryOp,
    left: TypedExpr,
    right: TypedExpr,
) -> Result<TypedExpr, NoMemory>
    ensures { IfOk result (λ typed. (typed.expr ≡ Binary op left.expr right.expr) × (typed.kind ≡ Some (gives op)) × (typed.at ≡ at)) }
{
    let left = Boxed::new(alloc, left.expr)?;
    let right = Boxed::new(alloc, right.expr)?;
    Ok(TypedExpr {
        expr: Expr::Binary { op, left, right },
        kind: Some(gives(op)),
        at,
    })
}

/// Types an expression that has to be what its context needs.
pub(crate) fn expr_at(
    alloc: Global,
    names: &Names,
    grouped: Option<&Grouped>,
    needs: Needs,
    tree: &ExprTree,
    found: &mut Option<TypeError>,
) -> Result<TypedExpr, NoMemory>
    requires { IsTrue (is_narrow names.now) }
    ensures ok { IfOk result (λ typed. Shows typed (typed_expr names.now (grouping grouped.entry) tree.now)) }
    ensures faults { OnOk result (found.new ≡ least_of found.old (expr_faults names.now (grouping grouped.entry) needs tree.now)) }
{
    let typed = expr_of(alloc, names, grouped, tree, found)?;
    check(
        found,
        fits(needs, typed.kind),
        TypeError::WrongType(typed.at),
    );
    Ok(typed)
}

/// The type of an expression, which its outermost node decides. Takes the time of two hashes at most.
pub fn kind_of_expr(names: &Names, tree: &ExprTree) -> Option<ValueKind>
    requires { IsTrue (is_narrow names.now) }
    ensures { result ≡ (typed_expr names.now None tree.now).kind }
{
    match tree {
        ExprTree::Number { .. } => Some(ValueKind::Int),
        ExprTree::Text { .. } => Some(ValueKind::Text),
        ExprTree::Param { param, .. } => match names.in_params(&param.name) {
            Some(number) => kind_in(names.params(), number),
            None => None,
        },
        ExprTree::Column { column, .. } => match resolve(names, column) {
            Ok(column) => kind_at(names, column),
            Err(_) => None,
        },
        ExprTree::Unary { op, .. } => Some(sign_kind(*op)),
        ExprTree::Binary { op, .. } => Some(gives(*op)),
    }
}
