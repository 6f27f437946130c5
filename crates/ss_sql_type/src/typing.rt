//! The three calls: a plain tree becomes a typed tree, or its first refusal is reported.

ghost use Rattle.std.specs.Prelude.{◌≡◌, [], IsTrue, IfOk, IfErr, None, Some};
ghost use Rattle.ss_sql_trees.specs.WellTyped.{Schemas, query_typed, statement_typed, condition_typed};
ghost use Rattle.ss_sql_type.specs.Agrees.{Agrees, out_fits};
ghost use Rattle.ss_sql_type.specs.Refusals.{least_of, IsRefusal};
ghost use Rattle.ss_sql_type.specs.Queries.{scope_narrow, columns_shown, query_faults, typed_query};
ghost use Rattle.ss_sql_type.specs.Statements.{statement_faults, typed_statement, condition_faults, typed_condition};

use crate::query::query_of;
use crate::scope::{Scope, TypeError};
use crate::statement::{condition_of, statement_of};
use ss_sql_lex::{ConditionTree, QueryTree, StatementTree};
use ss_sql_trees::{Condition, Query, Statement};
use ss_value::Column;
use std::alloc::Global;

/// The columns of the stream that a query is emitted to, if it is.
fn out_of(scope: &Scope) -> Option<&[Column]>
    ensures { columns_shown result ≡ scope.now.out }
{
    match &scope.out {
        Some(columns) => Some(columns.as_slice()),
        None => None,
    }
}

/// The typed tree, unless a fault was found.
fn answer<T: Drop>(typed: T, found: Option<TypeError>) -> Result<T, TypeError>
    ensures ok { IfOk result (λ t. (t ≡ typed) × (found ≡ None)) }
    ensures refused { IfErr result (λ e. found ≡ Some e) }
{
    match found {
        None => Ok(typed),
        Some(fault) => Err(fault),
    }
}

/// The typed tree of a statement, or its least fault.
///
/// Linear in the tree, the sources and targets, the columns of at most two of them and the parameters,
/// as far as hashes spread the names; each SET takes time linear in its table's key besides. The typed
/// tree takes a heap block for each side of an operator, each list and each text. Hash tables of the
/// columns that may be named are held besides for as long as the call takes. `out` is for queries
/// alone, and isn't read here.
pub fn type_statement(
    alloc: Global,
    scope: &Scope,
    tree: &StatementTree,
) -> Result<Statement, TypeError>
    requires { IsTrue (scope_narrow scope.now) }
    ensures ok { IfOk result (λ typed. (statement_faults scope.now tree.now ≡ []) × (typed ≡ typed_statement scope.now tree.now)) }
    ensures refused { IfErr result (IsRefusal (statement_faults scope.now tree.now)) }
    ensures well_typed { IfOk result (λ typed. (s : Schemas) → Agrees scope.now s → IsTrue (statement_typed s typed)) }
{
    let mut found = None;
    let typed = statement_of(alloc, scope, tree, &mut found)?;
    answer(typed, found)
}

/// The typed tree of a query, or its least fault. Where the scope has `out`, the items have to fit its columns.
///
/// Time and memory are those of `type_statement`, without the targets.
pub fn type_query(alloc: Global, scope: &Scope, tree: &QueryTree) -> Result<Query, TypeError>
    requires { IsTrue (scope_narrow scope.now) }
    ensures ok { IfOk result (λ typed. (query_faults scope.now scope.now.out tree.now.at tree.now ≡ []) × (typed ≡ typed_query scope.now tree.now)) }
    ensures refused { IfErr result (IsRefusal (query_faults scope.now scope.now.out tree.now.at tree.now)) }
    ensures well_typed { IfOk result (λ typed. (s : Schemas) → Agrees scope.now s → IsTrue (query_typed s typed)) }
    ensures fits { IfOk result (λ typed. (s : Schemas) → Agrees scope.now s → IsTrue (out_fits s scope.now.out typed)) }
{
    let mut found = None;
    let typed = query_of(alloc, scope, out_of(scope), tree.at, tree, &mut found)?;
    answer(typed, found)
}

/// The typed tree of a condition, or its least fault.
///
/// Time and memory are those of `type_statement`, without the targets. `out` is for queries alone, and
/// isn't read here.
pub fn type_condition(
    alloc: Global,
    scope: &Scope,
    tree: &ConditionTree,
) -> Result<Condition, TypeError>
    requires { IsTrue (scope_narrow scope.now) }
    ensures ok { IfOk result (λ typed. (condition_faults scope.now tree.now ≡ []) × (typed ≡ typed_condition scope.now tree.now)) }
    ensures refused { IfErr result (IsRefusal (condition_faults scope.now tree.now)) }
    ensures well_typed { IfOk result (λ typed. (s : Schemas) → Agrees scope.now s → IsTrue (condition_typed s typed)) }
{
    let mut found = None;
    let typed = condition_of(alloc, scope, tree, &mut found)?;
    answer(typed, found)
}
