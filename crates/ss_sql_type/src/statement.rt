//! Typing of statements and conditions.

ghost use Rattle.std.specs.Prelude.{◌≡◌, ℕ, ◌≤◌, ◌++◌, [], IsTrue, IfOk, OnOk, None, map, length};
ghost use Rattle.std.specs.Option.{option_map, option_copied};
ghost use Rattle.ss_sql_type.specs.Refusals.{least_of};
ghost use Rattle.ss_sql_type.specs.Names.{is_narrow, kind_in};
ghost use Rattle.ss_sql_type.specs.Expressions.{typed_expr};
ghost use Rattle.ss_sql_type.specs.Items.{typed_value, test_faults};
ghost use Rattle.ss_sql_type.specs.Queries.{scope_narrow, query_reach, columns_shown, unknown_faults, query_faults, typed_query};
ghost use Rattle.ss_sql_type.specs.Statements.{target_of, table_of, insert_target, table_named, target_or_first, table_or_first, columns_in, key_of, bare, of_table, has, column_faults, set_needs, kind_needs, with_column, set_column, set_faults, sets_faults, typed_set, update_faults, delete_faults, typed_update, typed_delete, insert_faults, insert_query_faults, statement_faults, typed_statement, first_kind, right_faults, condition_faults, typed_condition};

use crate::expr::{expr_at, expr_of};
use crate::first_fault::{check, record_fault};
use crate::items::{item_kind, test_of, values_of};
use crate::kinds::{Needs, ValueKind, may_compare};
use crate::names::{Names, columns_of, kind_in, same_name};
use crate::query::{check_count, check_known, query_names, query_of, query_within, wanted_columns};
use crate::scope::{Named, Scope, TypeError};
use indexmap::IndexSet;
use ss_sql_lex::{ConditionTree, ExprTree, ItemTree, NameTree, QueryTree, SetTree, StatementTree};
use ss_sql_trees::{Condition, Expr, Query, SetTo, SourceId, Statement, Target};
use ss_value::{Column, Name, NoMemory, Seq};
use std::alloc::Global;

/// The target that a source is, if rows can go into it.
fn target_of(source: SourceId) -> Option<Target>
    ensures { result ≡ target_of source }
{
    match source {
        SourceId::Table(table) => Some(Target::Table(table)),
        SourceId::Window(window) => Some(Target::Window(window)),
        SourceId::Batch(_) => None,
        SourceId::Inserted => None,
    }
}

/// The position of a table, if the source is one.
fn table_of(source: SourceId) -> Option<u16>
    ensures { result ≡ table_of source }
{
    match source {
        SourceId::Table(table) => Some(table),
        _ => None,
    }
}

/// The table or window with a name. Linear in the targets.
fn insert_target<'a>(scope: &'a Scope, name: &Name) -> Option<&'a Named>
    ensures { option_copied result ≡ insert_target scope.now name.now }
{
    scope.targets.as_slice().iter().find(|named| same_name(&named.name, name)
        && target_of(named.source).is_some())
}

/// The table with a name. Linear in the targets.
fn table_named<'a>(scope: &'a Scope, name: &Name) -> Option<&'a Named>
    ensures { option_copied result ≡ table_named scope.now name.now }
{
    scope.targets.as_slice().iter().find(|named| same_name(&named.name, name)
        && table_of(named.source).is_some())
}

/// Which target it is, and the first table where it is not known, which is a fault.
fn target_or_first(given: Option<&Named>) -> Target
    ensures { result ≡ target_or_first (option_copied given.entry) }
{
    match given {
        Some(named) => target_of(named.source).unwrap_or(Target::Table(0)),
        None => Target::Table(0),
    }
}

/// Which table it is, and the first where it is not known, which is a fault.
fn table_or_first(given: Option<&Named>) -> u16
    ensures { result ≡ table_or_first (option_copied given.entry) }
{
    match given {
        Some(named) => table_of(named.source).unwrap_or(0),
        None => 0,
    }
}

/// The columns of a target, if it is known.
fn columns_in<'a>(given: Option<&'a Named>) -> Option<&'a [Column]>
    ensures { columns_shown result ≡ columns_in (option_copied given.entry) }
{
    match given {
        Some(named) => Some(named.schema.as_slice()),
        None => None,
    }
}

/// The key columns of a table, and none where it is not known.
fn key_of<'a>(given: Option<&'a Named>) -> &'a [u8]
    ensures { result.now ≡ key_of (option_copied given.entry) }
{
    match given {
        Some(named) => named.key.as_slice(),
        None => &[],
    }
}

/// Whether a column is one of these.
fn has(columns: &[u8], column: u8) -> bool
    ensures { result ≡ has columns.now column }
{
    columns.iter().any(|c| *c == column)
}

/// Whether a column was set before. Takes the time of a hash. A function of its own, since the proof of `check_column`
/// needs this contract.
fn was_set(earlier: &IndexSet<u8>, column: u8) -> bool
    ensures { result ≡ has earlier.now.keys column }
{
    earlier.contains(&column)
}

/// Finds what is wrong with a column that is set. Linear in the key.
fn check_column(
    key: &[u8],
    earlier: &IndexSet<u8>,
    at: usize,
    column: Option<u8>,
    found: &mut Option<TypeError>,
)
    ensures { found.new ≡ least_of found.old (column_faults key.now earlier.now.keys at column) }
{
    match column {
        Some(column) => {
            check(found, !has(key, column), TypeError::KeyIsSet(at));
            check(found, !was_set(earlier, column), TypeError::WrongCount(at));
        }
        None => record_fault(found, TypeError::UnknownName(at)),
    }
}

/// What the value has to be to which a column is set.
fn set_needs(columns: &[Column], column: Option<u8>) -> Needs
    ensures { result ≡ set_needs columns.now column }
{
    match column {
        Some(column) => match kind_in(columns, column) {
            Some(kind) => Needs::Only(kind),
            None => Needs::Value,
        },
        None => Needs::Value,
    }
}

/// Adds a column to those that were set, if it is known.
fn add_column(earlier: &mut IndexSet<u8>, column: Option<u8>) -> Result<(), NoMemory>
    ensures { OnOk result ((c : ℕ) → has earlier.new.keys c ≡ has (with_column earlier.old.keys column) c) }
{
    match column {
        Some(column) => {
            earlier.insert(column)?;
            Ok(())
        }
        None => Ok(()),
    }
}

/// The position of the column that is set, if it is known.
fn set_column(names: &Names, set: &SetTree) -> Option<u8>
    requires { IsTrue (is_narrow names.now) }
    ensures { result ≡ set_column names.now set.now }
{
    names.in_first(&set.column.name)
}

/// Types one SET: `earlier` are the columns set before.
fn set_of(
    alloc: Global,
    names: &Names,
    key: &[u8],
    earlier: &IndexSet<u8>,
    set: &SetTree,
    found: &mut Option<TypeError>,
) -> Result<SetTo, NoMemory>
    requires { IsTrue (is_narrow names.now) }
    ensures ok { IfOk result (λ typed. typed ≡ typed_set names.now set.now) }
    ensures faults { OnOk result (found.new ≡ least_of found.old (set_faults names.now key.now earlier.now.keys set.now)) }
{
    let column = set_column(names, set);
    check_column(key, earlier, set.column.at, column, found);
    let needs = set_needs(columns_of(names.first()), column);
    let typed = expr_at(alloc, names, None, needs, &set.value, found)?;
    Ok(SetTo {
        column: column.unwrap_or(0),
        value: typed.expr,
    })
}

/// Types all SETs of an UPDATE, each in time linear in the key and in its value.
fn sets_of(
    alloc: Global,
    names: &Names,
    key: &[u8],
    sets: &[SetTree],
    found: &mut Option<TypeError>,
) -> Result<Seq<SetTo>, NoMemory>
    requires { IsTrue (is_narrow names.now) }
    ensures ok { IfOk result (λ typed. typed ≡ map (typed_set names.now) sets.now) }
    ensures faults { OnOk result (found.new ≡ least_of found.old (sets_faults names.now key.now [] sets.now)) }
{
    let mut typed = Seq::new(alloc);
    let mut earlier = IndexSet::new(alloc);
    for set in sets {
        let to = set_of(alloc, names, key, &earlier, set, found)?;
        add_column(&mut earlier, set_column(names, set))?;
        typed.push(to)?;
    }
    Ok(typed)
}

/// What names may refer to in the values of an INSERT and on the right of a condition: only parameters.
fn bare_names<'a>(alloc: Global, scope: &'a Scope) -> Result<Names<'a>, NoMemory>
    requires { IsTrue (scope_narrow scope.now) }
    ensures ok { IfOk result (λ names. names ≡ bare scope.now) }
    ensures narrow { IsTrue (is_narrow (bare scope.now)) }
{
    Names::new(alloc, None, None, scope.params.as_slice())
}

/// What names may refer to in an UPDATE and a DELETE: columns of the table, and parameters.
fn table_names<'a>(alloc: Global, scope: &'a Scope, name: &Name) -> Result<Names<'a>, NoMemory>
    requires { IsTrue (scope_narrow scope.now) }
    ensures ok { IfOk result (λ names. names ≡ of_table scope.now (table_named scope.now name.now)) }
    ensures narrow { IsTrue (is_narrow (of_table scope.now (table_named scope.now name.now))) }
{
    let table = table_named(scope, name);
    Names::new(alloc, table, None, scope.params.as_slice())
}

/// Types an INSERT of values.
fn insert_values(
    alloc: Global,
    scope: &Scope,
    given: Option<&Named>,
    at: usize,
    values: &[ExprTree],
    found: &mut Option<TypeError>,
) -> Result<Seq<Expr>, NoMemory>
    requires { IsTrue (scope_narrow scope.now) }
    ensures ok { IfOk result (λ typed. typed ≡ map (typed_value (bare scope.now)) values.now) }
    ensures faults { OnOk result (found.new ≡ least_of found.old (insert_faults scope.now (option_copied given.entry) at values.now)) }
{
    let names = bare_names(alloc, scope)?;
    check_known(given, at, found);
    check_count(columns_in(given), values.len(), at, found);
    values_of(
        alloc,
        &names,
        wanted_columns(columns_in(given)),
        values,
        found,
    )
}

/// Types an INSERT of a query's rows.
fn insert_query(
    alloc: Global,
    scope: &Scope,
    given: Option<&Named>,
    at: usize,
    query: &QueryTree,
    found: &mut Option<TypeError>,
) -> Result<Query, NoMemory>
    requires { IsTrue (scope_narrow scope.now) }
    ensures ok { IfOk result (λ typed. typed ≡ typed_query scope.now query.now) }
    ensures faults { OnOk result (found.new ≡ least_of found.old (insert_query_faults scope.now (option_copied given.entry) at query.now)) }
{
    check_known(given, at, found);
    query_of(alloc, scope, columns_in(given), at, query, found)
}

/// Types the SETs and the condition of an UPDATE.
fn update_of(
    alloc: Global,
    scope: &Scope,
    table: &NameTree,
    sets: &[SetTree],
    test: &Option<ExprTree>,
    found: &mut Option<TypeError>,
) -> Result<Statement, NoMemory>
    requires { IsTrue (scope_narrow scope.now) }
    ensures ok { IfOk result (λ typed. typed ≡ typed_update scope.now (table_named scope.now table.now.name) sets.now test.now) }
    ensures faults { OnOk result (found.new ≡ least_of found.old (update_faults scope.now table.now sets.now test.now)) }
{
    let names = table_names(alloc, scope, &table.name)?;
    let given = names.first();
    check_known(given, table.at, found);
    let sets = sets_of(alloc, &names, key_of(given), sets, found)?;
    let test = test_of(alloc, &names, test, found)?;
    Ok(Statement::Update {
        table: table_or_first(given),
        sets,
        test,
    })
}

/// Types the condition of a DELETE.
fn delete_of(
    alloc: Global,
    scope: &Scope,
    table: &NameTree,
    test: &Option<ExprTree>,
    found: &mut Option<TypeError>,
) -> Result<Statement, NoMemory>
    requires { IsTrue (scope_narrow scope.now) }
    ensures ok { IfOk result (λ typed. typed ≡ typed_delete scope.now (table_named scope.now table.now.name) test.now) }
    ensures faults { OnOk result (found.new ≡ least_of found.old (delete_faults scope.now table.now test.now)) }
{
    let names = table_names(alloc, scope, &table.name)?;
    let given = names.first();
    check_known(given, table.at, found);
    let test = test_of(alloc, &names, test, found)?;
    Ok(Statement::Delete {
        table: table_or_first(given),
        test,
    })
}

/// Types a statement.
pub(crate) fn statement_of(
    alloc: Global,
    scope: &Scope,
    tree: &StatementTree,
    found: &mut Option<TypeError>,
) -> Result<Statement, NoMemory>
    requires { IsTrue (scope_narrow scope.now) }
    ensures ok { IfOk result (λ typed. typed ≡ typed_statement scope.now tree.now) }
    ensures faults { OnOk result (found.new ≡ least_of found.old (statement_faults scope.now tree.now)) }
{
    match tree {
        StatementTree::InsertValues { target, values, .. } => {
            let given = insert_target(scope, &target.name);
            let values = insert_values(alloc, scope, given, target.at, values.as_slice(), found)?;
            Ok(Statement::InsertValues {
                target: target_or_first(given),
                values,
            })
        }
        StatementTree::InsertQuery { target, query, .. } => {
            let given = insert_target(scope, &target.name);
            let query = insert_query(alloc, scope, given, target.at, query, found)?;
            Ok(Statement::InsertQuery {
                target: target_or_first(given),
                query,
            })
        }
        StatementTree::Update {
            table,
            sets,
            test,
            ..
        } => update_of(alloc, scope, table, sets.as_slice(), test, found),
        StatementTree::Delete { table, test, .. } => delete_of(alloc, scope, table, test, found),
    }
}

/// The type of a query's first item.
fn first_kind(names: &Names, items: &[ItemTree]) -> Option<ValueKind>
    requires { IsTrue (is_narrow names.now) }
    ensures { result ≡ first_kind names.now items.now }
{
    match items.get(0) {
        Some(item) => item_kind(names, item),
        None => None,
    }
}

/// Types the right side of a condition whose query gives this type.
fn right_of(
    alloc: Global,
    scope: &Scope,
    kind: Option<ValueKind>,
    right: &ExprTree,
    found: &mut Option<TypeError>,
) -> Result<Expr, NoMemory>
    requires { IsTrue (scope_narrow scope.now) }
    ensures ok { IfOk result (λ typed. typed ≡ typed_value (bare scope.now) right.now) }
    ensures faults { OnOk result (found.new ≡ least_of found.old (right_faults kind (typed_expr (bare scope.now) None right.now))) }
{
    let names = bare_names(alloc, scope)?;
    let typed = expr_of(alloc, &names, None, right, found)?;
    check(
        found,
        may_compare(kind, typed.kind),
        TypeError::WrongType(typed.at),
    );
    Ok(typed.expr)
}

/// Types a condition.
pub(crate) fn condition_of(
    alloc: Global,
    scope: &Scope,
    tree: &ConditionTree,
    found: &mut Option<TypeError>,
) -> Result<Condition, NoMemory>
    requires { IsTrue (scope_narrow scope.now) }
    ensures ok { IfOk result (λ typed. typed ≡ typed_condition scope.now tree.now) }
    ensures faults { OnOk result (found.new ≡ least_of found.old (condition_faults scope.now tree.now)) }
{
    let names = query_names(alloc, scope, &tree.query)?;
    // The query's row goes into no columns, so nothing is reported at the offset 0.
    let query = query_within(alloc, &names, None, 0, &tree.query, found)?;
    let one = tree.query.items.len() == 1;
    check(found, one, TypeError::WrongCount(tree.query.at));
    let kind = first_kind(&names, tree.query.items.as_slice());
    let right = right_of(alloc, scope, kind, &tree.right, found)?;
    Ok(Condition {
        query,
        cmp: tree.cmp,
        right,
    })
}
