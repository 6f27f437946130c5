//! Typing of queries.

ghost use Rattle.std.specs.Prelude.{◌≡◌, IsTrue, IfOk, OnOk, map};
ghost use Rattle.std.specs.Option.{option_map, option_copied};
ghost use Rattle.ss_sql_type.specs.Refusals.{least_of};
ghost use Rattle.ss_sql_type.specs.Names.{is_narrow, resolve, column_meant, name_faults, known_kind};
ghost use Rattle.ss_sql_type.specs.Expressions.{grouping};
ghost use Rattle.ss_sql_type.specs.Items.{typed_item, items_faults, typed_groups};
ghost use Rattle.ss_sql_type.specs.Queries.{scope_narrow, query_reach, joined_source, source_id, unknown_faults, column_or_first, typed_join, join_faults, is_aggregated, grouped_columns, count_faults, wanted_columns, columns_shown, limit_of, faults_within, query_faults, typed_within, typed_query};

use crate::first_fault::{check, record_fault};
use crate::grouped::Grouped;
use crate::items::{
    check_item_limit, groups_of, has_aggregate, items_of, nat_of, order_of, test_of,
};
use crate::kinds::{ValueKind, may_compare};
use crate::names::{Names, column_offset, kind_at, resolve, same_name, source_named};
use crate::scope::{Named, Scope, TypeError};
use ss_sql_lex::{ColumnTree, JoinTree, NameTree, NumberTree, QueryTree};
use ss_sql_trees::{ColAt, Joined, Query, SelectItem, SourceId};
use ss_value::{Column, NoMemory, Seq};
use std::alloc::Global;

/// The source behind JOIN, if there is a JOIN and the source is known.
fn joined_source<'a>(sources: &'a [Named], joined: &Option<JoinTree>) -> Option<&'a Named>
    ensures { option_copied result ≡ joined_source sources.now joined.now }
{
    match joined {
        Some(join) => source_named(sources, &join.name.name),
        None => None,
    }
}

/// What the names in a query may refer to. Linear in the sources, in the columns of those that it
/// reads and in the parameters.
pub fn query_names<'a>(
    alloc: Global,
    scope: &'a Scope,
    tree: &QueryTree,
) -> Result<Names<'a>, NoMemory>
    requires { IsTrue (scope_narrow scope.now) }
    ensures ok { IfOk result (λ names. names ≡ query_reach scope.now tree.now) }
    ensures narrow { IsTrue (is_narrow (query_reach scope.now tree.now)) }
{
    let sources = scope.sources.as_slice();
    let first = source_named(sources, &tree.from.name);
    let second = joined_source(sources, &tree.joined);
    Names::new(alloc, first, second, scope.params.as_slice())
}

/// Which source it is. One that is not known has a fault, so that the answer is never seen.
fn source_id(source: Option<&Named>) -> SourceId
    ensures { result ≡ source_id (option_copied source.entry) }
{
    match source {
        Some(source) => source.source,
        None => SourceId::Inserted,
    }
}

/// Finds a name that is not in scope.
pub fn check_known(source: Option<&Named>, at: usize, found: &mut Option<TypeError>)
    ensures { found.new ≡ least_of found.old (unknown_faults (option_copied source.entry) at) }
{
    check(found, source.is_some(), TypeError::UnknownName(at));
}

/// Resolves a column of ON, and gives its type too.
fn column_of_join(
    names: &Names,
    tree: &ColumnTree,
    found: &mut Option<TypeError>,
) -> (ColAt, Option<ValueKind>)
    requires { IsTrue (is_narrow names.now) }
    ensures column { result.0 ≡ column_or_first (column_meant (resolve names.now tree.now)) }
    ensures kind { result.1 ≡ known_kind names.now (resolve names.now tree.now) }
    ensures faults { found.new ≡ least_of found.old (name_faults (resolve names.now tree.now)) }
{
    match resolve(names, tree) {
        Ok(column) => (column, kind_at(names, column)),
        Err(fault) => {
            record_fault(found, fault);
            (
                ColAt {
                    source: 0,
                    column: 0,
                },
                None,
            )
        }
    }
}

/// Types the JOIN of a query, if there is one.
fn join_of(
    names: &Names,
    from: &NameTree,
    joined: &Option<JoinTree>,
    found: &mut Option<TypeError>,
) -> Option<Joined>
    requires { IsTrue (is_narrow names.now) }
    ensures join { result ≡ option_map (typed_join names.now) joined.now }
    ensures faults { found.new ≡ least_of found.old (join_faults names.now from.now joined.now) }
{
    match joined {
        Some(join) => {
            let source = names.second();
            check_known(source, join.name.at, found);
            // A source that is joined with itself would have two columns of each name.
            let other = !same_name(&from.name, &join.name.name);
            check(found, other, TypeError::UnknownName(join.name.at));
            let (left, left_kind) = column_of_join(names, &join.left, found);
            let (right, right_kind) = column_of_join(names, &join.right, found);
            let right_offset = TypeError::WrongType(column_offset(&join.right));
            check(found, may_compare(left_kind, right_kind), right_offset);
            Some(Joined {
                source: source_id(source),
                left,
                right,
            })
        }
        None => None,
    }
}

/// Whether a query has an aggregate item or GROUP BY.
fn is_aggregated(tree: &QueryTree) -> bool
    ensures { result ≡ is_aggregated tree.now }
{
    has_aggregate(tree.items.as_slice()) || 1 <= tree.groups.len()
}

/// Finds another number of items or values than of the columns that they go into.
pub fn check_count(
    columns: Option<&[Column]>,
    count: usize,
    at: usize,
    found: &mut Option<TypeError>,
)
    ensures { found.new ≡ least_of found.old (count_faults (columns_shown columns.entry) count at) }
{
    match columns {
        Some(columns) => check(found, count == columns.len(), TypeError::WrongCount(at)),
        None => {}
    }
}

/// The columns that items or values go into, and none where they go into no columns.
pub fn wanted_columns<'a>(columns: Option<&'a [Column]>) -> &'a [Column]
    ensures { result.now ≡ wanted_columns (columns_shown columns.entry) }
{
    match columns {
        Some(columns) => columns,
        None => &[],
    }
}

/// The number behind LIMIT, if there is one.
fn limit_of(limit: &Option<NumberTree>) -> Option<u64>
    ensures { result ≡ option_map limit_of limit.now }
{
    match limit {
        Some(number) => Some(nat_of(number.value)),
        None => None,
    }
}

/// Types a query whose rows go into these columns. A wrong number of items is reported at the offset `at`.
pub(crate) fn query_of(
    alloc: Global,
    scope: &Scope,
    columns: Option<&[Column]>,
    at: usize,
    tree: &QueryTree,
    found: &mut Option<TypeError>,
) -> Result<Query, NoMemory>
    requires { IsTrue (scope_narrow scope.now) }
    ensures ok { IfOk result (λ query. query ≡ typed_query scope.now tree.now) }
    ensures faults { OnOk result (found.new ≡ least_of found.old (query_faults scope.now (columns_shown columns.entry) at tree.now)) }
{
    let names = query_names(alloc, scope, tree)?;
    let query = query_within(alloc, &names, columns, at, tree, found)?;
    Ok(query)
}

/// Types a query whose rows go into these columns, where `names` says what its names refer to. A function of its own,
/// since a condition needs the names again.
#[tactic(auto, using(crate::proofs::Noted::all_noted_append))]
pub(crate) fn query_within(
    alloc: Global,
    names: &Names,
    columns: Option<&[Column]>,
    at: usize,
    tree: &QueryTree,
    found: &mut Option<TypeError>,
) -> Result<Query, NoMemory>
    requires { IsTrue (is_narrow names.now) }
    ensures ok { IfOk result (λ query. query ≡ typed_within names.now tree.now) }
    ensures faults { OnOk result (found.new ≡ least_of found.old (faults_within names.now (columns_shown columns.entry) at tree.now)) }
{
    // The order is that of the definition `faults_within`. Which fault is reported doesn't depend on it: the least is.
    let from = names.first();
    check_known(from, tree.from.at, found);
    let joined = join_of(names, &tree.from, &tree.joined, found);
    let groups = groups_of(alloc, names, tree.groups.as_slice(), found)?;
    check_count(columns, tree.items.len(), at, found);
    let items = grouped_items(alloc, names, &groups, wanted_columns(columns), tree, found)?;
    check_item_limit(tree.items.as_slice(), found);
    let test = test_of(alloc, names, &tree.test, found)?;
    let order = order_of(alloc, tree.items.len(), tree.order.as_slice(), found)?;
    Ok(Query {
        items,
        from: source_id(from),
        joined,
        test,
        groups,
        order,
        limit: limit_of(&tree.limit),
    })
}

/// Types the items of a query with these grouped columns.
fn grouped_items(
    alloc: Global,
    names: &Names,
    groups: &Seq<ColAt>,
    columns: &[Column],
    tree: &QueryTree,
    found: &mut Option<TypeError>,
) -> Result<Seq<SelectItem>, NoMemory>
    requires narrow { IsTrue (is_narrow names.now) }
    requires groups { groups.now ≡ typed_groups names.now tree.now.groups }
    ensures ok { IfOk result (λ items. items ≡ map (typed_item names.now (grouped_columns names.now tree.now)) tree.now.items) }
    ensures faults { OnOk result (found.new ≡ least_of found.old (items_faults names.now (grouped_columns names.now tree.now) columns.now tree.now.items)) }
{
    let items = tree.items.as_slice();
    if is_aggregated(tree) {
        let grouped = Grouped::new(alloc, groups.as_slice())?;
        items_of(alloc, names, Some(&grouped), columns, items, found)
    } else {
        items_of(alloc, names, None, columns, items, found)
    }
}
