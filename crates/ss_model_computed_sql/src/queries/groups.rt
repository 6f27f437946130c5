//! The third phase: groups, in order of first appearance.

ghost use Rattle.std.specs.Prelude.{◌≡◌, ◌++◌, [], ◌∷◌, map, fold, position, IfOk, OnOk};
ghost use Rattle.std.specs.Ordering.{eq_by_cmp};
ghost use Rattle.ss_value.specs.Order.{row_cmp};
ghost use Rattle.ss_model.specs.Queries.{source_column, add_to_group, group_rows, query_groups};

use crate::columns::source_column;
use crate::queries::singles::{single, singles};
use ss_sql_trees::ColAt;
use ss_value::{Copies, NoMemory, Row, Rows, Seq, compare_rows};
use std::alloc::Global;

/// A group: its key, and its tuples in order.
type Group = (Row, Seq<Rows>);

/// The values of these columns in a tuple.
fn group_key(alloc: Global, columns: &[ColAt], here: &Rows) -> Result<Row, NoMemory>
    ensures { IfOk result (λ key. key ≡ map (λ c. source_column c here.now) columns.now) }
{
    let mut key = Seq::new(alloc);
    for column in columns {
        let value = source_column(alloc, here, *column)?;
        key.push(value)?;
    }
    Ok(key)
}

/// The index of the group of this key, and None where there is none.
fn group_position(groups: &[Group], key: &Row) -> Option<usize>
    ensures { result ≡ position (λ g. eq_by_cmp row_cmp key.now g.0) groups.now }
{
    groups.iter().position(|group| compare_rows(key.as_slice(), group.0.as_slice()).is_eq())
}

/// Adds a tuple to a group.
fn add_member(group: &mut Group, here: Rows) -> Result<(), NoMemory>
    ensures { OnOk result (group.new ≡ (group.old.0, group.old.1 ++ here ∷ [])) }
{
    group.1.push(here)?;
    Ok(())
}

/// Adds a tuple to the group of its key, or as a new group behind all others.
fn add_to_group(
    alloc: Global,
    groups: &mut Seq<Group>,
    key: Row,
    here: Rows,
) -> Result<(), NoMemory>
    ensures { OnOk result (groups.new ≡ add_to_group key here groups.old) }
{
    match group_position(groups.as_slice(), &key) {
        Some(position) => match groups.get_mut(position) {
            Some(group) => add_member(group, here),
            // The position was just found in this list.
            None => unreachable!(),
        },
        None => {
            let members = single(alloc, here)?;
            groups.push((key, members))?;
            Ok(())
        }
    }
}

/// The tuples in groups by the values of these columns, with the keys: linear in the product of tuples and groups.
fn keyed_groups(alloc: Global, columns: &[ColAt], found: &[Rows]) -> Result<Seq<Group>, NoMemory>
    ensures { IfOk result (λ groups. groups ≡ fold (λ gs here. add_to_group (map (λ c. source_column c here) columns.now) here gs) [] found.now) }
{
    let mut groups = Seq::new(alloc);
    for here in found {
        let key = group_key(alloc, columns, here)?;
        add_to_group(alloc, &mut groups, key, here.duplicate(alloc)?)?;
    }
    Ok(groups)
}

/// Copies of the tuples of each group, without the keys.
fn members(alloc: Global, groups: &[Group]) -> Result<Seq<Seq<Rows>>, NoMemory>
    ensures { IfOk result (λ members. members ≡ map (λ g. g.1) groups.now) }
{
    let mut members = Seq::new(alloc);
    for group in groups {
        let tuples = group.1.duplicate(alloc)?;
        members.push(tuples)?;
    }
    Ok(members)
}

/// The tuples in groups by these columns, and all of them as one group where no column is listed.
fn group_rows(
    alloc: Global,
    columns: &[ColAt],
    found: &Seq<Rows>,
) -> Result<Seq<Seq<Rows>>, NoMemory>
    ensures { IfOk result (λ groups. groups ≡ group_rows columns.now found.now) }
{
    if columns.is_empty() {
        return single(alloc, found.duplicate(alloc)?);
    }
    let groups = keyed_groups(alloc, columns, found.as_slice())?;
    members(alloc, groups.as_slice())
}

/// The groups of a query: by its columns where it is aggregated, and else each tuple by itself.
///
/// Linear in the product of tuples and groups, since each tuple is sought among all groups.
pub fn query_groups(
    alloc: Global,
    aggregated: bool,
    columns: &[ColAt],
    found: &Seq<Rows>,
) -> Result<Seq<Seq<Rows>>, NoMemory>
    ensures { IfOk result (λ groups. groups ≡ query_groups aggregated columns.now found.now) }
{
    if aggregated {
        group_rows(alloc, columns, found)
    } else {
        singles(alloc, found.as_slice())
    }
}
