//! The first phase: the rows of FROM, or pairs by JOIN.

ghost use Rattle.std.specs.Prelude.{◌≡◌, ◌++◌, [], ◌∷◌, IfOk, OnOk, Some};
ghost use Rattle.ss_value.specs.Order.{values_equal};
ghost use Rattle.ss_model.specs.Queries.{source_column, join_rows, join_source};
ghost use Rattle.ss_model_computed_sql.specs.Phases.{pairs_of};

use crate::columns::source_column_or;
use crate::queries::singles::{single, singles};
use ss_sql_trees::Joined;
use ss_value::{Copies, NoMemory, Row, Rows, Seq, Value, compare};
use std::alloc::Global;

/// The tuple of copies of two rows.
fn pair(alloc: Global, left: &Row, right: &Row) -> Result<Rows, NoMemory>
    ensures { IfOk result (λ here. here ≡ left.now ∷ right.now ∷ []) }
{
    let mut here = single(alloc, left.duplicate(alloc)?)?;
    let right = right.duplicate(alloc)?;
    here.push(right)?;
    Ok(here)
}

/// Whether the columns that the JOIN compares are equal in a tuple.
fn is_joined(joined: Joined, here: &Rows) -> bool
    ensures { result ≡ values_equal (source_column joined.left here.now) (source_column joined.right here.now) }
{
    let zero = Value::Int(0);
    let left = source_column_or(here, joined.left, &zero);
    let right = source_column_or(here, joined.right, &zero);
    compare(left, right).is_eq()
}

/// Adds the pairs of one row of FROM whose JOIN columns are equal.
fn add_pairs(
    alloc: Global,
    joined: Joined,
    left: &Row,
    inner: &[Row],
    tuples: &mut Seq<Rows>,
) -> Result<(), NoMemory>
    ensures { OnOk result (tuples.new ≡ tuples.old ++ pairs_of joined left.now inner.now) }
{
    for right in inner {
        // Each pair is copied before it is tested, as in the definition, which filters tuples.
        let here = pair(alloc, left, right)?;
        if is_joined(joined, &here) {
            tuples.push(here)?;
        }
    }
    Ok(())
}

/// All pairs whose JOIN columns are equal, by the rows of FROM and then by those of the JOIN's source.
fn pairs(alloc: Global, joined: Joined, outer: &[Row], inner: &[Row]) -> Result<Seq<Rows>, NoMemory>
    ensures { IfOk result (λ tuples. tuples ≡ join_rows outer.now (Some (joined, inner.now))) }
{
    let mut tuples = Seq::new(alloc);
    for left in outer {
        add_pairs(alloc, joined, left, inner, &mut tuples)?;
    }
    Ok(tuples)
}

/// The tuples of a query: the rows of FROM, or their pairs with those of the JOIN's source.
///
/// Linear in the rows of FROM, or in the product of both.
pub fn join_rows(
    alloc: Global,
    outer: &Rows,
    joined: &Option<Joined>,
    inner: &Rows,
) -> Result<Seq<Rows>, NoMemory>
    ensures { IfOk result (λ tuples. tuples ≡ join_rows outer.now (join_source (λ _. inner.now) joined.now)) }
{
    match joined {
        None => singles(alloc, outer.as_slice()),
        Some(joined) => pairs(alloc, *joined, outer.as_slice(), inner.as_slice()),
    }
}
