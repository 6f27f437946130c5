//! The first two phases: the tuples of FROM and JOIN that pass WHERE.
//!
//! One walk over the source of FROM. For each of its rows the partners in the JOIN are looked up, and the walk ends once
//! enough tuples are found.

ghost use Rattle.std.specs.Prelude.{◌≡◌, ◌↔◌, [], ◌∷◌, IsTrue, IfOk, IfErr, OnOk, Ok};
ghost use Rattle.ss_model.specs.Queries.{join_source};
ghost use Rattle.ss_model.specs.Stops.{StopsAs};
ghost use Rattle.ss_rows.specs.Sources.{rows_in};
ghost use Rattle.ss_rows.specs.Tuples.{tuple_of, tuples_of};
ghost use Rattle.ss_rows.specs.Enough.{Reaches, FirstOf};
ghost use Rattle.ss_rows.specs.Adding.{onto, CanEndEarly, IndexesJoin};
ghost use Rattle.ss_rows.specs.Meaning.{passing};
ghost use Rattle.ss_rows.specs.Wanted.{those_wanted, pairs_of, EnoughAdded, RowAdded, RowStops};

use crate::expressions::passes;
use crate::join::{JoinIndex, Truths};
use crate::rows_of::RowsOf;
use crate::tuple::Tuple;
use crate::walk::row_at;
use ss_model::RunError;
use ss_sql_trees::{Expr, Joined, Query};
use ss_value::{NoMemory, Row};
use std::alloc::Global;

/// Which tuples are wanted.
#[derive(Clone, Copy, Drop)]
struct Wanted<'a> {
    /// The test of WHERE, if there is one.
    test: &'a Option<Expr>,
    /// The parameters.
    params: &'a Row,
    /// How many are enough, where not all are wanted.
    enough: Option<u64>,
}

/// Whether so many tuples are enough. Constant.
fn is_enough(enough: Option<u64>, count: usize) -> bool
    ensures { IsTrue result ↔ Reaches enough count }
{
    match enough {
        Some(enough) => enough <= count as u64,
        None => false,
    }
}

/// Adds a tuple where it passes WHERE. Aborts as the test does.
fn add_tuple<'a>(
    alloc: Global,
    wanted: Wanted<'a>,
    here: Tuple<'a>,
    found: &mut Vec<Tuple<'a>>,
) -> Result<(), RunError>
    ensures ok { OnOk result (onto (tuples_of found.old.items) (those_wanted wanted.entry (tuple_of here.entry ∷ [])) ≡ Ok (tuples_of found.new.items)) }
    ensures stops { IfErr result (StopsAs (those_wanted wanted.entry (tuple_of here.entry ∷ []))) }
{
    if passes(alloc, wanted.test, here, wanted.params)? {
        found.push(here)?;
    }
    Ok(())
}

/// Adds the pairs of an outer row that pass WHERE, until enough tuples are found. Aborts as the first test that aborts.
fn add_pairs<'a>(
    alloc: Global,
    wanted: Wanted<'a>,
    outer: &'a Row,
    partners: &[&'a Row],
    found: &mut Vec<Tuple<'a>>,
) -> Result<(), RunError>
    requires { CanEndEarly wanted.enough wanted.test.now }
    ensures ok { OnOk result (EnoughAdded wanted.entry (pairs_of outer.now partners.now) found.old.items found.new.items) }
    ensures stops { IfErr result (StopsAs (those_wanted wanted.entry (pairs_of outer.now partners.now))) }
{
    for inner in partners {
        add_tuple(alloc, wanted, Tuple::Pair(outer, *inner), found)?;
        if is_enough(wanted.enough, found.len()) {
            return Ok(());
        }
    }
    Ok(())
}

/// Adds the tuples of an outer row that pass WHERE, until enough tuples are found. Aborts as the first test that aborts.
fn add_row<'a>(
    alloc: Global,
    wanted: Wanted<'a>,
    index: &Option<JoinIndex<'a>>,
    outer: &'a Row,
    found: &mut Vec<Tuple<'a>>,
) -> Result<(), RunError>
    requires { CanEndEarly wanted.enough wanted.test.now }
    ensures ok { OnOk result (RowAdded wanted.entry index.now outer.now found.old.items found.new.items) }
    ensures stops { IfErr result (RowStops wanted.entry index.now outer.now) }
{
    match index {
        None => add_tuple(alloc, wanted, Tuple::Single(outer), found),
        Some(index) => add_pairs(alloc, wanted, outer, index.partners(outer), found),
    }
}

/// The index of a JOIN, and None where there is no JOIN.
fn join_index<'a, X: RowsOf>(
    alloc: Global,
    from: &'a X,
    joined: Option<Joined>,
    truths: &'a Truths,
) -> Result<Option<JoinIndex<'a>>, NoMemory>
    ensures { IfOk result (IndexesJoin (join_source (λ s. rows_in (X.positioned from.now s)) joined)) }
{
    match joined {
        None => Ok(None),
        Some(joined) => {
            let index = JoinIndex::new(alloc, from, joined, truths)?;
            Ok(Some(index))
        }
    }
}

/// The tuples of FROM and JOIN that pass WHERE, in order, or as many of the first ones as are enough.
///
/// Aborts as the first test that aborts; where not all tuples are wanted, WHERE has to be one that never aborts. Costs a
/// test for each row of FROM, or for each of its partners, up to the end of the walk, and for a JOIN one walk over its
/// source and a search for each row of FROM. Takes memory for the index of a JOIN, and a reference or two for each tuple.
pub fn passing_tuples<'a, X: RowsOf>(
    alloc: Global,
    from: &'a X,
    query: &'a Query,
    params: &'a Row,
    truths: &'a Truths,
    enough: Option<u64>,
) -> Result<Vec<Tuple<'a>>, RunError>
    requires { CanEndEarly enough query.now.test }
    ensures ok { IfOk result (λ found. FirstOf enough (passing (λ s. rows_in (X.positioned from.now s)) params.now query.now) (tuples_of found.items)) }
    ensures stops { IfErr result (λ stop. StopsAs (passing (λ s. rows_in (X.positioned from.now s)) params.now query.now) stop) }
{
    let wanted = Wanted {
        test: &query.test,
        params,
        enough,
    };
    let index = join_index(alloc, from, query.joined, truths)?;
    let mut found = Vec::new(alloc);
    let (mut at, mut hint) = from.first(&query.from);
    while let Some(position) = at {
        let outer = row_at(from, &query.from, position);
        add_row(alloc, wanted, &index, outer, &mut found)?;
        if is_enough(enough, found.len()) {
            return Ok(found);
        }
        let (next, near) = from.after(&query.from, position, hint);
        at = next;
        hint = near;
    }
    Ok(found)
}
