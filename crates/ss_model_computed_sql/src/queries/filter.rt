//! The second phase: the tuples that pass WHERE.

ghost use Rattle.std.specs.Prelude.{◌≡◌, IfOk, IfErr, Ok};
ghost use Rattle.ss_model.specs.Results.{try_filter};
ghost use Rattle.ss_model.specs.Queries.{where_passes};
ghost use Rattle.ss_model.specs.Stops.{StopsAs};

use crate::expressions::holds;
use ss_model::RunError;
use ss_sql_trees::Expr;
use ss_value::{Copies, NoMemory, Row, Rows, Seq};
use std::alloc::Global;

/// Whether a tuple passes WHERE: where the test holds, and always where there is none.
pub fn where_passes(
    alloc: Global,
    test: &Option<Expr>,
    here: &Rows,
    params: &Row,
) -> Result<bool, RunError>
    ensures ok { IfOk result (λ b. where_passes params.now test.now here.now ≡ Ok b) }
    ensures stops { IfErr result (λ stop. StopsAs (where_passes params.now test.now here.now) stop) }
{
    match test {
        None => Ok(true),
        Some(test) => holds(alloc, test, here, params),
    }
}

/// Copies of the tuples that pass WHERE, in order. Aborts as the first test that does.
pub fn passing_tuples(
    alloc: Global,
    test: &Option<Expr>,
    tuples: &[Rows],
    params: &Row,
) -> Result<Seq<Rows>, RunError>
    ensures ok { IfOk result (λ found. try_filter (where_passes params.now test.now) tuples.now ≡ Ok found) }
    ensures stops { IfErr result (λ stop. StopsAs (try_filter (where_passes params.now test.now) tuples.now) stop) }
{
    let mut found = Seq::new(alloc);
    for here in tuples {
        if where_passes(alloc, test, here, params)? {
            let here = here.duplicate(alloc)?;
            found.push(here)?;
        }
    }
    Ok(found)
}
