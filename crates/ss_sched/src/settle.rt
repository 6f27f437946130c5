//! The next procedure to run when settling.

ghost use Rattle.std.specs.Prelude.{◌≡◌, ◌<◌, length, IfSome};
ghost use Rattle.ss_model.specs.Accepted.{Accepted};
ghost use Rattle.ss_model.specs.Database.{Database};
ghost use Rattle.ss_model.specs.Settling.{lower_rank, next_settled};
ghost use Rattle.ss_sched.specs.Progress.{HasProgress};
ghost use Rattle.ss_sched.specs.Ranks.{AreRanks};

use crate::rank::Ranks;
use crate::ready::ready;
use ss_model::Catalog;
use ss_stream::Streams;

/// The one of lower rank of the procedure found so far, if any, and the next one; where they tie, the former.
fn lower_rank(catalog: &Catalog, ranks: &Ranks, found: Option<u16>, procedure: u16) -> Option<u16>
    requires accepted { Accepted catalog.now }
    requires ranks { AreRanks catalog.now ranks.now }
    requires procedure { procedure < length catalog.now.procedures }
    requires found { IfSome found (λ p. p < length catalog.now.procedures) }
    ensures { result ≡ lower_rank catalog.now found procedure }
{
    let Some(best) = found else {
        return Some(procedure);
    };
    if ranks.of_procedure(procedure) < ranks.of_procedure(best) {
        Some(procedure)
    } else {
        Some(best)
    }
}

/// The ready procedure of least rank, and of those the one of least number; None exactly where no procedure is ready.
///
/// Costs a look at each input of each procedure. A caller that settles step by step makes the ranks once, before the first.
pub fn next_ranked(
    catalog: &Catalog,
    ranks: &Ranks,
    cursors: &[u64],
    streams: &Streams,
) -> Option<u16>
    requires accepted { Accepted catalog.now }
    requires ranks { AreRanks catalog.now ranks.now }
    requires cursors { length cursors.now ≡ length catalog.now.procedures }
    requires streams { length streams.now.streams ≡ length catalog.now.streams }
    ensures next { (db : Database) → HasProgress db cursors.now streams.now.streams → result ≡ next_settled catalog.now db }
    ensures within { IfSome result (λ q. q < length catalog.now.procedures) }
{
    let mut found = None;
    // By rising number, so that of equal ranks the one of least number is found.
    for number in 0..catalog.procedures.len() {
        let procedure = number as u16;
        if ready(catalog, cursors, streams, procedure) {
            found = lower_rank(catalog, ranks, found, procedure);
        }
    }
    found
}

/// The ready procedure of least rank, and of those the one of least number; None exactly where no procedure is ready.
///
/// The same as [`next_ranked`], for a caller that has no ranks: they are made first, at the cost of `Ranks::of`.
pub fn next_settled(catalog: &Catalog, cursors: &[u64], streams: &Streams) -> Option<u16>
    requires accepted { Accepted catalog.now }
    requires cursors { length cursors.now ≡ length catalog.now.procedures }
    requires streams { length streams.now.streams ≡ length catalog.now.streams }
    ensures next { (db : Database) → HasProgress db cursors.now streams.now.streams → result ≡ next_settled catalog.now db }
    ensures within { IfSome result (λ q. q < length catalog.now.procedures) }
{
    let ranks = Ranks::of(catalog);
    next_ranked(catalog, &ranks, cursors, streams)
}
