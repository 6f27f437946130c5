//! Which of the procedures that are ready settling runs next: sets and ranks alone. `settling` asks.

ghost use Rattle.std.specs.Prelude.{◌≡◌, ◌<◌, ◌↔◌, IfSome, IfNone, IsTrue, None};
ghost use Rattle.ss_settle.specs.Members.{NoneBelow};
ghost use Rattle.ss_settle.specs.Ranking.{IsFirstRanked, IsSooner, StandsBefore};

use ss_sched::Ranks;
use ss_value::ProcSet;

/// Whether a procedure stands before another in the order of settling, or is the same: by rank, and of equal ranks by number.
fn stands_before(ranks: &Ranks, procedure: u16, other: u16) -> bool
    requires { (procedure < 64) × (other < 64) }
    ensures { IsTrue result ↔ StandsBefore ranks.now procedure other }
{
    let rank = ranks.of_procedure(procedure);
    let other_rank = ranks.of_procedure(other);
    rank < other_rank || (rank == other_rank && procedure <= other)
}

/// Which of a procedure found so far, if any, and a next one stands first in the order of settling.
fn sooner(ranks: &Ranks, found: Option<u16>, next: u16) -> u16
    requires next { next < 64 }
    requires found { IfSome found (λ q. q < 64) }
    ensures { IsSooner ranks.now found next result }
{
    match found {
        Some(best) if stands_before(ranks, best, next) => best,
        _ => next,
    }
}

/// Which of the members of a set and a procedure found so far, if any, stands first in the order of settling; None exactly where
/// there is none of them.
pub(crate) fn first_ranked(ranks: &Ranks, set: ProcSet, found: Option<u16>) -> Option<u16>
    requires { IfSome found (λ q. q < 64) }
    ensures some { IfSome result (IsFirstRanked ranks.now 64 set found) }
    ensures none { IfNone result (NoneBelow 64 set × (found ≡ None)) }
{
    let mut first = found;
    for q in 0..64 {
        if set.has(q) {
            first = Some(sooner(ranks, first, u16::from(q)));
        }
    }
    first
}
