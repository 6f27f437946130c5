//! The benchmark Voter with Leaderboard: its catalogue and the script of a show, in place of an input.

ghost use Rattle.std.specs.Prelude.{◌≡◌, ◌≤◌, IfOk};
ghost use Rattle.ss_engine.specs.Clients.{AllFit};
ghost use Rattle.ss_recover.specs.Recovering.{IsOwnCatalog};
ghost use Rattle.ss_voter.specs.VoterCatalog.{IsVoter};
ghost use Rattle.ss_top.specs.Shows.{show_requests};

use serde_json::Value;
use ss_model::Catalog;
use ss_nest::read_nested;
use ss_refusals::ParsedInput;
use ss_value::NoMemory;
use ss_voter::{voter_catalog, votes};
use ss_words::Show;
use std::alloc::Global;

/// The benchmark's catalogue. Linear in its text.
///
/// It is read from its text in each call, instead of being written down as a value, because which numbers its names
/// have is a law of reading (`voter_has_numbers`), and a second spelling could differ.
fn read_voter(alloc: Global) -> Result<Catalog, NoMemory>
    ensures voter { IfOk result IsVoter }
    ensures own { IfOk result IsOwnCatalog }
{
    let Ok(value) = Value::from_str(alloc, voter_catalog()) else {
        return Err(NoMemory);
    };
    // Its text is accepted, as the cases show, so that there is no other refusal.
    read_nested(alloc, value).map_err(|_| NoMemory)
}

/// The catalogue and the requests of a show. Linear in its votes.
pub(crate) fn show_input(alloc: Global, show: &Show) -> Result<ParsedInput, NoMemory>
    requires few { show.now.votes ≤ 200000 }
    requires some_client { 1 ≤ show.now.clients }
    requires few_clients { show.now.clients ≤ 8 }
    ensures voter { IfOk result (λ p. IsVoter p.catalog) }
    ensures own { IfOk result (λ p. IsOwnCatalog p.catalog) }
    ensures requests { IfOk result (λ p. p.requests ≡ show_requests show.now) }
    ensures fit { IfOk result (λ p. AllFit p.catalog p.requests) }
{
    let catalog = read_voter(alloc)?;
    let requests = votes(alloc, &catalog, show.seed, show.votes, show.clients)?;
    Ok(ParsedInput { catalog, requests })
}
