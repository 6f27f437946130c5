//! The requests of the script.

ghost use Rattle.std.specs.Prelude.{◌≡◌, ◌<◌, ◌≤◌, ◌^◌, IfOk, true};
ghost use Rattle.std.specs.List.{list_all};
ghost use Rattle.ss_model.specs.Database.{fits_entry};
ghost use Rattle.ss_model.specs.Report.{asked_entries};
ghost use Rattle.ss_voter.specs.VoterCatalog.{IsVoter};
ghost use Rattle.ss_voter.specs.Script.{add_contestant, begin_show, numbered, request_at, show_requests, vote_made, vote_requests, vote_row};

use crate::generator::{contestant, next_state, phone};
use ss_model::{Asked, Catalog, Request};
use ss_value::{Name, NoMemory, Row, Seq, Text, Value, name_of, text_of};
use std::alloc::Global;

// ---- names with a digit

/// The letter c and a digit.
fn numbered(digit: u8) -> [u8; 2]
    requires { digit < 10 }
    ensures { result ≡ numbered digit }
{
    [b'c', b'0' + digit]
}

fn contestant_name(alloc: Global, contestant: u8) -> Result<Text, NoMemory>
    requires { contestant < 10 }
    ensures { IfOk result (λ name. name ≡ numbered contestant) }
{
    // Two letters are a text, so that there is no other error.
    text_of(alloc, &numbered(contestant)).map_err(|_| NoMemory)
}

fn source_name(alloc: Global, client: u8) -> Result<Name, NoMemory>
    requires { client < 10 }
    ensures { IfOk result (λ name. name ≡ numbered client) }
{
    // A letter and a digit are a name, so that there is no other error.
    name_of(alloc, &numbered(client)).map_err(|_| NoMemory)
}

/// The request of this number in the script, from 0.
fn request_at(number: u64, client: u8, what: Asked) -> Request
    requires { number < 2 ^ 32 }
    ensures { result ≡ request_at number client what }
{
    Request {
        line: number + 2,
        client,
        what,
    }
}

// ---- the show

fn begin_show(alloc: Global) -> Result<Request, NoMemory>
    ensures { IfOk result (λ r. r ≡ begin_show) }
{
    let args = Seq::from_vec(vec![in alloc; Value::Int(500)]?);
    Ok(request_at(0, 0, Asked::Call { procedure: 0, args }))
}

fn add_contestant(alloc: Global, contestant: u8) -> Result<Request, NoMemory>
    requires { contestant < 10 }
    ensures { IfOk result (λ r. r ≡ add_contestant contestant) }
{
    let name = contestant_name(alloc, contestant)?;
    let id = Value::Int(i64::from(contestant));
    let args = Seq::from_vec(vec![in alloc; id, Value::Text(name)]?);
    let what = Asked::Call { procedure: 1, args };
    Ok(request_at(u64::from(contestant), 0, what))
}

/// A show in which a contestant goes after every 500 votes, and its six contestants.
fn show_requests(alloc: Global) -> Result<Seq<Request>, NoMemory>
    ensures { IfOk result (λ requests. requests ≡ show_requests) }
{
    let mut requests = Seq::new(alloc);
    requests.push(begin_show(alloc)?)?;
    for contestant in 1..7 {
        requests.push(add_contestant(alloc, contestant)?)?;
    }
    Ok(requests)
}

// ---- votes

fn vote_row(alloc: Global, count: u64, state: u64) -> Result<Row, NoMemory>
    requires some { 1 ≤ count }
    requires few { count ≤ 200000 }
    ensures { IfOk result (λ row. row ≡ vote_row count state) }
{
    let phone = Value::Int(phone(count, state));
    let contestant = Value::Int(contestant(state));
    let values = vec![in alloc; phone, contestant]?;
    Ok(Seq::from_vec(values))
}

/// The vote of this number, from 0, that a state makes.
fn vote_made(
    alloc: Global,
    count: u64,
    clients: u8,
    number: u64,
    state: u64,
) -> Result<Request, NoMemory>
    requires within { number < count }
    requires few { count ≤ 200000 }
    requires some_client { 1 ≤ clients }
    requires few_clients { clients ≤ 8 }
    ensures { IfOk result (λ r. r ≡ vote_made count clients number state) }
{
    let client = (number % u64::from(clients)) as u8;
    let source = source_name(alloc, client)?;
    let row = vote_row(alloc, count, state)?;
    let rows = Seq::from_vec(vec![in alloc; row]?);
    let what = Asked::Push {
        stream: 0,
        source,
        seq: number / u64::from(clients),
        rows,
    };
    Ok(request_at(7 + number, client, what))
}

/// The script: a show with six contestants, and so many votes of so many clients, made from a seed.
///
/// Client 0 asks for the show and for its contestants, before the votes. The clients vote in turn, each from a source of its
/// own that numbers its votes from 0. A phone may vote twice, and a contestant may be gone, so that some votes are aborted. Lines
/// are counted from 2, as if the catalogue stood on the first.
///
/// The catalogue has to be one that the text of `voter_catalog` is read as. It is there for the contract alone: the requests name
/// procedures and a stream by the numbers that these have in it, and fit them.
///
/// Linear in the votes, in time and memory.
pub fn votes(
    alloc: Global,
    catalog: &Catalog,
    seed: u64,
    count: u64,
    clients: u8,
) -> Result<Seq<Request>, NoMemory>
    requires voter { IsVoter catalog.now }
    requires few { count ≤ 200000 }
    requires some_client { 1 ≤ clients }
    requires few_clients { clients ≤ 8 }
    ensures ok { IfOk result (λ requests. requests ≡ vote_requests seed count clients) }
    ensures fit { IfOk result (λ requests. list_all (fits_entry catalog.now) (asked_entries requests) ≡ true) }
{
    let mut requests = show_requests(alloc)?;
    let mut state = seed;
    for number in 0..count {
        state = next_state(state);
        requests.push(vote_made(alloc, count, clients, number, state)?)?;
    }
    Ok(requests)
}
