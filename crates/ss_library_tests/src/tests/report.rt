//! Reports that no case makes: of a stop, and of votes. Their lines are decided by hand.

ghost use Rattle.std.specs.Prelude.{◌≡◌, ◌<◌, IfOk, length};
ghost use Rattle.ss_report.specs.Reported.{HasEndTables};

use ss_model::{
    Answer, Asked, Catalog, Entry, Listed, Outcome, Placement, Reason, Request, TableDef,
};
use ss_report::{End, write_report};
use ss_value::{Seq, Value, name_of};
use std::alloc::Global;
use std::test::Fail;

/// A table, of which these reports have the name alone.
fn table_of(alloc: Global, name: &[u8]) -> Result<TableDef, Fail> {
    Ok(TableDef {
        name: name_of(alloc, name)?,
        schema: Seq::new(alloc),
        key: Seq::new(alloc),
        placement: Placement::Part(0),
        indexes: Seq::new(alloc),
    })
}

/// A catalogue of two tables, the one with the lesser name behind the other.
fn catalog(alloc: Global) -> Result<Catalog, Fail> {
    let stock = table_of(alloc, b"stock")?;
    let accounts = table_of(alloc, b"acct")?;
    Ok(Catalog {
        tables: Seq::from_vec(vec![in alloc; stock, accounts]?),
        streams: Seq::new(alloc),
        windows: Seq::new(alloc),
        triggers: Seq::new(alloc),
        procedures: Seq::new(alloc),
        own_texts: Seq::new(alloc),
        spares: Seq::new(alloc),
        text: Seq::new(alloc),
    })
}

/// A client's call on this line of the input.
fn request_at(alloc: Global, line: u64, client: u8) -> Request {
    let what = Asked::Call {
        procedure: 0,
        args: Seq::new(alloc),
    };
    Request { line, client, what }
}

/// An entry of a call with this outcome.
fn listed_at(alloc: Global, client: u8, index: u64, outcome: Outcome) -> Listed {
    let entry = Entry::Call {
        client,
        index,
        procedure: 0,
        args: Seq::new(alloc),
    };
    Listed { entry, outcome }
}

/// Four requests of two clients, not on lines in a row.
fn requests(alloc: Global) -> Result<Seq<Request>, Fail> {
    let lines = vec![in alloc;
        request_at(alloc, 2, 0),
        request_at(alloc, 3, 1),
        request_at(alloc, 5, 0),
        request_at(alloc, 6, 1),
    ]?;
    Ok(Seq::from_vec(lines))
}

/// One row.
fn done(alloc: Global) -> Result<Outcome, Fail> {
    let row = Seq::from_vec(vec![in alloc; Value::Int(1), Value::Int(-5)]?);
    Ok(Outcome::Done(Seq::from_vec(vec![in alloc; row]?)))
}

/// The second call of client 0 found no memory, and the second one of client 1 has no answer. The first calls are in the
/// list, at this place and the next.
fn answers(alloc: Global, first: u64) -> Result<Seq<Seq<Answer>>, Fail>
    requires { first < 100 }
{
    let listed = Answer::Listed {
        place: first,
        outcome: done(alloc)?,
    };
    let other = Answer::Listed {
        place: first + 1,
        outcome: Outcome::Aborted(Reason::KeyTaken(1)),
    };
    let client_0 = Seq::from_vec(vec![in alloc; listed, Answer::NoMemory]?);
    let client_1 = Seq::from_vec(vec![in alloc; other]?);
    Ok(Seq::from_vec(vec![in alloc; client_0, client_1]?))
}

/// A list of two entries.
fn list(alloc: Global) -> Result<Seq<Listed>, Fail>
    ensures { IfOk result (λ list. length list ≡ 2) }
{
    let done = listed_at(alloc, 0, 0, done(alloc)?);
    let aborted = listed_at(alloc, 1, 0, Outcome::Aborted(Reason::KeyTaken(1)));
    Ok(Seq::from_vec(vec![in alloc; done, aborted]?))
}

/// The report of a run whose first entry has this place, and which ends so.
fn report(alloc: Global, catalog: &Catalog, first: u64, end: &End) -> Result<Seq<u8>, Fail>
    requires first { first < 100 }
    requires tables { HasEndTables catalog.now end.now }
{
    let requests = requests(alloc)?;
    let answers = answers(alloc, first)?;
    let list = list(alloc)?;
    Ok(write_report(alloc, catalog, &requests, &answers, first, &list, end)?)
}

/// Places count on from the first one, and the reply to a request that never ran has the disk's count of faults.
#[test]
fn report_of_a_stop(rt: HostRuntime) -> Result<(), Fail> {
    let catalog = catalog(rt.alloc())?;
    let end = End::Stopped {
        status: 5,
        count: 11,
        faults: 3,
    };
    let bytes = report(rt.alloc(), &catalog, 10, &end);
    // So each is let go by one call, and none where the test may leave.
    drop(catalog);
    drop(end);
    let bytes = bytes?;
    assert_eq!(rt; std::str::from_utf8(bytes.as_slice())?, STOPPED);
    Ok(())
}

/// One line with the number of entries, none of which is a push or a step.
#[test]
fn report_of_votes(rt: HostRuntime) -> Result<(), Fail> {
    let catalog = catalog(rt.alloc())?;
    let end = End::Voter { votes: 4 };
    let bytes = report(rt.alloc(), &catalog, 0, &end);
    drop(catalog);
    drop(end);
    let bytes = bytes?;
    assert_eq!(rt; std::str::from_utf8(bytes.as_slice())?, VOTES);
    Ok(())
}

const VOTES: &str = "[\"voter\",4,0,0,2]\n";

const STOPPED: &str = "[\"reply\",2,10,[\"done\",[[1,-5]]]]\n\
    [\"reply\",3,11,[\"aborted\",\"key_taken\",\"acct\"]]\n\
    [\"reply\",5,\"no_memory\"]\n\
    [\"reply\",6,\"halted\",3]\n\
    [\"call\",10,0,0,[\"done\",[[1,-5]]]]\n\
    [\"call\",11,1,0,[\"aborted\",\"key_taken\",\"acct\"]]\n\
    [\"stopped\",5,11]\n";
