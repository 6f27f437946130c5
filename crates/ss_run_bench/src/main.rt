//! The program `ss_run_bench`: it runs an input on one thread, with no engine and no store, and prints the report.
//!
//! The input comes on standard input: a catalogue on the first line, and then a request on each line. The call that
//! runs it is `ss_run::run_requests`. Words of the command line are not looked at. `bench/engine.py --plain` measures it
//! beside `sstore - run`.
//!
//! The requests of all clients run in the order of the input. With one client the report is to be that of
//! `sstore - run` on one partition, as it is for each input of `examples`; no contract says so. With several clients
//! `sstore` may run their requests in another order, and then the list is another one.
//!
//! - `input`: the catalogue and the requests
#![tactic(auto)]

ghost use Rattle.std.specs.Prelude.{◌≡◌, true};
ghost use Rattle.ss_model.specs.Accepted.{Accepted};
ghost use Rattle.ss_run.specs.RunAnswers.{all_fit};

mod input;

use input::{ParsedInput, read_input};
use ss_lines::ReadSource;
use ss_model::{Catalog, Request};
use ss_report::{End, write_report};
use ss_run::{Session, run_requests};
use ss_value::Seq;
use std::alloc::Global;
use std::io::{self, Write};
use std::process::ExitCode;

/// The most entries that the list may have, as many as that of `sstore`.
const MOST_ENTRIES: usize = 1_000_000;

/// Runs the requests, and makes the report. Refuses a list that is longer than one of `sstore`.
fn report_of(alloc: Global, catalog: &Catalog, requests: &Seq<Request>) -> io::Result<Seq<u8>>
    requires accepted { Accepted catalog.now }
    requires fit { all_fit catalog.now requests.now ≡ true }
{
    let Ok(session) = run_requests(alloc, catalog, requests) else {
        return Err(io::Error::from(io::ErrorKind::OutOfMemory));
    };
    let Session {
        list,
        answers,
        database,
    } = session;
    if list.len() > MOST_ENTRIES {
        return Err(io::Error::other("the list is longer than one of sstore"));
    }
    let end = End::Tables(database);
    match write_report(alloc, catalog, requests, &answers, 0, &list, &end) {
        Ok(report) => Ok(report),
        Err(_) => Err(io::Error::from(io::ErrorKind::OutOfMemory)),
    }
}

/// Reads the input, runs it, and writes the report.
fn run<R: Input + Print + AllocGlobal>(rt: &R) -> io::Result<()> {
    let alloc = rt.alloc();
    let ParsedInput { catalog, requests } = read_input(alloc, &mut ReadSource::new(rt.reader()))?;
    let report = report_of(alloc, &catalog, &requests)?;
    io::writer(rt).write_all(report.as_slice())
}

/// Ends with 0 where the report is written, and with 1 and a line on standard error otherwise.
fn main(rt: HostRuntime) -> ExitCode {
    match run(&rt) {
        Ok(()) => ExitCode::from(0),
        Err(error) => {
            // Where this fails too, only the status is left to say so.
            let _printed = eprintln!(rt; "{error}");
            ExitCode::from(1)
        }
    }
}
