//! A source, a sink and a disk that fail, one call of a run after another, and sinks that are full.

use super::scripts::{ROOM, SCRIPTS, Script, is_prefix, recover_as, run_script};
use super::{ACCOUNTS, Ended, empty_disk, one, run_between, run_from, with_requests};
use ss_disk::{Disk, MemoryDisk};
use ss_engine::NoGate;
use ss_lines::{FailingSink, FailingSource, MemorySource};
use ss_top::Status;
use ss_value::{NoMemory, Seq};
use std::alloc::{AllocError, Global};
use std::sync::Wait;
use std::test::Fail;
use std::thread::Threads;

/// How a run of a script ends whose source fails in these calls, and how many calls there were.
fn run_pulling<R: Threads + Wait + Sync>(
    rt: &R,
    alloc: Global,
    script: &Script,
    fails: Seq<u64>,
) -> Result<(Ended, u64), NoMemory> {
    let input = with_requests(alloc, script.catalog, script.requests)?;
    let mut source = FailingSource::new(Seq::from_vec(input), fails);
    let ended = run_from(rt, alloc, &script.words, &mut source, ROOM, NoGate)?;
    Ok((ended, source.calls()))
}

#[test]
fn a_source_that_fails_in_each_call(rt: HostRuntime) -> Result<(), Fail> {
    for script in &SCRIPTS {
        let (whole, calls) = run_pulling(&rt, rt.alloc(), script, Seq::new(rt.alloc()))?;
        assert!(rt; whole.ends(Status::Done, script.last) && calls > 1);
        for call in 0..calls {
            let (ended, _) = run_pulling(&rt, rt.alloc(), script, one(rt.alloc(), call)?)?;
            assert!(rt; ended.is(Status::ReadFault, "[\"read_fault\"]\n"));
        }
    }
    Ok(())
}

/// How a run of a script ends whose sink fails in these calls, with the sink.
fn run_pushing<R: Threads + Wait + Sync>(
    rt: &R,
    alloc: Global,
    script: &Script,
    fails: Seq<u64>,
) -> Result<(Status, FailingSink), NoMemory> {
    let input = with_requests(alloc, script.catalog, script.requests)?;
    let mut source = MemorySource::new(Seq::from_vec(input));
    let mut sink = FailingSink::new(alloc, ROOM, fails)?;
    let status = run_between(rt, alloc, &script.words, &mut source, &mut sink, NoGate)?;
    Ok((status, sink))
}

#[test]
fn a_sink_that_fails_in_each_call(rt: HostRuntime) -> Result<(), Fail> {
    for script in &SCRIPTS {
        let (status, whole) = run_pushing(&rt, rt.alloc(), script, Seq::new(rt.alloc()))?;
        assert!(rt; status == Status::Done && whole.calls() > 0);
        for call in 0..whole.calls() {
            let (status, sink) = run_pushing(&rt, rt.alloc(), script, one(rt.alloc(), call)?)?;
            assert!(rt; status == Status::WriteFault);
            assert!(rt; whole.as_bytes().starts_with(sink.as_bytes()));
        }
    }
    Ok(())
}

/// How many calls of the disk open the store of a script: a run without requests has no others.
pub(super) fn opening_calls<R: Threads + Wait + Sync>(
    rt: &R,
    alloc: Global,
    script: &Script,
) -> Result<u64, NoMemory> {
    let left = run_script(rt, alloc, &script.without_requests(), empty_disk(alloc))?;
    Ok(left.disk.calls())
}

/// A line of a report that was stopped by the disk, in two parts, as an audit may read it: of a request that came too late it knows
/// only that there was no memory, and in place of where it stopped the tables have to stand.
fn audited_line<'x>(script: &Script, line: &'x str) -> (&'x str, &'static str) {
    if let Some((front, _)) = line.split_once("\"halted\",") {
        return (front, "\"no_memory\"]\n");
    }
    if line.starts_with("[\"stopped\",5,") {
        return ("", script.empty);
    }
    (line, "\n")
}

/// A script, and behind it a report that was stopped, to be audited as one without rows.
fn audited_input(alloc: Global, script: &Script, report: &str) -> Result<Vec<u8>, AllocError> {
    let mut input = with_requests(alloc, script.catalog, script.requests)?;
    for line in report.split('\n') {
        let (front, end) = audited_line(script, line);
        input.extend_from_slice(front.as_bytes())?;
        input.extend_from_slice(end.as_bytes())?;
    }
    Ok(input)
}

/// Whether the list of a report replays, with its answers: then an audit looks at the tables, and at what was pending, which
/// stand behind the list, and which a report lacks that a fault of the disk has stopped.
pub(super) fn replays<R: Threads + Wait + Sync>(
    rt: &R,
    alloc: Global,
    script: &Script,
    report: &str,
) -> Result<bool, NoMemory> {
    let input = audited_input(alloc, script, report)?;
    let mut source = MemorySource::new(Seq::from_vec(input));
    let verdict = run_from(rt, alloc, &["audit"], &mut source, 64, NoGate)?;
    let text = verdict.text();
    Ok(
        text.starts_with("[\"audit\",\"yes\",")
            || text.starts_with("[\"audit\",\"no\",4,")
            || text.starts_with("[\"audit\",\"no\",5,"),
    )
}

/// Whether a run whose disk fails in a call ends with that, with a report of what ran where the store was open, and leaves a
/// prefix of that list; nothing where it makes no such call. How many it makes depends on which entries share a flush.
fn stops_at<R: Threads + Wait + Sync>(
    rt: &R,
    alloc: Global,
    script: &Script,
    opening: u64,
    call: u64,
) -> Result<Option<bool>, NoMemory> {
    let failing = MemoryDisk::new(alloc, one(alloc, call)?);
    let (ended, disk) = run_script(rt, alloc, script, failing)?.into_parts();
    if disk.faults() == 0 {
        return Ok(None);
    }
    let is_told = if call < opening {
        ended.is(Status::Disk, "[\"disk_fault\"]\n")
    } else {
        ended.status == Status::Disk && replays(rt, alloc, script, ended.text())?
    };
    let recovered = recover_as(rt, alloc, script, disk)?;
    Ok(Some(is_told && is_prefix(ended.text(), &recovered.ended)))
}

/// The first call of the disk whose failure does not end a run of a script as it has to, up to the first one that it does not make.
fn first_wrong<R: Threads + Wait + Sync>(
    rt: &R,
    alloc: Global,
    script: &Script,
) -> Result<Option<u64>, NoMemory> {
    let whole = run_script(rt, alloc, script, empty_disk(alloc))?;
    let opening = opening_calls(rt, alloc, script)?;
    if !whole.ended.ends(Status::Done, script.last) {
        return Ok(Some(0));
    }
    for call in 0..u64::from(u16::MAX) {
        match stops_at(rt, alloc, script, opening, call)? {
            Some(true) => {}
            Some(false) => return Ok(Some(call)),
            None if opening < call => return Ok(None),
            None => return Ok(Some(call)),
        }
    }
    Ok(None)
}

#[test]
fn a_disk_that_fails_in_each_call(rt: HostRuntime) -> Result<(), Fail> {
    for (number, script) in SCRIPTS.iter().enumerate() {
        let wrong = first_wrong(&rt, rt.alloc(), script)?;
        assert!(rt; wrong.is_none(), "script {number}: {wrong:?}");
    }
    Ok(())
}

/// Runs the command `run` on an input, with a sink that has room for this many bytes.
fn run_within<R: Threads + Wait + Sync>(
    rt: &R,
    alloc: Global,
    input: &str,
    room: usize,
) -> Result<Ended, NoMemory> {
    let input = Vec::from_slice(alloc, input.as_bytes())?;
    let mut source = MemorySource::new(Seq::from_vec(input));
    run_from(rt, alloc, &["run"], &mut source, room, NoGate)
}

#[test]
fn sinks_that_are_full(rt: HostRuntime) -> Result<(), Fail> {
    let whole = "[\"table\",\"acct\",0]\n[\"done\",0]\n";
    for room in 0..whole.len() {
        let ended = run_within(&rt, rt.alloc(), ACCOUNTS, room)?;
        assert!(rt; ended.status == Status::WriteFault);
        assert!(rt; whole.as_bytes().starts_with(ended.written()));
        assert!(rt; ended.written().len() == room);
    }
    let ended = run_within(&rt, rt.alloc(), "{", 3)?;
    assert!(rt; ended.is(Status::Input, "[\"i"));
    Ok(())
}
