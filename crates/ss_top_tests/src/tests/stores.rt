//! Runs that go on from a store, recoveries, also of what a crash leaves in each call of a run, and stores that are damaged.

ghost use Rattle.std.specs.Prelude.{◌<◌};
ghost use Rattle.ss_disk.specs.Calls.{memory_calls};

use super::scripts::{NESTED, ROOM, SCRIPTS, Script, is_prefix, recover, recover_as, run_script};
use super::{ACCOUNTS, DIAMOND, Left, PUTS, Streams, empty_disk, with_requests};
use ss_disk::{Disk, FileNo, MemoryDisk, Torn};
use ss_top::Status;
use ss_value::{Failed, NoMemory};
use std::alloc::Global;
use std::sync::Wait;
use std::test::Fail;
use std::thread::Threads;

/// Runs a catalogue and requests on a disk, with a list of at most `limit` entries.
fn run_on<R: Threads + Wait + Sync>(
    rt: &R,
    alloc: Global,
    catalog: &str,
    requests: &str,
    disk: MemoryDisk,
    limit: u16,
) -> Result<Left, NoMemory> {
    let input = with_requests(alloc, catalog, requests)?;
    let streams = Streams::new(alloc, &["run"], input, ROOM)?;
    Ok(streams.run_on(rt, alloc, disk, limit))
}

/// A byte of a file, which is there.
pub(super) fn byte_at(disk: &mut MemoryDisk, which: FileNo, at: u64) -> Result<u8, Failed> {
    if disk.len(which)? <= at {
        return Err(Failed);
    }
    let mut byte = [0];
    disk.read(which, at, &mut byte)?;
    Ok(byte[0])
}

/// A disk with this byte in a file, or at its end.
fn with_byte(mut disk: MemoryDisk, which: FileNo, at: u64, byte: u8) -> Result<MemoryDisk, Fail> {
    let Ok(length) = disk.len(which) else {
        return Err("no length".into());
    };
    if length < at {
        return Err("no such place".into());
    }
    match disk.write_at(which, at, &[byte]) {
        Ok(()) => Ok(disk),
        Err(_) => Err("not written".into()),
    }
}

/// One push to the workflow.
pub(super) const PUSH: &str = "{\"push\":\"s\",\"source\":\"a\",\"seq\":0,\"rows\":[[1]]}\n";

/// What a recovery writes where the push and its first step had run.
const PENDING_RAN: &str =
    "[\"step\",2,\"p\",0,[\"done\",[]]]\n[\"step\",3,\"q\",0,[\"done\",[]]]\n[\"step\",4,\"j\",0,[\"done\",[]]]\n[\"table\",\"joined\",2]\n[\"row\",\"joined\",[11,1]]\n[\"row\",\"joined\",[21,2]]\n[\"done\",3]\n";

/// What one writes where nothing was pending.
pub(super) const NOTHING_RAN: &str =
    "[\"table\",\"joined\",2]\n[\"row\",\"joined\",[11,1]]\n[\"row\",\"joined\",[21,2]]\n[\"done\",0]\n";

/// What one writes behind both batches of a script.
const BOTH_RAN: &str =
    "[\"table\",\"joined\",4]\n[\"row\",\"joined\",[11,1]]\n[\"row\",\"joined\",[12,1]]\n[\"row\",\"joined\",[21,2]]\n[\"row\",\"joined\",[22,2]]\n[\"done\",0]\n";

// The list is full behind the push and its first step, so the log has just these.
#[test]
fn what_was_pending_runs(rt: HostRuntime) -> Result<(), Fail> {
    let full = run_on(&rt, rt.alloc(), DIAMOND, PUSH, empty_disk(rt.alloc()), 2)?;
    assert!(rt; full.ended.ends(Status::Limit, "[\"stopped\",9,2]\n"));
    let recovered = recover(&rt, rt.alloc(), full.into_disk())?;
    assert!(rt; recovered.ended.is(Status::Done, PENDING_RAN));
    let again = recover(&rt, rt.alloc(), recovered.into_disk())?;
    assert!(rt; again.ended.is(Status::Done, NOTHING_RAN));
    Ok(())
}

/// Whether no bytes are in a disk's selector and in its first file.
fn is_empty(mut disk: MemoryDisk) -> bool {
    disk.len(FileNo::Selector) == Ok(0) && disk.len(FileNo::First) == Ok(0)
}

#[test]
fn an_empty_disk_stays_so(rt: HostRuntime) -> Result<(), Fail> {
    let left = recover(&rt, rt.alloc(), empty_disk(rt.alloc()))?;
    assert!(rt; left.ended.is(Status::Done, "[\"done\",0]\n"));
    assert!(rt; is_empty(left.into_disk()));
    Ok(())
}

/// Whether a run of the accounts' catalogue refuses a disk for this byte of this file.
fn is_refused<R: Threads + Wait + Sync>(
    rt: &R,
    alloc: Global,
    disk: MemoryDisk,
    file: u8,
    at: u64,
) -> Result<bool, NoMemory> {
    let left = run_on(rt, alloc, ACCOUNTS, "", disk, u16::MAX)?;
    let line = format!(in alloc; "[\"foreign\",{file},{at}]\n")?;
    Ok(left.ended.is(Status::Foreign, &line))
}

#[test]
fn disks_that_are_refused(rt: HostRuntime) -> Result<(), Fail> {
    for (byte, file) in [(0, 1), (1, 2)] {
        let selected = with_byte(empty_disk(rt.alloc()), FileNo::Selector, 0, byte)?;
        assert!(rt; is_refused(&rt, rt.alloc(), selected, file, 0)?);
    }
    Ok(())
}

/// The store of three calls on accounts.
fn stored_calls<R: Threads + Wait + Sync>(rt: &R, alloc: Global) -> Result<MemoryDisk, NoMemory> {
    let left = run_on(rt, alloc, ACCOUNTS, PUTS, empty_disk(alloc), u16::MAX)?;
    Ok(left.into_disk())
}

/// Where the first record of a generation with an image of less than 65,536 bytes begins: behind 25 bytes, the image, and the nine
/// bytes of a group before its records.
fn first_record(disk: &mut MemoryDisk) -> Result<u64, Failed> {
    let high = byte_at(disk, FileNo::First, 23)?;
    let low = byte_at(disk, FileNo::First, 24)?;
    Ok(34 + 256 * u64::from(high) + u64::from(low))
}

// The first byte of the generation, its mode, the selector's second, and the kind of the first record.
#[test]
fn stores_with_another_byte(rt: HostRuntime) -> Result<(), Fail> {
    let Ok(record) = first_record(&mut stored_calls(&rt, rt.alloc())?) else {
        return Err("no record".into());
    };
    let damages = [
        (FileNo::First, 0, b'X', 1),
        (FileNo::First, 8, 2, 1),
        (FileNo::Selector, 1, 0, 0),
        (FileNo::First, record, 9, 1),
    ];
    for (which, at, byte, file) in damages {
        let damaged = with_byte(stored_calls(&rt, rt.alloc())?, which, at, byte)?;
        assert!(rt;
            is_refused(&rt, rt.alloc(), damaged, file, at)?,
            "file {file} at {at}"
        );
    }
    Ok(())
}

/// Cuts the last byte of the first file off, and answers the length then.
fn cut_last(disk: &mut MemoryDisk) -> Result<u64, Failed> {
    let Some(length) = disk.len(FileNo::First)?.checked_sub(1) else {
        return Err(Failed);
    };
    match disk.cut(FileNo::First, length) {
        Ok(()) => Ok(length),
        Err(_) => Err(Failed),
    }
}

#[test]
fn a_store_without_its_last_byte(rt: HostRuntime) -> Result<(), Fail> {
    let mut disk = stored_calls(&rt, rt.alloc())?;
    let Ok(length) = cut_last(&mut disk) else {
        return Err("not cut".into());
    };
    assert!(rt; is_refused(&rt, rt.alloc(), disk, 1, length)?);
    Ok(())
}

/// Whether of a list a prefix is recovered from what a crash in a call leaves, where each unsynced range holds its old bytes,
/// its new ones, or others.
fn recovers<R: Threads + Wait + Sync>(
    rt: &R,
    alloc: Global,
    script: &Script,
    list: &str,
    disk: &MemoryDisk,
    call: u64,
) -> Result<bool, NoMemory>
    requires { call < memory_calls disk.now }
{
    for torn in [Torn::Nothing, Torn::Whole, Torn::Fill(1)] {
        let recovered = recover_as(rt, alloc, script, disk.crash(alloc, call, torn)?)?;
        if !is_prefix(list, &recovered.ended) {
            return Ok(false);
        }
    }
    Ok(true)
}

/// The first call of a disk without rows in a run of a script of which that is not so.
pub(super) fn first_lost<R: Threads + Wait + Sync>(
    rt: &R,
    alloc: Global,
    script: &Script,
    disk: MemoryDisk,
) -> Result<Option<u64>, NoMemory> {
    let made = disk.calls();
    let left = run_script(rt, alloc, script, disk)?;
    if !left.ended.ends(Status::Done, script.last) {
        return Ok(Some(0));
    }
    for call in made..left.disk.calls() {
        if !recovers(rt, alloc, script, left.ended.text(), &left.disk, call)? {
            return Ok(Some(call));
        }
    }
    Ok(None)
}

#[test]
fn a_crash_in_each_call(rt: HostRuntime) -> Result<(), Fail> {
    for (number, script) in SCRIPTS.iter().enumerate() {
        let lost = first_lost(&rt, rt.alloc(), script, empty_disk(rt.alloc()))?;
        assert!(rt; lost.is_none(), "script {number}: {lost:?}");
    }
    Ok(())
}

/// The file of the generation that counts, and its number.
fn counting_file(disk: &mut MemoryDisk) -> Result<(FileNo, u8), Failed> {
    let selector = byte_at(disk, FileNo::Selector, 0)?;
    if selector % 2 == 0 {
        Ok((FileNo::First, 1))
    } else {
        Ok((FileNo::Second, 2))
    }
}

/// The least byte of the place at which the generation that counts begins.
fn first_place(disk: &mut MemoryDisk) -> Result<u8, Failed> {
    let (which, _) = counting_file(disk)?;
    byte_at(disk, which, 16)
}

// The last checkpoint of a run is less than so many entries before its end: with one behind each entry it is there.
#[test]
fn a_log_begins_anew(rt: HostRuntime) -> Result<(), Fail> {
    let left = run_script(&rt, rt.alloc(), &SCRIPTS[1], empty_disk(rt.alloc()))?;
    let mut disk = left.into_disk();
    assert!(rt; first_place(&mut disk) == Ok(12));
    let recovered = recover(&rt, rt.alloc(), disk)?;
    assert!(rt; recovered.ended.is(Status::Done, BOTH_RAN));
    Ok(())
}

/// Where the number of batches begins that `l` has had, in an image of the workflow with a nest and four rows: behind 25 bytes of the
/// generation, four for the length of the catalogue's text, the text, eight for the number of rows, 19 for each row, and 16 for `s`.
fn inside() -> u64 {
    129u64.saturating_add(NESTED.len() as u64)
}

// The place of the image would let a stream have had eight batches.
#[test]
fn a_stream_inside_of_a_nest_has_no_batch(rt: HostRuntime) -> Result<(), Fail> {
    let left = run_script(&rt, rt.alloc(), &SCRIPTS[11], empty_disk(rt.alloc()))?;
    let mut disk = left.into_disk();
    assert!(rt; first_place(&mut disk) == Ok(8));
    let Ok((which, file)) = counting_file(&mut disk) else {
        return Err("no selector".into());
    };
    let at = inside();
    let damaged = with_byte(disk, which, at.saturating_add(7), 1)?;
    let refused = recover(&rt, rt.alloc(), damaged)?;
    let line = format!(in rt.alloc(); "[\"foreign\",{file},{at}]\n")?;
    assert!(rt; refused.ended.is(Status::Foreign, &line));
    Ok(())
}
