//! Stores of the older forms, which have no bodies: whoever runs on one renews it first.

ghost use Rattle.std.specs.Prelude.{◌<◌};
ghost use Rattle.ss_disk.specs.Calls.{memory_calls};

use super::scripts::{SCRIPTS, Script, recover_as, run_script};
use super::stores::{NOTHING_RAN, PUSH, byte_at, first_lost};
use super::{ACCOUNTS, DIAMOND, PUTS, empty_disk};
use ss_disk::{Disk, FileNo, MemoryDisk, Torn};
use ss_top::Status;
use ss_value::{Failed, NoMemory};
use std::alloc::{AllocError, Global};
use std::sync::Wait;
use std::test::Fail;
use std::thread::Threads;

/// A script whose store is written in an older form.
#[derive(Clone, Copy)]
struct Older {
    /// Its report without requests on that store is all of `last`.
    script: Script,
    /// The last letter of the form's name.
    letter: u8,
    /// How many bytes bodies take in its image: of each procedure four for the length, and the text.
    bodies: usize,
    /// How the renewed generation begins: with the new form's name, the mode, and the place behind the entries.
    head: &'static str,
}

/// How many bytes the bodies of the workflow take in an image.
const IN_WORKFLOW: usize = 372;

/// A strong store of calls, and a weak one of a push.
const OLDER: [Older; 2] = [
    Older {
        script: Script {
            words: ["run", "--partitions=1", "--recovery=strong"],
            catalog: ACCOUNTS,
            requests: PUTS,
            last: "[\"table\",\"acct\",1]\n[\"row\",\"acct\",[1,5]]\n[\"done\",0]\n",
            empty: "[\"table\",\"acct\",0]\n[\"done\",0]\n",
        },
        letter: b'1',
        bodies: 181,
        head: "SSTORE2\n\0\0\0\0\0\0\0\0\u{3}",
    },
    Older {
        script: Script {
            words: ["run", "--partitions=1", "--recovery=weak"],
            catalog: DIAMOND,
            requests: PUSH,
            last: NOTHING_RAN,
            empty: "[\"table\",\"joined\",0]\n[\"done\",0]\n",
        },
        letter: b'W',
        bodies: IN_WORKFLOW,
        head: "SSTORE2\n\u{1}\0\0\0\0\0\0\0\u{5}",
    },
];

/// The bytes of the first file.
fn first_file(alloc: Global, disk: &mut MemoryDisk) -> Result<Vec<u8>, Fail> {
    let Ok(length) = disk.len(FileNo::First) else {
        return Err("no length".into());
    };
    let mut bytes = Vec::new(alloc);
    for at in 0..length {
        let Ok(byte) = byte_at(disk, FileNo::First, at) else {
            return Err("no byte".into());
        };
        bytes.push(byte)?;
    }
    Ok(bytes)
}

/// A byte of a generation, and 0 behind its end.
fn byte_of(generation: &[u8], at: usize) -> u8 {
    match generation.get(at) {
        Some(byte) => *byte,
        None => 0,
    }
}

/// A byte of a generation in an older form, where its image, of less than 65,536 bytes, then has this length.
fn older_byte(at: usize, byte: u8, letter: u8, image: usize) -> u8 {
    match at {
        6 => letter,
        23 => u8::try_from(image / 256).unwrap_or(0),
        24 => u8::try_from(image % 256).unwrap_or(0),
        _ => byte,
    }
}

/// A generation in an older form: without its mode, and with an image that lacks its last bytes, which are of bodies.
fn in_older_form(
    alloc: Global,
    generation: &[u8],
    letter: u8,
    bodies: usize,
) -> Result<Vec<u8>, AllocError> {
    let image = 256 * usize::from(byte_of(generation, 23)) + usize::from(byte_of(generation, 24));
    let end = image.saturating_add(25);
    let front = end.saturating_sub(bodies);
    let mut older = Vec::new(alloc);
    for (at, byte) in generation.iter().enumerate() {
        if at != 8 && (at < front || end <= at) {
            older.push(older_byte(at, *byte, letter, image.saturating_sub(bodies)))?;
        }
    }
    Ok(older)
}

/// A disk on which the first file counts, and has these bytes.
fn disk_of(alloc: Global, bytes: &[u8]) -> Result<MemoryDisk, Fail> {
    let mut disk = empty_disk(alloc);
    let is_made = disk.write_at(FileNo::First, 0, bytes).is_ok()
        && disk.write_at(FileNo::Selector, 0, &[0]).is_ok()
        && disk.sync().is_ok();
    if is_made {
        Ok(disk)
    } else {
        Err("not written".into())
    }
}

/// The store that a script makes, in an older form.
fn older_store<R: Threads + Wait + Sync>(
    rt: &R,
    alloc: Global,
    script: &Script,
    letter: u8,
    bodies: usize,
) -> Result<MemoryDisk, Fail> {
    let mut disk = run_script(rt, alloc, script, empty_disk(alloc))?.into_disk();
    let generation = first_file(alloc, &mut disk)?;
    // So both are let go by one call each before the next may fail.
    drop(disk);
    let older = in_older_form(alloc, &generation, letter, bodies)?;
    disk_of(alloc, &older)
}

/// Whether a file begins with these bytes.
fn begins(disk: &mut MemoryDisk, which: FileNo, head: &[u8]) -> Result<bool, Failed> {
    for (at, byte) in head.iter().enumerate() {
        if byte_at(disk, which, at as u64)? != *byte {
            return Ok(false);
        }
    }
    Ok(true)
}

/// Whether all of a store is recovered from what a crash in a call leaves.
fn recovers<R: Threads + Wait + Sync>(
    rt: &R,
    alloc: Global,
    script: &Script,
    disk: &MemoryDisk,
    call: u64,
) -> Result<bool, NoMemory>
    requires { call < memory_calls disk.now }
{
    for torn in [Torn::Nothing, Torn::Whole, Torn::Fill(1)] {
        let recovered = recover_as(rt, alloc, script, disk.crash(alloc, call, torn)?)?;
        if !recovered.ended.is(Status::Done, script.last) {
            return Ok(false);
        }
    }
    Ok(true)
}

/// The first call from one on of which that is not so.
fn first_other<R: Threads + Wait + Sync>(
    rt: &R,
    alloc: Global,
    script: &Script,
    disk: &MemoryDisk,
    made: u64,
) -> Result<Option<u64>, NoMemory> {
    for call in made..disk.calls() {
        if !recovers(rt, alloc, script, disk, call)? {
            return Ok(Some(call));
        }
    }
    Ok(None)
}

#[test]
fn older_stores_are_renewed(rt: HostRuntime) -> Result<(), Fail> {
    for (number, older) in OLDER.iter().enumerate() {
        let script = &older.script;
        let disk = older_store(&rt, rt.alloc(), script, older.letter, older.bodies)?;
        let made = disk.calls();
        let left = run_script(&rt, rt.alloc(), &script.without_requests(), disk)?;
        assert!(rt; left.ended.is(Status::Done, script.last), "store {number}");
        let other = first_other(&rt, rt.alloc(), script, &left.disk, made)?;
        assert!(rt; other.is_none(), "store {number}: {other:?}");
        let mut disk = left.into_disk();
        let is_new = begins(&mut disk, FileNo::Second, older.head.as_bytes());
        assert!(rt; is_new == Ok(true), "store {number}");
        assert!(rt;
            begins(&mut disk, FileNo::Selector, &[1]) == Ok(true),
            "store {number}"
        );
    }
    Ok(())
}

/// The first call that loses something where a script runs on the store that it begins with, in an older form. A log of such a
/// form could have no install.
fn lost_on_older<R: Threads + Wait + Sync>(
    rt: &R,
    alloc: Global,
    script: &Script,
    letter: u8,
) -> Result<Option<u64>, Fail> {
    let disk = older_store(rt, alloc, &script.without_requests(), letter, IN_WORKFLOW)?;
    Ok(first_lost(rt, alloc, script, disk)?)
}

// The scripts with a nest are left out: where the older forms were written there were no nests.
#[test]
fn bodies_are_installed_on_older_stores(rt: HostRuntime) -> Result<(), Fail> {
    for (number, script) in SCRIPTS.iter().enumerate().skip(6).take(4) {
        let letter = if number < 8 { b'1' } else { b'W' };
        let lost = lost_on_older(&rt, rt.alloc(), script, letter)?;
        assert!(rt; lost.is_none(), "script {number}: {lost:?}");
    }
    Ok(())
}
