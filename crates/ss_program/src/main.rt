//! The program `sstore`: it reads a catalogue and requests, runs them on a store, and writes the report.
//!
//! All that it runs is `ss_top::sstore`, on standard input and standard output, with threads of the host, and with a gate
//! that holds no execution. The first word is the path of a folder for the store, or `-` for a store in memory, which ends
//! with the program. The program is a crate of its own, since a program can't be tested from another crate.
//!
//! - `help`: the texts for people. A word alone may ask for help or the version in place of a run, and where not all is
//!   done a line on standard error says so
//! - `folder_lock`: a folder is held by one process at a time, from before anything there is read to the end of the process
#![tactic(auto)]

mod folder_lock;
mod help;

use folder_lock::{Claim, claim_folder};
use help::{asked_text, status_text};
use ss_disk::{FolderDisk, MemoryDisk};
use ss_engine::NoGate;
use ss_lines::{ReadSource, Sink, Source, WriteSink, write_all};
use ss_top::{Status, refuse_words, sstore};
use ss_value::{NoMemory, Seq};
use std::alloc::Global;
use std::process::ExitCode;
use std::sync::Wait;
use std::thread::Threads;
use std::{env, io};

/// The words of the command line, without the program's name. One that isn't UTF-8 is an error.
fn words(rt: &HostRuntime) -> io::Result<Vec<String>> {
    let mut words = Vec::new(rt.alloc());
    for word in env::args(rt)?.skip(1) {
        words.push(word)?;
    }
    Ok(words)
}

/// What is written where there is no memory before anything ran.
fn no_memory<K: Sink>(sink: &mut K) -> Status {
    refuse_words(&io::Error::from(io::ErrorKind::OutOfMemory), sink)
}

/// The program on an empty store in memory, whose calls with these numbers fail.
fn run_in_memory<R: AllocGlobal + Threads + Wait + Sync, S: Source, K: Sink>(
    rt: &R,
    words: &[String],
    source: &mut S,
    sink: &mut K,
    fails: Seq<u64>,
) -> Status {
    let alloc = rt.alloc();
    let disk = MemoryDisk::new(alloc, fails);
    sstore(rt, alloc, words, source, sink, disk, NoGate).0
}

/// The numbers of the first calls of a disk, more of them than a run makes of which each fails: an opening ends at the first
/// that does, and no run opens its disk so often again.
fn first_calls(alloc: Global) -> Result<Seq<u64>, NoMemory> {
    let mut numbers = Seq::new(alloc);
    for number in 0..64 {
        if numbers.push(number).is_err() {
            return Err(NoMemory);
        }
    }
    Ok(numbers)
}

/// The program where the folder isn't held. Nothing in the folder is read or written.
///
/// One that can't be opened is a disk whose calls fail, so words and input are looked at first; one that another process has, or
/// that can't be locked, is refused at once.
fn run_unheld<R: AllocGlobal + Threads + Wait + Sync, S: Source, K: Sink>(
    rt: &R,
    claim: &Claim,
    words: &[String],
    source: &mut S,
    sink: &mut K,
) -> Status {
    match claim {
        Claim::Missing(_) => match first_calls(rt.alloc()) {
            Ok(fails) => run_in_memory(rt, words, source, sink, fails),
            Err(NoMemory) => no_memory(sink),
        },
        _ => {
            // Where this fails too, the status is left to say so.
            let _written = write_all(sink, b"[\"disk_fault\"]\n");
            Status::Disk
        }
    }
}

/// The exit status, behind a line on standard error where not all is done.
fn end(rt: &HostRuntime, status: Status) -> ExitCode {
    if let Some(text) = status_text(status) {
        // Where this fails too, the status is left to say so.
        let _printed = eprintln!(rt; "sstore: {text}");
    }
    ExitCode::from(status.number())
}

/// The same where a folder isn't held: of a disk fault the line says why it isn't.
fn end_unheld(rt: &HostRuntime, claim: &Claim, folder: &str, status: Status) -> ExitCode {
    if status != Status::Disk {
        return end(rt, status);
    }
    // Where printing fails too, the status is left to say so.
    let _printed = match claim {
        Claim::Busy(Some(holder)) => eprintln!(rt;
            "sstore: process {holder} has the store in {folder}; wait for its end"
        ),
        Claim::Busy(None) => eprintln!(rt;
            "sstore: another process has the store in {folder}; wait for its end"
        ),
        Claim::Missing(error) => eprintln!(rt;
            "sstore: the folder {folder} can't be opened: {error}"
        ),
        Claim::Unlockable(error) => eprintln!(rt;
            "sstore: the folder {folder} can't be locked: {error}"
        ),
        Claim::Held(_) => Ok(()),
    };
    ExitCode::from(status.number())
}

/// Writes a text that was asked for.
fn tell<K: Sink>(rt: &HostRuntime, text: &str, sink: &mut K) -> ExitCode {
    match write_all(sink, text.as_bytes()) {
        Ok(()) => ExitCode::from(Status::Done.number()),
        Err(_) => end(rt, Status::WriteFault),
    }
}

/// Calls `sstore` on standard input and standard output, or `refuse_words` where the words can't be had.
fn main(rt: HostRuntime) -> ExitCode {
    // The sink comes first: what is wrong with the words is written to it.
    let mut sink = WriteSink::new(io::writer(&rt));
    let words = match words(&rt) {
        Ok(words) => words,
        Err(error) => return end(&rt, refuse_words(&error, &mut sink)),
    };
    if let Some(text) = asked_text(words.as_slice()) {
        return tell(&rt, text, &mut sink);
    }
    let alloc = rt.alloc();
    let mut source = ReadSource::new(rt.reader());
    match words.split_first() {
        Some((path, behind)) if path.as_str() != "-" => match claim_folder(&rt, path.as_str()) {
            Claim::Held(held) => {
                // Not a function of its own: that the files of this runtime may go to another thread is known here alone.
                let status = match FolderDisk::new(alloc, &rt, path.as_str()) {
                    Ok(disk) => {
                        sstore(&rt, alloc, behind, &mut source, &mut sink, disk, NoGate).0
                    }
                    Err(_) => no_memory(&mut sink),
                };
                drop(held);
                end(&rt, status)
            }
            claim => {
                let status = run_unheld(&rt, &claim, behind, &mut source, &mut sink);
                end_unheld(&rt, &claim, path.as_str(), status)
            }
        },
        Some((_, behind)) => end(
            &rt,
            run_in_memory(&rt, behind, &mut source, &mut sink, Seq::new(alloc)),
        ),
        None => end(
            &rt,
            run_in_memory(&rt, &[], &mut source, &mut sink, Seq::new(alloc)),
        ),
    }
}
