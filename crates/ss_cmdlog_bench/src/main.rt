//! The program `ss_cmdlog_bench`: it writes calls to a command log in a folder, in groups, and reads them again.
//!
//! Its words are `FOLDER RECORDS GROUP`, and `time` behind them where times are wanted. The folder has to be there and to
//! hold no store. It prints how many calls the last receipt counts, and how many were read, each with the seconds that this
//! took where times are wanted. `bench/records.py` runs it with growing numbers.
//!
//! - `load`: what the words ask for
//! - `store`: how the calls are written and read
#![tactic(auto)]

mod load;
mod store;

use load::{Load, load_of};
use ss_disk::FolderDisk;
use std::io;
use std::process::ExitCode;
use std::rt::{Env, Files};
use std::time::{Clock, Duration};
use store::{holds_store, read_calls, write_calls};

/// A disk in the folder, which opens its files anew.
fn disk_in<'a, R: Files + AllocGlobal>(rt: &'a R, load: &Load) -> io::Result<FolderDisk<&'a R>> {
    match FolderDisk::new(rt.alloc(), rt, load.folder.as_str()) {
        Ok(disk) => Ok(disk),
        Err(_) => Err(io::Error::from(io::ErrorKind::OutOfMemory)),
    }
}

/// Prints a count, and how long it took where that is wanted.
fn print_count<R: Print>(
    rt: &R,
    timed: bool,
    word: &str,
    count: u64,
    took: Duration,
) -> io::Result<()> {
    if timed {
        let seconds = took.as_secs();
        let nanos = took.subsec_nanos();
        println!(rt; "{word} {count} {seconds}.{nanos:09}")
    } else {
        println!(rt; "{word} {count}")
    }
}

/// Makes a store in the folder, writes the calls, opens it again and reads them.
fn run<R: Env + Files + Print + AllocGlobal + Clock>(rt: &R) -> io::Result<()> {
    let load = load_of(rt)?;
    let mut disk = disk_in(rt, &load)?;
    if holds_store(&mut disk)? {
        return Err(io::Error::other("the folder holds a store"));
    }
    let (written, writing) = write_calls(rt.alloc(), rt, disk, load.records, load.group)?;
    print_count(rt, load.timed, "written", written, writing)?;
    let (read, reading) = read_calls(rt.alloc(), rt, disk_in(rt, &load)?)?;
    print_count(rt, load.timed, "read", read, reading)
}

/// Ends with 0 where all was written and read, and with 1 otherwise.
fn main(rt: HostRuntime) -> ExitCode {
    match run(&rt) {
        Ok(()) => ExitCode::from(0),
        Err(error) => {
            // Where this fails too, only the status is left to say so.
            let _printed = eprintln!(rt; "{error}");
            ExitCode::from(1)
        }
    }
}
