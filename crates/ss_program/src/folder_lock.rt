//! A folder in which one process at a time has a store.
//!
//! The folder itself is locked, so nothing is written there; the system gives the lock back when the process ends, also
//! when it is killed. The lock is advisory: who doesn't ask for it, as an editor or `rm`, isn't kept out.

use std::fs::{self, File, Metadata, TryLockError};
use std::io;
use std::os::unix::fs::MetadataExt;

/// What came of asking for a folder.
#[derive(Drop)]
pub enum Claim {
    /// It is this process's until the file is let go of.
    Held(File),
    /// It can't be opened, as where it isn't there, and why.
    Missing(io::Error),
    /// Another process has it: its number, where the system tells it.
    Busy(Option<u32>),
    /// It can't be locked, and why.
    Unlockable(io::Error),
}

/// Asks for a folder, and waits for nobody.
pub fn claim_folder(rt: &HostRuntime, folder: &str) -> Claim {
    let file = match open_folder(rt, folder) {
        Ok(file) => file,
        Err(error) => return Claim::Missing(error),
    };
    match file.try_lock() {
        Ok(()) => Claim::Held(file),
        Err(TryLockError::WouldBlock) => Claim::Busy(holder_of(rt, &file)),
        Err(TryLockError::Error(error)) => Claim::Unlockable(error),
    }
}

/// Opens a folder, and nothing else that has that name.
fn open_folder(rt: &HostRuntime, path: &str) -> io::Result<File> {
    // Asked before it is opened, since the opening of a pipe would wait for whoever writes to it.
    if !fs::metadata(rt, path)?.is_dir() {
        return Err(io::Error::from(io::ErrorKind::NotADirectory));
    }
    File::open(rt, path)
}

/// The number of the process that has locked a file, where the system's list of locks has it.
fn holder_of(rt: &HostRuntime, file: &File) -> Option<u32> {
    let place = place_of(rt, &file.metadata().ok()?).ok()?;
    let locks = fs::read_to_string(rt, "/proc/locks").ok()?;
    for lock in locks.lines() {
        if let Some(holder) = holder_in(lock, place.as_str()) {
            return Some(holder);
        }
    }
    None
}

/// A file as the system's list of locks writes it: the two numbers of its device, and its own.
fn place_of(rt: &HostRuntime, file: &Metadata) -> io::Result<String> {
    let device = file.dev();
    let (major, minor) = (
        (device >> 8) & 0xfff,
        (device & 0xff) | ((device >> 12) & 0xfff00),
    );
    Ok(format!(in rt.alloc(); "{major:02x}:{minor:02x}:{}", file.ino())?)
}

/// The process of a line of the list, if it says that a whole file at that place is locked: `1: FLOCK ADVISORY WRITE 4315 fe:00:2301997 0 EOF`.
fn holder_in(lock: &str, place: &str) -> Option<u32> {
    let mut words = lock.split_ascii_whitespace().skip(1);
    let kind = words.next()?;
    let process = words.nth(2)?;
    if kind != "FLOCK" || words.next()? != place {
        return None;
    }
    process.parse().ok()
}
