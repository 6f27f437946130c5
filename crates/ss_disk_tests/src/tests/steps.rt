//! Steps on a disk, and what is in its files.
//!
//! A disk has many lists, which are let go wherever a call may fail while it is there. So what may fail borrows it.

use ss_disk::{Disk, DiskError, FileNo};
use ss_value::Failed;
use std::alloc::Global;
use std::test::Fail;

/// A step. A write or a cut asks for the length first, which is a call too.
#[derive(Clone, Copy)]
pub enum Step {
    Write(FileNo, u64, &'static str),
    Cut(FileNo, u64),
    Sync,
}

/// What a call answered.
fn answer_of(called: Result<(), DiskError>) -> &'static str {
    match called {
        Ok(()) => "done",
        Err(DiskError::Failed) => "failed",
        Err(DiskError::NoMemory) => "no memory",
    }
}

/// Takes a step, unless it would be past the end, and tells how it went.
fn take_step<D: Disk>(disk: &mut D, step: &Step) -> &'static str {
    match step {
        Step::Write(which, at, text) => match disk.len(*which) {
            Ok(len) if *at <= len => answer_of(disk.write_at(*which, *at, text.as_bytes())),
            Ok(_) => "past the end",
            Err(Failed) => "failed",
        },
        Step::Cut(which, to) => match disk.len(*which) {
            Ok(len) if *to <= len => answer_of(disk.cut(*which, *to)),
            Ok(_) => "past the end",
            Err(Failed) => "failed",
        },
        Step::Sync => match disk.sync() {
            Ok(()) => "done",
            Err(Failed) => "failed",
        },
    }
}

/// Takes steps one after another, and tells how each went.
pub fn take_steps<D: Disk>(alloc: Global, disk: &mut D, steps: &[Step]) -> Result<String, Fail> {
    let mut text = String::new(alloc);
    for step in steps {
        let answer = take_step(disk, step);
        text = format!(in alloc; "{text}{answer}, ")?;
    }
    Ok(text)
}

/// The bytes of a file, in two calls.
fn text_of<D: Disk>(alloc: Global, disk: &mut D, which: FileNo) -> Result<String, Fail> {
    let Ok(len) = disk.len(which) else {
        return Err("no length".into());
    };
    let mut bytes = vec![in alloc; 0u8; len as usize]?;
    if disk.read(which, 0, bytes.as_mut_slice()).is_err() {
        return Err("not read".into());
    }
    match String::from_utf8(bytes) {
        Ok(text) => Ok(text),
        Err(_) => Err("no text".into()),
    }
}

/// The bytes of the three files.
pub fn files_of<D: Disk>(alloc: Global, disk: &mut D) -> Result<String, Fail> {
    let selector = text_of(alloc, disk, FileNo::Selector)?;
    let first = text_of(alloc, disk, FileNo::First)?;
    let second = text_of(alloc, disk, FileNo::Second)?;
    Ok(format!(in alloc; "{selector}|{first}|{second}")?)
}
