//! Bytes that can't be.

use crate::continued::answer_of as answer_of_continued;
use crate::renewals::twice_renewed;
use crate::stores::{answer_of as read_of, store_of_steps};
use crate::weak::store_among_steps;
use crate::words::{bytes_of, file_of, number_of};
use ss_case_files::Wrong;
use ss_disk::{Disk, FileNo, MemoryDisk};
use std::alloc::Global;

/// Writes bytes over a file, if it is so long.
fn is_written(disk: &mut MemoryDisk, which: FileNo, at: u64, bytes: &[u8]) -> bool {
    match disk.len(which) {
        Ok(len) if at <= len => disk.write_at(which, at, bytes).is_ok(),
        _ => false,
    }
}

/// Cuts a file, if it is so long.
fn is_cut(disk: &mut MemoryDisk, which: FileNo, at: u64) -> bool {
    match disk.len(which) {
        Ok(len) if at <= len => disk.cut(which, at).is_ok(),
        _ => false,
    }
}

/// The words in front of and behind the first space.
fn first_word(text: &str) -> (&str, &str) {
    text.split_once(' ').unwrap_or((text, ""))
}

/// Does to a disk what words say, and tells whether it could be done: bytes are written over a file, or it is cut.
fn is_done(alloc: Global, disk: &mut MemoryDisk, given: &str) -> Result<bool, Wrong> {
    let (word, given) = first_word(given);
    let (which, given) = first_word(given);
    let (at, digits) = first_word(given);
    let which = file_of(alloc, which)?;
    let at = number_of(alloc, at)?;
    match word {
        "write" => Ok(is_written(disk, which, at, bytes_of(alloc, digits)?.as_slice())),
        "cut" => Ok(is_cut(disk, which, at)),
        _ => Err(Wrong::text(alloc, "no damage")),
    }
}

/// What is read of a disk to which was done what words say, or what is in its files where the store goes on.
fn read_behind(
    alloc: Global,
    disk: MemoryDisk,
    given: &str,
    goes_on: bool,
) -> Result<String, Wrong> {
    let mut disk = disk;
    let done = is_done(alloc, &mut disk, given);
    let answer = if goes_on {
        answer_of_continued(alloc, disk)
    } else {
        read_of(alloc, disk)
    };
    if done? {
        return answer;
    }
    Err(Wrong::text(alloc, "it can't be done"))
}

/// What is read of a store of three steps behind an image of two bytes, to which was done what words say.
pub fn answer_of(alloc: Global, given: &str) -> Result<String, Wrong> {
    let disk = store_of_steps(alloc)?;
    read_behind(alloc, disk, given, false)
}

/// The same of a weak store of a call and a push, among steps.
pub fn answer_of_weak(alloc: Global, given: &str) -> Result<String, Wrong> {
    let disk = store_among_steps(alloc)?;
    read_behind(alloc, disk, given, false)
}

/// The same of a store whose generation was renewed twice, each time behind three steps.
pub fn answer_of_renewed(alloc: Global, given: &str) -> Result<String, Wrong> {
    let disk = twice_renewed(alloc)?;
    read_behind(alloc, disk, given, false)
}

/// What is in the files of the store of three steps that was damaged so, where it goes on.
pub fn files_continued(alloc: Global, given: &str) -> Result<String, Wrong> {
    let disk = store_of_steps(alloc)?;
    read_behind(alloc, disk, given, true)
}
