//! The bytes of three files, in memory.

ghost use Rattle.std.specs.Prelude.{◌≡◌, ◌≤◌, ◌+◌, [], length, take, vec_len, OnOk, OnErr, IfOk};
ghost use Rattle.ss_disk.specs.Files.{file, with_bytes_at, with_write, with_cut};

use crate::disk::FileNo;
use ss_value::NoMemory;
use std::alloc::Global;

/// The bytes of each file.
#[derive(Drop)]
pub(crate) struct FileContents {
    pub selector: Vec<u8>,
    pub first: Vec<u8>,
    pub second: Vec<u8>,
}

/// Writes over what is there and past the end. Linear in the bytes written, but where the file grows out of
/// its room.
pub(crate) fn overwrite(bytes: &mut Vec<u8>, at: usize, new: &[u8]) -> Result<(), NoMemory>
    requires { at ≤ vec_len bytes.old }
    ensures ok { OnOk result (bytes.new.items ≡ with_bytes_at at new.now bytes.old.items) }
    ensures err { OnErr result (bytes.new.items ≡ bytes.old.items) }
{
    let behind = bytes.len() - at;
    if new.len() <= behind {
        let (_, rest) = bytes.as_mut_slice().split_at_mut(at);
        let (range, _) = rest.split_at_mut(new.len());
        range.copy_from_slice(new);
        return Ok(());
    }
    bytes.reserve(new.len() - behind)?;
    bytes.truncate(at);
    match bytes.extend_from_slice(new) {
        Ok(()) => Ok(()),
        Err(_) => unreachable!(),
    }
}

impl FileContents {
    ghost use Rattle.ss_disk.specs.Memory.{files_of};

    /// Files of nothing.
    pub fn empty(alloc: Global) -> FileContents
        ensures { files_of result ≡ record { selector = []; first = []; second = [] } }
    {
        FileContents {
            selector: Vec::new(alloc),
            first: Vec::new(alloc),
            second: Vec::new(alloc),
        }
    }

    /// The bytes of a file.
    pub fn file(&self, which: FileNo) -> &[u8]
        ensures { result.now ≡ file which (files_of self.now) }
    {
        match which {
            FileNo::Selector => self.selector.as_slice(),
            FileNo::First => self.first.as_slice(),
            FileNo::Second => self.second.as_slice(),
        }
    }

    /// Writes into a file. Want of memory leaves it.
    pub fn write(&mut self, which: FileNo, at: usize, bytes: &[u8]) -> Result<(), NoMemory>
        requires { at ≤ length (file which (files_of self.old)) }
        ensures ok { OnOk result (files_of self.new ≡ with_write which at bytes.now (files_of self.old)) }
        ensures err { OnErr result (files_of self.new ≡ files_of self.old) }
    {
        match which {
            FileNo::Selector => overwrite(&mut self.selector, at, bytes),
            FileNo::First => overwrite(&mut self.first, at, bytes),
            FileNo::Second => overwrite(&mut self.second, at, bytes),
        }
    }

    /// Cuts a file. Takes no memory.
    pub fn cut(&mut self, which: FileNo, len: usize)
        ensures { files_of self.new ≡ with_cut which len (files_of self.old) }
    {
        match which {
            FileNo::Selector => self.selector.truncate(len),
            FileNo::First => self.first.truncate(len),
            FileNo::Second => self.second.truncate(len),
        }
    }

    /// The same files again.
    pub fn copy(&self, alloc: Global) -> Result<FileContents, NoMemory>
        ensures { IfOk result (λ copy. files_of copy ≡ files_of self.now) }
    {
        Ok(FileContents {
            selector: Vec::from_slice(alloc, self.selector.as_slice())?,
            first: Vec::from_slice(alloc, self.first.as_slice())?,
            second: Vec::from_slice(alloc, self.second.as_slice())?,
        })
    }
}
