//! A disk in a folder of the file system.

ghost use Rattle.ss_value.specs.FaultCounts.{HasCause};
ghost use Rattle.ss_disk.specs.Causes.{HasDiskCause};

use crate::disk::{Disk, DiskError, FileNo};
use ss_value::{Failed, NoMemory};
use std::alloc::Global;
use std::fs::{Files, OpenFile, OpenOptions};
use std::io;
use std::io::{Read, Seek, SeekFrom, Write};

/// A file of the folder, and whether it was changed since it was last made to last.
#[derive(Drop)]
struct OpenedFile<F: Drop> {
    file: F,
    changed: bool,
}

/// The three files, open.
#[derive(Drop)]
struct OpenedFiles<F: Drop> {
    selector: OpenedFile<F>,
    first: OpenedFile<F>,
    second: OpenedFile<F>,
}

/// The folder's three files, which are opened at the first use.
#[derive(Drop)]
struct Folder<R: Files + Drop> {
    files: R,
    path: String,
    selector: String,
    first: String,
    second: String,
    opened: Option<OpenedFiles<R::File>>,
}

/// Opens a file to read and to write, and makes it where it isn't there.
fn open_file<R: Files>(files: &R, path: &str) -> io::Result<OpenedFile<R::File>> {
    let mut how = OpenOptions::new();
    how.read(true).write(true).create(true);
    let file = files.open_file(&how, path)?;
    Ok(OpenedFile {
        file,
        changed: false,
    })
}

impl<F: Read + Write + Seek + OpenFile + Drop> OpenedFile<F> {
    /// Its length in bytes.
    fn len(&self) -> io::Result<u64> {
        Ok(self.file.metadata()?.len())
    }

    /// Fills a buffer with its bytes from an offset on.
    fn read(&mut self, at: u64, buf: &mut [u8]) -> io::Result<()> {
        self.file.seek(SeekFrom::Start(at))?;
        self.file.read_exact(buf)
    }

    /// Writes bytes from an offset on.
    fn write(&mut self, at: u64, bytes: &[u8]) -> io::Result<()> {
        self.changed = true;
        self.file.seek(SeekFrom::Start(at))?;
        self.file.write_all(bytes)
    }

    /// Cuts it to a length.
    fn cut(&mut self, len: u64) -> io::Result<()> {
        self.changed = true;
        self.file.set_len(len)
    }

    /// Makes what was changed last.
    fn sync(&mut self) -> io::Result<()> {
        if self.changed {
            self.file.sync_all()?;
            self.changed = false;
        }
        Ok(())
    }
}

impl<F: Drop> OpenedFiles<F> {
    /// The file of a number.
    fn file(&mut self, which: FileNo) -> &mut OpenedFile<F> {
        match which {
            FileNo::Selector => &mut self.selector,
            FileNo::First => &mut self.first,
            FileNo::Second => &mut self.second,
        }
    }
}

impl<R: Files + Drop> Folder<R> {
    /// Opens the files, and makes the folder last.
    fn open(&self) -> io::Result<OpenedFiles<R::File>> {
        let opened = OpenedFiles {
            selector: open_file(&self.files, self.selector.as_str())?,
            first: open_file(&self.files, self.first.as_str())?,
            second: open_file(&self.files, self.second.as_str())?,
        };
        let mut how = OpenOptions::new();
        how.read(true);
        let folder = self.files.open_file(&how, self.path.as_str())?;
        folder.sync_all()?;
        Ok(opened)
    }

    /// The files, which are opened where they aren't open yet.
    fn opened(&mut self) -> io::Result<&mut OpenedFiles<R::File>> {
        if self.opened.is_none() {
            self.opened = Some(self.open()?);
        }
        match &mut self.opened {
            Some(opened) => Ok(opened),
            None => Err(io::Error::from(io::ErrorKind::NotFound)),
        }
    }

    fn len(&mut self, which: FileNo) -> io::Result<u64> {
        self.opened()?.file(which).len()
    }

    fn read(&mut self, which: FileNo, at: u64, buf: &mut [u8]) -> io::Result<()> {
        self.opened()?.file(which).read(at, buf)
    }

    fn write(&mut self, which: FileNo, at: u64, bytes: &[u8]) -> io::Result<()> {
        self.opened()?.file(which).write(at, bytes)
    }

    fn cut(&mut self, which: FileNo, len: u64) -> io::Result<()> {
        self.opened()?.file(which).cut(len)
    }

    fn sync(&mut self) -> io::Result<()> {
        let opened = self.opened()?;
        opened.selector.sync()?;
        opened.first.sync()?;
        opened.second.sync()
    }
}

/// The answer of a call, with its error counted as a fault.
fn counted<T: Drop>(faults: &mut u64, answer: io::Result<T>) -> Result<T, Failed>
    ensures { HasCause faults.old faults.new result }
{
    match answer {
        Ok(value) => Ok(value),
        Err(_) => {
            *faults = faults.saturating_add(1);
            Err(Failed)
        }
    }
}

/// The same of a call that may find no memory too, as that of a folder never does.
fn changed(faults: &mut u64, answer: io::Result<()>) -> Result<(), DiskError>
    ensures { HasDiskCause faults.old faults.new result }
{
    match counted(faults, answer) {
        Ok(()) => Ok(()),
        Err(Failed) => Err(DiskError::Failed),
    }
}

/// The files `selector`, `gen1` and `gen2` of one folder, which has to be there. Where a file isn't, it is made.
///
/// They are opened at the first call, and the folder is then made to last, so that a file that was made is there behind a
/// crash. It tells no contents and is not honest (`folder_kind`), since no contract can say what a file system keeps: it
/// owes the count of its faults alone. Whoever else writes the folder spoils what a store says.
///
/// Each call costs what the system's costs; `sync` is an `fsync` of each file that was changed since the last. Only `new`
/// takes memory.
#[derive(Drop)]
pub struct FolderDisk<R: Files + Drop> {
    folder: Folder<R>,
    faults: u64,
}

impl<R: Files + Drop> FolderDisk<R> {
    ghost use Rattle.std.specs.Prelude.{◌≡◌, IfOk};
    ghost use Rattle.ss_disk.specs.Folder.{folder_faults};

    /// A disk in that folder, which nothing has touched yet.
    pub fn new(alloc: Global, files: R, folder: &str) -> Result<FolderDisk<R>, NoMemory>
        ensures { IfOk result (λ disk. folder_faults disk ≡ 0) }
    {
        let folder = Folder {
            files,
            path: String::from_str(alloc, folder)?,
            selector: format!(in alloc; "{folder}/selector")?,
            first: format!(in alloc; "{folder}/gen1")?,
            second: format!(in alloc; "{folder}/gen2")?,
            opened: None,
        };
        Ok(FolderDisk { folder, faults: 0 })
    }
}

impl<R: Files + Drop> Disk for FolderDisk<R> {
    ghost use Rattle.ss_disk.specs.Folder.{folder_kind};

    ghost kind = { folder_kind };

    ghost honest_tells = { λ h. h };

    ghost sees_an_image = { λ _ h. h };

    fn len(&mut self, which: FileNo) -> Result<u64, Failed> {
        let answer = self.folder.len(which);
        counted(&mut self.faults, answer)
    }

    fn read(&mut self, which: FileNo, at: u64, buf: &mut [u8]) -> Result<(), Failed> {
        let answer = self.folder.read(which, at, buf);
        counted(&mut self.faults, answer)
    }

    fn write_at(&mut self, which: FileNo, at: u64, bytes: &[u8]) -> Result<(), DiskError> {
        let answer = self.folder.write(which, at, bytes);
        changed(&mut self.faults, answer)
    }

    fn cut(&mut self, which: FileNo, len: u64) -> Result<(), DiskError> {
        let answer = self.folder.cut(which, len);
        changed(&mut self.faults, answer)
    }

    fn sync(&mut self) -> Result<(), Failed> {
        let answer = self.folder.sync();
        counted(&mut self.faults, answer)
    }

    fn faults(&self) -> u64 {
        self.faults
    }
}
