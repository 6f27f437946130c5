//! The bytes of a small store: those that docs/STORE.md shows field by field.

ghost use Rattle.std.specs.Prelude.{◌≡◌, false, length, All, IfOk};
ghost use Rattle.ss_record.specs.Bounds.{IsRecordable};
ghost use Rattle.ss_cmdlog.specs.Logged.{is_install};

use crate::stores::store_with;
use crate::words::file_of;
use ss_case_files::Wrong;
use ss_disk::{Disk, FileNo, MemoryDisk};
use ss_model::{Entry, Mode};
use ss_value::{Seq, Value, name_of, text_of};
use std::alloc::Global;

/// A call of procedure 2 with the row `[7,"hi"]`, with index 5 of client 3.
fn call(alloc: Global) -> Result<Entry, Wrong>
    ensures recordable { IfOk result IsRecordable }
    ensures formed { IfOk result (λ e. is_install e ≡ false) }
{
    let Ok(word) = text_of(alloc, b"hi") else {
        return Err(Wrong::NoMemory);
    };
    Ok(Entry::Call {
        client: 3,
        index: 5,
        procedure: 2,
        args: Seq::from_vec(vec![in alloc; Value::Int(7), Value::Text(word)]?),
    })
}

/// A push of source `s1` with number 9 to stream 4, one row `[-1]`, with index 1 of client 0.
fn push(alloc: Global) -> Result<Entry, Wrong>
    ensures recordable { IfOk result IsRecordable }
    ensures formed { IfOk result (λ e. is_install e ≡ false) }
{
    let row = Seq::from_vec(vec![in alloc; Value::Int(-1)]?);
    let rows = Seq::from_vec(vec![in alloc; row]?);
    let Ok(source) = name_of(alloc, b"s1") else {
        return Err(Wrong::NoMemory);
    };
    Ok(Entry::Push {
        client: 0,
        index: 1,
        stream: 4,
        source,
        seq: 9,
        rows,
    })
}

/// Both of them, in one group.
pub fn group(alloc: Global) -> Result<Seq<Entry>, Wrong>
    ensures recordable { IfOk result (λ entries. All IsRecordable entries) }
    ensures formed { IfOk result (λ entries. All (λ e. is_install e ≡ false) entries) }
    ensures two { IfOk result (λ entries. length entries ≡ 2) }
{
    let first = call(alloc)?;
    let second = push(alloc)?;
    Ok(Seq::from_vec(vec![in alloc; first, second]?))
}

/// The store of that group behind an image of three bytes.
fn store(alloc: Global) -> Result<MemoryDisk, Wrong> {
    let entries = group(alloc)?;
    store_with(alloc, Mode::Strong, b"img", &entries)
}

/// Bytes as two hexadecimal digits each.
pub fn digits_of(alloc: Global, bytes: &[u8]) -> Result<String, Wrong> {
    let mut text = String::new(alloc);
    for byte in bytes {
        let space = if text.is_empty() { "" } else { " " };
        let digits = format!(in alloc; "{space}{byte:02x}")?;
        text.push_str(digits.as_str())?;
    }
    Ok(text)
}

/// The bytes of a file.
pub fn bytes_of(alloc: Global, disk: &mut MemoryDisk, which: FileNo) -> Result<Vec<u8>, Wrong> {
    let Ok(len) = disk.len(which) else {
        return Err(Wrong::text(alloc, "no length"));
    };
    let mut bytes = vec![in alloc; 0u8; len as usize]?;
    match disk.read(which, 0, bytes.as_mut_slice()) {
        Ok(()) => Ok(bytes),
        Err(_) => Err(Wrong::text(alloc, "not read")),
    }
}

/// The bytes of a file of a disk, which is let go.
fn last_bytes_of(alloc: Global, mut disk: MemoryDisk, which: FileNo) -> Result<Vec<u8>, Wrong> {
    bytes_of(alloc, &mut disk, which)
}

/// The bytes of the file that a word names, as two hexadecimal digits each.
pub fn answer_of(alloc: Global, given: &str) -> Result<String, Wrong> {
    let which = file_of(alloc, given)?;
    let bytes = last_bytes_of(alloc, store(alloc)?, which)?;
    digits_of(alloc, bytes.as_slice())
}
