//! An old store.

ghost use Rattle.std.specs.Prelude.{◌≡◌, ◌≢◌, ℕ, [], IfOk, OnOk, IfErr, Ok, Err};
ghost use Rattle.ss_disk.specs.Files.{file};
ghost use Rattle.ss_cmdlog.specs.Generation.{Stood, IsStood};
ghost use Rattle.ss_cmdlog.specs.Store.{current_file};
ghost use Rattle.ss_cmdlog.specs.Reading.{generation_at};
ghost use Rattle.ss_cmdlog.specs.Log.{HasCallCause};
ghost use Rattle.ss_cmdlog.specs.Opening.{number_of, store_at, ReadsGeneration, ReadsStore, IsLoaded, OnlyReads};

use crate::contents::{bytes_of, selector_of};
use crate::log::{CmdLog, LogError};
use crate::read::{Generation, ReadError, generation_in};
use ss_disk::{Disk, FileNo};
use ss_model::{Entry, Mode};
use ss_value::Seq;
use std::alloc::Global;

/// What a store holds: whether it is of the new form, in which bodies may be, its mode, the image, the place behind it, the entries
/// from there on, and how many each group has of them.
#[derive(Drop)]
pub struct Loaded {
    pub bodies: bool,
    pub mode: Mode,
    pub first: u64,
    pub image: Seq<u8>,
    pub entries: Seq<Entry>,
    pub sizes: Seq<u64>,
}

/// The file that a selector's byte names.
fn named(byte: u8) -> FileNo
    ensures { result ≡ current_file byte }
{
    if byte % 2 == 0 {
        FileNo::First
    } else {
        FileNo::Second
    }
}

/// The number of a file.
fn number(which: FileNo) -> u8
    ensures { result ≡ number_of which }
{
    match which {
        FileNo::Selector => 0,
        FileNo::First => 1,
        FileNo::Second => 2,
    }
}

/// Reads a file as a generation.
fn generation_of<D: Disk>(
    alloc: Global,
    disk: &mut D,
    which: FileNo,
) -> Result<Generation, LogError>
    ensures found { IfOk result (λ g. ReadsGeneration D.kind.tells (file which (D.kind.seen disk.old)) g.loaded g.gate) }
    ensures foreign { D.kind.tells → (n at : ℕ) → result ≡ Err (LogError.Foreign n at) → generation_at (file which (D.kind.seen disk.old)) ≡ Err at }
    ensures numbered { (n at : ℕ) → result ≡ Err (LogError.Foreign n at) → n ≡ number_of which }
    ensures halted { (faults : ℕ) → result ≡ Err (LogError.Halted faults) → ⊥ }
    ensures reads { OnlyReads D.kind disk.old disk.new }
    ensures cause { IfErr result (λ refused. HasCallCause (D.kind.faults disk.old) (D.kind.faults disk.new) refused) }
    ensures still { OnOk result (D.kind.faults disk.new ≡ D.kind.faults disk.old) }
{
    let bytes = bytes_of(alloc, disk, which)?;
    match generation_in(alloc, bytes.as_slice()) {
        Ok(read) => Ok(read),
        Err(ReadError::NoMemory) => Err(LogError::NoMemory),
        Err(ReadError::Foreign { left }) => Err(LogError::Foreign {
            file: number(which),
            at: bytes.len().saturating_sub(left) as u64,
        }),
    }
}

/// What is read of a store, and the file that it stands in.
#[derive(Drop)]
struct Current {
    generation: Generation,
    file: FileNo,
}

/// Reads the current generation. Four calls of the disk.
fn current_of<D: Disk>(alloc: Global, disk: &mut D) -> Result<Current, LogError>
    requires stored { D.kind.tells → (D.kind.seen disk.old).selector ≢ [] }
    ensures found { IfOk result (λ c. ReadsStore D.kind.tells (D.kind.seen disk.old) c.generation.loaded c.file c.generation.gate) }
    ensures foreign { D.kind.tells → (which at : ℕ) → result ≡ Err (LogError.Foreign which at) → store_at (D.kind.seen disk.old) ≡ Err (which, at) }
    ensures halted { (faults : ℕ) → result ≡ Err (LogError.Halted faults) → ⊥ }
    ensures reads { OnlyReads D.kind disk.old disk.new }
    ensures cause { IfErr result (λ refused. HasCallCause (D.kind.faults disk.old) (D.kind.faults disk.new) refused) }
    ensures still { OnOk result (D.kind.faults disk.new ≡ D.kind.faults disk.old) }
{
    let byte = selector_of(disk)?;
    let file = named(byte);
    let generation = generation_of(alloc, disk, file)?;
    Ok(Current { generation, file })
}

impl<D: Disk> CmdLog<D> {
    ghost use Rattle.std.specs.Prelude.{MatchResult, ◌+◌, length};
    ghost use Rattle.ss_disk.specs.Moments.{LeavesOnly, LeavesFewer};
    ghost use Rattle.ss_disk.specs.Kinds.{present};
    ghost use Rattle.ss_cmdlog.specs.Log.{IsOpen};
    ghost use Rattle.ss_cmdlog.specs.Opening.{IsOpenRefusal, IsForeignAt, StandForLoaded};

    /// Opens the store on a disk that isn't empty, and gives what it holds, of either mode and in either form.
    ///
    /// It begins with a sync, and then reads: there are five calls of the disk, none of which changes it. A read gives what it
    /// gave, and a crash at any moment leaves what it could leave before, and no more than at the moments between. `Foreign` tells the first byte that can't be, where the image is taken as
    /// bytes; `DiskFault` comes exactly where the disk counted a fault. Time is linear in the current file, which is read whole
    /// into one buffer; the image is copied out of it, and each entry.
    #[tactic(auto, using(crate::proofs::Logs::counts_read))]
    pub fn open(alloc: Global, mut disk: D) -> Result<(CmdLog<D>, Loaded), (LogError, D)>
        requires stored { D.kind.tells → (D.kind.seen disk).selector ≢ [] }
        ensures open { IfOk result (λ r. (s : Stood) × (D.kind.tells → store_at (D.kind.seen disk) ≡ Ok s)
            × IsOpen D.kind r.0 s × IsLoaded r.1 s × IsStood s) }
        ensures count { IfOk result (λ r. r.0.count ≡ r.1.first + length r.1.entries) }
        ensures first { IfOk result (λ r. r.0.first ≡ r.1.first) }
        ensures foreign { D.kind.tells → IfErr result (λ refused. IsForeignAt (D.kind.seen disk) refused.0) }
        ensures same { D.kind.tells → MatchResult result (λ r. D.kind.seen r.0.disk ≡ D.kind.seen disk) (λ refused. D.kind.seen refused.1 ≡ D.kind.seen disk) }
        ensures moments { D.kind.honest → MatchResult result
            (λ r. LeavesOnly D.kind.moment D.kind.images disk r.0.disk (present D.kind disk))
            (λ refused. LeavesOnly D.kind.moment D.kind.images disk refused.1 (present D.kind disk)) }
        ensures fewer { D.kind.honest → MatchResult result
            (λ r. LeavesFewer D.kind.moment D.kind.images (D.kind.moment disk) r.0.disk) (λ refused. LeavesFewer D.kind.moment D.kind.images (D.kind.moment disk) refused.1) }
        ensures stands { D.kind.honest → IfOk result (λ r. StandForLoaded (present D.kind r.0.disk) r.1) }
        ensures cause { IfErr result (λ refused. HasCallCause (D.kind.faults disk) (D.kind.faults refused.1) refused.0) }
        ensures still { IfOk result (λ r. D.kind.faults r.0.disk ≡ D.kind.faults disk) }
        ensures refusals { IfErr result (λ refused. IsOpenRefusal refused.0) }
    {
        if disk.sync().is_err() {
            return Err((LogError::DiskFault, disk));
        }
        match current_of(alloc, &mut disk) {
            Ok(Current { generation, file }) => {
                let Generation { loaded, gate } = generation;
                let count = loaded.first + loaded.entries.len() as u64;
                let log = CmdLog {
                    disk,
                    alloc,
                    bodies: loaded.bodies,
                    mode: loaded.mode,
                    file,
                    gate: gate as u64,
                    first: loaded.first,
                    count,
                    halted: None,
                };
                Ok((log, loaded))
            }
            Err(refused) => Err((refused, disk)),
        }
    }

    /// The number of the file that the log adds to.
    pub fn file_number(&self) -> u8
        ensures { result ≡ number_of self.now.file }
    {
        number(self.file)
    }
}
