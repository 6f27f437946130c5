//! A new store.

ghost use Rattle.std.specs.Prelude.{◌≡◌, ◌≢◌, true, ◌+◌, ◌<◌, ◌^◌, ◌⊎◌, [], ◌∷◌, ◌++◌, length, OnOk, IfOk, IfErr};
ghost use Rattle.ss_disk.specs.Kinds.{present};
ghost use Rattle.ss_disk.specs.Files.{file, with_file};
ghost use Rattle.ss_disk.specs.Moments.{LeavesOnly};
ghost use Rattle.ss_cmdlog.specs.Errors.{HasWriteCause};
ghost use Rattle.ss_cmdlog.specs.Generation.{head_bytes, magic};
ghost use Rattle.ss_cmdlog.specs.Log.{IsSettled};
ghost use Rattle.ss_cmdlog.specs.Formatting.{KeepsSelector, LeavesSome};

use crate::log::{CmdLog, LogError};
use ss_disk::{Disk, DiskError, FileNo, write_synced};
use ss_model::Mode;
use ss_record::push_u64;
use ss_value::NoMemory;
use std::alloc::Global;

/// The bytes in front of a strong generation.
const STRONG_MAGIC: [u8; 9] = [83, 83, 84, 79, 82, 69, 50, 10, 0];

/// And in front of a weak one.
const WEAK_MAGIC: [u8; 9] = [83, 83, 84, 79, 82, 69, 50, 10, 1];

/// The bytes in front of a generation of this mode, in the new form.
pub(crate) fn magic_of(mode: Mode) -> [u8; 9]
    ensures { result ≡ magic true mode }
{
    match mode {
        Mode::Strong => STRONG_MAGIC,
        Mode::Weak => WEAK_MAGIC,
    }
}

/// A generation of the new form without groups: its head, and a closed gate.
#[tactic(auto, unfolding(crate::specs::Generation::head_bytes))]
pub(crate) fn generation(
    alloc: Global,
    mode: Mode,
    first: u64,
    image: &[u8],
) -> Result<Vec<u8>, NoMemory>
    ensures spelled { IfOk result (λ bytes. bytes.items ≡ head_bytes true mode first image.now ++ 0 ∷ []) }
    ensures long { IfOk result (λ bytes. length image.now < 2 ^ 64) }
{
    let magic = magic_of(mode);
    let mut bytes = Vec::from_slice(alloc, &magic)?;
    push_u64(&mut bytes, first)?;
    push_u64(&mut bytes, image.len() as u64)?;
    bytes.extend_from_slice(image)?;
    bytes.push(0)?;
    Ok(bytes)
}

/// Puts other bytes into a generation's file, without a sync.
pub(crate) fn refill<D: Disk>(disk: &mut D, which: FileNo, bytes: &[u8]) -> Result<(), DiskError>
    requires { which ≢ FileNo.Selector }
    ensures filled { D.kind.tells → OnOk result (D.kind.seen disk.new ≡ with_file which bytes.now (D.kind.seen disk.old)) }
    ensures moments { D.kind.honest → LeavesOnly D.kind.moment D.kind.images disk.old disk.new (KeepsSelector (present D.kind disk.old)) }
    ensures some { D.kind.honest → LeavesSome D.kind.moment D.kind.images (D.kind.moment disk.old) disk.new }
    ensures cause { HasWriteCause (D.kind.faults disk.old) (D.kind.faults disk.new) result }
{
    disk.cut(which, 0)?;
    disk.write_at(which, 0, bytes)
}

/// Puts one generation into both of its files, and syncs.
pub(crate) fn fill_both<D: Disk>(disk: &mut D, bytes: &[u8]) -> Result<(), DiskError>
    ensures filled { D.kind.tells → OnOk result (D.kind.seen disk.new
        ≡ record { selector = (D.kind.seen disk.old).selector; first = bytes.now; second = bytes.now }) }
    ensures durable { D.kind.honest → OnOk result (IsSettled D.kind disk.new) }
    ensures moments { D.kind.honest → LeavesOnly D.kind.moment D.kind.images disk.old disk.new (KeepsSelector (present D.kind disk.old)) }
    ensures some { D.kind.honest → LeavesSome D.kind.moment D.kind.images (D.kind.moment disk.old) disk.new }
    ensures cause { HasWriteCause (D.kind.faults disk.old) (D.kind.faults disk.new) result }
{
    refill(disk, FileNo::First, bytes)?;
    refill(disk, FileNo::Second, bytes)?;
    match disk.sync() {
        Ok(()) => Ok(()),
        Err(_) => Err(DiskError::Failed),
    }
}

impl<D: Disk> CmdLog<D> {
    ghost use Rattle.std.specs.Prelude.{MatchResult, ◌≤◌};
    ghost use Rattle.ss_cmdlog.specs.Store.{StandsFor, IsEmpty};
    ghost use Rattle.ss_cmdlog.specs.Log.{IsOpen, IsAddRefusal, HasCallCause};
    ghost use Rattle.ss_cmdlog.specs.Formatting.{fresh};

    /// Makes a store of this mode and of an image, in the new form, on an empty disk of which nothing is unsynced, at place 0.
    ///
    /// A crash at any moment leaves something (`some`): a disk that is still empty, or one that stands for the image. `DiskFault` comes exactly
    /// where the disk counted a fault. There are seven calls of the disk. Time is linear in the image, of which there is one copy.
    pub fn format(
        alloc: Global,
        mut disk: D,
        image: &[u8],
        mode: Mode,
    ) -> Result<CmdLog<D>, (LogError, D)>
        requires empty { D.kind.tells → IsEmpty (D.kind.seen disk) }
        requires settled { D.kind.honest → IsSettled D.kind disk }
        ensures open { IfOk result (λ log. IsOpen D.kind log (fresh mode image.now)) }
        ensures count { IfOk result (λ log. log.count ≡ 0) }
        ensures first { IfOk result (λ log. log.first ≡ 0) }
        ensures moments { D.kind.honest → MatchResult result
            (λ log. LeavesOnly D.kind.moment D.kind.images disk log.disk (λ crashed. IsEmpty crashed ⊎ StandsFor crashed (fresh mode image.now)))
            (λ refused. LeavesOnly D.kind.moment D.kind.images disk refused.1 (λ crashed. IsEmpty crashed ⊎ StandsFor crashed (fresh mode image.now))) }
        ensures some { D.kind.honest → MatchResult result
            (λ log. LeavesSome D.kind.moment D.kind.images (D.kind.moment disk) log.disk) (λ refused. LeavesSome D.kind.moment D.kind.images (D.kind.moment disk) refused.1) }
        ensures cause { IfErr result (λ refused. HasCallCause (D.kind.faults disk) (D.kind.faults refused.1) refused.0) }
        ensures still { IfOk result (λ log. D.kind.faults log.disk ≡ D.kind.faults disk) }
        ensures refusals { IfErr result (λ refused. IsAddRefusal refused.0) }
    {
        let Ok(bytes) = generation(alloc, mode, 0, image) else {
            return Err((LogError::NoMemory, disk));
        };
        if let Err(refused) = fill_both(&mut disk, bytes.as_slice()) {
            return Err((LogError::from(refused), disk));
        }
        if let Err(refused) = write_synced(&mut disk, FileNo::Selector, 0, &[0]) {
            return Err((LogError::from(refused), disk));
        }
        Ok(CmdLog {
            disk,
            alloc,
            bodies: true,
            mode,
            file: FileNo::First,
            gate: (bytes.len() - 1) as u64,
            first: 0,
            count: 0,
            halted: None,
        })
    }
}
