//! A new generation in place of the current one.

ghost use Rattle.std.specs.Prelude.{◌≡◌, true, ◌+◌, ◌<◌, ◌≤◌, ◌^◌, ◌⊎◌, [], ◌∷◌, ◌++◌, length, OnOk, IfOk, IsErrOf, ℕ};
ghost use Rattle.ss_record.specs.Numbers.{number_bytes};
ghost use Rattle.ss_disk.specs.Files.{file, with_file};
ghost use Rattle.ss_disk.specs.Moments.{LeavesOnly};
ghost use Rattle.ss_cmdlog.specs.Errors.{HasWriteCause};
ghost use Rattle.ss_cmdlog.specs.Generation.{Stood, magic, head_bytes};
ghost use Rattle.ss_cmdlog.specs.Store.{StandsFor};
ghost use Rattle.ss_disk.specs.Kinds.{present};
ghost use Rattle.ss_cmdlog.specs.Formatting.{LeavesSome};
ghost use Rattle.ss_cmdlog.specs.Log.{IsOpenAt, IsSettled};
ghost use Rattle.ss_cmdlog.specs.Renewing.{IsOtherwise, KeepsRest, other_file, renewed, selector_byte};

use crate::format::magic_of;
use crate::log::{CmdLog, LogError};
use ss_disk::{Disk, DiskError, FileNo, write_synced};
use ss_model::Mode;
use ss_record::push_u64;
use ss_value::NoMemory;
use std::alloc::Global;

/// The file that isn't the current one.
fn other_file(current: FileNo) -> FileNo
    ensures { result ≡ other_file current }
{
    match current {
        FileNo::First => FileNo::Second,
        FileNo::Selector | FileNo::Second => FileNo::First,
    }
}

/// The selector's byte for a file.
fn selector_byte(which: FileNo) -> u8
    ensures { result ≡ selector_byte which }
{
    match which {
        FileNo::Selector | FileNo::First => 0,
        FileNo::Second => 1,
    }
}

/// What stands in front of an image of this length, in the new form.
fn front(alloc: Global, mode: Mode, first: u64, image: u64) -> Result<Vec<u8>, NoMemory>
    ensures { IfOk result (λ bytes. bytes.items ≡ magic true mode ++ number_bytes 8 first ++ number_bytes 8 image) }
{
    let magic = magic_of(mode);
    let mut bytes = Vec::from_slice(alloc, &magic)?;
    push_u64(&mut bytes, first)?;
    push_u64(&mut bytes, image)?;
    Ok(bytes)
}

/// Writes behind the end of a file, which stands there.
fn append<D: Disk>(disk: &mut D, which: FileNo, end: u64, bytes: &[u8]) -> Result<(), DiskError>
    requires { D.kind.tells → end ≡ length (file which (D.kind.seen disk.old)) }
    ensures appended { D.kind.tells
        → OnOk result (D.kind.seen disk.new ≡ with_file which (file which (D.kind.seen disk.old) ++ bytes.now) (D.kind.seen disk.old)) }
    ensures unchanged { D.kind.tells → IsErrOf result DiskError.NoMemory → D.kind.seen disk.new ≡ D.kind.seen disk.old }
    ensures moments { D.kind.honest → LeavesOnly D.kind.moment D.kind.images disk.old disk.new (KeepsRest which (present D.kind disk.old)) }
    ensures some { D.kind.honest → LeavesSome D.kind.moment D.kind.images (D.kind.moment disk.old) disk.new }
    ensures cause { HasWriteCause (D.kind.faults disk.old) (D.kind.faults disk.new) result }
{
    disk.write_at(which, end, bytes)
}

/// Cuts a file to nothing.
fn clear<D: Disk>(disk: &mut D, which: FileNo) -> Result<(), DiskError>
    ensures cleared { D.kind.tells → OnOk result (D.kind.seen disk.new ≡ with_file which [] (D.kind.seen disk.old)) }
    ensures unchanged { D.kind.tells → IsErrOf result DiskError.NoMemory → D.kind.seen disk.new ≡ D.kind.seen disk.old }
    ensures moments { D.kind.honest → LeavesOnly D.kind.moment D.kind.images disk.old disk.new (KeepsRest which (present D.kind disk.old)) }
    ensures some { D.kind.honest → LeavesSome D.kind.moment D.kind.images (D.kind.moment disk.old) disk.new }
    ensures cause { HasWriteCause (D.kind.faults disk.old) (D.kind.faults disk.new) result }
{
    disk.cut(which, 0)
}

/// Puts a generation without groups into a file, in place of what it has: its front, its image, and a closed gate. Nothing is
/// synced, and the image isn't copied.
fn pour<D: Disk>(disk: &mut D, which: FileNo, front: &[u8], image: &[u8]) -> Result<(), DiskError>
    requires { length front.now + length image.now < 2 ^ 64 }
    ensures poured { D.kind.tells → OnOk result (D.kind.seen disk.new ≡ with_file which ((front.now ++ image.now) ++ 0 ∷ []) (D.kind.seen disk.old)) }
    ensures altered { D.kind.tells → IsErrOf result DiskError.NoMemory → IsOtherwise which (D.kind.seen disk.old) (D.kind.seen disk.new) }
    ensures moments { D.kind.honest → LeavesOnly D.kind.moment D.kind.images disk.old disk.new (KeepsRest which (present D.kind disk.old)) }
    ensures some { D.kind.honest → LeavesSome D.kind.moment D.kind.images (D.kind.moment disk.old) disk.new }
    ensures cause { HasWriteCause (D.kind.faults disk.old) (D.kind.faults disk.new) result }
{
    clear(disk, which)?;
    append(disk, which, 0, front)?;
    append(disk, which, front.len() as u64, image)?;
    append(disk, which, (front.len() + image.len()) as u64, &[0])
}

/// The same, and syncs. It syncs too where memory was wanting, so that what a crash leaves is then known again.
fn pour_synced<D: Disk>(
    disk: &mut D,
    which: FileNo,
    front: &[u8],
    image: &[u8],
) -> Result<(), DiskError>
    requires { length front.now + length image.now < 2 ^ 64 }
    ensures poured { D.kind.tells → OnOk result (D.kind.seen disk.new ≡ with_file which ((front.now ++ image.now) ++ 0 ∷ []) (D.kind.seen disk.old)) }
    ensures altered { D.kind.tells → IsErrOf result DiskError.NoMemory → IsOtherwise which (D.kind.seen disk.old) (D.kind.seen disk.new) }
    ensures durable { D.kind.honest → OnOk result (IsSettled D.kind disk.new) }
    ensures settled { D.kind.honest → IsErrOf result DiskError.NoMemory → IsSettled D.kind disk.new }
    ensures moments { D.kind.honest → LeavesOnly D.kind.moment D.kind.images disk.old disk.new (KeepsRest which (present D.kind disk.old)) }
    ensures some { D.kind.honest → LeavesSome D.kind.moment D.kind.images (D.kind.moment disk.old) disk.new }
    ensures cause { HasWriteCause (D.kind.faults disk.old) (D.kind.faults disk.new) result }
{
    let poured = pour(disk, which, front, image);
    if poured == Err(DiskError::Failed) {
        return poured;
    }
    match disk.sync() {
        Ok(()) => poured,
        Err(_) => Err(DiskError::Failed),
    }
}

/// Writes a generation into the file that isn't the current one, syncs, names that file in the selector, and syncs.
fn switch<D: Disk>(
    disk: &mut D,
    current: FileNo,
    front: &[u8],
    image: &[u8],
) -> Result<(), DiskError>
    requires fits { length front.now + length image.now < 2 ^ 64 }
    requires open { D.kind.tells → (s : Stood) × (gate : ℕ) × IsOpenAt (D.kind.seen disk.old) current gate s }
    ensures switched { D.kind.tells → (s : Stood) (gate place : ℕ) → IsOpenAt (D.kind.seen disk.old) current gate s → place ≤ 2 ^ 60
        → front.now ++ image.now ≡ head_bytes true s.mode place image.now
        → OnOk result (IsOpenAt (D.kind.seen disk.new) (other_file current) (length front.now + length image.now) (renewed s.mode place image.now)) }
    ensures durable { D.kind.honest → OnOk result (IsSettled D.kind disk.new) }
    ensures moments { D.kind.honest → (s : Stood) (gate place : ℕ) → IsOpenAt (D.kind.seen disk.old) current gate s → place ≤ 2 ^ 60
        → front.now ++ image.now ≡ head_bytes true s.mode place image.now → IsSettled D.kind disk.old
        → LeavesOnly D.kind.moment D.kind.images disk.old disk.new (λ crashed. StandsFor crashed s ⊎ StandsFor crashed (renewed s.mode place image.now)) }
    ensures some { D.kind.honest → LeavesSome D.kind.moment D.kind.images (D.kind.moment disk.old) disk.new }
    ensures kept { D.kind.tells → (s : Stood) (gate : ℕ) → IsOpenAt (D.kind.seen disk.old) current gate s → IsErrOf result DiskError.NoMemory
        → IsOpenAt (D.kind.seen disk.new) current gate s }
    ensures kept_only { D.kind.honest → IsErrOf result DiskError.NoMemory → IsSettled D.kind disk.new }
    ensures cause { HasWriteCause (D.kind.faults disk.old) (D.kind.faults disk.new) result }
{
    let other = other_file(current);
    pour_synced(disk, other, front, image)?;
    write_synced(disk, FileNo::Selector, 0, &[selector_byte(other)])
}

impl<D: Disk> CmdLog<D> {
    ghost use Rattle.std.specs.Prelude.{None, Some, Err, OnErr};
    ghost use Rattle.ss_cmdlog.specs.Log.{IsOpen, HasLogCause};
    ghost use Rattle.ss_cmdlog.specs.Renewing.{Renews};

    /// Puts a generation with this image, at the place of all that the log has, in place of the current one, in the same mode: a
    /// checkpoint. It is of the new form, whatever the current one is.
    ///
    /// The new generation is written into the other file and synced; then the selector names that file, and is synced. A
    /// crash at any moment leaves something (`some`): the generation that there was, with all its groups, or the new one, whatever
    /// byte the selector holds. After `NoMemory` the log goes on with the generation that there was. `DiskFault` comes exactly where the
    /// disk counted a fault; the log answers `Halted` with that count from then on, and touches the disk no more.
    ///
    /// There are seven calls of the disk. Time is linear in the image, which is written from where it is: no copy is made.
    pub fn renew(&mut self, image: &[u8], place: u64) -> Result<(), LogError>
        requires open { self.old.halted ≡ None → (s : Stood) × IsOpen D.kind self.old s }
        requires place { self.old.halted ≡ None → place ≡ self.old.count }
        requires small { place ≤ 2 ^ 60 }
        ensures renews { (s : Stood) → IsOpen D.kind self.old s
            → Renews D.kind self.old self.new result s (renewed s.mode place image.now) }
        ensures first { OnOk result (self.new.first ≡ place) }
        ensures first_stays { OnErr result (self.new.first ≡ self.old.first) }
        ensures count { self.new.count ≡ self.old.count }
        ensures same { self.new.mode ≡ self.old.mode }
        ensures form { OnOk result (self.new.bodies ≡ true) }
        ensures form_stays { OnErr result (self.new.bodies ≡ self.old.bodies) }
        ensures cause { HasLogCause (D.kind.faults self.old.disk) (D.kind.faults self.new.disk) self.old.halted self.new.halted result }
        ensures some { D.kind.honest → LeavesSome D.kind.moment D.kind.images (D.kind.moment self.old.disk) self.new.disk }
        ensures halted { (faults : ℕ) → self.old.halted ≡ Some faults → (result ≡ Err (LogError.Halted faults)) × (self.new ≡ self.old) }
        ensures halted_only { (faults : ℕ) → result ≡ Err (LogError.Halted faults) → self.old.halted ≡ Some faults }
        ensures own { (file at : ℕ) → result ≡ Err (LogError.Foreign file at) → ⊥ }
    {
        if let Some(faults) = self.halted {
            return Err(LogError::Halted { faults });
        }
        let front = front(self.alloc, self.mode, place, image.len() as u64)?;
        let Some(gate) = front.len().checked_add(image.len()) else {
            return Err(LogError::NoMemory);
        };
        match switch(&mut self.disk, self.file, front.as_slice(), image) {
            Ok(()) => {
                self.bodies = true;
                self.file = other_file(self.file);
                self.gate = gate as u64;
                self.first = place;
                Ok(())
            }
            Err(DiskError::NoMemory) => Err(LogError::NoMemory),
            Err(DiskError::Failed) => {
                self.halted = Some(self.disk.faults());
                Err(LogError::DiskFault)
            }
        }
    }
}
