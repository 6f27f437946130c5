//! A write that lasts.

ghost use Rattle.std.specs.Prelude.{◌≡◌, ◌≤◌, ◌+◌, length, OnOk, IsErrOf};
ghost use Rattle.ss_disk.specs.Kinds.{present};
ghost use Rattle.ss_disk.specs.declared.disk.DiskError.TheVariants.{NoMemory, Failed};
ghost use Rattle.ss_disk.specs.Files.{file, with_write};
ghost use Rattle.ss_disk.specs.Crash.{TornWrite, NoNewImage, Only};
ghost use Rattle.ss_disk.specs.Moments.{LeavesWrite, LeavesFewer};
ghost use Rattle.ss_disk.specs.Causes.{HasDiskCause};

use crate::disk::{Disk, DiskError, FileNo};

/// Writes and syncs: behind Ok a crash leaves the new bytes, and at each moment up to then the old files or a torn write
/// (`moments`), and behind the write nothing that wasn't left by it (`fewer`).
///
/// `Failed` where either call was a fault; a read then gives any part of the bytes. `NoMemory` changes nothing.
pub fn write_synced<D: Disk>(
    disk: &mut D,
    which: FileNo,
    at: u64,
    bytes: &[u8],
) -> Result<(), DiskError>
    requires { D.kind.tells → at ≤ length (file which (D.kind.seen disk.old)) }
    ensures ok { D.kind.tells → OnOk result (D.kind.seen disk.new ≡ with_write which at bytes.now (D.kind.seen disk.old)) }
    ensures durable { D.kind.honest → OnOk result (Only (D.kind.seen disk.new) (present D.kind disk.new)) }
    ensures moments { D.kind.honest → LeavesWrite D.kind.moment D.kind.images disk.old disk.new which at (length bytes.now) }
    ensures fewer { D.kind.honest → LeavesFewer D.kind.moment D.kind.images (D.kind.moment disk.old + 1) disk.new }
    ensures err { D.kind.tells → IsErrOf result NoMemory → D.kind.seen disk.new ≡ D.kind.seen disk.old }
    ensures torn { D.kind.tells → IsErrOf result Failed → TornWrite which at (length bytes.now) (D.kind.seen disk.old) (D.kind.seen disk.new) }
    ensures untouched { D.kind.honest → IsErrOf result NoMemory → NoNewImage (present D.kind disk.old) (present D.kind disk.new) }
    ensures cause { HasDiskCause (D.kind.faults disk.old) (D.kind.faults disk.new) result }
{
    disk.write_at(which, at, bytes)?;
    match disk.sync() {
        Ok(()) => Ok(()),
        Err(_) => Err(DiskError::Failed),
    }
}
