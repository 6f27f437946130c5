//! What a disk is.

ghost use Rattle.std.specs.Prelude.{◌≡◌, ◌≤◌, ◌+◌, ℕ, length, take, IfOk, OnOk, IsErrOf};
ghost use Rattle.ss_disk.specs.declared.disk.DiskError.TheVariants.{NoMemory};
ghost use Rattle.ss_disk.specs.Kinds.{DiskKind, present};
ghost use Rattle.ss_disk.specs.Files.{file, with_write, with_cut, range_of};
ghost use Rattle.ss_disk.specs.Crash.{Follows, TornWrite, TornCut, NoNewImage, Only};
ghost use Rattle.ss_disk.specs.Moments.{Passes};
ghost use Rattle.ss_value.specs.FaultCounts.{HasCause};
ghost use Rattle.ss_disk.specs.Causes.{HasDiskCause};

use ss_value::Failed;

/// The files of a disk.
#[derive(Clone, Copy, Debug, PartialEq, Eq, Drop)]
pub enum FileNo {
    /// It tells which of the others is the current one.
    Selector,
    First,
    Second,
}

/// Why a write or a cut was refused.
#[derive(Clone, Copy, Debug, PartialEq, Eq, Drop)]
pub enum DiskError {
    /// Want of memory. Nothing has changed.
    NoMemory,
    /// The disk failed, and has counted it.
    Failed,
}

/// Three files of bytes, as many as a command log needs that is written anew from time to time, as H-Store's is: two of
/// them are written in turn, and the selector says which one counts.
///
/// A disk tells its contents where `kind.tells` holds, and is honest where `kind.honest` does: then what a crash leaves at each
/// moment is one of the images of that moment. Both are facts of the type, so that nobody has to carry them from call to
/// call. An implementor that can't know gives what nothing proves, and what is said of contents or of images then says
/// nothing of it; it owes the count of its faults alone.
///
/// A call's `crash` says which images come of which, `time` that earlier moments keep theirs, `cause` that a failure was
/// counted, and nothing else. `runs_compose` puts calls together.
pub trait Disk {
    /// What it tells, and what a crash leaves of it.
    ghost kind: { DiskKind Self };

    /// The length of a file in bytes. Takes no memory. `Failed` where the disk has counted a fault.
    fn len(&mut self, which: FileNo) -> Result<u64, Failed>
        ensures ok { kind.tells → IfOk result (λ len. len ≡ length (file which (kind.seen self.old))) }
        ensures unchanged { kind.tells → kind.seen self.new ≡ kind.seen self.old }
        ensures crash { kind.honest → NoNewImage (present kind self.old) (present kind self.new) }
        ensures time { kind.honest → Passes (kind.moment self.old) (kind.moment self.new) (kind.images self.old) (kind.images self.new) }
        ensures cause { HasCause (kind.faults self.old) (kind.faults self.new) result };

    /// The bytes from an offset on, as many as the buffer has, all of which have to be in the file: `pread` of POSIX without
    /// its short reads. Takes no memory. `Failed` where the disk has counted a fault; the buffer may then hold anything.
    fn read(&mut self, which: FileNo, at: u64, buf: &mut [u8]) -> Result<(), Failed>
        requires { kind.tells → at + length buf.old ≤ length (file which (kind.seen self.old)) }
        ensures ok { kind.tells → OnOk result (buf.new ≡ range_of at (length buf.old) (file which (kind.seen self.old))) }
        ensures unchanged { kind.tells → kind.seen self.new ≡ kind.seen self.old }
        ensures crash { kind.honest → NoNewImage (present kind self.old) (present kind self.new) }
        ensures time { kind.honest → Passes (kind.moment self.old) (kind.moment self.new) (kind.images self.old) (kind.images self.new) }
        ensures cause { HasCause (kind.faults self.old) (kind.faults self.new) result };

    /// Writes over what is there and past the end, from an offset that isn't behind the end: `pwrite` of POSIX, whole or
    /// failed.
    ///
    /// Until a sync, a crash may leave any bytes in the range, and those alone. The same holds of a write that `Failed`
    /// (`crash`), of which a read too may give any part, and no other change (`torn`). `NoMemory` changes nothing.
    fn write_at(&mut self, which: FileNo, at: u64, bytes: &[u8]) -> Result<(), DiskError>
        requires { kind.tells → at ≤ length (file which (kind.seen self.old)) }
        ensures ok { kind.tells → OnOk result (kind.seen self.new ≡ with_write which at bytes.now (kind.seen self.old)) }
        ensures err { kind.tells → IsErrOf result NoMemory → kind.seen self.new ≡ kind.seen self.old }
        ensures torn { kind.tells → IsErrOf result DiskError.Failed → TornWrite which at (length bytes.now) (kind.seen self.old) (kind.seen self.new) }
        ensures crash { kind.honest → Follows (TornWrite which at (length bytes.now)) (present kind self.old) (present kind self.new) }
        ensures untouched { kind.honest → IsErrOf result NoMemory → NoNewImage (present kind self.old) (present kind self.new) }
        ensures time { kind.honest → Passes (kind.moment self.old) (kind.moment self.new) (kind.images self.old) (kind.images self.new) }
        ensures cause { HasDiskCause (kind.faults self.old) (kind.faults self.new) result };

    /// Cuts a file to a length in bytes that isn't above its own: `ftruncate` of POSIX.
    ///
    /// Until a sync, a crash may leave any bytes behind that length, up to the old one. The same holds of a cut that
    /// `Failed` (`crash`), of which a read too may give any part (`torn`). `NoMemory` changes nothing.
    fn cut(&mut self, which: FileNo, len: u64) -> Result<(), DiskError>
        requires { kind.tells → len ≤ length (file which (kind.seen self.old)) }
        ensures ok { kind.tells → OnOk result (kind.seen self.new ≡ with_cut which len (kind.seen self.old)) }
        ensures err { kind.tells → IsErrOf result NoMemory → kind.seen self.new ≡ kind.seen self.old }
        ensures torn { kind.tells → IsErrOf result DiskError.Failed → TornCut which len (kind.seen self.old) (kind.seen self.new) }
        ensures crash { kind.honest → Follows (TornCut which len) (present kind self.old) (present kind self.new) }
        ensures untouched { kind.honest → IsErrOf result NoMemory → NoNewImage (present kind self.old) (present kind self.new) }
        ensures time { kind.honest → Passes (kind.moment self.old) (kind.moment self.new) (kind.images self.old) (kind.images self.new) }
        ensures cause { HasDiskCause (kind.faults self.old) (kind.faults self.new) result };

    /// Makes all that was written and cut last: behind it a crash leaves what a read gives. Takes no memory.
    ///
    /// It is `fsync` of POSIX on each file that has changed. One that `Failed` promises nothing, and one behind it that is done
    /// promises as much as ever; a system that forgets what it couldn't write isn't honest there, so a log stops at a fault.
    fn sync(&mut self) -> Result<(), Failed>
        ensures durable { kind.honest → OnOk result (Only (kind.seen self.new) (present kind self.new)) }
        ensures unchanged { kind.tells → kind.seen self.new ≡ kind.seen self.old }
        ensures crash { kind.honest → NoNewImage (present kind self.old) (present kind self.new) }
        ensures time { kind.honest → Passes (kind.moment self.old) (kind.moment self.new) (kind.images self.old) (kind.images self.new) }
        ensures cause { HasCause (kind.faults self.old) (kind.faults self.new) result };

    /// The count of faults. It is no call on the disk, takes no memory and never fails.
    fn faults(&self) -> u64
        ensures { result ≡ kind.faults self.now };

    /// An honest disk tells its contents.
    ghost honest_tells: { kind.honest → kind.tells };

    /// What a read gives is one of the present images.
    ghost sees_an_image: { (disk : Self) → kind.honest → kind.images disk (kind.moment disk) (kind.seen disk) };
}
