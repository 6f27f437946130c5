//! How calls on a disk are put together into runs, for whoever proves something of a crash at any moment.
//!
//! `LeavesOnly moment images old new P` says of a run that a crash at any moment since it began leaves what has `P`, and
//! that the moments before it keep their images. A law does nothing.

ghost use Rattle.ss_disk.specs.Files.{Files};
ghost use Rattle.ss_disk.specs.RunLaws.{NoCall, OneCall, RunsJoin, LeavesLess, GoesOn, StaysOnly};

use crate::disk::Disk;

/// Something that may hold of the files that a crash leaves. A clause can't range over all such claims, so a law has the
/// claim as a type.
pub trait Claim {
    /// The files of which it holds.
    ghost holds: { Files → Type 0 };
}

/// A run is of no call (`none`), of one (`one`), or of two runs (`join`). Less may be said of it (`less`), and what holds
/// since an earlier moment goes on to hold over it (`goes_on`). Calls that leave no new image leave a disk that has
/// nothing unsynced as it is (`only`).
pub fn runs_compose<D: Disk, P: Claim, Q: Claim>()
    ensures none { NoCall D D.kind.moment D.kind.images P.holds }
    ensures one { OneCall D D.kind.moment D.kind.images P.holds }
    ensures join { RunsJoin D D.kind.moment D.kind.images P.holds }
    ensures less { LeavesLess D D.kind.moment D.kind.images P.holds Q.holds }
    ensures goes_on { GoesOn D D.kind.moment D.kind.images P.holds }
    ensures only { StaysOnly D D.kind.moment D.kind.images }
{}
