//! A claim about each moment of a run of calls.

ghost use Rattle.std.specs.Prelude.{◌≡◌, []};
ghost use Rattle.ss_disk.specs.Files.{Files};
ghost use Rattle.ss_disk.specs.Moments.{LeavesOnly};

use crate::tests::steps::files_of;
use ss_disk::{Claim, Disk, DiskError, FileNo, MemoryDisk, runs_compose, write_synced};
use ss_value::Seq;
use std::alloc::Global;
use std::test::Fail;

/// That the selector is empty.
struct NoSelector {}

impl Claim for NoSelector {
    ghost holds = { λ files. files.selector ≡ [] };
}

/// Writes the fronts of both other files. A crash at any moment since the call began leaves an empty selector, where one at
/// its beginning would.
fn write_both<D: Disk>(disk: &mut D) -> Result<(), DiskError>
    requires honest { D.kind.honest }
    requires selector { (image : Files) → D.kind.images disk.old (D.kind.moment disk.old) image → image.selector ≡ [] }
    ensures moments { LeavesOnly D.kind.moment D.kind.images disk.old disk.new (λ image. image.selector ≡ []) }
{
    runs_compose::<D, NoSelector, NoSelector>();
    write_synced(disk, FileNo::First, 0, b"ab")?;
    write_synced(disk, FileNo::Second, 0, b"cd")
}

/// What a new disk has behind both writes.
fn files_written(alloc: Global) -> Result<String, Fail> {
    let mut disk = MemoryDisk::new(alloc, Seq::new(alloc));
    match write_both(&mut disk) {
        Ok(()) => files_of(alloc, &mut disk),
        Err(_) => Err("not written".into()),
    }
}

#[test]
fn two_writes(rt: HostRuntime) -> Result<(), Fail> {
    assert_eq!(rt; files_written(rt.alloc())?.as_str(), "|ab|cd");
    Ok(())
}
