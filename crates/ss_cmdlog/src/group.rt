//! One group at the end of a generation.

ghost use Rattle.std.specs.Prelude.{◌≡◌, ◌<◌, ◌+◌, ◌⊎◌, List, [], ◌∷◌, ◌++◌, length, OnOk, IsErrOf};
ghost use Rattle.ss_model.specs.declared.entry.Entry.{Entry};
ghost use Rattle.ss_disk.specs.Kinds.{present};
ghost use Rattle.ss_disk.specs.declared.disk.DiskError.TheVariants.{NoMemory};
ghost use Rattle.ss_disk.specs.Files.{file};
ghost use Rattle.ss_disk.specs.Moments.{LeavesOnly};
ghost use Rattle.ss_cmdlog.specs.Errors.{HasWriteCause};
ghost use Rattle.ss_cmdlog.specs.Generation.{Stood, IsGroup, group_bytes};
ghost use Rattle.ss_cmdlog.specs.Store.{StandsFor, with_groups};
ghost use Rattle.ss_cmdlog.specs.Log.{IsOpenAt, IsSettled, KeepsCounts};

use ss_disk::{Disk, DiskError, FileNo, write_synced};

/// Writes a group and a closed gate behind the present gate, syncs, opens the present gate, and syncs.
pub(crate) fn add_group<D: Disk>(
    disk: &mut D,
    current: FileNo,
    gate: u64,
    bytes: &[u8],
) -> Result<(), DiskError>
    requires within { D.kind.tells → gate < length (file current (D.kind.seen disk.old)) }
    requires small { gate < 18446744073709551615 }
    ensures added { D.kind.tells → (s : Stood) (g : List Entry) → IsOpenAt (D.kind.seen disk.old) current gate s
        → IsGroup s.bodies s.mode g → bytes.now ≡ group_bytes g ++ 0 ∷ []
        → OnOk result (IsOpenAt (D.kind.seen disk.new) current (gate + length bytes.now) (with_groups s (g ∷ []))) }
    ensures durable { D.kind.honest → OnOk result (IsSettled D.kind disk.new) }
    ensures moments { D.kind.honest → (s : Stood) (g : List Entry) → IsOpenAt (D.kind.seen disk.old) current gate s
        → IsGroup s.bodies s.mode g → bytes.now ≡ group_bytes g ++ 0 ∷ []
        → IsSettled D.kind disk.old
        → LeavesOnly D.kind.moment D.kind.images disk.old disk.new (λ image. StandsFor image s ⊎ StandsFor image (with_groups s (g ∷ []))) }
    ensures stays { D.kind.honest → (s : Stood) (g : List Entry) → IsOpenAt (D.kind.seen disk.old) current gate s
        → IsGroup s.bodies s.mode g → bytes.now ≡ group_bytes g ++ 0 ∷ []
        → IsSettled D.kind disk.old
        → KeepsCounts D.kind.moment D.kind.images (D.kind.moment disk.old) disk.new }
    ensures kept { D.kind.tells → (s : Stood) → IsOpenAt (D.kind.seen disk.old) current gate s → IsErrOf result NoMemory
        → IsOpenAt (D.kind.seen disk.new) current gate s }
    ensures kept_only { D.kind.honest → IsSettled D.kind disk.old → IsErrOf result NoMemory
        → IsSettled D.kind disk.new }
    ensures cause { HasWriteCause (D.kind.faults disk.old) (D.kind.faults disk.new) result }
{
    write_synced(disk, current, gate + 1, bytes)?;
    write_synced(disk, current, gate, &[1])
}
