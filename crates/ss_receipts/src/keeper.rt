//! What stands behind the disk's lock: the command log with its disk, and the disk's token of the commit log. `receipts` makes
//! it, and `durable` works on it.

use ss_cmdlog::CmdLog;
use ss_commitlog::Note;
use ss_disk::Disk;
use ss_model::Life;
use std::marker::Model;

/// A command log with its disk, how far it is receipted, and the disk's note of the commit log.
///
/// By its type the log holds the list that the note knows, up to that count, which the note has posted; and the faults that
/// the note has posted are those at which the log was halted.
#[derive(Drop)]
pub(crate) struct Keeper<I: Life, D: Disk + Drop> {
    pub log: CmdLog<D>,
    pub count: u64,
    pub note: Note<I>,
}

impl<I: Life, D: Disk + Drop> Model for Keeper<I, D> {
    ghost use Rattle.std.specs.Prelude.{◌≡◌};
    ghost use Rattle.ss_commitlog.specs.declared.role.Role.TheVariants.{Disk as DiskRole};
    ghost use Rattle.ss_commitlog.specs.Meaning.{listed_of};
    ghost use Rattle.ss_receipts.specs.Holding.{KeeperView, Holds};

    ghost Value = { KeeperView D };

    ghost view = { λ k. record { log = k.log; count = k.count; note = k.note } };

    ghost invariant = { λ k.
        (k.note.role ≡ DiskRole) × (k.note.count ≡ k.count)
        × Holds I.recovery I.every I.catalog I.opening I.first I.moment I.faults I.past D.kind
        (listed_of k.note.list) k.log k.count k.note.faults };
}
