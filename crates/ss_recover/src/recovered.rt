//! What is recovered.

use ss_cmdlog::CmdLog;
use ss_disk::Disk;
use ss_model::{Catalog, Listed};
use ss_shard::Database;
use ss_value::Seq;

/// What a disk stands for, and the log that goes on behind it.
#[derive(Drop)]
pub struct Recovered<D: Disk> {
    /// The database.
    pub database: Database,
    /// The catalogue of the store, with the bodies that may be installed: those of the given one, and those that the store names.
    pub catalog: Catalog,
    /// The place of the next execution: how many there have been since the store was made.
    pub first: u64,
    /// The entries that were replayed, each with its outcome: of a weak store with the steps that they set off.
    pub known: Seq<Listed>,
    /// Whether bodies are in the image behind which they were replayed, and this image: where the history of a weak store begins is told
    /// by it, also where a checkpoint stands in place of it.
    pub bodies: bool,
    pub image: Seq<u8>,
    /// The log, open behind them, on a generation of the new form.
    pub log: CmdLog<D>,
}
