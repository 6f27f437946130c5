//! What has happened to a disk in memory.

use crate::disk::FileNo;
use ss_value::Seq;

/// A call that may change what a crash leaves, by its number among all calls.
#[derive(Drop)]
pub(crate) enum Event {
    /// A write, and whether it was done or failed.
    Wrote {
        call: u64,
        which: FileNo,
        at: u64,
        bytes: Seq<u8>,
        done: bool,
    },
    /// A cut, and whether it was done or failed.
    Cut {
        call: u64,
        which: FileNo,
        len: u64,
        done: bool,
    },
    /// A sync that was done.
    Synced {
        call: u64,
    },
}
