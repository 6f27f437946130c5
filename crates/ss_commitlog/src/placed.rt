//! What becomes of an entry: a place in the list, or the reason why it has none.
//!
//! `CommitLog::commit` answers a place without the entry, which the list keeps, or the reason. `ss_turns` makes a `Placed` of it, and `ss_lanes`
//! carries that to the client.

use ss_model::Listed;

/// Where an entry stands in the list, with its outcome.
#[derive(Drop)]
pub struct Placed {
    pub place: u64,
    pub listed: Listed,
}

/// Why an entry has no place in the list. It changed nothing.
#[derive(Clone, Copy, Drop)]
pub enum Unlisted {
    /// There was no memory for it.
    NoMemory,
    /// The list holds as many entries as it may, which is `count`.
    ListFull { count: u64 },
}
