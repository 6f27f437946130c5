//! What each execution of an engine is given, whoever runs it: a way to wait, the log, the catalogue, the runner. Who pumps
//! makes one, and so does the close; it is lent down from there.

ghost use Rattle.std.specs.Prelude.{◌≡◌, ◌≤◌};

use ss_commitlog::CommitLog;
use ss_model::{Catalog, Life};
use ss_proc::Runner;
use std::alloc::Global;
use std::sync::Wait;

/// What each execution of an engine is given, whoever runs it.
///
/// That the catalogue may run is no fact of it but a premise of what runs: it holds data, as the ranks of triggers, and a
/// fact beside fields may not.
#[derive(Drop)]
pub struct Works<'a, I: Life, N: Runner, R: Wait> {
    /// How a thread waits for the log's lock.
    pub rt: &'a R,
    /// Where memory is from.
    pub alloc: Global,
    /// The log.
    pub log: &'a CommitLog<I>,
    /// The catalogue.
    pub catalog: &'a Catalog,
    /// What runs an entry.
    pub runner: &'a N,
    /// How many partitions there are.
    pub parts: u8,
    pub ghost catalog_is: { catalog.now ≡ I.catalog },
    pub ghost parts_are: { parts ≡ I.parts },
    pub ghost some: { 1 ≤ I.parts },
}
