//! What is told of each execution, for tests that hold one until another one is seen. `ss_engine` tells it of each turn, and
//! `settling` of its steps; no lock is held then, but partitions may be in hand.

use ss_model::Entry;

/// What is told of each execution. It answers nothing, so it changes no run but for the time that it takes.
///
/// `ss_engine` tells it of what it serves and follows, and settling of its steps; this is the lowest crate that does. Two
/// executions on partitions of their own are told at the same time, by the threads that run them.
pub trait Gate {
    /// An entry is about to run, whose least partition is `part`: its partitions are in hand. So who waits here holds up each
    /// execution that touches one of them.
    fn before(&self, part: u8, entry: &Entry);

    /// It has run and is listed, and its partitions are back in their bays, but at the close, where there are none any
    /// more. What is not listed is not told again: it is gone with the commit's answer, and a copy for those who watch
    /// would be one for each execution.
    fn after(&self, part: u8, entry: &Entry);
}

/// A gate that does nothing.
#[derive(Clone, Copy, Debug, PartialEq, Eq, Drop)]
pub struct NoGate;

impl Gate for NoGate {
    fn before(&self, _part: u8, _entry: &Entry) {}

    fn after(&self, _part: u8, _entry: &Entry) {}
}

impl<G: Gate> Gate for &G {
    fn before(&self, part: u8, entry: &Entry) {
        (**self).before(part, entry);
    }

    fn after(&self, part: u8, entry: &Entry) {
        (**self).after(part, entry);
    }
}
