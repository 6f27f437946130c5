//! Laws of the definitions, each the contract of a function that does nothing, which callers cite.

ghost use Rattle.ss_commitlog.specs.BorderStreams.{BorderStreamsStay};

/// Entries that don't touch the home of a border stream's procedure add no batch to that stream.
///
/// A law of its own, because streams stand in no part of a database. It is of use where a mark's own list has to tell
/// what a border step takes; whoever looks the batch up needs it not.
pub fn border_streams_stay()
    ensures { BorderStreamsStay }
{}
