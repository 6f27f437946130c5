//! Streams: the batches that an entry adds, and the procedures that it wakes.

ghost use Rattle.ss_model.specs.Batches.{EmittedBatchesJoin, StreamsGrowByOne, BatchesStay};
ghost use Rattle.ss_model.specs.Wakes.{ReadyIsWoken};

/// Each stream gains just the batches that an entry emits to it, which is one at most.
pub fn emitted_batches_join()
    ensures { EmittedBatchesJoin }
{}

/// An entry adds one batch to a stream, or none.
pub fn streams_grow_by_one()
    ensures { StreamsGrowByOne }
{}

/// After a list each batch has the number that it had, and each stream has at most one more for each entry.
pub fn batches_stay()
    ensures { BatchesStay }
{}

/// A procedure that an entry makes ready is one that it wakes, or its own.
pub fn ready_is_woken()
    ensures { ReadyIsWoken }
{}
