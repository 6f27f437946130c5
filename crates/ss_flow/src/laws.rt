//! Laws of the definitions, each the contract of a function that does nothing.

ghost use Rattle.ss_flow.specs.Follows.{BatchesHaveStreams, StreamsFollow};

/// After an entry each stream is as before, but for the batch that a step's procedure has passed, where it takes the stream,
/// and for the batch that travels with the entry, which stands behind the others.
pub fn streams_follow()
    ensures { StreamsFollow }
{}

/// The batches that travel with an entry are for streams of the catalogue.
pub fn batches_have_streams()
    ensures { BatchesHaveStreams }
{}
