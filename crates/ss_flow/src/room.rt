//! Room for the batches of an entry.

ghost use Rattle.std.specs.Prelude.{◌≡◌, length, OnOk};
ghost use Rattle.ss_flow.specs.Advances.{HasRoom};
ghost use Rattle.ss_flow.specs.Follows.{AreOfStreams};

use ss_model::Emitted;
use ss_stream::Streams;
use ss_value::NoMemory;

/// Makes room for each of these batches, of which no two are for one stream. Out of memory leaves the streams as they are;
/// the room that was made stays.
///
/// Constant for each batch, on average over many calls.
pub fn make_room(streams: &mut Streams, batches: &[Emitted]) -> Result<(), NoMemory>
    requires { AreOfStreams (length streams.old.streams) batches.now }
    ensures unchanged { streams.new.streams ≡ streams.old.streams }
    ensures ok { OnOk result (HasRoom streams.new batches.now) }
{
    for batch in batches {
        streams.reserve(batch.stream)?;
    }
    Ok(())
}
