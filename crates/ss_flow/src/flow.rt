//! The streams after an entry.

ghost use Rattle.std.specs.Prelude.{◌≡◌, ◌<◌, ◌^◌, ℕ, true, map, length};
ghost use Rattle.std.specs.List.{AllByRecursion};
ghost use Rattle.std.specs.List.Sorted.{IsStrictlyIncreasing};
ghost use Rattle.ss_model.specs.declared.entry.Emitted.{Emitted};
ghost use Rattle.ss_model.specs.Accepted.{Accepted};
ghost use Rattle.ss_model.specs.Batches.{batches_of};
ghost use Rattle.ss_model.specs.CatalogForm.{numbers_distinct};
ghost use Rattle.ss_model.specs.Database.{Applied, Database};
ghost use Rattle.ss_stream.specs.Pending.{HasNext, emitted_count};
ghost use Rattle.ss_stream.specs.Streams.{stream_at};
ghost use Rattle.ss_flow.specs.Advances.{Advances, FollowAll, HasRoom, LeavesRoom, passed_among};
ghost use Rattle.ss_flow.specs.Follows.{AreOfStreams, MayPass, passed_at, with_batches};

use ss_model::{Catalog, Emitted, Entry};
use ss_stream::Streams;
use ss_value::Seq;

/// Moves a procedure one batch further on each of its inputs.
fn pass_inputs(streams: &mut Streams, procedure: u16, inputs: &[u16])
    requires there { AllByRecursion (λ s. s < length streams.old.streams) inputs.now }
    requires distinct { numbers_distinct inputs.now ≡ true }
    requires next { AllByRecursion (λ s. HasNext (stream_at streams.old s) procedure) inputs.now }
    ensures passed { (s : ℕ) → stream_at streams.new s ≡ passed_among streams.old procedure inputs.now s }
    ensures many { length streams.new.streams ≡ length streams.old.streams }
    ensures room { LeavesRoom streams.old streams.new }
{
    for input in inputs {
        streams.pass(procedure, *input);
    }
}

/// Moves the procedure of a step one batch further on each of its inputs, and does nothing for another entry.
fn pass_batch(catalog: &Catalog, streams: &mut Streams, entry: &Entry)
    requires accepted { Accepted catalog.now }
    requires many { length streams.old.streams ≡ length catalog.now.streams }
    requires next { (s : ℕ) → s < length catalog.now.streams → MayPass catalog.now entry.now s (stream_at streams.old s) }
    ensures passed { (s : ℕ) → stream_at streams.new s ≡ passed_at catalog.now entry.now s (stream_at streams.old s) }
    ensures many { length streams.new.streams ≡ length streams.old.streams }
    ensures room { LeavesRoom streams.old streams.new }
{
    let Entry::Step { procedure, .. } = entry else {
        return;
    };
    let Some(found) = catalog.procedures.get(usize::from(*procedure)) else {
        return;
    };
    pass_inputs(streams, *procedure, found.inputs.as_slice());
}

/// Puts each batch behind the others of its stream, in the room that was made. The rows are moved.
fn emit_batches(streams: &mut Streams, batches: Seq<Emitted>)
    requires there { AreOfStreams (length streams.old.streams) batches }
    requires rising { IsStrictlyIncreasing (map (λ (b : Emitted). b.stream) batches) }
    requires room { HasRoom streams.old batches }
    requires few { AllByRecursion (λ (b : Emitted). emitted_count (stream_at streams.old b.stream) < 2 ^ 62) batches }
    ensures joined { (s : ℕ) → stream_at streams.new s ≡ with_batches (stream_at streams.old s) (batches_of s batches) }
    ensures many { length streams.new.streams ≡ length streams.old.streams }
{
    for batch in batches.into_vec() {
        let Emitted { stream, rows } = batch;
        // No two batches are for one stream, so the room of one emit each is enough.
        let Ok(_number) = streams.emit(stream, rows) else {
            unreachable!()
        };
    }
}

/// Moves the streams over an entry: a step's procedure passes one batch of each input, and the batches that travel with the
/// entry are put behind the others of their streams, in the room that was made.
///
/// Takes no memory, and can't fail: one `pass` for each input, and one `emit` for each batch, whose rows are moved.
pub fn advance(catalog: &Catalog, streams: &mut Streams, entry: &Entry, batches: Seq<Emitted>)
    requires accepted { Accepted catalog.now }
    requires advances { (db : Database) × (a : Applied) × Advances catalog.now db entry.now a batches streams.old.streams }
    requires room { HasRoom streams.old batches }
    ensures { FollowAll catalog.now entry.now batches streams.old.streams streams.new.streams }
{
    // In the order of `StreamsFollow`: what all have passed is dropped before batches join.
    pass_batch(catalog, streams, entry);
    emit_batches(streams, batches);
}
