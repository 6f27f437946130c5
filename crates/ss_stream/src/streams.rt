//! All streams, by number.

ghost use Rattle.std.specs.Prelude.{◌≡◌, ◌≤◌, ◌<◌, ◌+◌, ◌^◌, ℕ, [], map, length, get_or, slice_set, IsOk, IfOk, OnOk, IfErr};
ghost use Rattle.std.specs.List.{range_with_len};
ghost use Rattle.std.specs.Option.{option_copied};
ghost use Rattle.ss_stream.specs.Pending.{emitted_count, pending_at_first, with_batch, passed_by, pending_batch, HasNext, CanResume, cursor_at, resume};
ghost use Rattle.ss_stream.specs.Streams.{stream_at, spare_at, SparesElsewhere, cursors_at, resumed_streams, CanResumeAll};

use crate::cursor::Cursor;
use crate::stream::Stream;
use ss_value::{NoMemory, Reserved, Rows, Seq};
use std::alloc::Global;
use std::marker::Model;

/// The streams of a catalogue, by number: of each the number of batches ever emitted, the batches that some consumer has
/// still to take, and how far each consumer has come.
///
/// Contracts see the list of them, and beside it the room of each: how many emits to it can't fail. A batch is moved in,
/// lent, and dropped when its last consumer has passed it. No call but `duplicate` copies a row. What calls cost:
///
/// - `emit`, `batch`, `emitted_count`, `first_kept`, `reserve`: constant, on average over many calls where room is made.
/// - `pass`: a look at each consumer of the stream; a batch that all of them have passed is dropped.
/// - `duplicate`: a copy of each kept batch. It is for an image of a database, whose writer holds the list's lock no longer
///   than that.
#[derive(Drop)]
pub struct Streams {
    streams: Seq<Stream>,
}

impl Model for Streams {
    ghost use Rattle.ss_stream.specs.Streams.{ReservedStreams, reserved_streams};

    ghost Value = { ReservedStreams };

    ghost view = { λ s. reserved_streams s.streams };
}

/// The cursors of these consumers before the first batch.
fn first_cursors(alloc: Global, consumers: &[u16]) -> Result<Vec<Cursor>, NoMemory>
    ensures { IfOk result (λ cursors. cursors.items ≡ map (cursor_at 0) consumers.now) }
{
    let mut cursors = Vec::new(alloc);
    for consumer in consumers {
        cursors.push(Cursor {
            consumer: *consumer,
            passed: 0,
        })?;
    }
    Ok(cursors)
}

/// The cursors of these consumers, each at its count, and at 0 where it has none.
fn cursors_at(alloc: Global, counts: &[u64], consumers: &[u16]) -> Result<Seq<Cursor>, NoMemory>
    ensures { IfOk result (λ cursors. cursors ≡ cursors_at counts.now consumers.now) }
{
    let mut cursors = Seq::new(alloc);
    for consumer in consumers {
        let passed = match counts.get(usize::from(*consumer)) {
            Some(count) => *count,
            None => 0,
        };
        cursors.push(Cursor {
            consumer: *consumer,
            passed,
        })?;
    }
    Ok(cursors)
}

/// Of each stream the cursors of its consumers.
fn all_cursors(
    alloc: Global,
    counts: &[u64],
    consumers: &[Seq<u16>],
) -> Result<Seq<Seq<Cursor>>, NoMemory>
    ensures { IfOk result (λ lists. lists ≡ map (cursors_at counts.now) consumers.now) }
{
    let mut lists = Seq::new(alloc);
    for consumers in consumers {
        let cursors = cursors_at(alloc, counts, consumers.as_slice())?;
        lists.push(cursors)?;
    }
    Ok(lists)
}

/// The streams with these cursors and kept batches, put into `room`. Both are moved; takes no memory.
///
/// The room is made before, so that `resume` can hand `kept` back whole if there is none.
fn resumed_streams(
    alloc: Global,
    lists: Seq<Seq<Cursor>>,
    kept: Seq<Seq<Rows>>,
    room: Reserved<Stream>,
) -> Streams
    requires nothing { room.items ≡ [] }
    requires room { length lists ≤ room.spare }
    requires lists { length kept ≡ length lists }
    requires each { (s : ℕ) → s < length lists → CanResume (get_or kept s []) (get_or lists s []) }
    ensures { result.streams ≡ map (λ s. resume (get_or kept s []) (get_or lists s [])) (range_with_len 0 (length lists)) }
{
    let mut lists = lists;
    let mut kept = kept;
    let mut streams = room;
    for stream in 0..lists.len() {
        // Each list is moved out of its position, where an empty one is left.
        let cursors = lists.put(stream, Seq::new(alloc));
        let batches = kept.put(stream, Seq::new(alloc));
        streams.add(Stream::resume(cursors, batches));
    }
    Streams {
        streams: streams.into_seq(),
    }
}

impl Streams {
    /// The streams with these consumers, before the first batch. Linear in the consumers.
    pub fn new(alloc: Global, consumers: Seq<Seq<u16>>) -> Result<Streams, NoMemory>
        ensures { IfOk result (λ made. made.streams ≡ map pending_at_first consumers) }
    {
        let mut streams = Reserved::new(alloc);
        streams.reserve(consumers.len())?;
        for consumers in consumers.as_slice() {
            let cursors = first_cursors(alloc, consumers.as_slice())?;
            streams.add(Stream::new(alloc, cursors));
        }
        Ok(Streams {
            streams: streams.into_seq(),
        })
    }

    /// The streams with these consumers, each at its procedure's count in `cursors` (0 where it has none), of which these
    /// batches are kept: of each stream those from its least cursor on.
    ///
    /// Linear in the consumers. The batches are moved; out of memory hands them back.
    pub fn resume(
        alloc: Global,
        consumers: &[Seq<u16>],
        cursors: &[u64],
        kept: Seq<Seq<Rows>>,
    ) -> Result<Streams, (NoMemory, Seq<Seq<Rows>>)>
        requires { CanResumeAll cursors.now consumers.now kept }
        ensures ok { IfOk result (λ made. made.streams ≡ resumed_streams cursors.now consumers.now kept) }
        ensures refused { IfErr result (λ e. e.1 ≡ kept) }
    {
        let Ok(lists) = all_cursors(alloc, cursors, consumers) else {
            return Err((NoMemory, kept));
        };
        let mut room = Reserved::new(alloc);
        if room.reserve(lists.len()).is_err() {
            return Err((NoMemory, kept));
        }
        Ok(resumed_streams(alloc, lists, kept, room))
    }

    /// Equal streams, their batches copied, with whatever room. Linear in the values of the kept batches.
    pub fn duplicate(&self, alloc: Global) -> Result<Streams, NoMemory>
        ensures { IfOk result (λ copy. copy.streams ≡ self.now.streams) }
    {
        let mut copies = Reserved::new(alloc);
        copies.reserve(self.streams.len())?;
        for stream in self.streams.as_slice() {
            let copy = stream.duplicate(alloc)?;
            copies.add(copy);
        }
        Ok(Streams {
            streams: copies.into_seq(),
        })
    }

    /// How many streams there are.
    pub fn len(&self) -> usize
        ensures { result ≡ length self.now.streams }
    {
        self.streams.len()
    }

    /// How many batches of a stream were ever emitted.
    pub fn emitted_count(&self, stream: u16) -> u64
        requires { stream < length self.now.streams }
        ensures { result ≡ emitted_count (stream_at self.now stream) }
    {
        self.streams.at(usize::from(stream)).emitted_count()
    }

    /// How many batches of a stream all its consumers have passed: the number of the first that is kept, where one is.
    pub fn first_kept(&self, stream: u16) -> u64
        requires { stream < length self.now.streams }
        ensures { result ≡ (stream_at self.now stream).first }
    {
        self.streams.at(usize::from(stream)).first_kept()
    }

    /// The batch of a number of a stream, and None exactly where all consumers have passed it or it isn't emitted yet.
    pub fn batch(&self, stream: u16, r: u64) -> Option<&Rows>
        requires { stream < length self.now.streams }
        ensures { option_copied result ≡ pending_batch (stream_at self.now stream) r }
    {
        self.streams.at(usize::from(stream)).batch(r)
    }

    /// Makes room for one emit to a stream. Out of memory leaves the streams.
    pub fn reserve(&mut self, stream: u16) -> Result<(), NoMemory>
        requires { stream < length self.old.streams }
        ensures unchanged { self.new.streams ≡ self.old.streams }
        ensures ok { OnOk result (1 ≤ spare_at self.new stream) }
        ensures room { spare_at self.old stream ≤ spare_at self.new stream }
        ensures elsewhere { SparesElsewhere self.old self.new stream }
    {
        let Some(found) = self.streams.get_mut(usize::from(stream)) else {
            unreachable!()
        };
        found.reserve()
    }

    /// Puts a batch behind the others of a stream, and answers its number. Where there is room it can't fail, and uses up
    /// the room of one emit at most. Out of memory hands the rows back and leaves the streams.
    pub fn emit(&mut self, stream: u16, rows: Rows) -> Result<u64, (NoMemory, Rows)>
        requires there { stream < length self.old.streams }
        requires few { emitted_count (stream_at self.old stream) < 2 ^ 62 }
        ensures ok { IfOk result (λ r. r ≡ emitted_count (stream_at self.old stream)) }
        ensures joined { OnOk result (self.new.streams ≡ slice_set self.old.streams stream (with_batch (stream_at self.old stream) rows)) }
        ensures refused { IfErr result (λ e. (self.new.streams ≡ self.old.streams) × (e.1 ≡ rows)) }
        ensures free { 1 ≤ spare_at self.old stream → IsOk result }
        ensures room { spare_at self.old stream ≤ spare_at self.new stream + 1 }
        ensures elsewhere { SparesElsewhere self.old self.new stream }
    {
        let Some(found) = self.streams.get_mut(usize::from(stream)) else {
            unreachable!()
        };
        found.emit(rows)
    }

    /// Moves a consumer of a stream one batch further. A batch that all consumers have then passed is dropped. Takes no
    /// memory.
    pub fn pass(&mut self, consumer: u16, stream: u16)
        requires there { stream < length self.old.streams }
        requires next { HasNext (stream_at self.old stream) consumer }
        ensures passed { self.new.streams ≡ slice_set self.old.streams stream (passed_by (stream_at self.old stream) consumer) }
        ensures room { spare_at self.old stream ≤ spare_at self.new stream }
        ensures elsewhere { SparesElsewhere self.old self.new stream }
    {
        let Some(found) = self.streams.get_mut(usize::from(stream)) else {
            unreachable!()
        };
        found.pass(consumer)
    }
}
