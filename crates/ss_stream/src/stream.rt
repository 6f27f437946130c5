//! The batches of one stream that some consumer has still to take.

ghost use Rattle.std.specs.Prelude.{◌≡◌, ◌≤◌, ◌<◌, ◌+◌, ◌-◌, ◌^◌, ◌∷◌, ◌++◌, map, drop, length, [], IsOk, IfOk, OnOk, IfErr, OnErr};
ghost use Rattle.std.specs.Option.{option_copied};
ghost use Rattle.std.specs.List.{AllByRecursion};
ghost use Rattle.std.specs.VecDeque.{deque_capacity};
ghost use Rattle.ss_stream.specs.Pending.{emitted_count, least_cursor, least_passed, pending_at_first, pending_from, with_batch, moved_cursor, passed_by, pending_batch, HasNext, CanResume, resume};

use crate::cursor::Cursor;
use ss_value::{Copies, NoMemory, Rows, Seq};
use std::alloc::Global;
use std::collections::VecDeque;
use std::marker::Model;

/// The batches of a stream from the first one that some consumer has still to take.
///
/// Contracts see that first number, the batches from there on, the cursors, and the room: how many emits can't fail.
#[derive(Drop)]
pub struct Stream {
    first: u64,
    batches: VecDeque<Rows>,
    cursors: Vec<Cursor>,
}

impl Model for Stream {
    ghost use Rattle.ss_stream.specs.Pending.{ReservedStream, coded_reserved};

    ghost Value = { ReservedStream };

    ghost coded = { coded_reserved };

    ghost use Rattle.std.specs.Prelude.{◌-◌};
    ghost use Rattle.std.specs.VecDeque.{deque_capacity, deque_len};
    ghost use Rattle.ss_stream.specs.Pending.{IsPending, reserved_stream};

    ghost view = { λ s. reserved_stream s.first s.batches.items s.cursors.items (deque_capacity s.batches - deque_len s.batches) };

    ghost invariant = { λ s. IsPending (record { first = s.first; batches = s.batches.items; cursors = s.cursors.items }) };
}

/// The least of these cursors, and of `ever`, the number of batches ever emitted. So without a cursor all batches count as
/// passed, and none is kept.
fn least_passed(ever: u64, cursors: &[Cursor]) -> u64
    ensures { result ≡ least_passed ever cursors.now }
{
    let mut least = ever;
    for cursor in cursors {
        least = least.min(cursor.passed);
    }
    least
}

/// The least of these cursors, and 0 where there is none.
fn least_cursor(cursors: &[Cursor]) -> u64
    ensures { result ≡ least_cursor cursors.now }
{
    match cursors.first() {
        Some(cursor) => least_passed(cursor.passed, cursors),
        None => 0,
    }
}

/// A cursor, one batch further if it is this consumer's.
fn move_cursor(cursor: Cursor, consumer: u16) -> Cursor
    requires { cursor.consumer ≡ consumer → cursor.passed < 2 ^ 62 }
    ensures { result ≡ moved_cursor consumer cursor }
{
    if cursor.consumer != consumer {
        return cursor;
    }
    Cursor {
        consumer: cursor.consumer,
        passed: cursor.passed + 1,
    }
}

/// Moves the cursor of this consumer one batch further.
fn move_cursors(cursors: &mut Vec<Cursor>, consumer: u16)
    requires { AllByRecursion (λ c. c.consumer ≡ consumer → c.passed < 2 ^ 62) cursors.old.items }
    ensures { cursors.new.items ≡ map (moved_cursor consumer) cursors.old.items }
{
    for cursor in cursors.iter_mut() {
        *cursor = move_cursor(*cursor, consumer);
    }
}

/// Drops the batches before the number `least`, of batches of which the first has the number `first`. Takes no memory.
///
/// It has the batches alone, and not the stream: while the cursors have moved and the first number hasn't, the invariant of
/// `Stream` doesn't hold.
fn drop_taken(first: u64, batches: &mut VecDeque<Rows>, least: u64)
    requires rises { first ≤ least }
    requires within { least ≤ first + length batches.old.items }
    ensures items { batches.new.items ≡ drop (least - first) batches.old.items }
    ensures room { deque_capacity batches.new ≡ deque_capacity batches.old }
{
    let mut at = first;
    while at < least {
        batches.pop_front();
        at += 1;
    }
}

/// Puts copies of these batches behind others. Linear in their values. Out of memory may leave some of them there.
fn push_copies(alloc: Global, copies: &mut Seq<Rows>, batches: &[Rows]) -> Result<(), NoMemory>
    ensures { OnOk result (copies.new ≡ copies.old ++ batches.now) }
{
    for rows in batches {
        let copy = rows.duplicate(alloc)?;
        copies.push(copy)?;
    }
    Ok(())
}

impl Stream {
    /// The stream with these cursors, before its first batch. Takes no memory.
    pub fn new(alloc: Global, cursors: Vec<Cursor>) -> Stream
        requires { AllByRecursion (λ c. c.passed ≡ 0) cursors.items }
        ensures { result.pending ≡ record { first = 0; batches = []; cursors = cursors.items } }
    {
        Stream {
            first: 0,
            batches: VecDeque::new(alloc),
            cursors,
        }
    }

    /// The stream with these cursors and these batches, whose first is the one that the least cursor has still to pass; without a
    /// cursor there is no batch, and none was ever emitted. Both are moved. Takes no memory.
    pub fn resume(cursors: Seq<Cursor>, kept: Seq<Rows>) -> Stream
        requires { CanResume kept cursors }
        ensures { result.pending ≡ resume kept cursors }
    {
        Stream {
            first: least_cursor(cursors.as_slice()),
            batches: VecDeque::from(kept.into_vec()),
            cursors: cursors.into_vec(),
        }
    }

    /// An equal stream, its batches copied, with whatever room. Linear in their values and in the cursors.
    pub fn duplicate(&self, alloc: Global) -> Result<Stream, NoMemory>
        ensures { IfOk result (λ copy. copy.pending ≡ self.now.pending) }
    {
        let cursors = Vec::from_slice(alloc, self.cursors.as_slice())?;
        let (front, back) = self.batches.as_slices();
        let mut batches = Seq::with_capacity(alloc, self.batches.len())?;
        push_copies(alloc, &mut batches, front)?;
        push_copies(alloc, &mut batches, back)?;
        Ok(Stream {
            first: self.first,
            batches: VecDeque::from(batches.into_vec()),
            cursors,
        })
    }

    /// How many batches all consumers have passed: the number of the first one that is kept, where one is. Constant.
    pub fn first_kept(&self) -> u64
        ensures { result ≡ self.now.pending.first }
    {
        self.first
    }

    /// How many batches were ever emitted.
    pub fn emitted_count(&self) -> u64
        ensures { result ≡ emitted_count self.now.pending }
    {
        self.first + self.batches.len() as u64
    }

    /// Makes room for one emit. Out of memory leaves the stream. Constant on average over many calls.
    pub fn reserve(&mut self) -> Result<(), NoMemory>
        ensures unchanged { self.new.pending ≡ self.old.pending }
        ensures room { self.old.spare ≤ self.new.spare }
        ensures ok { OnOk result (1 ≤ self.new.spare) }
    {
        match self.batches.reserve(1) {
            Ok(()) => Ok(()),
            Err(_) => Err(NoMemory),
        }
    }

    /// Puts a batch behind the others, and answers its number. Where there is room it can't fail. Out of memory hands the
    /// rows back. Constant on average over many calls.
    pub fn emit(&mut self, rows: Rows) -> Result<u64, (NoMemory, Rows)>
        requires { emitted_count self.old.pending < 2 ^ 62 }
        ensures ok { IfOk result (λ r. r ≡ emitted_count self.old.pending) }
        ensures joined { OnOk result (self.new.pending ≡ with_batch self.old.pending rows) }
        ensures refused { IfErr result (λ e. (self.new.pending ≡ self.old.pending) × (e.1 ≡ rows)) }
        ensures room { self.old.spare ≤ self.new.spare + 1 }
        ensures free { 1 ≤ self.old.spare → IsOk result }
    {
        let number = self.first + self.batches.len() as u64;
        if self.cursors.is_empty() {
            // Nobody will take it, so it is counted and dropped. No accepted catalogue has such a stream.
            self.first = number + 1;
            return Ok(number);
        }
        match self.batches.push_back(rows) {
            Ok(()) => Ok(number),
            Err(refused) => Err((NoMemory, refused.value)),
        }
    }

    /// The batch of a number, and None exactly where all consumers have passed it or it isn't emitted yet. Constant.
    pub fn batch(&self, r: u64) -> Option<&Rows>
        ensures { option_copied result ≡ pending_batch self.now.pending r }
    {
        if r < self.first {
            return None;
        }
        let Ok(at) = usize::try_from(r - self.first) else {
            return None;
        };
        self.batches.get(at)
    }

    /// Moves a consumer one batch further, and drops what all consumers have then passed. Linear in the cursors.
    pub fn pass(&mut self, consumer: u16)
        requires { HasNext self.old.pending consumer }
        ensures passed { self.new.pending ≡ passed_by self.old.pending consumer }
        ensures room { self.old.spare ≤ self.new.spare }
    {
        let ever = self.first + self.batches.len() as u64;
        move_cursors(&mut self.cursors, consumer);
        let least = least_passed(ever, self.cursors.as_slice());
        drop_taken(self.first, &mut self.batches, least);
        self.first = least;
    }
}
