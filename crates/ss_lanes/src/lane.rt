//! A client's side of the engine: a value that the client's thread alone has, with what becomes of it at each answer. It touches
//! no lock.

ghost use Rattle.std.specs.Prelude.{◌≡◌, ◌≢◌, ℕ, ◌+◌, ◌-◌, ◌<◌, ◌≤◌, ◌^◌, [], ◌∷◌, ◌++◌, length, OnOk};
ghost use Rattle.ss_model.specs.declared.entry.Asked.{Asked};
ghost use Rattle.ss_commitlog.specs.declared.role.Role.TheVariants.{Reader, Client};
ghost use Rattle.ss_commitlog.specs.Tokens.{known};
ghost use Rattle.ss_lanes.specs.Answered.{IsAnswered, answer_of};
ghost use Rattle.ss_lanes.specs.Dues.{due_after};
ghost use Rattle.ss_lanes.specs.Lanes.{IsFresh, IsLane, IsSubmitted, lane_view, next_ticket};
ghost use Rattle.ss_lanes.specs.Replies.{more_entries};

use crate::due::Due;
use crate::ticket::Ticket;
use ss_commitlog::{Mark, Note, Placed, Unlisted};
use ss_model::{Answer, Life};
use ss_value::{NoMemory, Reserved};
use std::alloc::Global;
use std::marker::Model;

/// A client's mark and note, the ticket of its next request, its answers, and what of these waits for a receipt.
///
/// By its type mark and note know one list, in which the client has just the entries of its listed answers, each once. So a
/// client reads its own writes. All of these entries but the last 16 at most stand below a receipted count that it has seen
/// posted; and each answer that the disk has failed carries the faults at which it did.
#[derive(Drop)]
pub struct Lane<I: Life> {
    /// The numbers of the next request.
    pub ticket: Ticket,
    /// What of the answers waits for a receipt.
    pub due: Due,
    /// The client's mark, which goes out with each request.
    pub mark: Mark<I>,
    /// The client's note, which stays while the mark is away.
    pub note: Note<I>,
    /// The answers so far.
    pub answers: Reserved<Answer>,
}

impl<I: Life> Model for Lane<I> {
    ghost use Rattle.ss_lanes.specs.Lanes.{LaneView, lane_view, IsLane};

    ghost Value = { LaneView };

    ghost view = { λ l. lane_view l.ticket l.due l.note l.answers };

    ghost invariant = { λ l. IsLane I.clients I.first l.ticket l.due l.mark l.note l.answers.items };
}

impl<I: Life> Lane<I> {
    /// The lane of a client that asked for nothing here yet, and whose next request has this number: 0, or how many of its
    /// requests were answered for good before. Takes no memory.
    pub fn new(alloc: Global, client: u8, start: u64, mark: Mark<I>, note: Note<I>) -> Lane<I>
        requires client { client < I.clients }
        requires mark { mark ≡ known (Client client) [] I.first 0 }
        requires note { note ≡ known Reader [] I.first 0 }
        ensures { IsFresh I.first client start result }
    {
        Lane {
            ticket: Ticket {
                client,
                index: start,
                count: 0,
            },
            due: Due::none(),
            mark,
            note,
            answers: Reserved::new(alloc),
        }
    }

    /// The number of the client's next request. Takes no memory.
    pub fn next_index(&self) -> u64
        ensures { result ≡ self.now.start + length self.now.answers }
    {
        self.ticket.index
    }

    /// The answers so far, in the order of the requests. Takes no memory.
    pub fn answers(&self) -> &[Answer]
        ensures { result.now ≡ self.now.answers }
    {
        self.answers.as_slice()
    }

    /// How many answers were listed since the last receipt that this lane was given, at most 16. Takes no memory.
    pub fn pending(&self) -> u64
        ensures pending { result ≡ self.now.due.pending }
        ensures few { result ≤ 16 }
    {
        self.due.pending
    }

    /// The disk's faults, where this lane was told that it had failed; else 0. Takes no memory.
    pub fn faults(&self) -> u64
        ensures { result ≡ self.now.due.faults }
    {
        self.due.faults
    }

    /// Makes room for this many more answers. Linear in the answers where they have to move; out of memory changes nothing.
    pub fn reserve(&mut self, more: usize) -> Result<(), NoMemory>
        ensures unchanged { self.new ≡ record {
          client = self.old.client;
          start = self.old.start;
          list = self.old.list;
          count = self.old.count;
          due = self.old.due;
          answers = self.old.answers;
          spare = self.new.spare;
        } }
        ensures ok { OnOk result (more ≤ self.new.spare) }
    {
        self.answers.reserve(more)
    }
}

impl<I: Life> Lane<I> {
    ghost use Rattle.std.specs.Prelude.{length};
    ghost use Rattle.ss_model.specs.Replays.{Replays};
    ghost use Rattle.ss_commitlog.specs.Meaning.{listed_of};

    /// The list that a lane knows replays, and has no more entries than its log may. So an answer means something before the
    /// engine is closed. A fact of the type, told to callers; the call does nothing.
    pub fn knows_what_replays(&self)
        ensures replays { Replays I.catalog I.opening (listed_of self.now.list) }
        ensures within { length self.now.list ≤ I.limit }
    {
        self.note.knows_what_replays();
    }
}

/// The lane of its parts. Takes no memory.
pub fn lane_of<I: Life>(
    ticket: Ticket,
    due: Due,
    mark: Mark<I>,
    note: Note<I>,
    answers: Reserved<Answer>,
) -> Lane<I>
    requires { IsLane I.clients I.first ticket due mark note answers.items }
    ensures { result ≡ lane_view ticket due note answers }
{
    Lane {
        ticket,
        due,
        mark,
        note,
        answers,
    }
}

/// The lane with one answer more, once its mark has come back and met its note. Takes no memory.
pub fn answered<I: Life>(
    ticket: Ticket,
    due: Due,
    mark: Mark<I>,
    note: Note<I>,
    mut answers: Reserved<Answer>,
    said: Result<Placed, Unlisted>,
) -> Lane<I>
    requires answered { IsAnswered I.clients I.first ticket due mark note answers.items said }
    requires spare { 1 ≤ answers.spare }
    requires numbered { ticket.index + 1 < 2 ^ 64 }
    ensures client { result.client ≡ ticket.client }
    ensures start { result.start ≡ ticket.index - length answers.items }
    ensures note { (result.list ≡ note.list) × (result.count ≡ note.count) }
    ensures due { result.due ≡ due_after due (answer_of said) }
    ensures answers { result.answers ≡ answers.items ++ answer_of said ∷ [] }
    ensures spare { result.spare + 1 ≡ answers.spare }
{
    let more = more_entries(&said);
    let answer = answer_of(said);
    let due = due.after(&answer);
    answers.add(answer);
    let next = next_ticket(ticket, more);
    lane_of(next, due, mark, note, answers)
}

/// The lane whose request was not sent: it is answered that there was no memory for it. Takes none.
pub fn unsent<I: Life>(lane: Lane<I>) -> Lane<I>
    requires spare { 1 ≤ lane.spare }
    requires going { lane.due.faults ≡ 0 }
    requires numbered { lane.start + length lane.answers + 1 < 2 ^ 64 }
    ensures { (limit : ℕ) (what : Asked) → IsSubmitted I.first limit lane what result }
{
    let Lane {
        ticket,
        due,
        mark,
        note,
        answers,
    } = lane;
    answered(ticket, due, mark, note, answers, Err(Unlisted::NoMemory))
}

/// The lane whose request was not sent: it is answered that the disk has failed, as the client was told. Takes no memory.
pub fn halted<I: Life>(lane: Lane<I>) -> Lane<I>
    requires spare { 1 ≤ lane.spare }
    requires halted { lane.due.faults ≢ 0 }
    requires numbered { lane.start + length lane.answers + 1 < 2 ^ 64 }
    ensures { (limit : ℕ) (what : Asked) → IsSubmitted I.first limit lane what result }
{
    let Lane {
        ticket,
        due,
        mark,
        note,
        mut answers,
    } = lane;
    answers.add(Answer::Halted { faults: due.faults });
    let next = next_ticket(ticket, 0);
    lane_of(next, due, mark, note, answers)
}

/// The ticket of a client's next request, with so many more entries.
fn next_ticket(ticket: Ticket, more: u64) -> Ticket
    requires index { ticket.index + 1 < 2 ^ 64 }
    requires count { ticket.count + more ≤ ticket.index + 1 }
    ensures { result ≡ next_ticket ticket more }
{
    Ticket {
        client: ticket.client,
        index: ticket.index + 1,
        count: ticket.count + more,
    }
}

/// What the client is answered. Takes no memory.
fn answer_of(said: Result<Placed, Unlisted>) -> Answer
    ensures { result ≡ answer_of said }
{
    match said {
        Ok(Placed { place, listed }) => Answer::Listed {
            place,
            outcome: listed.outcome,
        },
        Err(Unlisted::NoMemory) => Answer::NoMemory,
        Err(Unlisted::ListFull { count }) => Answer::ListFull { count },
    }
}

/// How many entries of the client there are more than before.
fn more_entries(said: &Result<Placed, Unlisted>) -> u64
    ensures { result ≡ more_entries said.now }
{
    match said {
        Ok(_) => 1,
        Err(_) => 0,
    }
}
