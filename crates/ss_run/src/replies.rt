//! The answers to each client so far.

ghost use Rattle.std.specs.Prelude.{◌≡◌, ◌≤◌, ◌<◌, ◌+◌, ◌++◌, ◌∷◌, [], ℕ, map, length, slice_set, get_or, OnOk, IfOk};
ghost use Rattle.std.specs.List.{AllByRecursion};
ghost use Rattle.ss_model.specs.declared.entry.Request.{Request};
ghost use Rattle.ss_report_laws.specs.Replies.{answers_of, requests_of};
ghost use Rattle.ss_run.specs.Replies.{SparesElsewhere, no_answers, spare_of};

use ss_model::{Answer, Request};
use ss_value::{NoMemory, Reserved, Seq};
use std::alloc::Global;
use std::marker::Model;

/// How many clients there are, by numbers from 0 on.
pub const CLIENTS: usize = 8;

/// The answers to one client, with room for more.
///
/// Contracts see the answers, and the room: how many more can be added without memory.
#[derive(Drop)]
struct ClientReplies {
    answers: Vec<Answer>,
}

impl Model for ClientReplies {
    ghost use Rattle.ss_run.specs.Replies.{ReservedAnswers, coded_answers};

    ghost Value = { ReservedAnswers };

    ghost coded = { coded_answers };

    ghost use Rattle.std.specs.Prelude.{vec_capacity, vec_len, ◌-◌};

    ghost view = { λ s. record { answers = s.answers.items; spare = vec_capacity s.answers - vec_len s.answers } };
}

impl ClientReplies {
    /// No answer yet, with room for this many.
    fn new(alloc: Global, room: usize) -> Result<ClientReplies, NoMemory>
        ensures ok { IfOk result (λ made. made.answers ≡ []) }
        ensures room { IfOk result (λ made. room ≤ made.spare) }
    {
        let answers = Vec::with_capacity(alloc, room)?;
        Ok(ClientReplies { answers })
    }

    /// How many answers there are.
    fn len(&self) -> usize
        ensures { result ≡ length self.now.answers }
    {
        self.answers.len()
    }

    /// Adds an answer, for which there is room.
    fn add(&mut self, answer: Answer)
        requires { 1 ≤ self.old.spare }
        ensures answers { self.new.answers ≡ self.old.answers ++ answer ∷ [] }
        ensures room { self.new.spare + 1 ≡ self.old.spare }
    {
        self.answers.push_reserved(answer)
    }

    /// The answers alone, moved and not copied.
    fn into_seq(self) -> Seq<Answer>
        ensures { result ≡ self.answers }
    {
        let ClientReplies { answers } = self;
        Seq::from_vec(answers)
    }
}

/// The answers to each client so far, with room for those to come, so that out of memory never loses one.
///
/// Contracts see the answers by client, and the room of each: how many more can be added without memory.
#[derive(Drop)]
pub struct Replies {
    clients: Seq<ClientReplies>,
}

impl Model for Replies {
    ghost use Rattle.ss_run.specs.Replies.{HeldReplies, held_replies};

    ghost Value = { HeldReplies };

    ghost view = { λ s. held_replies s.clients };
}

/// How many of these requests are a client's.
fn count_requests(requests: &[Request], client: u8) -> usize
    ensures { result ≡ length (requests_of client requests.now) }
{
    let mut count = 0;
    for request in requests {
        if request.client == client {
            count += 1;
        }
    }
    count
}

impl Replies {
    /// No answer yet, with room for one to each of these requests. Looks at each request once for each client.
    pub fn new(alloc: Global, requests: &[Request]) -> Result<Replies, NoMemory>
        ensures ok { IfOk result (λ made. made.answers ≡ no_answers) }
        ensures room { IfOk result (λ made. (client : ℕ) → client < 8 → length (requests_of client requests.now) ≤ spare_of made client) }
    {
        let mut clients = Reserved::new(alloc);
        clients.reserve(CLIENTS)?;
        for client in 0..CLIENTS {
            let room = count_requests(requests, client as u8);
            let replies = ClientReplies::new(alloc, room)?;
            clients.add(replies);
        }
        Ok(Replies {
            clients: clients.into_seq(),
        })
    }

    /// How many answers a client has had, in constant time.
    pub fn count(&self, client: u8) -> u64
        requires { client < length self.now.answers }
        ensures { result ≡ length (answers_of self.now.answers client) }
    {
        self.clients.at(usize::from(client)).len() as u64
    }

    /// Adds an answer to a client, for which there is room, in constant time and without memory.
    pub fn add(&mut self, client: u8, answer: Answer)
        requires there { client < length self.old.answers }
        requires room { 1 ≤ spare_of self.old client }
        ensures answers { self.new.answers ≡ slice_set self.old.answers client (answers_of self.old.answers client ++ answer ∷ []) }
        ensures room { spare_of self.new client + 1 ≡ spare_of self.old client }
        ensures elsewhere { SparesElsewhere self.old self.new client }
    {
        let Some(found) = self.clients.get_mut(usize::from(client)) else {
            unreachable!()
        };
        found.add(answer)
    }

    /// The answers by client, moved and not copied, in a list that has room for them. Takes no memory.
    pub fn into_lists(self, room: Reserved<Seq<Answer>>) -> Seq<Seq<Answer>>
        requires empty { room.items ≡ [] }
        requires room { length self.answers ≤ room.spare }
        ensures { result ≡ self.answers }
    {
        let Replies { clients } = self;
        let mut lists = room;
        for replies in clients.into_vec() {
            lists.add(replies.into_seq());
        }
        lists.into_seq()
    }
}
