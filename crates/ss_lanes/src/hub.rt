//! What clients share with those who run their requests: an inbox for each partition, a slot for each client, and the commit
//! log. Each inbox and each slot has a lock of its own, which a call here takes and lets go.
//!
//! A client puts its job and takes its reply, and rests meanwhile (`put_job`, `take_reply`, `rest_in_turn`, `rest_at_slot`), by
//! `client/send` of `ss_engine`. Who runs what waits takes it, puts hints, and answers (`take`, `put_hint`, `reply`, `refuse`),
//! or looks and rests, by its folder `partition`.

ghost use Rattle.std.specs.Prelude.{◌≡◌, ◌<◌, length, IfOk, IfErr, IfSome};
ghost use Rattle.ss_commitlog.specs.declared.role.Role.TheVariants.{Client};
ghost use Rattle.ss_lanes.specs.Owning.{IsOwn};
ghost use Rattle.ss_lanes.specs.Replies.{MaySay};

use crate::inbox::SharedInbox;
use crate::job::Job;
use crate::lookers::Lookers;
use crate::reply::{Reply, reply_of};
use crate::slot::ReplySlot;
use crate::ticket::Ticket;
use ss_commitlog::{CommitLog, Mark, Placed, Unlisted};
use ss_model::{Asked, Life};
use ss_sched::Task;
use ss_value::NoMemory;
use std::alloc::Global;
use std::sync::Wait;

/// The commit log, the inbox of each partition and the slot of each client, which threads share.
///
/// It calls nobody and runs nothing: who waits here for an answer, and finds that the inbox has no executor, runs the work
/// itself. Each call that names a partition or a client takes its inbox's or its slot's lock once at most. Only `new` takes
/// memory.
#[derive(Drop)]
pub struct Hub<I: Life> {
    /// The list of executions, with a lock of its own.
    pub log: CommitLog<I>,
    inboxes: Vec<SharedInbox<I>>,
    slots: Vec<ReplySlot<I>>,
    lookers: Lookers,
    ghost inboxes_are: { length inboxes.items ≡ I.parts },
    ghost slots_are: { length slots.items ≡ I.clients },
}

impl<I: Life> Hub<I> {
    /// Empty inboxes and slots before a log. Each inbox has room for a job of each client, so none is ever without.
    pub fn new(alloc: Global, log: CommitLog<I>, parts: u8, clients: u8) -> Result<Hub<I>, NoMemory>
        requires { (parts ≡ I.parts) × (clients ≡ I.clients) }
    {
        let inboxes = inboxes(alloc, parts, usize::from(clients))?;
        let slots = slots(alloc, clients)?;
        Ok(Hub {
            log,
            inboxes,
            slots,
            lookers: Lookers::new(),
        })
    }

    /// The log, once nobody shares it any more; jobs and replies that still wait are dropped.
    pub fn into_log(self) -> CommitLog<I>
        ensures { result ≡ self.log }
    {
        let Hub { log, .. } = self;
        log
    }

    /// Puts a job behind the others in the inbox of a partition, and wakes one of those who sleep there. It comes back where
    /// there is no room for it.
    pub fn put_job<R: Wait>(&self, rt: &R, p: u8, job: Job<I>) -> Result<(), Job<I>>
        requires { p < I.parts }
        ensures { IfErr result (λ j. j ≡ job) }
    {
        self.inboxes[p as usize].put_job(rt, job)
    }

    /// Takes the next item of a partition's inbox: the first hint where one waits, else the first job.
    pub fn take<R: Wait>(&self, rt: &R, p: u8) -> Option<Task<Job<I>>>
        requires { p < I.parts }
    {
        self.inboxes[p as usize].take(rt)
    }

    /// Puts the hint of a procedure into a partition's inbox, and wakes its executor where that sleeps. A hint from whoever runs
    /// that partition's work is found there next, and wakes nobody.
    pub fn put_hint<R: Wait>(&self, rt: &R, from: u8, p: u8, procedure: u16)
        requires part { p < I.parts }
        requires hint { procedure < 64 }
    {
        let inbox = &self.inboxes[p as usize];
        if from == p {
            inbox.keep_hint(rt, procedure);
        } else {
            inbox.put_hint(rt, procedure);
        }
    }

    /// Puts the reply to what went out with a ticket into its client's slot, and wakes the client.
    pub fn reply<R: Wait>(
        &self,
        rt: &R,
        ticket: Ticket,
        mark: Mark<I>,
        said: Result<Placed, Unlisted>,
    )
        requires client { ticket.client < I.clients }
        requires mark { mark.role ≡ Client ticket.client }
        requires may_say { MaySay I.first I.limit ticket mark.list said }
    {
        let slot = &self.slots[ticket.client as usize];
        slot.put(rt, reply_of(ticket, mark, said));
    }

    /// Gives a job back unrun: its client is answered that there was no memory for it.
    pub fn refuse<R: Wait>(&self, rt: &R, job: Job<I>) {
        let Job { ticket, mark, .. } = job;
        self.reply(rt, ticket, mark, Err(Unlisted::NoMemory));
    }

    /// Takes the reply out of its client's slot where it answers what was asked for with this ticket, and else leaves it.
    pub fn take_reply<R: Wait>(&self, rt: &R, ticket: &Ticket, what: &Asked) -> Option<Reply<I>>
        requires { ticket.now.client < I.clients }
        ensures { IfSome result (IsOwn ticket.now what.now) }
    {
        self.slots[ticket.client as usize].take(rt, ticket, what)
    }

    /// Sleeps while no reply is in the slot of a client.
    pub fn rest_at_slot<R: Wait>(&self, rt: &R, client: u8)
        requires { client < I.clients }
    {
        self.slots[client as usize].rest(rt);
    }

    /// The same for a client whose job waits in the inbox of a partition. Where that job is next in turn it looks for the reply
    /// as long as that pays, and sleeps then; who is behind others leaves its processor to them.
    pub fn rest_in_turn<R: Wait>(&self, rt: &R, p: u8, client: u8)
        requires part { p < I.parts }
        requires client { client < I.clients }
    {
        if self.inboxes[p as usize].is_short() {
            self.slots[client as usize].look(&self.lookers);
        }
        self.rest_at_slot(rt, client);
    }

    /// How many processors there are: fewer threads than that look for work or answers instead of sleeping.
    pub fn look_with(&self, processors: usize) {
        let most = processors.saturating_sub(1).min(64);
        self.lookers.allow(most as u32);
    }

    /// Looks for work in the inbox of a partition as long as it pays, and doesn't sleep.
    pub fn look(&self, p: u8)
        requires { p < I.parts }
    {
        self.inboxes[p as usize].look(&self.lookers);
    }

    /// Sleeps while the inbox of a partition is empty and `stop` wasn't called. Takes no memory.
    pub fn rest<R: Wait>(&self, rt: &R, p: u8)
        requires { p < I.parts }
    {
        self.inboxes[p as usize].rest(rt);
    }

    /// Ends every rest at an inbox, those to come too. Takes no memory.
    pub fn stop<R: Wait>(&self, rt: &R) {
        for inbox in self.inboxes.iter() {
            inbox.stop(rt);
        }
    }

    /// Tells that the inbox of a partition has no executor. From then on whoever waits for an answer from it pumps it. Takes
    /// no memory and no lock.
    pub fn no_executor(&self, p: u8)
        requires { p < I.parts }
    {
        self.inboxes[p as usize].leave_unserved();
    }

    /// Whether that was told. Takes no lock.
    pub fn has_no_executor(&self, p: u8) -> bool
        requires { p < I.parts }
    {
        self.inboxes[p as usize].is_unserved()
    }
}

/// An empty inbox for each partition.
fn inboxes<I: Life>(alloc: Global, parts: u8, jobs: usize) -> Result<Vec<SharedInbox<I>>, NoMemory>
    ensures { IfOk result (λ made. length made.items ≡ parts) }
{
    let mut made = Vec::with_capacity(alloc, usize::from(parts))?;
    for _ in 0..parts {
        made.push_reserved(SharedInbox::new(alloc, jobs)?);
    }
    Ok(made)
}

/// An empty slot for each client.
fn slots<I: Life>(alloc: Global, clients: u8) -> Result<Vec<ReplySlot<I>>, NoMemory>
    ensures { IfOk result (λ made. length made.items ≡ clients) }
{
    let mut made = Vec::with_capacity(alloc, usize::from(clients))?;
    for _ in 0..clients {
        made.push_reserved(ReplySlot::new());
    }
    Ok(made)
}
