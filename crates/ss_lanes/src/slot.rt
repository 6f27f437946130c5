//! The slot of a client, in which its reply waits behind a lock of its own. The hub has one for each client, and alone calls it.

ghost use Rattle.std.specs.Prelude.{◌≡◌, IfSome, IfNone, Some, None};
ghost use Rattle.ss_lanes.specs.Owning.{IsOwn};

use crate::lookers::Lookers;
use crate::own::is_own;
use crate::reply::Reply;
use crate::signal::Signal;
use crate::ticket::Ticket;
use ss_model::{Asked, Life};
use std::sync::{Condvar, Mutex, Wait};

/// The slot of one client. It has room for one reply, since a client waits for one request at a time.
///
/// Each call takes the lock once at most, but `look` none, and no memory.
#[derive(Drop)]
pub struct ReplySlot<I: Life> {
    reply: Mutex<Option<Reply<I>>>,
    moved: Condvar,
    there: Signal,
}

impl<I: Life> ReplySlot<I> {
    /// An empty slot.
    pub fn new() -> ReplySlot<I> {
        ReplySlot {
            reply: Mutex::new(None),
            moved: Condvar::new(),
            there: Signal::new(),
        }
    }

    /// Puts a reply in, and wakes the client where it sleeps.
    pub fn put<R: Wait>(&self, rt: &R, reply: Reply<I>) {
        let mut found = self.reply.lock(rt);
        *found = Some(reply);
        // The lock is free before the client can know, so that it doesn't wait there.
        drop(found);
        self.there.raise();
        self.moved.notify_all();
    }

    /// Takes the reply that is there where it answers what was asked for with this ticket, and else leaves it. Where no reply
    /// is told of it takes no lock.
    pub fn take<R: Wait>(&self, rt: &R, ticket: &Ticket, what: &Asked) -> Option<Reply<I>>
        ensures { IfSome result (IsOwn ticket.now what.now) }
    {
        if !self.there.is_raised() {
            return None;
        }
        let mut found = self.reply.lock(rt);
        self.there.lower();
        taken(&mut *found, ticket, what)
    }

    /// Looks for a reply as long as that pays, and doesn't sleep.
    pub fn look(&self, lookers: &Lookers) {
        self.there.look(lookers);
    }

    /// Sleeps while no reply is there.
    pub fn rest<R: Wait>(&self, rt: &R) {
        if self.there.is_raised() {
            return;
        }
        let _found = self
            .moved
            .wait_while(rt, self.reply.lock(rt), |r| r.is_none());
    }
}

/// Takes a reply exactly where it answers what was asked for with this ticket, and else leaves it.
fn taken<I: Life>(found: &mut Option<Reply<I>>, ticket: &Ticket, what: &Asked) -> Option<Reply<I>>
    ensures own { IfSome result (λ r. IsOwn ticket.now what.now r × (found.old ≡ Some r) × (found.new ≡ None)) }
    ensures left { IfNone result ((found.new ≡ found.old) × IfSome found.old (λ r. IsOwn ticket.now what.now r → ⊥)) }
{
    let Some(reply) = &*found else { return None };
    if !is_own(reply, ticket, what) {
        return None;
    }
    found.take()
}
