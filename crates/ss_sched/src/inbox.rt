//! The inbox of a partition: hints and jobs that wait.

ghost use Rattle.std.specs.Prelude.{◌≡◌, ◌≤◌, ◌<◌, [], ◌∷◌, ◌++◌, length, IfOk, IfNone, IfSome, IsTrue, ◌↔◌};
ghost use Rattle.ss_sched.specs.Lanes.{with_hint, Taken, IsMarked};

use ss_value::NoMemory;
use std::alloc::Global;
use std::collections::VecDeque;
use std::marker::Model;

/// The most hints that can wait: one for each procedure, of which a catalogue has 64 at most.
const HINTS: usize = 64;

/// One item of an inbox.
#[derive(Drop)]
pub enum Task<J> {
    /// The number of a procedure that may be ready.
    Hint(u16),
    /// A job: what a client asks for.
    Job(J),
}

/// What waits for a partition: hints that procedures may be ready, and jobs of clients.
///
/// Each lane is first in, first out, and hints go ahead of jobs. The hint of a procedure waits once at most, so there is
/// always room for it; `new` says how many jobs there is room for. All calls but `new` take constant time and no memory, so
/// no hint is lost where memory is short.
///
/// Source: the fast track of S-Store's scheduler, in which triggered work goes ahead of client work (Meehan et al.,
/// PVLDB 8, 2015, section 3.2).
#[derive(Drop)]
pub struct Inbox<J> {
    hints: VecDeque<u16>,
    /// For each procedure, whether its hint waits, so that `hints` is never searched for it.
    waits: [bool; HINTS],
    jobs: VecDeque<J>,
}

impl<J> Model for Inbox<J> {
    ghost use Rattle.std.specs.Prelude.{◌≤◌};
    ghost use Rattle.std.specs.VecDeque.{deque_capacity};
    ghost use Rattle.ss_sched.specs.Lanes.{Lanes, AreHints, IsMarked};

    ghost Value = { Lanes J };

    ghost view = { λ i. record { hints = i.hints.items; jobs = i.jobs.items; room = deque_capacity i.jobs } };

    ghost invariant = { λ i. AreHints i.hints.items × IsMarked i.hints.items i.waits × (64 ≤ deque_capacity i.hints) };
}

/// The flags where no hint waits.
fn no_marks() -> [bool; HINTS]
    ensures { IsMarked [] result }
{
    [false; HINTS]
}

impl<J> Inbox<J> {
    /// An empty inbox with room for this many jobs.
    pub fn new(alloc: Global, jobs: usize) -> Result<Inbox<J>, NoMemory>
        ensures ok { IfOk result (λ i. i.hints ≡ []) }
        ensures jobs { IfOk result (λ i. i.jobs ≡ []) }
        ensures room { IfOk result (λ i. i.room ≡ jobs) }
    {
        let hints = VecDeque::with_capacity(alloc, HINTS)?;
        let jobs = VecDeque::with_capacity(alloc, jobs)?;
        Ok(Inbox {
            hints,
            waits: no_marks(),
            jobs,
        })
    }

    /// Whether nothing waits.
    pub fn is_empty(&self) -> bool
        ensures { IsTrue result ↔ ((self.now.hints ≡ []) × (self.now.jobs ≡ [])) }
    {
        self.hints.is_empty() && self.jobs.is_empty()
    }

    /// Whether there is room for one job more.
    pub fn has_room(&self) -> bool
        ensures { IsTrue result ↔ (length self.now.jobs < self.now.room) }
    {
        self.jobs.len() < self.jobs.capacity()
    }

    /// Puts a job behind the others.
    pub fn put_job(&mut self, job: J)
        requires { length self.old.jobs < self.old.room }
        ensures jobs { self.new.jobs ≡ self.old.jobs ++ job ∷ [] }
        ensures hints { self.new.hints ≡ self.old.hints }
        ensures room { self.new.room ≡ self.old.room }
    {
        self.jobs.push_back_reserved(job)
    }

    /// Puts the hint of a procedure behind the others. Where it waits already, nothing changes.
    pub fn put_hint(&mut self, procedure: u16)
        requires { procedure < 64 }
        ensures hints { self.new.hints ≡ with_hint self.old.hints procedure }
        ensures few { length self.new.hints ≤ 64 }
        ensures jobs { self.new.jobs ≡ self.old.jobs }
        ensures room { self.new.room ≡ self.old.room }
    {
        if self.waits[usize::from(procedure)] {
            return;
        }
        self.waits[usize::from(procedure)] = true;
        // There is room: each of the 64 procedures waits once at most.
        self.hints.push_back_reserved(procedure)
    }

    /// Takes the next item: the first hint where one waits, else the first job; None exactly where nothing waits.
    pub fn take(&mut self) -> Option<Task<J>>
        ensures some { IfSome result (λ work. Taken self.old work self.new) }
        ensures none { IfNone result ((self.old.hints ≡ []) × (self.old.jobs ≡ []) × (self.new ≡ self.old)) }
    {
        if let Some(procedure) = self.hints.pop_front() {
            self.waits[usize::from(procedure)] = false;
            return Some(Task::Hint(procedure));
        }
        match self.jobs.pop_front() {
            Some(job) => Some(Task::Job(job)),
            None => None,
        }
    }
}
