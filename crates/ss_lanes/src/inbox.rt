//! The inbox of a partition, behind a lock of its own. The hub has one for each partition, and alone calls it.

ghost use Rattle.std.specs.Prelude.{◌≡◌, ◌<◌, ◌∷◌, [], ◌++◌, length, IfErr, OnOk};

use crate::job::Job;
use crate::lookers::Lookers;
use crate::signal::Signal;
use ss_model::Life;
use ss_sched::{Inbox, Task};
use ss_value::NoMemory;
use std::alloc::Global;
use std::sync::atomic::{AtomicBool, AtomicU32, Ordering};
use std::sync::{Condvar, Mutex, Wait};

/// What stands behind the lock: hints and jobs, and whether nobody is to wait for them any more.
#[derive(Drop)]
pub(crate) struct Waiting<I: Life> {
    work: Inbox<Job<I>>,
    stopped: bool,
}

/// Puts a job behind the others. It comes back exactly where there is no room for it.
fn put_into<I: Life>(work: &mut Inbox<Job<I>>, job: Job<I>) -> Result<(), Job<I>>
    ensures ok { OnOk result ((length work.old.jobs < work.old.room) × (work.new.jobs ≡ work.old.jobs ++ job ∷ [])) }
    ensures err { IfErr result (λ j. (j ≡ job) × (length work.old.jobs < work.old.room → ⊥) × (work.new ≡ work.old)) }
{
    if !work.has_room() {
        return Err(job);
    }
    work.put_job(job);
    Ok(())
}

/// The hints and jobs of a partition, which many threads put in and one or more take out.
///
/// No clause can tell how many jobs wait behind the lock, so the room is tested there. Each call takes the lock once at most;
/// `is_short`, `look`, `leave_unserved` and `is_unserved` take none. Only `new` takes memory.
#[derive(Drop)]
pub struct SharedInbox<I: Life> {
    waiting: Mutex<Waiting<I>>,
    moved: Condvar,
    there: Signal,
    // How many jobs wait, told without the lock.
    jobs: AtomicU32,
    unserved: AtomicBool,
}

impl<I: Life> SharedInbox<I> {
    /// An empty inbox with room for this many jobs.
    pub fn new(alloc: Global, jobs: usize) -> Result<SharedInbox<I>, NoMemory> {
        let work = Inbox::new(alloc, jobs)?;
        Ok(SharedInbox {
            waiting: Mutex::new(Waiting {
                work,
                stopped: false,
            }),
            moved: Condvar::new(),
            there: Signal::new(),
            jobs: AtomicU32::new(0),
            unserved: AtomicBool::new(false),
        })
    }

    /// Puts a job behind the others, and wakes one of those who sleep here. It comes back where there is no room for it.
    pub fn put_job<R: Wait>(&self, rt: &R, job: Job<I>) -> Result<(), Job<I>>
        ensures { IfErr result (λ j. j ≡ job) }
    {
        let mut waiting = self.waiting.lock(rt);
        if let Err(job) = put_into(&mut waiting.work, job) {
            return Err(job);
        }
        self.jobs.fetch_add(1, Ordering::Relaxed);
        // The lock is free before anybody can know, so that nobody waits there.
        drop(waiting);
        self.there.raise();
        self.moved.notify_one();
        Ok(())
    }

    /// Puts the hint of a procedure behind the others, where it doesn't wait already, and wakes one of those who sleep here.
    pub fn put_hint<R: Wait>(&self, rt: &R, procedure: u16)
        requires { procedure < 64 }
    {
        self.keep_hint(rt, procedure);
        self.moved.notify_one();
    }

    /// The same for whoever runs the work that waits here, and finds the hint there next: it wakes nobody.
    pub fn keep_hint<R: Wait>(&self, rt: &R, procedure: u16)
        requires { procedure < 64 }
    {
        let mut waiting = self.waiting.lock(rt);
        waiting.work.put_hint(procedure);
        drop(waiting);
        self.there.raise();
    }

    /// Takes the next item: the first hint where one waits, else the first job. Where nothing is told of it takes no lock.
    pub fn take<R: Wait>(&self, rt: &R) -> Option<Task<Job<I>>> {
        if !self.there.is_raised() {
            return None;
        }
        let mut waiting = self.waiting.lock(rt);
        let item = waiting.work.take();
        if let Some(Task::Job(_)) = &item {
            self.jobs.fetch_sub(1, Ordering::Relaxed);
        }
        if waiting.work.is_empty() && !waiting.stopped {
            self.there.lower();
        }
        item
    }

    /// Whether no more than one job waits, so that whoever put one there is next in turn.
    pub fn is_short(&self) -> bool {
        self.jobs.load(Ordering::Relaxed) <= 1
    }

    /// Looks for work as long as that pays, and doesn't sleep.
    pub fn look(&self, lookers: &Lookers) {
        self.there.look(lookers);
    }

    /// Sleeps while nothing is there and `stop` wasn't called.
    pub fn rest<R: Wait>(&self, rt: &R) {
        let _waiting = self.moved.wait_while(rt, self.waiting.lock(rt), |w| {
            w.work.is_empty() && !w.stopped
        });
    }

    /// Ends every rest, those to come too.
    pub fn stop<R: Wait>(&self, rt: &R) {
        let mut waiting = self.waiting.lock(rt);
        waiting.stopped = true;
        self.there.raise();
        self.moved.notify_all();
    }

    /// Notes that nobody but clients takes anything out.
    pub fn leave_unserved(&self) {
        self.unserved.store(true, Ordering::SeqCst);
    }

    /// Whether that was noted.
    pub fn is_unserved(&self) -> bool {
        self.unserved.load(Ordering::SeqCst)
    }
}
