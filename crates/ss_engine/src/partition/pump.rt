//! The engine runs the work of its inboxes, and who does so sleeps there while nothing waits. It takes from the inbox under its
//! lock, and lets go of that before `serve` or `follow` runs what was taken. `session/threads` calls it for executors, and
//! `client/send` where there is none.

ghost use Rattle.std.specs.Prelude.{◌<◌};
ghost use Rattle.ss_engine.specs.Pumped.{IsPumped};
ghost use Rattle.ss_engine.specs.Tried.{IsTried};

use crate::engine::Engine;
use crate::partition::pumped::Pumped;
use ss_commitlog::Note;
use ss_model::Life;
use ss_proc::Runner;
use ss_sched::Task;
use ss_settle::Gate;
use ss_turns::Works;
use std::alloc::Global;
use std::sync::Wait;

impl<I: Life, N: Runner + Drop, G: Gate + Drop> Engine<I, N, G> {
    /// Takes one item of this partition's inbox and runs it: first the hints, then the jobs, and where nothing waits the first
    /// procedure that is ready at home there. A hint whose procedure isn't ready is dropped, and the next item taken.
    ///
    /// It answers for the list that the lent note then knows (`IsPumped`), instead of for what was in the inbox,
    /// because that stands behind a lock.
    ///
    /// Executors call it, and clients that wait for an answer from an inbox without an executor; each lends it a note. Takes the
    /// inbox's lock for each item that is signalled, the log's and the bays of the entry to run it, the client's slot to answer a
    /// job, and the inboxes of other homes to wake them. Touches no disk.
    pub fn pump<R: Wait>(&self, rt: &R, alloc: Global, note: &mut Note<I>, p: u8) -> Pumped
        requires { p < I.parts }
        ensures { IsPumped I.catalog I.parts I.opening I.first I.limit p note.old note.new result }
    {
        let works = self.works(rt, alloc);
        for _ in rt.forever() {
            if let Some(did) = self.pump_once(&works, note, p) {
                return did;
            }
        }
        unreachable!()
    }

    /// The same with one item alone. None: it was a hint whose procedure isn't ready, or what was ready is so no more.
    fn pump_once<R: Wait>(
        &self,
        works: &Works<I, N, R>,
        note: &mut Note<I>,
        p: u8,
    ) -> Option<Pumped>
        requires { p < I.parts }
        ensures { IsTried I.catalog I.parts I.opening I.first I.limit p note.old note.new result }
    {
        match self.hub.take(works.rt, p) {
            Some(Task::Job(job)) => Some(self.serve(works, note, p, job)),
            Some(Task::Hint(procedure)) => self.follow(works, note, p, procedure),
            None => self.look_around(works, note, p),
        }
    }

    /// Waits while the inbox of a partition is empty and `stop` wasn't called. Takes no memory. Its executor calls it.
    pub fn rest<R: Wait>(&self, rt: &R, p: u8)
        requires { p < I.parts }
    {
        self.hub.rest(rt, p);
    }

    /// Ends every rest at an inbox, those to come too. Takes no memory. The thread of the session calls it.
    pub fn stop<R: Wait>(&self, rt: &R) {
        self.hub.stop(rt);
    }

    /// Tells that the inbox of a partition has no executor. From then on whoever waits for an answer from it pumps it. Takes
    /// no memory and no lock.
    pub fn no_executor(&self, p: u8)
        requires { p < I.parts }
    {
        self.hub.no_executor(p);
    }
}
