//! The next step of a procedure that may be ready, which `pump` asks for where it has a hint or nothing waits. It is looked up
//! under the commit log's lock first; then its partitions are taken from the bays, it runs, they go back, and hints are put into
//! inboxes.

ghost use Rattle.std.specs.Prelude.{◌≡◌, ◌<◌, true};
ghost use Rattle.ss_engine.specs.Tried.{StepsAt, IsOfProcedure, IsTried, tried_of};

use crate::engine::Engine;
use crate::partition::least::first_of;
use crate::partition::pumped::Pumped;
use ss_commitlog::{Note, Placed, Unlisted};
use ss_hand::show_note;
use ss_model::{Entry, Life};
use ss_partition::procedure_touch_set;
use ss_proc::Runner;
use ss_settle::Gate;
use ss_turns::{Works, execute_step};
use std::sync::Wait;

impl<I: Life, N: Runner + Drop, G: Gate + Drop> Engine<I, N, G> {
    /// Executes the next step of the procedure of a hint, where it is at home here and ready. None: it was not, and nothing was
    /// executed.
    ///
    /// It looks the hint up in the log before it takes any partition, instead of once they are in hand, so a hint that
    /// came late holds nobody up. That takes the log's lock once.
    pub(crate) fn follow<R: Wait>(
        &self,
        works: &Works<I, N, R>,
        note: &mut Note<I>,
        p: u8,
        procedure: u16,
    ) -> Option<Pumped>
        ensures { IsTried I.catalog I.parts I.opening I.first I.limit p note.old note.new result }
    {
        let ready = self.hub.log.ready_at(works.rt, &self.catalog, note, p);
        // No hint names another procedure; but what stands behind a lock can't say so.
        if procedure >= 64 || !ready.has(procedure as u8) {
            return None;
        }
        self.step(works, note, p, procedure)
    }

    /// Executes the next step of the first procedure that is ready at home on a partition. Idle exactly where none is. None: it
    /// was ready no more, and nothing was executed.
    pub(crate) fn look_around<R: Wait>(
        &self,
        works: &Works<I, N, R>,
        note: &mut Note<I>,
        p: u8,
    ) -> Option<Pumped>
        ensures { IsTried I.catalog I.parts I.opening I.first I.limit p note.old note.new result }
    {
        let ready = self.hub.log.ready_at(works.rt, &self.catalog, note, p);
        match first_of(ready) {
            None => Some(Pumped::Idle),
            Some(procedure) => self.step(works, note, p, procedure),
        }
    }

    /// Executes the next step of a procedure on the partitions that it touches. None: it wasn't ready, and nothing was executed.
    fn step<R: Wait>(
        &self,
        works: &Works<I, N, R>,
        note: &mut Note<I>,
        p: u8,
        procedure: u16,
    ) -> Option<Pumped>
        requires { StepsAt I.catalog I.parts p procedure }
        ensures { IsTried I.catalog I.parts I.opening I.first I.limit p note.old note.new result }
    {
        let set = procedure_touch_set(&self.catalog, procedure, self.parts);
        let Ok((mut hand, turns)) = self.take_set(works, note, set) else {
            return Some(Pumped::Unlisted(Unlisted::NoMemory));
        };
        let batch = hand.shard.cursor(procedure);
        self.gate.before(p, &Entry::Step { procedure, batch });
        let stepped = execute_step(works, &mut hand, procedure);
        show_note(works.rt, works.log, &mut hand, note);
        self.put_back(works.alloc, hand, turns);
        self.stepped(works.rt, p, procedure, stepped)
    }

    /// Puts the hints behind a step that ran: those of what it may have made ready, and its own, since it may be ready again.
    /// One that didn't run gets none, and at a full list its procedure stays ready: a hint is taken before a job, so a
    /// job behind a hint that comes again and again would never be answered. No clause holds this, since none counts
    /// what is behind an inbox's lock.
    fn stepped<R: Wait>(
        &self,
        rt: &R,
        p: u8,
        procedure: u16,
        stepped: Result<Option<Placed>, Unlisted>,
    ) -> Option<Pumped>
        requires home { StepsAt I.catalog I.parts p procedure }
        requires own { IsOfProcedure procedure stepped }
        ensures { result ≡ tried_of stepped }
    {
        match stepped {
            Ok(Some(placed)) => {
                self.wake(rt, p, &placed.listed.entry);
                self.hub.put_hint(rt, p, p, procedure);
                self.gate.after(p, &placed.listed.entry);
                Some(Pumped::Ran(placed.place))
            }
            Ok(None) => None,
            Err(why) => Some(Pumped::Unlisted(why)),
        }
    }
}
