//! A client's job is served, for `pump`: its partitions are taken from the bays, it runs, they go back, hints are put into
//! inboxes, the note of whoever pumps meets the client's mark under the commit log's lock, and the reply goes into the client's
//! slot. A job that waited in the wrong inbox, or for which there is no memory, is refused.

ghost use Rattle.std.specs.Prelude.{◌≡◌, List, ℕ, map, true, IfOk};
ghost use Rattle.ss_model.specs.Database.{fits_entry};
ghost use Rattle.ss_party.specs.Turns.{turn_of};
ghost use Rattle.ss_engine.specs.Pumped.{IsPumped, pumped_of};
ghost use Rattle.ss_engine.specs.Serving.{ServesHere};

use crate::engine::Engine;
use crate::partition::pumped::Pumped;
use ss_commitlog::{Note, Placed, Unlisted};
use ss_hand::{Hand, Turns};
use ss_lanes::Job;
use ss_model::Life;
use ss_proc::Runner;
use ss_settle::Gate;
use ss_turns::{Works, execute_asked};
use std::sync::Wait;

impl<I: Life, N: Runner + Drop, G: Gate + Drop> Engine<I, N, G> {
    /// Executes what a client asks for on the partitions that it touches, and answers the client. Of these p has to be the
    /// least; where it isn't, and where there is no memory to take them, the job is refused as for want of memory, and nothing has
    /// changed.
    pub(crate) fn serve<R: Wait>(
        &self,
        works: &Works<I, N, R>,
        note: &mut Note<I>,
        p: u8,
        job: Job<I>,
    ) -> Pumped
        ensures { IsPumped I.catalog I.parts I.opening I.first I.limit p note.old note.new result }
    {
        let (least, set) = self.touched(&job.entry);
        // What stands behind a lock can't say in whose inbox it waited.
        if least != p {
            self.hub.refuse(works.rt, job);
            return Pumped::Unlisted(Unlisted::NoMemory);
        }
        match self.take_set(works, note, set) {
            Err(_) => {
                self.hub.refuse(works.rt, job);
                Pumped::Unlisted(Unlisted::NoMemory)
            }
            Ok((hand, turns)) => self.serve_in_hand(works, note, p, job, hand, turns),
        }
    }

    /// The same with its partitions in hand, which it puts back.
    fn serve_in_hand<R: Wait>(
        &self,
        works: &Works<I, N, R>,
        note: &mut Note<I>,
        p: u8,
        job: Job<I>,
        mut hand: Hand<I>,
        turns: Turns<I>,
    ) -> Pumped
        requires { (held : List ℕ) × ServesHere I.catalog I.parts I.opening p held note.old hand job.entry × (turns ≡ map (turn_of self.now) held) }
        ensures { IsPumped I.catalog I.parts I.opening I.first I.limit p note.old note.new result }
    {
        let Job {
            ticket,
            entry,
            mut mark,
        } = job;
        self.gate.before(p, &entry);
        let said = execute_asked(works, &mut hand, &mut mark, entry);
        self.put_back(works.alloc, hand, turns);
        let did = self.served(works.rt, p, &said);
        // So the note knows the entry.
        works.log.meet(works.rt, &mut mark, note);
        self.hub.reply(works.rt, ticket, mark, said);
        did
    }

    /// What a pump says of a job whose entry was executed. Where that is listed, it puts hints of what it may have made ready,
    /// before the client is answered.
    fn served<R: Wait>(&self, rt: &R, p: u8, said: &Result<Placed, Unlisted>) -> Pumped
        requires { IfOk said.now (λ placed. fits_entry I.catalog placed.listed.entry ≡ true) }
        ensures { result ≡ pumped_of said.now }
    {
        match said {
            Ok(placed) => {
                self.wake(rt, p, &placed.listed.entry);
                self.gate.after(p, &placed.listed.entry);
                Pumped::Ran(placed.place)
            }
            Err(why) => Pumped::Unlisted(*why),
        }
    }
}
