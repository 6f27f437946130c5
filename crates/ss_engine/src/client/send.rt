//! A client's entry is sent as a job into an inbox of the hub, and its answer waited for at the client's slot; then mark and
//! note of the lane meet under the commit log's lock. `submit` calls it. Where the inbox has no executor it pumps it meanwhile.

ghost use Rattle.std.specs.Prelude.{◌≡◌, ◌+◌, ◌^◌, ◌<◌, ◌≤◌, true, length};
ghost use Rattle.ss_model.specs.Database.{fits_entry};
ghost use Rattle.ss_model.specs.Report.{asked_entry};
ghost use Rattle.ss_commitlog.specs.Tokens.{Known};
ghost use Rattle.ss_commitlog.specs.Growing.{GoesOn};
ghost use Rattle.ss_lanes.specs.Lanes.{IsLane, IsSubmitted, lane_view};
ghost use Rattle.ss_lanes.specs.Owning.{IsOwn};

use crate::engine::Engine;
use crate::partition::pumped::Pumped;
use ss_commitlog::Note;
use ss_lanes::{Due, Job, Lane, Reply, Ticket, answered, unsent};
use ss_model::{Answer, Asked, Entry, Life};
use ss_proc::Runner;
use ss_settle::Gate;
use ss_value::Reserved;
use std::alloc::Global;
use std::sync::Wait;

impl<I: Life, N: Runner + Drop, G: Gate + Drop> Engine<I, N, G> {
    /// Sends the entry that a client asks for to the inbox of a partition, and waits for its answer.
    ///
    /// A lane whose request was listed knows a list with its entry; whatever the answer is, of its client's entries that list
    /// has just those of its listed answers. NoMemory and ListFull have changed nothing. Takes the inbox's lock once, the log's
    /// once where the inbox had room, and the slot's at most each time that it looks or rests there, beside those of a pump. Takes
    /// no memory itself.
    pub(crate) fn send<R: Wait>(
        &self,
        rt: &R,
        alloc: Global,
        lane: Lane<I>,
        p: u8,
        entry: Entry,
        what: &Asked,
    ) -> Lane<I>
        requires part { p < I.parts }
        requires spare { 1 ≤ lane.spare }
        requires going { (lane.due.faults ≡ 0) × (lane.due.pending < 16) }
        requires numbered { lane.start + length lane.answers + 1 < 2 ^ 64 }
        requires entry { entry ≡ asked_entry lane.client (lane.start + length lane.answers) what.now }
        requires fits { fits_entry I.catalog entry ≡ true }
        ensures { IsSubmitted I.first I.limit lane what.now result }
    {
        let Lane {
            ticket,
            due,
            mark,
            note,
            answers,
        } = lane;
        let job = Job {
            ticket,
            entry,
            mark,
        };
        match self.hub.put_job(rt, p, job) {
            Err(Job { mark, .. }) => unsent(Lane {
                ticket,
                due,
                mark,
                note,
                answers,
            }),
            Ok(()) => self.returned(rt, alloc, ticket, due, note, answers, p, what),
        }
    }

    /// The lane whose request was sent, once its mark has come back.
    fn returned<R: Wait>(
        &self,
        rt: &R,
        alloc: Global,
        ticket: Ticket,
        due: Due,
        mut note: Note<I>,
        answers: Reserved<Answer>,
        p: u8,
        what: &Asked,
    ) -> Lane<I>
        requires lane { (mark : Known) × IsLane I.clients I.first ticket due mark note answers.items }
        requires going { (due.faults ≡ 0) × (due.pending < 16) }
        requires part { p < I.parts }
        requires spare { 1 ≤ answers.spare }
        requires numbered { ticket.index + 1 < 2 ^ 64 }
        ensures { IsSubmitted I.first I.limit (lane_view ticket due note answers) what.now result }
    {
        let reply = self.awaited(rt, alloc, &mut note, p, &ticket, what);
        let Reply { mut mark, said, .. } = reply;
        self.hub.log.meet(rt, &mut mark, &mut note);
        answered(ticket, due, mark, note, answers, said)
    }

    /// Waits for the reply, and pumps the inbox meanwhile where it has no executor.
    fn awaited<R: Wait>(
        &self,
        rt: &R,
        alloc: Global,
        note: &mut Note<I>,
        p: u8,
        ticket: &Ticket,
        what: &Asked,
    ) -> Reply<I>
        requires client { ticket.now.client < I.clients }
        requires part { p < I.parts }
        ensures own { IsOwn ticket.now what.now result }
        ensures note { GoesOn I.catalog I.parts note.old note.new }
    {
        for _ in rt.forever() {
            if let Some(reply) = self.hub.take_reply(rt, ticket, what) {
                return reply;
            }
            if self.hub.has_no_executor(p) {
                // Where it is idle, the job is in another's hands, who will put the reply into the slot.
                if let Pumped::Idle = self.pump(rt, alloc, note, p) {
                    self.hub.rest_at_slot(rt, ticket.client);
                }
            } else {
                self.hub.rest_in_turn(rt, p, ticket.client);
            }
        }
        unreachable!()
    }
}
