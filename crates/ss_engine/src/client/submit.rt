//! The call of a client for one request, which `requests` makes: a copy of what is asked, with its number, is sent to the inbox
//! of the first partition that it touches. It takes no lock of its own; `send` does.

ghost use Rattle.std.specs.Prelude.{◌≡◌, ◌+◌, ◌^◌, ◌<◌, ◌≤◌, true, length};
ghost use Rattle.ss_model.specs.Database.{fits_entry};
ghost use Rattle.ss_model.specs.Report.{asked_entry};
ghost use Rattle.ss_lanes.specs.Lanes.{IsSubmitted};

use crate::engine::Engine;
use ss_lanes::{Lane, halted, unsent};
use ss_model::{Life, Request, asked_entry};
use ss_proc::Runner;
use ss_settle::Gate;
use ss_value::Copies;
use std::alloc::Global;
use std::sync::Wait;

impl<I: Life, N: Runner + Drop, G: Gate + Drop> Engine<I, N, G> {
    /// Sends a request to the inbox of the least partition that its entry touches, and waits for its answer. Where that inbox
    /// has no executor, it pumps it meanwhile.
    ///
    /// It copies what is asked for, which is all the memory that it takes itself, and its locks are those of `send`. `requests`
    /// calls it. A lane whose request was listed knows a list with its entry; whatever the answer is, of
    /// its client's entries that list has just those of its listed answers. NoMemory and ListFull have changed nothing.
    ///
    /// A lane that was told that the disk has failed is answered so at once, and nothing is sent. Fewer than 16 of its listed
    /// answers may wait for a receipt.
    pub fn submit<R: Wait>(
        &self,
        rt: &R,
        alloc: Global,
        lane: Lane<I>,
        request: &Request,
    ) -> Lane<I>
        requires spare { 1 ≤ lane.spare }
        requires few { lane.due.pending < 16 }
        requires own { request.now.client ≡ lane.client }
        requires numbered { lane.start + length lane.answers + 1 < 2 ^ 64 }
        requires fits { fits_entry I.catalog (asked_entry lane.client (lane.start + length lane.answers) request.now.what) ≡ true }
        ensures { IsSubmitted I.first I.limit lane request.now.what result }
    {
        if lane.faults() != 0 {
            return halted(lane);
        }
        let Ok(what) = request.what.duplicate(alloc) else {
            return unsent(lane);
        };
        let entry = asked_entry(request.client, lane.next_index(), what);
        let (p, _) = self.touched(&entry);
        self.send(rt, alloc, lane, p, entry, &request.what)
    }
}
