//! A client's requests, one after another, with a checkpoint and a receipt where one is due. `session/threads` calls it in the
//! client's thread. It touches the lane alone; `submit`, `checkpoint` and `receipt`, which it calls, touch the rest.

ghost use Rattle.std.specs.Prelude.{◌≡◌, ◌+◌, ◌^◌, ◌<◌, ◌≤◌, true, length};
ghost use Rattle.ss_model.specs.Database.{fits_entry};
ghost use Rattle.ss_model.specs.Report.{asked_entry};
ghost use Rattle.ss_lanes.specs.Between.{HasRequested};
ghost use Rattle.ss_lanes.specs.Clients.{AllFit, HasMade, MayBegin};

use crate::engine::Engine;
use ss_disk::Disk;
use ss_lanes::{Lane, MOST_PENDING, halted, start_of, unsent};
use ss_model::{Life, Request};
use ss_proc::Runner;
use ss_receipts::{DurableError, Receipts};
use ss_settle::Gate;
use std::alloc::Global;
use std::sync::Wait;

/// Makes one request. Where as many listed answers wait for a receipt as may, it asks for one first; and where there is no memory
/// for that, or the disk has failed, the request is answered so and is not run, so that no seventeenth answer waits.
fn make_request<I: Life, N: Runner + Drop, G: Gate + Drop, R: Wait, D: Disk + Drop>(
    rt: &R,
    alloc: Global,
    engine: &Engine<I, N, G>,
    receipts: &Receipts<I, D>,
    lane: Lane<I>,
    request: &Request,
) -> Lane<I>
    requires spare { 1 ≤ lane.spare }
    requires own { request.now.client ≡ lane.client }
    requires numbered { lane.start + length lane.answers + 1 < 2 ^ 64 }
    requires fits { fits_entry I.catalog (asked_entry lane.client (lane.start + length lane.answers) request.now.what) ≡ true }
    ensures { HasRequested I.first I.limit lane request.now.what result }
{
    if lane.pending() < MOST_PENDING {
        return engine.submit(rt, alloc, lane, request);
    }
    let (lane, receipt) = engine.ensure_durable(rt, alloc, receipts, lane);
    match receipt {
        Ok(_) => engine.submit(rt, alloc, lane, request),
        Err(DurableError::NoMemory) => unsent(lane),
        Err(_) => halted(lane),
    }
}

/// Where the generation begins of which the client asks first; 0 where no checkpoint is asked for, which takes no lock.
fn first_begun<I: Life, R: Wait, D: Disk + Drop>(rt: &R, receipts: &Receipts<I, D>) -> u64 {
    match receipts.every() {
        None => 0,
        Some(_) => receipts.begun(rt),
    }
}

/// Makes one request, before which it makes a checkpoint where one is due by the place that the client was told last, and tells
/// the place that it was told now. What speaks against a checkpoint is left to the request itself, and to the next one, before
/// which it is tried again.
fn make_next<I: Life, N: Runner + Drop, G: Gate + Drop, R: Wait, D: Disk + Drop>(
    rt: &R,
    alloc: Global,
    engine: &Engine<I, N, G>,
    receipts: &Receipts<I, D>,
    lane: Lane<I>,
    request: &Request,
    begun: u64,
) -> (Lane<I>, u64)
    requires spare { 1 ≤ lane.spare }
    requires own { request.now.client ≡ lane.client }
    requires numbered { lane.start + length lane.answers + 1 < 2 ^ 64 }
    requires fits { fits_entry I.catalog (asked_entry lane.client (lane.start + length lane.answers) request.now.what) ≡ true }
    ensures { HasRequested I.first I.limit lane request.now.what result.0 }
{
    let (lane, checkpoint) = engine.checkpoint_if(rt, alloc, receipts, lane, begun);
    let lane = make_request(rt, alloc, engine, receipts, lane, request);
    (lane, checkpoint.unwrap_or(begun))
}

/// Makes those of these requests that are the client's, from its first one here on, whose number is in `starts`, in order, each once
/// the one before is answered, with a checkpoint before it where one is due, and then asks for a receipt of all. It passes over the
/// client's earlier requests, which an engine before this one has answered.
pub(crate) fn make_requests<I: Life, N: Runner + Drop, G: Gate + Drop, R: Wait, D: Disk + Drop>(
    rt: &R,
    alloc: Global,
    engine: &Engine<I, N, G>,
    receipts: &Receipts<I, D>,
    mut lane: Lane<I>,
    requests: &[Request],
    starts: &[u64],
    number: usize,
) -> Lane<I>
    requires fit { AllFit I.catalog requests.now }
    requires begins { MayBegin I.first starts.now requests.now number lane }
    ensures { HasMade I.first I.limit starts.now requests.now number result }
{
    let mut begun = first_begun(rt, receipts);
    let mut earlier = start_of(starts, number);
    for request in requests {
        if usize::from(request.client) == number {
            if earlier > 0 {
                earlier -= 1;
            } else {
                let (next, place) = make_next(rt, alloc, engine, receipts, lane, request, begun);
                lane = next;
                begun = place;
            }
        }
    }
    // Whatever comes of it, the last flush of the session writes what has no receipt yet.
    let (lane, _) = engine.ensure_durable(rt, alloc, receipts, lane);
    lane
}
