//! Stores of which calls and pushes alone are logged: a recovery runs the workflows again, in the order of the log.

use super::scripts::{ROOM, SCRIPTS, recover, recover_as};
use super::stores::{NOTHING_RAN, PUSH};
use super::{DIAMOND, Left, Streams, empty_disk, with_requests};
use ss_disk::MemoryDisk;
use ss_top::Status;
use ss_value::NoMemory;
use std::alloc::Global;
use std::sync::Wait;
use std::test::Fail;
use std::thread::Threads;

/// Runs requests to the workflow on a disk, with a list of at most `limit` entries.
fn run_on<R: Threads + Wait + Sync>(
    rt: &R,
    alloc: Global,
    mode: &str,
    requests: &str,
    disk: MemoryDisk,
    limit: u16,
) -> Result<Left, NoMemory> {
    let input = with_requests(alloc, DIAMOND, requests)?;
    let streams = Streams::new(alloc, &["run", "--recovery", mode], input, ROOM)?;
    Ok(streams.run_on(rt, alloc, disk, limit))
}

/// Recovers a disk by its log of calls and pushes.
fn recover_weak<R: Threads + Wait + Sync>(
    rt: &R,
    alloc: Global,
    disk: MemoryDisk,
) -> Result<Left, NoMemory> {
    recover_as(rt, alloc, &SCRIPTS[3], disk)
}

// The list is full behind the push, so nothing of its workflow has run.
#[test]
fn a_push_alone_is_run_with_its_workflow(rt: HostRuntime) -> Result<(), Fail> {
    let full = run_on(&rt, rt.alloc(), "weak", PUSH, empty_disk(rt.alloc()), 1)?;
    assert!(rt; full.ended.ends(Status::Limit, "[\"stopped\",9,1]\n"));
    let recovered = recover_weak(&rt, rt.alloc(), full.into_disk())?;
    assert!(rt; recovered.ended.is(Status::Done, NOTHING_RAN));
    let again = run_on(
        &rt,
        rt.alloc(),
        "weak",
        PUSH,
        recovered.into_disk(),
        u16::MAX,
    )?;
    assert!(rt; again.ended.status == Status::Done);
    assert!(rt;
        again
            .ended
            .text()
            .starts_with("[\"reply\",2,5,[\"duplicate\",1]]\n")
    );
    Ok(())
}

/// Two pushes that leave the lines of `PUSH` in this order. Step `p` of the second batch aborts for its 7, and so does `j`, which finds
/// the row of the first.
const B_THEN_A: &str =
    "{\"push\":\"s\",\"source\":\"b\",\"seq\":0,\"rows\":[[1]]}\n{\"push\":\"s\",\"source\":\"a\",\"seq\":0,\"rows\":[[7],[1]]}\n";

/// The same in the other order.
const A_THEN_B: &str =
    "{\"push\":\"s\",\"source\":\"a\",\"seq\":0,\"rows\":[[7],[1]]}\n{\"push\":\"s\",\"source\":\"b\",\"seq\":0,\"rows\":[[1]]}\n";

/// What a recovery of that writes: `j` aborts for the batch of `b`.
const A_WAS_FIRST: &str =
    "[\"table\",\"joined\",2]\n[\"row\",\"joined\",[21,2]]\n[\"row\",\"joined\",[27,2]]\n[\"done\",0]\n";

#[test]
fn pushes_of_two_sources_in_both_orders(rt: HostRuntime) -> Result<(), Fail> {
    for (requests, written) in [(B_THEN_A, NOTHING_RAN), (A_THEN_B, A_WAS_FIRST)] {
        let left = run_on(
            &rt,
            rt.alloc(),
            "weak",
            requests,
            empty_disk(rt.alloc()),
            u16::MAX,
        )?;
        assert!(rt; left.ended.ends(Status::Done, "[\"done\",10]\n"));
        let recovered = recover_weak(&rt, rt.alloc(), left.into_disk())?;
        assert!(rt; recovered.ended.is(Status::Done, written));
        let again = recover_weak(&rt, rt.alloc(), recovered.into_disk())?;
        assert!(rt; again.ended.is(Status::Done, written));
    }
    Ok(())
}

// A refusal leaves the store as it was.
#[test]
fn a_weak_store_is_refused_as_a_strong_one(rt: HostRuntime) -> Result<(), Fail> {
    let weak = run_on(
        &rt,
        rt.alloc(),
        "weak",
        PUSH,
        empty_disk(rt.alloc()),
        u16::MAX,
    )?;
    let refused = recover(&rt, rt.alloc(), weak.into_disk())?;
    assert!(rt;
        refused
            .ended
            .is(Status::OtherMode, "[\"other_mode\",\"weak\"]\n")
    );
    let refused = run_on(
        &rt,
        rt.alloc(),
        "strong",
        PUSH,
        refused.into_disk(),
        u16::MAX,
    )?;
    assert!(rt;
        refused
            .ended
            .is(Status::OtherMode, "[\"other_mode\",\"weak\"]\n")
    );
    let recovered = recover_weak(&rt, rt.alloc(), refused.into_disk())?;
    assert!(rt; recovered.ended.is(Status::Done, NOTHING_RAN));
    Ok(())
}

#[test]
fn a_strong_store_is_refused_as_a_weak_one(rt: HostRuntime) -> Result<(), Fail> {
    let strong = run_on(
        &rt,
        rt.alloc(),
        "strong",
        PUSH,
        empty_disk(rt.alloc()),
        u16::MAX,
    )?;
    let refused = recover_weak(&rt, rt.alloc(), strong.into_disk())?;
    assert!(rt;
        refused
            .ended
            .is(Status::OtherMode, "[\"other_mode\",\"strong\"]\n")
    );
    Ok(())
}
