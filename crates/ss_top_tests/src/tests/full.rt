//! Lists that have as many entries as they may.

use super::{ACCOUNTS, DIAMOND, PUTS, Streams, empty_disk, with_requests};
use ss_top::Status;
use ss_value::NoMemory;
use std::alloc::Global;
use std::sync::Wait;
use std::test::Fail;
use std::thread::Threads;

/// One push to the workflow.
const PUSH: &str = "{\"push\":\"s\",\"source\":\"a\",\"seq\":0,\"rows\":[[1]]}\n";

/// A run on an empty disk.
#[derive(Clone, Copy)]
struct Run {
    catalog: &'static str,
    requests: &'static str,
    /// How many entries its list may have.
    limit: u16,
    /// How many bytes its sink has room for.
    room: usize,
    /// How it ends.
    status: Status,
    /// What it writes.
    written: &'static str,
}

/// Runs on lists that are full at some point, or at the end.
const RUNS: [Run; 7] = [
    // No place for a request.
    Run {
        catalog: ACCOUNTS,
        requests: PUTS,
        limit: 2,
        room: 1024,
        status: Status::Limit,
        written: "[\"reply\",2,0,[\"done\",[]]]\n[\"reply\",3,1,[\"done\",[[1,5]]]]\n[\"reply\",4,\"list_full\"]\n[\"call\",0,0,0,[\"done\",[]]]\n[\"call\",1,0,1,[\"done\",[[1,5]]]]\n[\"stopped\",9,2]\n",
    },
    Run {
        catalog: ACCOUNTS,
        requests: PUTS,
        limit: 0,
        room: 1024,
        status: Status::Limit,
        written: "[\"reply\",2,\"list_full\"]\n[\"reply\",3,\"list_full\"]\n[\"reply\",4,\"list_full\"]\n[\"stopped\",9,0]\n",
    },
    // A list that is full is no stop where nothing is to follow.
    Run {
        catalog: ACCOUNTS,
        requests: PUTS,
        limit: 3,
        room: 1024,
        status: Status::Done,
        written: "[\"reply\",2,0,[\"done\",[]]]\n[\"reply\",3,1,[\"done\",[[1,5]]]]\n[\"reply\",4,2,[\"aborted\",\"key_taken\",\"acct\"]]\n[\"call\",0,0,0,[\"done\",[]]]\n[\"call\",1,0,1,[\"done\",[[1,5]]]]\n[\"call\",2,0,2,[\"aborted\",\"key_taken\",\"acct\"]]\n[\"table\",\"acct\",1]\n[\"row\",\"acct\",[1,5]]\n[\"done\",3]\n",
    },
    Run {
        catalog: ACCOUNTS,
        requests: "",
        limit: 0,
        room: 1024,
        status: Status::Done,
        written: "[\"table\",\"acct\",0]\n[\"done\",0]\n",
    },
    Run {
        catalog: DIAMOND,
        requests: PUSH,
        limit: 5,
        room: 1024,
        status: Status::Done,
        written: "[\"reply\",2,0,[\"done\",[]]]\n[\"push\",0,0,0,[\"done\",[]]]\n[\"step\",1,\"a\",0,[\"done\",[]]]\n[\"step\",2,\"p\",0,[\"done\",[]]]\n[\"step\",3,\"q\",0,[\"done\",[]]]\n[\"step\",4,\"j\",0,[\"done\",[]]]\n[\"table\",\"joined\",2]\n[\"row\",\"joined\",[11,1]]\n[\"row\",\"joined\",[21,2]]\n[\"done\",5]\n",
    },
    // No place for a step: all requests are answered, and steps were to follow.
    Run {
        catalog: DIAMOND,
        requests: PUSH,
        limit: 3,
        room: 1024,
        status: Status::Limit,
        written: "[\"reply\",2,0,[\"done\",[]]]\n[\"push\",0,0,0,[\"done\",[]]]\n[\"step\",1,\"a\",0,[\"done\",[]]]\n[\"step\",2,\"p\",0,[\"done\",[]]]\n[\"stopped\",9,3]\n",
    },
    // A fault of the sink comes in place of no other status than done.
    Run {
        catalog: ACCOUNTS,
        requests: PUTS,
        limit: 0,
        room: 8,
        status: Status::Limit,
        written: "[\"reply\"",
    },
];

/// Whether a run ends so, and writes this.
fn is_so<R: Threads + Wait + Sync>(rt: &R, alloc: Global, run: &Run) -> Result<bool, NoMemory> {
    let input = with_requests(alloc, run.catalog, run.requests)?;
    let streams = Streams::new(alloc, &["run"], input, run.room)?;
    let left = streams.run_on(rt, alloc, empty_disk(alloc), run.limit);
    Ok(left.ended.is(run.status, run.written))
}

#[test]
fn lists_that_are_full(rt: HostRuntime) -> Result<(), Fail> {
    for (number, run) in RUNS.iter().enumerate() {
        assert!(rt; is_so(&rt, rt.alloc(), run)?, "run {number}");
    }
    Ok(())
}
