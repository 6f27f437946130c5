//! Executions at the same time: one is held before it runs until another one is over. On one thread no order of the two could
//! do that both ways.
//!
//! A pair of calls of two clients has its executions on partitions of their own, and so has the pair of steps of one batch.
//! Each pair runs twice, so that each of the two is held once.

use super::{DIAMOND, Ended, run_from, with_requests};
use ss_engine::Gate;
use ss_lines::MemorySource;
use ss_model::Entry;
use ss_top::Status;
use ss_value::{NoMemory, Seq};
use std::alloc::Global;
use std::sync::Wait;
use std::sync::atomic::{AtomicBool, Ordering};
use std::test::Fail;
use std::thread::Threads;

/// Accounts that are split by their number.
const SPLIT: &str =
    r#"{"tables":[{"name":"acct","columns":[["id","int"],["bal","int"]],"key":["id"],"by":"id"}],"procedures":[{"name":"open","kind":"call","args":[["id","int"],["bal","int"]],"touch":{"arg":"id"},"body":[{"sql":"INSERT INTO acct VALUES (:id, :bal)"}]}]}"#;

/// A call of each of two clients.
const CALLS: &str =
    "{\"client\":0,\"call\":\"open\",\"args\":[0,5]}\n{\"client\":1,\"call\":\"open\",\"args\":[1,5]}\n";

/// A push, and a call behind it.
const PUSH: &str =
    "{\"push\":\"s\",\"source\":\"a\",\"seq\":0,\"rows\":[[1]]}\n{\"call\":\"peek\",\"args\":[]}\n";

/// The rows that the two calls leave.
const OPENED: &str =
    "[\"table\",\"acct\",2]\n[\"row\",\"acct\",[0,5]]\n[\"row\",\"acct\",[1,5]]\n[\"done\",2]\n";

/// The rows that the workflow leaves.
const JOINED: &str =
    "[\"table\",\"joined\",2]\n[\"row\",\"joined\",[11,1]]\n[\"row\",\"joined\",[21,2]]\n[\"done\",6]\n";

/// How often a held execution looks whether the other one is over, so that a run on one thread ends too.
const LOOKS: u32 = 1_000_000_000;

/// The executions that a gate knows.
#[derive(Clone, Copy, Drop)]
enum Known {
    CallOf(u8),
    StepOf(u16),
}

impl Known {
    /// Whether an entry is such a one.
    fn is(self, entry: &Entry) -> bool {
        match (self, entry) {
            (Known::CallOf(number), Entry::Call { client, .. }) => *client == number,
            (Known::StepOf(number), Entry::Step { procedure, .. }) => *procedure == number,
            _ => false,
        }
    }
}

/// A gate that holds one execution until another one is over, and notes whether it saw that.
#[derive(Drop)]
struct Holding {
    held: Known,
    until: Known,
    over: AtomicBool,
    saw: AtomicBool,
}

impl Holding {
    fn new(held: Known, until: Known) -> Holding {
        Holding {
            held,
            until,
            over: AtomicBool::new(false),
            saw: AtomicBool::new(false),
        }
    }
}

impl Gate for Holding {
    fn before(&self, _part: u8, entry: &Entry) {
        if !self.held.is(entry) {
            return;
        }
        for _ in 0..LOOKS {
            if self.over.load(Ordering::SeqCst) {
                self.saw.store(true, Ordering::SeqCst);
                return;
            }
        }
    }

    fn after(&self, _part: u8, entry: &Entry) {
        if self.until.is(entry) {
            self.over.store(true, Ordering::SeqCst);
        }
    }
}

/// The numbers of the steps of the workflow.
const P: Known = Known::StepOf(1);

const Q: Known = Known::StepOf(2);

/// How a run ended in which one execution was held until another one was over, and whether it saw that.
struct HeldRun {
    ended: Ended,
    saw: bool,
}

// By hand, so that letting it go is one call.
impl Drop for HeldRun {
    fn drop(self) {
        let HeldRun { ended: _, saw: _ } = self;
    }
}

/// Runs requests on two partitions, and holds one execution until another one is over.
fn run_held<R: Threads + Wait + Sync>(
    rt: &R,
    alloc: Global,
    catalog: &str,
    requests: &str,
    held: Known,
    until: Known,
) -> Result<HeldRun, NoMemory> {
    let input = with_requests(alloc, catalog, requests)?;
    let mut source = MemorySource::new(Seq::from_vec(input));
    let gate = Holding::new(held, until);
    let words = ["run", "--partitions", "2"];
    let ended = run_from(rt, alloc, &words, &mut source, 1024, &gate)?;
    let saw = gate.saw.load(Ordering::SeqCst);
    Ok(HeldRun { ended, saw })
}

/// Whether a call that is held until another one is over sees that, and the run then writes this list, and both rows.
fn calls_are_listed<R: Threads + Wait + Sync>(
    rt: &R,
    alloc: Global,
    held: Known,
    until: Known,
    list: &str,
) -> Result<bool, NoMemory> {
    let run = run_held(rt, alloc, SPLIT, CALLS, held, until)?;
    let is_done = run.saw && run.ended.status == Status::Done;
    Ok(is_done && run.ended.text().strip_prefix(list) == Some(OPENED))
}

#[test]
fn the_first_call_is_held(rt: HostRuntime) -> Result<(), Fail> {
    let (held, until) = (Known::CallOf(0), Known::CallOf(1));
    let list =
        "[\"reply\",2,1,[\"done\",[]]]\n[\"reply\",3,0,[\"done\",[]]]\n[\"call\",0,1,0,[\"done\",[]]]\n[\"call\",1,0,0,[\"done\",[]]]\n";
    assert!(rt; calls_are_listed(&rt, rt.alloc(), held, until, list)?);
    Ok(())
}

#[test]
fn the_second_call_is_held(rt: HostRuntime) -> Result<(), Fail> {
    let (held, until) = (Known::CallOf(1), Known::CallOf(0));
    let list =
        "[\"reply\",2,0,[\"done\",[]]]\n[\"reply\",3,1,[\"done\",[]]]\n[\"call\",0,0,0,[\"done\",[]]]\n[\"call\",1,1,0,[\"done\",[]]]\n";
    assert!(rt; calls_are_listed(&rt, rt.alloc(), held, until, list)?);
    Ok(())
}

/// Whether a step that is held until another one is over sees that, and the run then writes these two texts, the second one
/// somewhere behind the first, and the rows.
fn steps_are_listed<R: Threads + Wait + Sync>(
    rt: &R,
    alloc: Global,
    held: Known,
    until: Known,
    first: &str,
    second: &str,
) -> Result<bool, NoMemory> {
    let run = run_held(rt, alloc, DIAMOND, PUSH, held, until)?;
    let Some((_, behind)) = run.ended.text().split_once(first) else {
        return Ok(false);
    };
    Ok(run.saw && behind.contains(second) && run.ended.ends(Status::Done, JOINED))
}

#[test]
fn a_step_is_held_for_that_of_a_higher_number(rt: HostRuntime) -> Result<(), Fail> {
    let both = "[\"step\",2,\"q\",0,[\"done\",[]]]\n[\"step\",3,\"p\",0,[\"done\",[]]]\n";
    assert!(rt; steps_are_listed(&rt, rt.alloc(), P, Q, both, JOINED)?);
    Ok(())
}

// What stands behind the line of `p` in the list has the line of `q`.
#[test]
fn a_step_is_held_for_that_of_a_lower_number(rt: HostRuntime) -> Result<(), Fail> {
    let (p, q) = (",\"p\",0,[\"done\",[]]]\n", ",\"q\",0,[\"done\",[]]]\n");
    assert!(rt; steps_are_listed(&rt, rt.alloc(), Q, P, p, q)?);
    Ok(())
}
