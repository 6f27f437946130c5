//! Disks that fail and are opened again.
//!
//! Calls of the disk are counted from 0. How many a run makes depends on which entries share a flush, so each table of calls ends at
//! the first one that a run doesn't make.
//!
//! Behind a fault the order of a list may be another one, since the steps that were pending and the next requests then begin
//! together. So a run that is done is told by its tables, by the length of its list, and by an audit that finds that the list
//! replays with these answers.

use super::faults::{opening_calls, replays};
use super::scripts::{CALLS, PUSHES, SCRIPTS, Script, is_prefix, line_count, recover, run_script};
use super::{DIAMOND, Ended, Left, Streams, with_requests};
use ss_disk::{Disk, MemoryDisk};
use ss_top::Status;
use ss_value::{NoMemory, Seq};
use std::alloc::{AllocError, Global};
use std::sync::Wait;
use std::test::Fail;
use std::thread::Threads;

/// How the report of a run ends that did all: of pushes the two batches are in the list once, and the push that came twice and the one
/// that came too early; of calls the batch and its four steps, two pushes that came again, three bodies and two calls.
const ALL_RAN: &str =
    "[\"table\",\"joined\",4]\n[\"row\",\"joined\",[11,1]]\n[\"row\",\"joined\",[12,1]]\n[\"row\",\"joined\",[21,2]]\n[\"row\",\"joined\",[22,2]]\n[\"done\",12]\n";

/// How many calls each run makes at least: nine open its store, and what it lists is written and synced.
const LEAST: u64 = 11;

/// How many it makes at least with a checkpoint before each of four requests but the first, and one at the end: it made 52 to 57.
const LEAST_OF_FOUR: u64 = 40;

/// How many calls are taken at most with one step as the first one that fails: a run has fewer.
const MOST: u64 = 60;

/// How far each call that fails is behind the one before. The call behind a fault is the first one of another opening, so of these
/// some fail while the disk is opened again, and others behind that.
const STEPS: [u64; 8] = [1, 2, 3, 5, 8, 13, 21, 34];

/// Runs on disks of which some calls fail.
#[derive(Clone, Copy)]
struct Plan {
    words: [&'static str; 3],
    requests: &'static str,
    /// How often the disk is opened again.
    restarts: u64,
    /// How many calls fail.
    count: u64,
    /// How many calls a run without faults makes at least.
    least: u64,
    /// How far the first calls that fail are apart, with each of the steps: 1 takes each call with each of them. Above that call 0
    /// comes first with the first of the steps, call 1 with the second, and so on. As there are eight, 8 takes each call once, 16
    /// half of them, and 24 a third.
    apart: u64,
}

impl Plan {
    /// What it runs.
    fn script(&self) -> Script {
        Script {
            words: self.words,
            catalog: DIAMOND,
            requests: self.requests,
            last: ALL_RAN,
            empty: SCRIPTS[0].empty,
        }
    }
}

/// One call fails.
const SINGLE: [Plan; 4] = [
    Plan {
        words: ["run", "--restarts=1", "--partitions=1"],
        requests: PUSHES,
        restarts: 1,
        count: 1,
        least: LEAST,
        apart: 8,
    },
    Plan {
        words: ["run", "--restarts=1", "--checkpoint=1"],
        requests: PUSHES,
        restarts: 1,
        count: 1,
        least: LEAST_OF_FOUR,
        apart: 8,
    },
    Plan {
        words: ["run", "--restarts=1", "--partitions=1"],
        requests: CALLS,
        restarts: 1,
        count: 1,
        least: LEAST,
        apart: 8,
    },
    Plan {
        words: ["run", "--restarts=1", "--checkpoint=1"],
        requests: CALLS,
        restarts: 1,
        count: 1,
        least: LEAST_OF_FOUR,
        apart: 8,
    },
];

/// Two calls fail, where the disk is opened again once, and twice.
const PAIRS: [Plan; 4] = [
    Plan {
        words: ["run", "--restarts=1", "--partitions=1"],
        requests: PUSHES,
        restarts: 1,
        count: 2,
        least: LEAST,
        apart: 1,
    },
    Plan {
        words: ["run", "--restarts=2", "--partitions=1"],
        requests: PUSHES,
        restarts: 2,
        count: 2,
        least: LEAST,
        apart: 1,
    },
    Plan {
        words: ["run", "--restarts=1", "--checkpoint=1"],
        requests: PUSHES,
        restarts: 1,
        count: 2,
        least: LEAST_OF_FOUR,
        apart: 1,
    },
    Plan {
        words: ["run", "--restarts=2", "--checkpoint=1"],
        requests: PUSHES,
        restarts: 2,
        count: 2,
        least: LEAST_OF_FOUR,
        apart: 1,
    },
];

/// As many calls fail as the disk is opened again, and one more.
const SERIES: [Plan; 5] = [
    Plan {
        words: ["run", "--restarts=4", "--checkpoint=1"],
        requests: PUSHES,
        restarts: 4,
        count: 4,
        least: LEAST_OF_FOUR,
        apart: 24,
    },
    Plan {
        words: ["run", "--restarts=3", "--checkpoint=1"],
        requests: PUSHES,
        restarts: 3,
        count: 4,
        least: LEAST_OF_FOUR,
        apart: 24,
    },
    Plan {
        words: ["run", "--restarts=16", "--partitions=1"],
        requests: PUSHES,
        restarts: 16,
        count: 16,
        least: LEAST,
        apart: 16,
    },
    Plan {
        words: ["run", "--restarts=16", "--partitions=1"],
        requests: PUSHES,
        restarts: 16,
        count: 17,
        least: LEAST,
        apart: 16,
    },
    Plan {
        words: ["run", "--restarts=3", "--checkpoint=1"],
        requests: CALLS,
        restarts: 3,
        count: 3,
        least: LEAST_OF_FOUR,
        apart: 24,
    },
];

/// The numbers of so many calls, each so far behind the one before.
fn numbers(alloc: Global, first: u64, step: u64, count: u64) -> Result<Seq<u64>, NoMemory> {
    let mut numbers = Seq::new(alloc);
    let mut number = first;
    for _ in 0..count {
        if numbers.push(number).is_err() {
            return Err(NoMemory);
        }
        number = number.saturating_add(step);
    }
    Ok(numbers)
}

/// Whether a run ended as it has to: done, where its disk failed no oftener than it is opened again. Else it stopped at one fault
/// more, with a report where the store was ever open. A prefix of its list is recovered, of one that is done all of it.
fn is_right<R: Threads + Wait + Sync>(
    rt: &R,
    alloc: Global,
    plan: &Plan,
    was_open: bool,
    left: Left,
) -> Result<bool, NoMemory> {
    let script = plan.script();
    let (ended, disk) = left.into_parts();
    let is_refused = !was_open && ended.is(Status::Disk, "[\"disk_fault\"]\n");
    let is_told = is_refused || replays(rt, alloc, &script, ended.text())?;
    let faults = disk.faults();
    let is_ended = if faults <= plan.restarts {
        ended.ends(Status::Done, script.last)
    } else {
        ended.status == Status::Disk && faults == plan.restarts.saturating_add(1)
    };
    // A recovery would meet the faults that are left.
    if faults < plan.count {
        return Ok(is_told && is_ended);
    }
    let recovered = recover(rt, alloc, disk)?;
    Ok(is_told && is_ended && is_prefix(ended.text(), &recovered.ended))
}

/// The first call of a run of which that is not so where it fails, and others behind it, each so far behind the one before. Takes
/// the call `first` and further ones, as the plan says, up to the first one that the run doesn't make.
fn first_wrong<R: Threads + Wait + Sync>(
    rt: &R,
    alloc: Global,
    plan: &Plan,
    opening: u64,
    first: u64,
    step: u64,
) -> Result<Option<u64>, NoMemory> {
    let script = plan.script();
    let mut call = first;
    for _ in 0..MOST {
        let fails = numbers(alloc, call, step, plan.count)?;
        let left = run_script(rt, alloc, &script, MemoryDisk::new(alloc, fails))?;
        let is_made = left.disk.faults() > 0;
        if !is_right(rt, alloc, plan, opening <= call, left)? || !is_made && call < plan.least {
            return Ok(Some(call));
        }
        if !is_made {
            return Ok(None);
        }
        call = call.saturating_add(plan.apart);
    }
    Ok(None)
}

/// The first step and call of a plan of which that is not so.
fn first_wrong_step<R: Threads + Wait + Sync>(
    rt: &R,
    alloc: Global,
    plan: &Plan,
) -> Result<Option<(u64, u64)>, NoMemory> {
    let opening = opening_calls(rt, alloc, &plan.script())?;
    for (number, step) in STEPS.iter().enumerate() {
        let first = (number as u64).min(plan.apart.saturating_sub(1));
        if let Some(call) = first_wrong(rt, alloc, plan, opening, first, *step)? {
            return Ok(Some((*step, call)));
        }
    }
    Ok(None)
}

/// Each call by itself, of a run without checkpoints and of one with a checkpoint behind each entry.
#[test]
fn each_call_fails(rt: HostRuntime) -> Result<(), Fail> {
    for (number, plan) in SINGLE.iter().enumerate() {
        let wrong = first_wrong_step(&rt, rt.alloc(), plan)?;
        assert!(rt; wrong.is_none(), "plan {number}: {wrong:?}");
    }
    Ok(())
}

/// Each call of both with each that is 1, 2, 3, 5, 8, 13, 21 or 34 calls behind it.
#[test]
fn two_calls_fail(rt: HostRuntime) -> Result<(), Fail> {
    for (number, plan) in PAIRS.iter().enumerate() {
        let wrong = first_wrong_step(&rt, rt.alloc(), plan)?;
        assert!(rt; wrong.is_none(), "plan {number}: {wrong:?}");
    }
    Ok(())
}

/// Half of the calls without checkpoints, and a third of those with them, are the first of a series.
#[test]
fn calls_fail_again_and_again(rt: HostRuntime) -> Result<(), Fail> {
    for (number, plan) in SERIES.iter().enumerate() {
        let wrong = first_wrong_step(&rt, rt.alloc(), plan)?;
        assert!(rt; wrong.is_none(), "plan {number}: {wrong:?}");
    }
    Ok(())
}

/// The pushes of eight clients, 25 of each, of one row each.
fn many_pushes(alloc: Global) -> Result<String, AllocError> {
    let mut pushes = String::new(alloc);
    for number in 0..200u32 {
        let (client, seq, row) = (number % 8, number / 8, 30 * number);
        let push = format!(in alloc;
            "{{\"client\":{client},\"push\":\"s\",\"source\":\"c{client}\",\"seq\":{seq},\"rows\":[[{row}]]}}\n"
        )?;
        pushes.push_str(&push)?;
    }
    Ok(pushes)
}

/// Runs of many pushes on disks of which some calls fail.
#[derive(Clone, Copy)]
struct Many {
    words: [&'static str; 3],
    /// How many calls fail, each three behind the one before.
    count: u64,
    /// How far the first calls that fail are apart.
    apart: u64,
}

/// One call fails, or two: each of a run without checkpoints, and each fifth of one with them.
const MANY: [Many; 4] = [
    Many {
        words: ["run", "--restarts=1", "--partitions=1"],
        count: 1,
        apart: 1,
    },
    Many {
        words: ["run", "--restarts=2", "--partitions=1"],
        count: 2,
        apart: 1,
    },
    Many {
        words: ["run", "--restarts=1", "--checkpoint=200"],
        count: 1,
        apart: 5,
    },
    Many {
        words: ["run", "--restarts=2", "--checkpoint=200"],
        count: 2,
        apart: 5,
    },
];

/// Runs them on a disk that fails in these calls.
fn run_many<R: Threads + Wait + Sync>(
    rt: &R,
    alloc: Global,
    words: &[&str],
    fails: Seq<u64>,
) -> Result<Left, NoMemory> {
    let pushes = many_pushes(alloc)?;
    let input = with_requests(alloc, DIAMOND, &pushes)?;
    let streams = Streams::new(alloc, words, input, 1 << 17)?;
    Ok(streams.run_on(rt, alloc, MemoryDisk::new(alloc, fails), u16::MAX))
}

/// Whether a run is done with these tables, and has each push in its list once.
fn has_all(ended: &Ended, tables: &str) -> bool {
    ended.ends(Status::Done, tables) && line_count(ended.text(), "[\"push\",") == 200
}

/// The first of some calls of the disk whose failure, and that of others behind it, leaves another end of a run than no failure does.
/// Takes 64 calls, or those up to the first one that the run doesn't make.
fn first_lost<R: Threads + Wait + Sync>(
    rt: &R,
    alloc: Global,
    many: &Many,
) -> Result<Option<u64>, NoMemory> {
    let whole = run_many(rt, alloc, &many.words, Seq::new(alloc))?;
    let Some((_, tables)) = whole.ended.text().split_once("[\"table\",") else {
        return Ok(Some(0));
    };
    let mut call = 0u64;
    for _ in 0..64 {
        let left = run_many(rt, alloc, &many.words, numbers(alloc, call, 3, many.count)?)?;
        let is_made = left.disk.faults() > 0;
        if !has_all(&left.ended, tables) || !is_made && call < LEAST {
            return Ok(Some(call));
        }
        if !is_made {
            return Ok(None);
        }
        call = call.saturating_add(many.apart);
    }
    Ok(None)
}

#[test]
fn of_many_pushes_each_is_accepted_once(rt: HostRuntime) -> Result<(), Fail> {
    for (number, many) in MANY.iter().enumerate() {
        let lost = first_lost(&rt, rt.alloc(), many)?;
        assert!(rt; lost.is_none(), "plan {number}: {lost:?}");
    }
    Ok(())
}
