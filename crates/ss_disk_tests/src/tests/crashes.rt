//! Cases decided by hand.

ghost use Rattle.std.specs.Prelude.{◌<◌};
ghost use Rattle.ss_disk.specs.Calls.{memory_calls};

use crate::tests::steps::{Step, files_of, take_steps};
use ss_disk::{Disk, FileNo, MemoryDisk, Torn};
use ss_value::Seq;
use std::alloc::Global;
use std::test::Fail;

/// What a crash in a call leaves, which tears each unsynced range in one way.
fn left_by(alloc: Global, disk: &MemoryDisk, call: u64, torn: Torn) -> Result<String, Fail>
    requires { call < memory_calls disk.now }
{
    match disk.crash(alloc, call, torn) {
        Ok(mut crashed) => files_of(alloc, &mut crashed),
        Err(_) => Err("no memory".into()),
    }
}

/// What a crash in a call leaves, where each unsynced range holds its old bytes, its new ones, or dashes.
fn crash_in(alloc: Global, disk: &MemoryDisk, call: u64) -> Result<String, Fail>
    requires { call < memory_calls disk.now }
{
    let mut text = format!(in alloc; "{call}:")?;
    for torn in [Torn::Nothing, Torn::Whole, Torn::Fill(b'-')] {
        let files = left_by(alloc, disk, call, torn)?;
        text = format!(in alloc; "{text} {files}")?;
    }
    Ok(text)
}

/// What a crash in each call leaves, each on a line of its own.
fn crashes_of(alloc: Global, disk: &MemoryDisk) -> Result<String, Fail> {
    let mut text = String::new(alloc);
    for call in 0..disk.calls() {
        let crash = crash_in(alloc, disk, call)?;
        text = format!(in alloc; "{text}\n{crash}")?;
    }
    Ok(text)
}

/// How the steps go on a disk, its faults, what a read then gives, and what a crash in each call leaves.
fn story_on(alloc: Global, disk: &mut MemoryDisk, steps: &[Step]) -> Result<String, Fail> {
    let taken = take_steps(alloc, disk, steps)?;
    let crashes = crashes_of(alloc, disk)?;
    let faults = disk.faults();
    let files = files_of(alloc, disk)?;
    Ok(format!(in alloc; "{taken}{faults} faults, {files}{crashes}")?)
}

/// The same on a new disk, on which these calls fail.
fn story_of(alloc: Global, fails: &[u64], steps: &[Step]) -> Result<String, Fail> {
    let fails = Vec::from_slice(alloc, fails)?;
    let mut disk = MemoryDisk::new(alloc, Seq::from_vec(fails));
    story_on(alloc, &mut disk, steps)
}

/// The calls that are to fail, the steps, and what then stands. A crash stands under its call's number, with what it leaves
/// where each unsynced range has its old bytes, its new ones, and dashes.
const CASES: [(&[u64], &[Step], &str); 6] = [
    // Over old bytes and past the end. A crash in a sync falls before it is done.
    (
        &[],
        &[
            Step::Write(FileNo::First, 0, "abc"),
            Step::Sync,
            Step::Write(FileNo::First, 1, "WXYZ"),
        ],
        "done, done, done, 0 faults, |aWXYZ|
0: || || ||
1: || |abc| |---|
2: || |abc| |---|
3: |abc| |abc| |abc|
4: |abc| |aWXYZ| |a----|",
    ),
    // An unsynced cut may be undone.
    (
        &[],
        &[
            Step::Write(FileNo::First, 0, "abcd"),
            Step::Sync,
            Step::Cut(FileNo::First, 1),
            Step::Write(FileNo::Second, 0, "x"),
        ],
        "done, done, done, done, 0 faults, |a|x
0: || || ||
1: || |abcd| |----|
2: || |abcd| |----|
3: |abcd| |abcd| |abcd|
4: |abcd| |a| |a---|
5: |abcd| |a| |a---|
6: |abcd| |a|x |a---|-",
    ),
    // A failed write may be there, until a sync.
    (
        &[4],
        &[
            Step::Write(FileNo::First, 0, "ab"),
            Step::Sync,
            Step::Write(FileNo::First, 1, "XY"),
            Step::Sync,
            Step::Sync,
        ],
        "done, done, failed, done, done, 1 faults, |ab|
0: || || ||
1: || |ab| |--|
2: || |ab| |--|
3: |ab| |ab| |ab|
4: |ab| |aXY| |a--|
5: |ab| |aXY| |a--|
6: |ab| |ab| |ab|",
    ),
    // A failed cut may be there. A write behind what it left is not.
    (
        &[3],
        &[
            Step::Write(FileNo::Second, 0, "abc"),
            Step::Cut(FileNo::Second, 1),
            Step::Write(FileNo::Second, 3, "d"),
        ],
        "done, failed, done, 1 faults, ||abcd
0: || || ||
1: || ||abc ||---
2: || ||abc ||---
3: || ||a ||---
4: || ||a ||---
5: || ||a ||----",
    ),
    // A failed sync makes nothing last, and the next one does.
    (
        &[2, 5],
        &[
            Step::Write(FileNo::Selector, 0, "s"),
            Step::Sync,
            Step::Sync,
            Step::Cut(FileNo::First, 0),
            Step::Sync,
        ],
        "done, failed, done, failed, done, 2 faults, s||
0: || || ||
1: || s|| -||
2: || s|| -||
3: || s|| -||
4: s|| s|| s||
5: s|| s|| s||
6: s|| s|| s||",
    ),
    // A failed length, and steps past the end.
    (
        &[0],
        &[
            Step::Write(FileNo::First, 0, "a"),
            Step::Write(FileNo::First, 1, "a"),
            Step::Cut(FileNo::First, 1),
        ],
        "failed, past the end, past the end, 1 faults, ||
0: || || ||
1: || || ||
2: || || ||",
    ),
];

#[test]
fn crashes_in_each_call(rt: HostRuntime) -> Result<(), Fail> {
    for (fails, steps, story) in CASES.iter() {
        assert_eq!(rt; story_of(rt.alloc(), fails, steps)?.as_str(), *story);
    }
    Ok(())
}
