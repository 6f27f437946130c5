//! What a crash leaves of a disk in memory.

ghost use Rattle.std.specs.Prelude.{◌≡◌, ◌≤◌, length, replicate, IsTrue, OnOk};
ghost use Rattle.ss_disk.specs.Memory.{files_of, seen_behind, seen_after, is_within, are_within};
ghost use Rattle.ss_disk.specs.Tearing.{is_before, crash_moment, synced_count, written_within, torn_write, torn_cut, torn_event, torn_events};

use crate::contents::FileContents;
use crate::disk::FileNo;
use crate::events::Event;
use ss_value::NoMemory;
use std::alloc::Global;

/// What each range holds that was written or cut since the last sync.
#[derive(Clone, Copy, Debug, PartialEq, Eq, Drop)]
pub enum Torn {
    /// Its old bytes.
    Nothing,
    /// Its new ones.
    Whole,
    /// This byte.
    Fill(u8),
}

impl Event {
    /// Whether it has happened when a crash falls into a call.
    fn is_before(&self, call: u64) -> bool
        ensures { result ≡ is_before call self.now }
    {
        match self {
            Event::Wrote { call: n, .. } => *n <= call,
            Event::Cut { call: n, .. } => *n <= call,
            Event::Synced { call: n } => *n < call,
        }
    }
}

/// How many of these events have happened when a crash falls into a call.
pub(crate) fn events_before(events: &[Event], call: u64) -> usize
    ensures { result ≡ crash_moment call events.now }
{
    for (count, event) in events.iter().enumerate() {
        if !event.is_before(call) {
            return count;
        }
    }
    events.len()
}

/// How many events there are up to the last sync.
pub(crate) fn up_to_sync(events: &[Event]) -> usize
    ensures within { result ≤ length events.now }
    ensures count { result ≡ synced_count events.now }
{
    let mut synced = 0;
    for (at, event) in events.iter().enumerate() {
        if let Event::Synced { .. } = event {
            synced = at + 1;
        }
    }
    synced
}

/// What a read gives behind one event.
fn apply(files: &mut FileContents, event: &Event) -> Result<(), NoMemory>
    requires { IsTrue (is_within event.now (files_of files.old)) }
    ensures { OnOk result (files_of files.new ≡ seen_behind event.now (files_of files.old)) }
{
    match event {
        Event::Wrote {
            which,
            at,
            bytes,
            done,
            ..
        } => {
            if *done {
                files.write(*which, *at as usize, bytes.as_slice())?;
            }
        }
        Event::Cut {
            which,
            len,
            done,
            ..
        } => {
            if *done {
                files.cut(*which, *len as usize);
            }
        }
        Event::Synced { .. } => {}
    }
    Ok(())
}

/// What a read gives behind these events.
pub(crate) fn replay(files: &mut FileContents, events: &[Event]) -> Result<(), NoMemory>
    requires { IsTrue (are_within events.now (files_of files.old)) }
    ensures { OnOk result (files_of files.new ≡ seen_after events.now (files_of files.old)) }
{
    for event in events {
        apply(files, event)?;
    }
    Ok(())
}

/// Writes these bytes, unless they would begin behind the end of their file.
fn write_within(
    files: &mut FileContents,
    which: FileNo,
    at: u64,
    bytes: &[u8],
) -> Result<(), NoMemory>
    ensures { OnOk result (files_of files.new ≡ written_within which at bytes.now (files_of files.old)) }
{
    if at <= files.file(which).len() as u64 {
        files.write(which, at as usize, bytes)?;
    }
    Ok(())
}

/// Fills so many bytes from an offset on, unless they would begin behind the end of their file.
fn fill_within(
    alloc: Global,
    files: &mut FileContents,
    which: FileNo,
    at: u64,
    count: usize,
    byte: u8,
) -> Result<(), NoMemory>
    ensures { OnOk result (files_of files.new ≡ written_within which at (replicate count byte) (files_of files.old)) }
{
    let bytes = vec![in alloc; byte; count]?;
    write_within(files, which, at, bytes.as_slice())
}

/// What a crash leaves of a write that no sync has made last.
fn tear_write(
    alloc: Global,
    files: &mut FileContents,
    which: FileNo,
    at: u64,
    bytes: &[u8],
    torn: Torn,
) -> Result<(), NoMemory>
    ensures { OnOk result (files_of files.new ≡ torn_write torn which at bytes.now (files_of files.old)) }
{
    match torn {
        Torn::Nothing => Ok(()),
        Torn::Whole => write_within(files, which, at, bytes),
        Torn::Fill(byte) => fill_within(alloc, files, which, at, bytes.len(), byte),
    }
}

/// What a crash leaves of a cut that no sync has made last.
fn tear_cut(
    alloc: Global,
    files: &mut FileContents,
    which: FileNo,
    len: u64,
    torn: Torn,
) -> Result<(), NoMemory>
    ensures { OnOk result (files_of files.new ≡ torn_cut torn which len (files_of files.old)) }
{
    match torn {
        Torn::Nothing => {}
        Torn::Whole => files.cut(which, len as usize),
        Torn::Fill(byte) => {
            let behind = files.file(which).len().saturating_sub(len as usize);
            fill_within(alloc, files, which, len, behind, byte)?;
        }
    }
    Ok(())
}

/// What a crash leaves of an event that no sync has made last.
fn tear_one(
    alloc: Global,
    files: &mut FileContents,
    event: &Event,
    torn: Torn,
) -> Result<(), NoMemory>
    ensures { OnOk result (files_of files.new ≡ torn_event torn event.now (files_of files.old)) }
{
    match event {
        Event::Wrote {
            which,
            at,
            bytes,
            ..
        } => tear_write(alloc, files, *which, *at, bytes.as_slice(), torn),
        Event::Cut { which, len, .. } => tear_cut(alloc, files, *which, *len, torn),
        Event::Synced { .. } => Ok(()),
    }
}

/// The same of many events, the first of them first.
pub(crate) fn tear(
    alloc: Global,
    files: &mut FileContents,
    events: &[Event],
    torn: Torn,
) -> Result<(), NoMemory>
    ensures { OnOk result (files_of files.new ≡ torn_events torn events.now (files_of files.old)) }
{
    for event in events {
        tear_one(alloc, files, event, torn)?;
    }
    Ok(())
}
