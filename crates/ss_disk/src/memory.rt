//! A disk in memory.

ghost use Rattle.std.specs.Prelude.{◌≡◌, ◌<◌, false, true, IsTrue, length, vec_len, vec_capacity};
ghost use Rattle.ss_disk.specs.Files.{Files};
ghost use Rattle.ss_disk.specs.Memory.{files_of, seen_after, left_of, are_within};

use crate::contents::FileContents;
use crate::crash::{Torn, events_before, replay, tear, up_to_sync};
use crate::disk::{Disk, DiskError, FileNo};
use crate::events::Event;
use ss_value::{Failed, NoMemory, Seq};
use std::alloc::Global;

/// Three files in memory, with what happened to them: so it tells what a crash in any of its calls may leave.
///
/// It fails at the calls of the given numbers, counted from 0. A write that fails changes nothing that a read
/// gives. Each event keeps a copy of the bytes that were written.
#[derive(Drop)]
pub struct MemoryDisk {
    alloc: Global,
    fails: Seq<u64>,
    calls: u64,
    faults: u64,
    initial: FileContents,
    files: FileContents,
    events: Vec<Event>,
    /// Whether an event stands behind the last sync.
    unsynced: bool,
    ghost shown: { files_of files ≡ seen_after events.items (files_of initial) },
    ghost within: { IsTrue (are_within events.items (files_of initial)) },
    ghost still: { unsynced ≡ false → (image : Files) → left_of (files_of initial) events.items image → image ≡ files_of files },
    ghost room: { unsynced ≡ true → vec_len events < vec_capacity events },
}

impl MemoryDisk {
    ghost use Rattle.std.specs.Prelude.{◌≤◌};
    ghost use Rattle.ss_value.specs.FaultCounts.{Rose};
    ghost use Rattle.ss_disk.specs.Memory.{no_files};
    ghost use Rattle.ss_disk.specs.Calls.{CountsCall, memory_seen, memory_calls, memory_faults, memory_fails, fails_next, IsSynced};

    /// An empty disk that fails at the calls with these numbers, from 0. Takes no memory.
    pub fn new(alloc: Global, fails: Seq<u64>) -> MemoryDisk
        ensures empty { memory_seen result ≡ no_files }
        ensures synced { IsSynced result }
        ensures calls { memory_calls result ≡ 0 }
        ensures faults { memory_faults result ≡ 0 }
        ensures fails { memory_fails result ≡ fails }
    {
        MemoryDisk {
            alloc,
            fails,
            calls: 0,
            faults: 0,
            initial: FileContents::empty(alloc),
            files: FileContents::empty(alloc),
            events: Vec::new(alloc),
            unsynced: false,
        }
    }

    /// Whether the next call is to fail.
    fn fails_next(&self) -> bool
        ensures { result ≡ fails_next self.now }
    {
        self.fails.as_slice().contains(&self.calls)
    }

    /// Counts a call, and where it is to fail a fault; tells whether it is.
    fn count_call(&mut self) -> bool
        ensures failed { result ≡ fails_next self.old }
        ensures counted { CountsCall self.old self.new result }
        ensures later { memory_faults self.old ≤ memory_faults self.new }
        ensures cause { IsTrue result → Rose (memory_faults self.old) (memory_faults self.new) }
    {
        let failed = self.fails_next();
        self.calls = self.calls.saturating_add(1);
        if failed {
            self.faults = self.faults.saturating_add(1);
        }
        failed
    }

    /// How many calls there were, up to the greatest number of 64 bits. One without memory is none.
    pub fn calls(&self) -> u64
        ensures { result ≡ memory_calls self.now }
    {
        self.calls
    }
}

impl MemoryDisk {
    ghost use Rattle.std.specs.Prelude.{[], ◌≤◌, ◌<◌, IfOk};
    ghost use Rattle.ss_disk.specs.Tearing.{crash_moment, crash_image};
    ghost use Rattle.ss_disk.specs.Calls.{memory_kind, memory_seen, memory_initial, memory_left, memory_moment, memory_events, memory_calls, memory_faults, memory_fails, IsSynced};

    /// A disk with what a crash in that call, counted from 0, leaves. It fails at no call, and nothing is
    /// unsynced.
    ///
    /// A crash in a sync falls before it is done. Of what no sync has made last, `torn` says what it holds (`ok`); a torn
    /// write that would begin behind the end is left out. It is one of the images of that moment (`image`). Time is
    /// linear in the bytes that were ever written, memory in those of the files.
    pub fn crash(&self, alloc: Global, call: u64, torn: Torn) -> Result<MemoryDisk, NoMemory>
        requires { call < memory_calls self.now }
        ensures ok { IfOk result (λ disk. memory_seen disk ≡ crash_image torn call (memory_events self.now) (memory_initial self.now)) }
        ensures image { IfOk result (λ disk. memory_left self.now (crash_moment call (memory_events self.now)) (memory_seen disk)) }
        ensures moment { crash_moment call (memory_events self.now) ≤ memory_moment self.now }
        ensures synced { IfOk result IsSynced }
        ensures calls { IfOk result (λ disk. memory_calls disk ≡ 0) }
        ensures faults { IfOk result (λ disk. memory_faults disk ≡ 0) }
        ensures fails { IfOk result (λ disk. memory_fails disk ≡ []) }
    {
        let events = self.events.as_slice();
        let (past, _) = events.split_at(events_before(events, call));
        let (durable, loose) = past.split_at(up_to_sync(past));
        let mut files = self.initial.copy(alloc)?;
        replay(&mut files, durable)?;
        tear(alloc, &mut files, loose, torn)?;
        let initial = files.copy(alloc)?;
        Ok(MemoryDisk {
            alloc,
            fails: Seq::new(alloc),
            calls: 0,
            faults: 0,
            initial,
            files,
            events: Vec::new(alloc),
            unsynced: false,
        })
    }
}

impl Disk for MemoryDisk {
    ghost use Rattle.std.specs.Prelude.{[], ◌+◌, ◌≤◌, length, OnOk, IfOk, IsErrOf, is_err};
    ghost use Rattle.ss_value.specs.FaultCounts.{HasCause};
    ghost use Rattle.ss_disk.specs.declared.events.Event.TheVariants.{Wrote, Cut};
    ghost use Rattle.ss_disk.specs.Files.{file, with_write, with_cut, range_of};
    ghost use Rattle.ss_disk.specs.Memory.{files_of};
    ghost use Rattle.ss_disk.specs.Happened.{left_at, sees_left};
    ghost use Rattle.ss_disk.specs.Crash.{Follows, TornWrite, TornCut, NoNewImage};
    ghost use Rattle.ss_disk.specs.Moments.{Passes};
    ghost use Rattle.ss_disk.specs.Causes.{HasDiskCause};
    ghost use Rattle.ss_disk.specs.Calls.{memory_kind, memory_seen, memory_left, memory_left_now, memory_moment, memory_calls, memory_faults, IsSynced, MadeCall, MadeChange, MadeSync};

    ghost kind = { memory_kind };

    ghost honest_tells = { λ _. tt };

    ghost sees_an_image = { λ d _. sees_left (files_of d.initial) (files_of d.files) d.events.items d.shown d.within };

    fn len(&mut self, which: FileNo) -> Result<u64, Failed>
        ensures ok { IfOk result (λ len. len ≡ length (file which (memory_seen self.old))) }
        ensures unchanged { memory_seen self.new ≡ memory_seen self.old }
        ensures crash { NoNewImage (memory_left_now self.old) (memory_left_now self.new) }
        ensures time { Passes (memory_moment self.old) (memory_moment self.new) (memory_left self.old) (memory_left self.new) }
        ensures cause { HasCause (memory_faults self.old) (memory_faults self.new) result }
        ensures call { MadeCall self.old self.new (is_err result) [] }
    {
        if self.count_call() {
            return Err(Failed);
        }
        Ok(self.files.file(which).len() as u64)
    }

    fn read(&mut self, which: FileNo, at: u64, buf: &mut [u8]) -> Result<(), Failed>
        requires { at + length buf.old ≤ length (file which (memory_seen self.old)) }
        ensures ok { OnOk result (buf.new ≡ range_of at (length buf.old) (file which (memory_seen self.old))) }
        ensures unchanged { memory_seen self.new ≡ memory_seen self.old }
        ensures crash { NoNewImage (memory_left_now self.old) (memory_left_now self.new) }
        ensures time { Passes (memory_moment self.old) (memory_moment self.new) (memory_left self.old) (memory_left self.new) }
        ensures cause { HasCause (memory_faults self.old) (memory_faults self.new) result }
        ensures call { MadeCall self.old self.new (is_err result) [] }
    {
        if self.count_call() {
            return Err(Failed);
        }
        let (_, rest) = self.files.file(which).split_at(at as usize);
        let (bytes, _) = rest.split_at(buf.len());
        buf.copy_from_slice(bytes);
        Ok(())
    }

    fn write_at(&mut self, which: FileNo, at: u64, bytes: &[u8]) -> Result<(), DiskError>
        requires { at ≤ length (file which (memory_seen self.old)) }
        ensures ok { OnOk result (memory_seen self.new ≡ with_write which at bytes.now (memory_seen self.old)) }
        ensures err { IsErrOf result DiskError.NoMemory → memory_seen self.new ≡ memory_seen self.old }
        ensures torn { IsErrOf result DiskError.Failed → TornWrite which at (length bytes.now) (memory_seen self.old) (memory_seen self.new) }
        ensures crash { Follows (TornWrite which at (length bytes.now)) (memory_left_now self.old) (memory_left_now self.new) }
        ensures untouched { IsErrOf result DiskError.NoMemory → NoNewImage (memory_left_now self.old) (memory_left_now self.new) }
        ensures time { Passes (memory_moment self.old) (memory_moment self.new) (memory_left self.old) (memory_left self.new) }
        ensures cause { HasDiskCause (memory_faults self.old) (memory_faults self.new) result }
        ensures call { MadeChange self.old self.new (Wrote (memory_calls self.old) which at bytes.now) result }
    {
        let Ok(copy) = Vec::from_slice(self.alloc, bytes) else {
            return Err(DiskError::NoMemory);
        };
        if self.events.reserve(2).is_err() {
            return Err(DiskError::NoMemory);
        }
        let call = self.calls;
        let bytes_written = Seq::from_vec(copy);
        if self.fails_next() {
            self.count_call();
            let event = Event::Wrote {
                call,
                which,
                at,
                bytes: bytes_written,
                done: false,
            };
            self.events.push_reserved(event);
            self.unsynced = true;
            return Err(DiskError::Failed);
        }
        if self.files.write(which, at as usize, bytes).is_err() {
            return Err(DiskError::NoMemory);
        }
        self.calls = self.calls.saturating_add(1);
        let event = Event::Wrote {
            call,
            which,
            at,
            bytes: bytes_written,
            done: true,
        };
        self.events.push_reserved(event);
        self.unsynced = true;
        Ok(())
    }

    fn cut(&mut self, which: FileNo, len: u64) -> Result<(), DiskError>
        requires { len ≤ length (file which (memory_seen self.old)) }
        ensures ok { OnOk result (memory_seen self.new ≡ with_cut which len (memory_seen self.old)) }
        ensures err { IsErrOf result DiskError.NoMemory → memory_seen self.new ≡ memory_seen self.old }
        ensures torn { IsErrOf result DiskError.Failed → TornCut which len (memory_seen self.old) (memory_seen self.new) }
        ensures crash { Follows (TornCut which len) (memory_left_now self.old) (memory_left_now self.new) }
        ensures untouched { IsErrOf result DiskError.NoMemory → NoNewImage (memory_left_now self.old) (memory_left_now self.new) }
        ensures time { Passes (memory_moment self.old) (memory_moment self.new) (memory_left self.old) (memory_left self.new) }
        ensures cause { HasDiskCause (memory_faults self.old) (memory_faults self.new) result }
        ensures call { MadeChange self.old self.new (Cut (memory_calls self.old) which len) result }
    {
        if self.events.reserve(2).is_err() {
            return Err(DiskError::NoMemory);
        }
        let call = self.calls;
        if self.count_call() {
            let event = Event::Cut {
                call,
                which,
                len,
                done: false,
            };
            self.events.push_reserved(event);
            self.unsynced = true;
            return Err(DiskError::Failed);
        }
        self.files.cut(which, len as usize);
        let event = Event::Cut {
            call,
            which,
            len,
            done: true,
        };
        self.events.push_reserved(event);
        self.unsynced = true;
        Ok(())
    }

    fn sync(&mut self) -> Result<(), Failed>
        ensures durable { OnOk result (IsSynced self.new) }
        ensures unchanged { memory_seen self.new ≡ memory_seen self.old }
        ensures crash { NoNewImage (memory_left_now self.old) (memory_left_now self.new) }
        ensures time { Passes (memory_moment self.old) (memory_moment self.new) (memory_left self.old) (memory_left self.new) }
        ensures cause { HasCause (memory_faults self.old) (memory_faults self.new) result }
        ensures call { MadeSync self.old self.new result }
    {
        let call = self.calls;
        if self.count_call() {
            return Err(Failed);
        }
        if self.unsynced {
            self.events.push_reserved(Event::Synced { call });
            self.unsynced = false;
        }
        Ok(())
    }

    fn faults(&self) -> u64 {
        self.faults
    }
}
