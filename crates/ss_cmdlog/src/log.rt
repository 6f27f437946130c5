//! The log.

ghost use Rattle.std.specs.Prelude.{◌≡◌, ◌≤◌, ◌<◌, ◌+◌, ◌^◌, List, [], ◌∷◌, length, None, OnOk, OnErr, IsOk, IfOk, IfErr, IsErrOf, All, false, ℕ};
ghost use Rattle.ss_model.specs.declared.entry.Entry.{Entry};
ghost use Rattle.ss_record.specs.Spelling.{records};

use crate::group::add_group;
use crate::next::{NextGroup, behind_gate, next_group};
use ss_disk::{Disk, DiskError, FileNo};
use ss_model::{Entry, Mode};
use ss_value::{NoMemory, Seq};
use std::alloc::Global;

/// That all executions at places below a count are on the disk, whatever a crash leaves of it from then on.
#[derive(Clone, Copy, Debug, PartialEq, Eq, Drop)]
pub struct Receipt {
    pub count: u64,
}

/// Why a call of a log was refused.
#[derive(Clone, Copy, Debug, PartialEq, Eq, Drop)]
pub enum LogError {
    /// Want of memory. What was on the disk is there, and what was added by then.
    NoMemory,
    /// The disk failed, and counted it, in this call.
    DiskFault,
    /// The disk holds no store: the file's number, and in it the first byte that can't be. `open` alone answers it.
    Foreign { file: u8, at: u64 },
    /// The disk had failed in an earlier call, and had this count of faults then. `flush` and `renew` alone answer it.
    Halted { faults: u64 },
}

impl From<NoMemory> for LogError {
    ghost use Rattle.ss_cmdlog.specs.declared.log.LogError.TheVariants.{NoMemory};

    ghost from_gives = { λ _ e. e ≡ NoMemory };

    fn from(_: NoMemory) -> LogError {
        LogError::NoMemory
    }
}

impl From<DiskError> for LogError {
    ghost use Rattle.std.specs.Prelude.{◌≡◌};
    ghost use Rattle.ss_cmdlog.specs.Errors.{log_error};

    ghost from_gives = { λ refused e. e ≡ log_error refused };

    fn from(refused: DiskError) -> LogError {
        match refused {
            DiskError::NoMemory => LogError::NoMemory,
            DiskError::Failed => LogError::DiskFault,
        }
    }
}

/// The current generation of a store, behind which groups of entries are added. It takes the memory of its disk, and a few words.
///
/// What the store stands for is a variable of the clauses (the `Stood` of `IsOpen`), instead of a field or an
/// invariant: it is no data of the log, and an invariant could only say that there is some, so that each owner would
/// have to get back his own.
#[derive(Drop)]
pub struct CmdLog<D: Disk> {
    pub(crate) disk: D,
    pub(crate) alloc: Global,
    pub(crate) bodies: bool,
    pub(crate) mode: Mode,
    pub(crate) file: FileNo,
    pub(crate) gate: u64,
    pub(crate) first: u64,
    pub(crate) count: u64,
    pub(crate) halted: Option<u64>,
}

impl<D: Disk> CmdLog<D> {
    ghost use Rattle.ss_cmdlog.specs.Generation.{Stood, IsGroup, max_body};
    ghost use Rattle.ss_record.specs.Bounds.{IsRecordable};
    ghost use Rattle.ss_disk.specs.Kinds.{present};
    ghost use Rattle.ss_cmdlog.specs.Groups.{as_group};
    ghost use Rattle.ss_cmdlog.specs.Logged.{logged, is_install};
    ghost use Rattle.ss_cmdlog.specs.Store.{count_of};
    ghost use Rattle.ss_cmdlog.specs.Log.{IsOpenAt, IsOpen, AddsGroups, AddsEntries, HasRecords, HasLogCause, IsAddRefusal, IsReceipted, KeepsCounts};

    /// Adds the group of these records, which is for so many entries.
    fn write_group(&mut self, body: &[u8], number: usize, taken: usize) -> Result<(), LogError>
        requires going { self.old.halted ≡ None }
        requires open { D.kind.tells → (s : Stood) × IsOpenAt (D.kind.seen self.old.disk) self.old.file self.old.gate s }
        requires body { length body.now ≤ max_body }
        requires number { number ≤ max_body }
        requires recorded { HasRecords self.old.mode number taken }
        requires within { self.old.count + taken ≤ 2 ^ 60 }
        ensures adds { (s : Stood) (entries : List Entry) → IsOpen D.kind self.old s
            → IsGroup self.old.bodies self.old.mode entries → body.now ≡ records entries → number ≡ length entries
            → AddsGroups D.kind self.old self.new result s (entries ∷ []) }
        ensures count { OnOk result (self.new.count ≡ self.old.count + taken) }
        ensures uncounted { OnErr result (self.new.count ≡ self.old.count) }
        ensures refusals { IfErr result IsAddRefusal }
        ensures cause { HasLogCause (D.kind.faults self.old.disk) (D.kind.faults self.new.disk) self.old.halted self.new.halted result }
        ensures same { self.new.mode ≡ self.old.mode }
        ensures form { self.new.bodies ≡ self.old.bodies }
    {
        let bytes = behind_gate(self.alloc, body, number)?;
        let Some(gate) = self.gate.checked_add(bytes.len() as u64) else {
            return Err(LogError::NoMemory);
        };
        match add_group(&mut self.disk, self.file, self.gate, bytes.as_slice()) {
            Ok(()) => {
                self.gate = gate;
                self.count += taken as u64;
                Ok(())
            }
            Err(DiskError::NoMemory) => Err(LogError::NoMemory),
            Err(DiskError::Failed) => {
                self.halted = Some(self.disk.faults());
                Err(LogError::DiskFault)
            }
        }
    }

    /// Adds the next group, and counts the entries that were taken for it. Where there is no record the disk isn't called.
    fn write_next(&mut self, next: &NextGroup) -> Result<(), LogError>
        requires going { self.old.halted ≡ None }
        requires open { D.kind.tells → (s : Stood) × IsOpenAt (D.kind.seen self.old.disk) self.old.file self.old.gate s }
        requires body { length next.now.body.items ≤ max_body }
        requires number { next.now.records ≤ max_body }
        requires recorded { HasRecords self.old.mode next.now.records next.now.taken }
        requires within { self.old.count + next.now.taken ≤ 2 ^ 60 }
        ensures adds { (s : Stood) (entries : List Entry) → IsOpen D.kind self.old s
            → (0 < length entries → IsGroup self.old.bodies self.old.mode entries) → next.now.body.items ≡ records entries → next.now.records ≡ length entries
            → AddsGroups D.kind self.old self.new result s (as_group entries) }
        ensures count { OnOk result (self.new.count ≡ self.old.count + next.now.taken) }
        ensures uncounted { OnErr result (self.new.count ≡ self.old.count) }
        ensures refusals { IfErr result IsAddRefusal }
        ensures cause { HasLogCause (D.kind.faults self.old.disk) (D.kind.faults self.new.disk) self.old.halted self.new.halted result }
        ensures same { self.new.mode ≡ self.old.mode }
        ensures form { self.new.bodies ≡ self.old.bodies }
        ensures quiet { next.now.records ≡ 0 → self.new.disk ≡ self.old.disk }
    {
        if next.records == 0 {
            self.count += next.taken as u64;
            return Ok(());
        }
        self.write_group(next.body.as_slice(), next.records, next.taken)
    }

    /// Adds entries, group by group.
    fn add_entries(&mut self, entries: &[Entry]) -> Result<(), LogError>
        requires going { self.old.halted ≡ None }
        requires open { (s : Stood) × IsOpen D.kind self.old s }
        requires recordable { All IsRecordable entries.now }
        requires formed { self.old.bodies ≡ false → All (λ e. is_install e ≡ false) entries.now }
        requires within { self.old.count + length entries.now ≤ 2 ^ 60 }
        ensures adds { (s : Stood) → IsOpen D.kind self.old s
            → AddsEntries D.kind self.old self.new (IsOk result) (IsErrOf result LogError.NoMemory) s entries.now }
        ensures count { OnOk result (self.new.count ≡ self.old.count + length entries.now) }
        ensures between { (self.old.count ≤ self.new.count) × (self.new.count ≤ self.old.count + length entries.now) }
        ensures cause { HasLogCause (D.kind.faults self.old.disk) (D.kind.faults self.new.disk) self.old.halted self.new.halted result }
        ensures refusals { IfErr result IsAddRefusal }
        ensures same { self.new.mode ≡ self.old.mode }
        ensures form { self.new.bodies ≡ self.old.bodies }
        ensures nothing { entries.now ≡ [] → self.new ≡ self.old }
        ensures quiet { logged self.old.mode entries.now ≡ [] → self.new.disk ≡ self.old.disk }
    {
        let mut rest = entries;
        while !rest.is_empty() {
            let next = next_group(self.alloc, self.mode, rest)?;
            self.write_next(&next)?;
            let (_, behind) = rest.split_at(next.taken);
            rest = behind;
        }
        Ok(())
    }

    /// Adds entries behind those that are there, and answers a receipt of all of them: group commit of the command log
    /// (Malviya et al., ICDE 2014, section 3).
    ///
    /// Each group takes as many entries as fit 8,388,608 bytes of records, so entries whose records fit are one group. A
    /// crash at any moment leaves the entries of the first of the groups: none of them, some or all; and what a crash at one
    /// moment could not take, a crash at no later moment takes (`stays`). After `NoMemory` the log goes on behind the groups
    /// that are on the disk. `DiskFault` comes exactly where the disk counted a fault; the log answers `Halted` with that count
    /// from then on, and touches the disk no more.
    ///
    /// A weak log has no steps, which run again where it is recovered: of the entries it writes all others, and the receipt
    /// counts them all. A log of the older form has no bodies, so none of the entries may be an install. Where there is nothing
    /// to write the disk isn't called, and nothing is spelled. Else there are four calls of the disk for each group: its bytes
    /// behind the present gate, a sync, the gate, a sync. Time is linear in the bytes of the records, each of which is spelled
    /// into a buffer of its own and copied into its group, and with it once more behind the group's head; the entry that begins
    /// the next group is spelled twice.
    pub fn flush(&mut self, entries: &Seq<Entry>) -> Result<Receipt, LogError>
        requires open { self.old.halted ≡ None → (s : Stood) × IsOpen D.kind self.old s }
        requires recordable { All IsRecordable entries.now }
        requires formed { self.old.bodies ≡ false → All (λ e. is_install e ≡ false) entries.now }
        requires within { self.old.halted ≡ None → self.old.count + length entries.now ≤ 2 ^ 60 }
        ensures adds { (s : Stood) → IsOpen D.kind self.old s
            → AddsEntries D.kind self.old self.new (IsOk result) (IsErrOf result LogError.NoMemory) s entries.now }
        ensures count { IfOk result (λ receipt. (receipt.count ≡ self.old.count + length entries.now) × (self.new.count ≡ receipt.count)) }
        ensures between { (self.old.count ≤ self.new.count) × (self.new.count ≤ self.old.count + length entries.now) }
        ensures cause { HasLogCause (D.kind.faults self.old.disk) (D.kind.faults self.new.disk) self.old.halted self.new.halted result }
        ensures receipt { self.old.mode ≡ Mode.Strong → D.kind.honest → IfOk result (λ receipt. IsReceipted (present D.kind) receipt.count self.new.disk) }
        ensures stays { D.kind.honest → KeepsCounts D.kind.moment D.kind.images (D.kind.moment self.old.disk) self.new.disk }
        ensures halted { (faults : ℕ) → self.old.halted ≡ Some faults → (result ≡ Err (LogError.Halted faults)) × (self.new ≡ self.old) }
        ensures halted_only { (faults : ℕ) → result ≡ Err (LogError.Halted faults) → self.old.halted ≡ Some faults }
        ensures own { (file at : ℕ) → result ≡ Err (LogError.Foreign file at) → ⊥ }
        ensures same { self.new.mode ≡ self.old.mode }
        ensures form { self.new.bodies ≡ self.old.bodies }
        ensures nothing { entries.now ≡ [] → self.new ≡ self.old }
        ensures quiet { logged self.old.mode entries.now ≡ [] → self.new.disk ≡ self.old.disk }
    {
        if let Some(faults) = self.halted {
            return Err(LogError::Halted { faults });
        }
        self.add_entries(entries.as_slice())?;
        Ok(Receipt { count: self.count })
    }

    /// The first place of the current generation: how many executions its image has. Takes no memory.
    pub fn first(&self) -> u64
        ensures { result ≡ self.now.first }
    {
        self.first
    }

    /// The mode of the store. Takes no memory.
    pub fn mode(&self) -> Mode
        ensures { result ≡ self.now.mode }
    {
        self.mode
    }

    /// Counts from here: of a weak log, how many executions it was recovered to, with the steps that ran again. Takes no memory.
    ///
    /// The log was opened, and nothing was flushed since: it counts its entries so far, and later receipts count from this.
    pub fn rebase(&mut self, count: u64)
        requires weak { self.old.mode ≡ Mode.Weak }
        requires fresh { D.kind.tells → (s : Stood) × IsOpen D.kind self.old s × (self.old.count ≡ count_of s) }
        requires no_less { self.old.count ≤ count }
        requires few { count ≤ 2 ^ 60 }
        ensures open { (s : Stood) → IsOpen D.kind self.old s → IsOpen D.kind self.new s }
        ensures count { self.new.count ≡ count }
        ensures rest { self.new ≡ record self.old { count = count } }
    {
        self.count = count;
    }

    /// How many executions the log has: those of its image, and those behind it. While it isn't halted that is the count
    /// of a receipt of all of them.
    pub fn count(&self) -> u64
        ensures { result ≡ self.now.count }
    {
        self.count
    }

    /// The disk's count of faults where it failed in a call of the log, and None where it hasn't.
    pub fn halted(&self) -> Option<u64>
        ensures { result ≡ self.now.halted }
    {
        self.halted
    }

    /// The disk, as the log left it.
    pub fn into_disk(self) -> D
        ensures { result ≡ self.disk }
    {
        let CmdLog { disk, .. } = self;
        disk
    }
}
