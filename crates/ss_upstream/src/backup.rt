//! A client's listed requests that have no receipt yet.

ghost use Rattle.std.specs.Prelude.{◌≡◌, ◌<◌, ◌≤◌, ℕ, [], ◌∷◌, ◌++◌, length, IsOk, IsErr, IfOk, OnOk, OnErr, IsTrue, ◌↔◌};
ghost use Rattle.std.specs.List.{filter};
ghost use Rattle.ss_upstream.specs.Backups.{MOST, is_open, least_index, least_of};

use ss_value::NoMemory;
use std::alloc::Global;
use std::marker::Model;

/// The most requests that may be kept.
const MOST: usize = 16;

/// A request that is kept.
#[derive(Clone, Copy, Drop)]
pub struct Sent {
    /// Its number among its client's requests.
    pub index: u64,
    /// The place at which it is listed.
    pub place: u64,
}

/// Why a request is not kept.
#[derive(Clone, Copy, Debug, PartialEq, Eq, Drop)]
pub enum BackupError {
    /// As many are kept as may be.
    Full,
}

/// The requests of one client that are listed and have no receipt yet, in the order in which they were kept, at most 16.
///
/// Contracts see the list of them. No call but `new` takes memory: a client that has an answer has to keep it, whatever
/// memory there is.
#[derive(Drop)]
pub struct Backup {
    sent: Vec<Sent>,
}

impl Model for Backup {
    ghost use Rattle.std.specs.Prelude.{List, length, ◌≤◌, vec_capacity};
    ghost use Rattle.ss_upstream.specs.Backups.{MOST};
    ghost use Rattle.ss_upstream.specs.declared.backup.Sent.{Sent};

    ghost Value = { List Sent };

    ghost view = { λ b. b.sent.items };

    ghost invariant = { λ b. (length b.sent.items ≤ MOST) × (MOST ≤ vec_capacity b.sent) };
}

/// The less of a number and another, if there is one.
fn least_of(n: u64, other: Option<u64>) -> Option<u64>
    ensures { result ≡ least_of n other }
{
    match other {
        Some(m) => Some(n.min(m)),
        None => Some(n),
    }
}

impl Backup {
    /// Nothing kept, with room for 16. Takes the memory of all of them, and fails only for want of it.
    pub fn new(alloc: Global) -> Result<Backup, NoMemory>
        ensures { IfOk result (λ b. b ≡ []) }
    {
        let sent = Vec::with_capacity(alloc, MOST)?;
        Ok(Backup { sent })
    }

    /// What is kept, at most 16. Constant time.
    pub fn sent(&self) -> &[Sent]
        ensures kept { result.now ≡ self.now }
        ensures few { length self.now ≤ MOST }
    {
        self.sent.as_slice()
    }

    /// Keeps one request more, behind the others. `Full` exactly where 16 are kept, and then nothing changes. Constant time.
    pub fn keep(&mut self, index: u64, place: u64) -> Result<(), BackupError>
        ensures full { IsErr result ↔ (length self.old ≡ MOST) }
        ensures ok { OnOk result (self.new ≡ self.old ++ record { index = index; place = place } ∷ []) }
        ensures err { OnErr result (self.new ≡ self.old) }
    {
        if self.sent.len() == MOST {
            return Err(BackupError::Full);
        }
        self.sent.push_reserved(Sent { index, place });
        Ok(())
    }

    /// Lets go of all that stands below a count that is receipted. Linear in what is kept.
    pub fn receipted(&mut self, count: u64)
        ensures { self.new ≡ filter (is_open count) self.old }
    {
        self.sent.retain(|sent| count <= sent.place);
    }

    /// The index to go on from: the least that is kept, and None exactly where none is. Linear in what is kept, and not
    /// the first kept, because contracts say nothing of the order in which a caller keeps.
    pub fn resend_from(&self) -> Option<u64>
        ensures { result ≡ least_index self.now }
    {
        let mut least = None;
        for sent in self.sent.as_slice() {
            least = least_of(sent.index, least);
        }
        least
    }
}
