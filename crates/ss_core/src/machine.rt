//! The core, its events, and why one is refused.

use ss_model::{Catalog, Listed};
use ss_value::Seq;

/// One of the two files that entries are logged in.
#[derive(Clone, Copy, Debug, PartialEq, Eq, Drop)]
pub struct Half {
    /// The place of the first entry that is logged in it. No event depends on it, since a machine of counts reads no file.
    pub front: u64,
    /// How many entries of the list it covers: those before its front and those logged in it.
    pub count: u64,
}

/// How far a write to the disk has come.
///
/// A group of entries is written and synced, then its gate is opened and synced, and then a receipt is given. A crash that
/// falls while the gate is not synced may leave it open or not, so no receipt is given before. A generation, with which the
/// log begins anew, is written and synced into the other half while all partitions are held, and then selected and synced;
/// a crash in between may leave either half selected, and both cover as many entries.
#[derive(Clone, Copy, Debug, PartialEq, Eq, Drop)]
pub enum Stage {
    /// Nothing is being written.
    Still,
    /// The entries up to this count are written.
    Body(u64),
    /// And synced.
    BodySynced(u64),
    /// Their gate is open: the mark without which whoever reads the log leaves them out.
    Gate(u64),
    /// And synced.
    GateSynced(u64),
    /// The other half is empty.
    Cut,
    /// A generation is written to it.
    Written,
    /// And synced.
    Synced,
    /// The selector names the other half.
    Selecting,
}

/// What may happen between two moments at which others can see the store.
///
/// An actor is whoever runs an execution, a client or an executor.
#[derive(Drop)]
pub enum Event {
    /// An actor takes a partition that nobody holds.
    Take {
        actor: u8,
        part: u8,
    },
    /// An actor adds an entry that it ran after the first `seen` entries of the list. Others may have committed since, on
    /// other partitions.
    Commit {
        actor: u8,
        listed: Listed,
        seen: u64,
    },
    /// An actor gives back a partition that it holds.
    Put {
        actor: u8,
        part: u8,
    },
    /// The entries up to this count are written, behind those that are covered.
    WriteBody {
        count: u64,
    },
    /// What was written is synced.
    SyncBody,
    /// The gate of what was written is opened.
    OpenGate,
    /// The gate is synced: the entries are covered.
    SyncGate,
    /// A receipt is given for them.
    Receive,
    /// The other half is emptied, by an actor that holds all partitions.
    CutOther {
        actor: u8,
    },
    /// A generation is written to it.
    WriteGeneration,
    /// The generation is synced: the other half covers as many entries.
    SyncGeneration,
    /// The selector is written, for the other half.
    Select,
    /// The selector is synced.
    SyncSelect,
    /// A call of the disk fails.
    Fail,
    /// All is lost but what is synced. A gate that is not synced is open exactly where `gate` is 1, and a selector that is
    /// not synced is the byte `selector`.
    Crash {
        gate: u8,
        selector: u8,
    },
    /// The list is read from the disk.
    Recover,
}

/// Why an event was refused.
#[derive(Clone, Copy, Debug, PartialEq, Eq, Drop)]
pub enum StepError {
    /// Out of memory.
    NoMemory,
    /// It cannot happen now.
    NotEnabled,
}

/// A store, as far as its events depend on it.
#[derive(Drop)]
pub struct Core {
    pub catalog: Catalog,
    /// How many partitions run.
    pub parts: u8,
    /// The length of the list at the opening.
    pub base: u64,
    /// All executions since the store was formatted, with their outcomes.
    pub list: Seq<Listed>,
    /// Of each partition how many entries its holder knows: no entry behind these touches it.
    pub known: Seq<u64>,
    /// Of each partition the actor that holds it.
    pub hands: Seq<Option<u8>>,
    /// The two halves of the disk.
    pub halves: Seq<Half>,
    /// The byte that names the selected half: the first where it is even, and the second where it is odd.
    pub selector: u8,
    pub stage: Stage,
    /// The counts for which receipts were given: all entries before such a place are on the disk.
    pub receipts: Seq<u64>,
    /// Whether a call of the disk has failed. Then none is made until a recovery, since nobody knows what it would find.
    pub halted: bool,
    /// Whether it has crashed and has not recovered.
    pub down: bool,
}
