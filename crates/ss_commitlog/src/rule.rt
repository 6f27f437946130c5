//! The rule of the log's table, and what each step tells.
//!
//! Word 0 is the place behind the list, word 1 the receipted count that was last posted, word 2 the posted faults. The
//! rule speaks of lists, roles and words alone. What entries mean is no part of it: each item carries the roles under
//! which it was added, and the types above tie these to the model.

use crate::role::Role;
use atomic_table::{Join, Play, Seat, Split, Table, TableRule};
use ss_model::Listed;
use std::alloc::Global;
use std::collections::LinkedList;

/// What is fixed when a log is opened.
#[derive(Clone, Copy, Drop)]
pub struct Opening {
    /// The place of the first entry.
    pub first: u64,
    /// How many entries there may be.
    pub limit: u64,
    /// How many partitions there are.
    pub parts: u8,
    /// How many clients there are. `commit` needs a client below it, instead of a check at the close, so that then each
    /// entry that isn't a step is of a client who has a mark.
    pub clients: u8,
}

/// An entry, with the roles of the seat that added it. It stands in contracts alone: no value of it is made.
pub struct Item {
    pub listed: Listed,
    pub roles: LinkedList<Role>,
}

/// Roles, with a list and numbers that were seen. No value of it is made.
pub struct Stamp {
    pub roles: LinkedList<Role>,
    pub known: LinkedList<Item>,
    pub count: u64,
    pub faults: u64,
}

/// What a seat knows, and the stamps that it took in since its last step. No value of it is made.
pub struct View {
    pub now: Stamp,
    pub olds: LinkedList<Stamp>,
}

/// The rule: `IsKept`.
pub struct LogRule;

impl TableRule<Listed, View, Opening> for LogRule {
    ghost use Rattle.ss_commitlog.specs.Rule.{IsKept, opening_view};

    ghost holds = { λ k s. IsKept k.first s };

    ghost first = { opening_view };
}

/// A look at the list.
pub struct Looks;

impl Play<Listed, View> for Looks {
    ghost use Rattle.ss_commitlog.specs.Rule.{Looked};

    ghost then = { Looked };
}

/// The entry that is said is added to the list.
pub struct Adds;

impl Play<Listed, View> for Adds {
    ghost use Rattle.ss_commitlog.specs.Rule.{Added};

    ghost then = { Added };
}

/// A new count is posted.
pub struct PostsCount;

impl Play<Listed, View> for PostsCount {
    ghost use Rattle.ss_commitlog.specs.Rule.{PostedCount};

    ghost then = { PostedCount };
}

/// Faults of the disk are posted.
pub struct PostsFaults;

impl Play<Listed, View> for PostsFaults {
    ghost use Rattle.ss_commitlog.specs.Rule.{PostedFaults};

    ghost then = { PostedFaults };
}

/// A look at the posted count.
pub struct SeesCount;

impl Play<Listed, View> for SeesCount {
    ghost use Rattle.ss_commitlog.specs.Rule.{SawCount};

    ghost then = { SawCount };
}

/// A look at the posted faults.
pub struct SeesFaults;

impl Play<Listed, View> for SeesFaults {
    ghost use Rattle.ss_commitlog.specs.Rule.{SawFaults};

    ghost then = { SawFaults };
}

/// The first role goes to a seat of its own.
pub struct First;

impl Split<View> for First {
    ghost use Rattle.ss_commitlog.specs.Rule.{without_first, first_alone};

    ghost left = { without_first };

    ghost right = { first_alone };
}

/// A seat of one more reader, which knows what the seat knows. The seat keeps its roles.
pub struct NewReader;

impl Split<View> for NewReader {
    ghost use Rattle.ss_commitlog.specs.Rule.{reader_alone};

    ghost left = { λ v. v };

    ghost right = { reader_alone };
}

/// The log's seat takes in another.
pub struct TakesIn;

impl Join<View> for TakesIn {
    ghost use Rattle.ss_commitlog.specs.Rule.{together, spent};

    ghost both = { together };

    ghost spent = { spent };
}

/// The table beside the lock: three words and no slot.
pub type LogTable = Table<Listed, View, Opening, LogRule, Global>;

/// What steps on it. A token is one of these, and the log has one behind its lock.
pub type LogSeat = Seat<Listed, View>;
