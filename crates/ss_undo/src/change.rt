//! The note of one change.

use ss_value::{Row, Slot};

/// The note of a change of one table or window, which is named by its number. It has what a rollback needs.
#[derive(Drop)]
pub enum Change {
    /// A row was inserted in a slot.
    Inserted { table: u16, slot: Slot },
    /// A live slot was made dead.
    Deleted { table: u16, slot: Slot },
    /// A live slot's row was replaced by another of its key. The old row is moved here.
    Replaced { table: u16, slot: Slot, old: Row },
    /// A live slot's row was replaced by another of its key that has the same pair in each index of the table, so no index
    /// was touched. The old row is moved here.
    Amended { table: u16, slot: Slot, old: Row },
    /// A unit was staged in a window.
    Staged { window: u16 },
}
