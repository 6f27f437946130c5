//! The slots of rows that pass WHERE.

ghost use Rattle.std.specs.Prelude.{◌≡◌};
ghost use Rattle.ss_plan.specs.Scans.{slots_passing};

use ss_value::Slot;

/// The slots of rows that pass WHERE, in the order of their keys. Where a key names the one row that may pass, no list is made.
#[derive(Drop)]
pub enum PassingSlots {
    /// No slot.
    Nothing,
    /// One slot.
    One(Slot),
    /// Any number of slots.
    Many(Vec<Slot>),
}

impl PassingSlots {
    /// The slots, in the order of their rows' keys. Constant.
    pub fn as_slice(&self) -> &[Slot]
        ensures { result.now ≡ slots_passing self.now }
    {
        match self {
            PassingSlots::Nothing => &[],
            PassingSlots::One(slot) => std::slice::from_ref(slot),
            PassingSlots::Many(slots) => slots.as_slice(),
        }
    }
}
