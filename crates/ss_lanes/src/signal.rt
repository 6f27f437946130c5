//! Whether something waits behind a lock, told without the lock. Inboxes and slots have one each, and set it under their lock.

use crate::lookers::Lookers;
use crate::patience::Patience;
use std::hint::spin_loop;
use std::sync::atomic::{AtomicBool, Ordering};

/// Whether something waits behind a lock, as far as a look can tell that doesn't take it. Each call but `look` takes constant time.
///
/// Who goes to sleep looks here first, since what it waits for often comes sooner than the kernel wakes a thread. Only what
/// stands behind the lock counts: a signal that is late costs time and nothing else.
#[derive(Drop)]
pub(crate) struct Signal {
    raised: AtomicBool,
    patience: Patience,
}

impl Signal {
    /// Nothing waits.
    pub fn new() -> Signal {
        Signal {
            raised: AtomicBool::new(false),
            patience: Patience::new(),
        }
    }

    /// Something waits.
    pub fn raise(&self) {
        self.raised.store(true, Ordering::Release);
    }

    /// Nothing waits any more.
    pub fn lower(&self) {
        self.raised.store(false, Ordering::Release);
    }

    /// Whether something waits.
    pub fn is_raised(&self) -> bool {
        self.raised.load(Ordering::Acquire)
    }

    /// Looks until something waits, as long as it lately took and as a processor is there for it. Whether something does.
    pub fn look(&self, lookers: &Lookers) -> bool {
        if self.is_raised() {
            return true;
        }
        let most = self.patience.looks();
        if most == 0 || !lookers.enter() {
            return false;
        }
        let looks = self.looks_until_raised(most);
        lookers.leave();
        self.patience.learn(most, looks);
        looks < most
    }

    /// How many looks it takes until something waits, `most` where that many find nothing.
    fn looks_until_raised(&self, most: u32) -> u32 {
        for looks in 0..most {
            if self.is_raised() {
                return looks;
            }
            spin_loop();
        }
        most
    }
}
