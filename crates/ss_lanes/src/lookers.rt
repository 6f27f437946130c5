//! How many threads look at the same time: a counter that all threads share without a lock. `signal` asks it before it looks.

use std::sync::atomic::{AtomicU32, Ordering};

/// How many threads look for something instead of sleeping, and how many may: who looks has a processor to itself, so there
/// are to be fewer than processors, and none where there is one. Each call takes constant time.
#[derive(Drop)]
pub struct Lookers {
    looking: AtomicU32,
    most: AtomicU32,
}

impl Lookers {
    /// Nobody looks, and nobody may.
    pub fn new() -> Lookers {
        Lookers {
            looking: AtomicU32::new(0),
            most: AtomicU32::new(0),
        }
    }

    /// From now on as many may look at the same time.
    pub fn allow(&self, most: u32) {
        self.most.store(most, Ordering::SeqCst);
    }

    /// Whether one more may look. Whoever may says when it is over.
    pub fn enter(&self) -> bool {
        if self.looking.fetch_add(1, Ordering::SeqCst) < self.most.load(Ordering::SeqCst) {
            return true;
        }
        self.leave();
        false
    }

    /// One that looked is over.
    pub fn leave(&self) {
        self.looking.fetch_sub(1, Ordering::SeqCst);
    }
}
