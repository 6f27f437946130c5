//! How long it pays to look before a sleep, learned from the looks before: two numbers that threads share without a lock.
//! `signal` keeps one.

use std::sync::atomic::{AtomicU32, Ordering};

/// The most looks before a sleep: about as long as a sleep and a wake-up cost, 10 to 20 us.
const MOST: u32 = 20_000;

/// The fewest looks where any pay.
const FEWEST: u32 = 500;

/// How many times in a row looks may find nothing before a rest goes without.
const PATIENT: u32 = 4;

/// How many misses in a row count: behind so many, 64 rests go without a look.
const MOST_MISSES: u32 = 10;

/// How many looks it takes lately until what is awaited comes. Each call takes constant time.
///
/// Who waits looks about twice as long as it took before. Where that was too short it looks longer, and where the most looks
/// were too few several times in a row, it doesn't look at the next rests: at one at first, and at twice as many each time. So
/// looks that find nothing cost little beside the sleeps, and what has become quick again is seen.
#[derive(Drop)]
pub(crate) struct Patience {
    usual: AtomicU32,
    misses: AtomicU32,
    skips: AtomicU32,
}

impl Patience {
    /// Nothing is known yet.
    pub fn new() -> Patience {
        Patience {
            usual: AtomicU32::new(MOST),
            misses: AtomicU32::new(0),
            skips: AtomicU32::new(0),
        }
    }

    /// How many looks to take now: none where lately they found nothing.
    pub fn looks(&self) -> u32 {
        let skips = self.skips.load(Ordering::Relaxed);
        if skips > 0 {
            self.skips.store(skips - 1, Ordering::Relaxed);
            return 0;
        }
        let usual = self.usual.load(Ordering::Relaxed);
        usual.saturating_mul(2).clamp(FEWEST, MOST)
    }

    /// Learns how many looks it took of so many that were to be taken, all of them where nothing came.
    pub fn learn(&self, most: u32, looks: u32) {
        if looks < most {
            let usual = self.usual.load(Ordering::Relaxed);
            self.usual
                .store(usual / 4 * 3 + looks / 4, Ordering::Relaxed);
            self.misses.store(0, Ordering::Relaxed);
            return;
        }
        self.usual.store(most, Ordering::Relaxed);
        let misses = self.misses.load(Ordering::Relaxed).saturating_add(1);
        self.misses
            .store(misses.min(MOST_MISSES), Ordering::Relaxed);
        if misses > PATIENT {
            self.skips.store(1 << (misses.min(MOST_MISSES) - PATIENT), Ordering::Relaxed);
        }
    }
}
