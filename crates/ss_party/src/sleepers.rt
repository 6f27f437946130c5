//! Who sleeps until a bay is filled.

ghost use Rattle.std.specs.Prelude.{◌<◌};

use crate::rule::BayTable;
use crate::tagged::Tagged;
use std::sync::Wait;
use std::sync::atomic::{AtomicU64, Ordering};

/// How many threads sleep at some bays, so that who fills a bay calls the kernel only where one does: under load nobody
/// sleeps, and a call of the kernel costs as much as a short execution.
///
/// A sleeper is counted before the kernel looks whether its bay is empty, and who has filled a bay reads the count afterwards:
/// so either the sleeper is seen, or it sees the full bay and doesn't sleep, since all these steps have one order.
#[derive(Drop)]
pub(crate) struct Sleepers {
    count: AtomicU64,
}

impl Sleepers {
    /// Nobody sleeps.
    pub fn new() -> Sleepers {
        Sleepers {
            count: AtomicU64::new(0),
        }
    }

    /// Sleeps while a bay is empty, until it is filled. It may also return for no reason.
    pub fn sleep<T: Tagged, R: Wait>(&self, rt: &R, table: &BayTable<T>, p: usize)
        requires { p < table.now.shared.table_id.words }
    {
        self.count.fetch_add(1, Ordering::SeqCst);
        table.shared.park(rt, p, 0);
        self.count.fetch_sub(1, Ordering::SeqCst);
    }

    /// Wakes one of those who sleep at a bay, once it is filled. Constant where nobody sleeps at any, else a call of the kernel.
    pub fn wake<T: Tagged>(&self, table: &BayTable<T>, p: usize)
        requires { p < table.now.shared.table_id.words }
    {
        if self.count.load(Ordering::SeqCst) != 0 {
            table.shared.wake_one(p);
        }
    }
}
