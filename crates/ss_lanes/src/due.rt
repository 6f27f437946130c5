//! What of a client's answers waits for a receipt: a value of the lane. `lane` counts it at each answer, `fresh` begins it, and
//! `told` notes faults in it; in `ss_engine`, `client/requests` asks whether a receipt is due, and `client/receipt` notes that
//! there is one.

ghost use Rattle.std.specs.Prelude.{◌≡◌, ◌+◌, ◌<◌, ◌≤◌, ◌^◌, IfSome};
ghost use Rattle.ss_lanes.specs.Dues.{due_after, failed_at, no_due, place_of, receipted};

use ss_model::Answer;

/// The most listed answers of a client that may wait for a receipt of its own.
pub const MOST_PENDING: u64 = 16;

/// What of a client's answers waits for a receipt, and what the client was told of the disk.
#[derive(Clone, Copy, Drop)]
pub struct Due {
    /// One more than the greatest place in the client's listed answers; 0 where none is listed.
    pub above: u64,
    /// How many answers were listed since the client's last receipt.
    pub pending: u64,
    /// The disk's faults, where the client was told that it had failed; 0 where it wasn't.
    pub faults: u64,
}

impl Due {
    /// Before the first answer.
    pub(crate) fn none() -> Due
        ensures { result ≡ no_due }
    {
        Due {
            above: 0,
            pending: 0,
            faults: 0,
        }
    }

    /// Once there is a receipt of all that the answers tell.
    pub fn receipted(self) -> Due
        ensures { result ≡ receipted self }
    {
        Due {
            above: self.above,
            pending: 0,
            faults: self.faults,
        }
    }

    /// Once the client is told that the disk has failed, at these faults.
    pub fn failed_at(self, faults: u64) -> Due
        ensures { result ≡ failed_at faults self }
    {
        Due {
            above: self.above,
            pending: self.pending,
            faults,
        }
    }

    /// Behind one answer more.
    pub(crate) fn after(self, answer: &Answer) -> Due
        requires small { IfSome (place_of answer.now) (λ place. place < 2 ^ 60) }
        requires few { self.pending ≤ 16 }
        ensures { result ≡ due_after self answer.now }
    {
        match answer {
            Answer::Listed { place, .. } => Due {
                above: self.above.max(*place + 1),
                pending: self.pending + 1,
                faults: self.faults,
            },
            _ => self,
        }
    }
}
