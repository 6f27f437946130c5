//! A number for each client.

ghost use Rattle.std.specs.Prelude.{◌≡◌, ◌==◌, ◌+◌, ℕ, IfOk, cond};
ghost use Rattle.ss_audit.specs.Clients.{number_of};

use ss_value::NoMemory;

/// The index behind this one.
pub(crate) fn next_of(index: u64) -> Result<u64, NoMemory>
    ensures { IfOk result (λ next. next ≡ index + 1) }
{
    // No memory holds so many requests.
    match index.checked_add(1) {
        Some(next) => Ok(next),
        None => Err(NoMemory),
    }
}

/// A number for each client that a request may name.
#[derive(Drop)]
pub(crate) struct PerClient {
    numbers: [u64; 256],
}

impl PerClient {
    /// 0 for each client.
    pub(crate) fn zeros() -> PerClient
        ensures { (client : ℕ) → number_of result client ≡ 0 }
    {
        PerClient { numbers: [0; 256] }
    }

    /// The number of a client.
    pub(crate) fn get(&self, client: u8) -> u64
        ensures { result ≡ number_of self.now client }
    {
        self.numbers[usize::from(client)]
    }

    /// Gives a client this number, and leaves the others as they are.
    pub(crate) fn set(&mut self, client: u8, number: u64)
        ensures { (other : ℕ) → number_of self.new other ≡ cond (other == client) number (number_of self.old other) }
    {
        self.numbers[usize::from(client)] = number;
    }
}
