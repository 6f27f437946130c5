//! What the work of an inbox came to: `serve` and `follow` tell it to `pump`, and that tells it to its caller. A value, which
//! touches nothing.

use ss_commitlog::Unlisted;

/// What one call of a pump did.
#[derive(Drop)]
pub enum Pumped {
    /// It executed one entry, which stands at this place.
    Ran(u64),
    /// The inbox was empty, and no procedure at home there was ready.
    Idle,
    /// What it took has no place in the list, for this reason.
    Unlisted(Unlisted),
}

impl Pumped {
    /// Whether it executed nothing that is listed.
    pub(crate) fn is_idle(&self) -> bool {
        !matches!(self, Pumped::Ran(_))
    }
}
