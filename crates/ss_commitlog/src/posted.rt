//! What the disk posts, for whoever sees it: a value.

/// The two numbers that the disk posts.
#[derive(Clone, Copy, Drop)]
pub struct Posted {
    /// Every place below it is receipted.
    pub count: u64,
    /// The disk's count of faults where it has failed, else 0.
    pub faults: u64,
}
