//! Windows: the last units of a list that only grows, and those of them that are visible.
//!
//! A window of size N and slide S shows nothing before it has had N units. Then it shows N units, and moves on by S
//! each time that S more were staged. Units that no slide can show again are dropped when the window is committed, and
//! not before, so that what was staged since can be taken back.
//!
//! Source: S-Store (Meehan et al., PVLDB 8, 2015, section 2, "Windows"); which units are visible, and from when, is this
//! project's own rule.
//!
//! - `window`: `Window`, its calls and their costs
//! - `slides`: which units are visible, and which still may be, by how many there were
//! - `units`: units in order, whose rows are found by number
//! - `starts`: the numbers at which units start among the rows
//! - `laws`: what holds of every window
#![tactic(auto)]

mod laws;
mod slides;
mod starts;
mod units;
mod window;

pub use laws::{commits_for_good, shows_few, shows_when_it_moves};
pub use slides::first_kept;
pub use window::Window;
