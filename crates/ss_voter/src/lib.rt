//! The script of the benchmark Voter with Leaderboard: its catalogue, and requests that are made from a seed.
//!
//! In a voting show viewers call in votes for contestants, one vote from each phone. A workflow validates each vote, keeps
//! a leaderboard of who leads, who trails and who is trending, and removes the contestant with the fewest votes now and
//! then. A vote counts once, and the boards and the removals follow from the votes in their order: that is what the
//! benchmark is made to show.
//!
//! Source: S-Store (Meehan et al., PVLDB 8, 2015), the benchmark Voter with Leaderboard. Its tables and SQL, and how votes
//! are made, are this project's own.
//!
//! - `catalog`: the catalogue of the show; `laws`: the numbers that names have in it
//! - `generator`: the numbers that votes are made from
//! - `script`: the requests
//!
//! Every call that takes `alloc` may answer `NoMemory`, which says nothing else.
#![tactic(auto)]

mod catalog;
mod generator;
mod laws;
mod script;

pub use catalog::voter_catalog;
pub use laws::voter_has_numbers;
pub use script::votes;
