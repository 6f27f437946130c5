//! Bays: each has one part of a database, or is empty while somebody has that part in hand.
//!
//! Who takes the value of a bay gets the *turn* of the bay with it, the right to fill this bay again, and nobody else has
//! it. So a part is in one hand at a time, and executions on it come one after another. A turn cannot be let go of: by its
//! type (it is not `Drop`) it ends in `put` alone, so whoever has taken a part puts one back, whatever else fails.
//!
//! - `tagged`: what a value has to be; `turn`: the right to fill a bay
//! - `bays`: the calls
//! - `rule`: the rule of the table that the bays stand on, which is what makes the calls safe on many threads
//! - `taking`, `moving`: the loops of the calls
//! - `sleepers`: how many threads sleep at some bays, so that who fills one calls the kernel only where one does
//!
//! There are eight bays at most, so each call takes constant time but for what it waits. Only `new` and `gather` take
//! memory.
//!
//! Source: H-Store (Stonebraker et al., The End of an Architectural Era, VLDB 2007) cuts a database into partitions with one
//! executor each, so that what runs on a partition runs alone, with no locks inside it. That an execution on several
//! partitions takes them in rising order, so that no two of them wait for each other, is the classical order of resources.
//!
//! # Promises
//!
//! - `try_take` (`some`) and `take`: a value that belongs to this very bay, with the turn of this bay (`IsTaken`).
//! - `gather` (`ok`): just the values of a set's bays, in rising order, each with its turn (`IsGathered`).
//! - `only` (`some`, `none`): the bay of a set that names one alone (`IsAlone`); who takes one bay by `take` needs no list.
//! - `close`: one value for each bay, in order (`TagsFrom`).
//! - `new` (`err`): out of memory gives the items back.
//!
//! What a bay has at a moment is no part of any clause, since other threads may change it at once. So no clause says
//! that a take finds a full bay full, that a sleeper is woken, or that a wait ends; `ss_party_tests` tries the first two.
#![tactic(auto)]

mod bays;
mod moving;
mod rule;
mod sleepers;
mod tagged;
mod taking;
mod turn;

pub use bays::Bays;
pub use tagged::Tagged;
pub use turn::Turn;
