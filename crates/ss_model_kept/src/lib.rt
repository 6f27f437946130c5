//! The laws of what is kept of a database, in `kept`: each is the contract of a function that does nothing.
//!
//! A shard holds only the units of a window that a slide may still show. By these laws a run reads no others, so a
//! shard stands for every database of which the same is kept.
//!
//! They are a crate of their own, apart from `ss_model_laws`, since the crates that execute rest on them and on no
//! other law: so the other laws come and go without a proof above. The statements are in `ss_model/specs`.
#![tactic(auto)]

mod kept;

pub use kept::{kept_is_enough, runs_need_what_is_kept};
