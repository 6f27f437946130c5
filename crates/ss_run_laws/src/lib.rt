//! Laws of whole runs, on the definitions alone: what the sentences of the headline come to, read together.
//!
//! - `once`: behind a list that leaves a drained database each batch has met each procedure of its workflow exactly once
//! - `one_client`: the requests of one client alone, where no step is pending and no push is accepted, run in their order,
//!   and each run that leaves none of them out has the same list and the same report. So the bytes do not depend on how
//!   many partitions run
//! - `whole_runs`: both of a run that is done, in the words of `IsWholeRun` of `ss_headline`, and that the text of such a
//!   run has one list; be its store strong or weak
//!
//! `specs/Once`, `specs/OneClient` and `specs/WholeRun` state them; `proofs/worked` meets their premises at small
//! catalogues.
#![tactic(auto)]

mod once;
mod one_client;
mod whole_runs;

pub use once::takes_each_once;
pub use one_client::{one_client_in_order, one_client_one_report};
pub use whole_runs::{
    whole_runs_have_one_list, whole_runs_of_one_client, whole_runs_take_each_once,
};
