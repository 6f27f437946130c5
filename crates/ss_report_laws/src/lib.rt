//! Laws of reports, on the definitions alone: each is the contract of a function that does nothing, in `laws`.
//!
//! - `a_report_has_one_list`: whoever has the requests, the database before them and the bytes of a report has the
//!   list, since no other list that replays has the same report
//! - `answers_make_report`: the answers to each client's own requests make up the report, whose replies are in the
//!   order of the input. It says nothing of how the answers came about, so it serves every way to run
//! - `answers_resume`: where a list is cut and goes on otherwise, the answers that stay and those to further requests are
//!   the answers to all requests
//!
//! `specs/OneList`, `specs/Replies` and `specs/Resuming` state them; `proofs/Premises`, `proofs/RepliesPremises` and
//! `proofs/ResumingPremises` meet their premises at a small catalogue. `specs/PartOf` says when a list is another one
//! without some of its items. They are a crate of their own, below those that run requests and write reports (`ss_run`,
//! `ss_report`), since both promise in the words of `specs/Replies`.
#![tactic(auto)]

mod laws;

pub use laws::{a_report_has_one_list, answers_make_report, answers_resume};
