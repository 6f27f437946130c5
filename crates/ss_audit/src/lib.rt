//! The audit of a printed run: whether its report is right, by the meaning of its catalogue and requests alone.
//!
//! It stands on nothing of threads, logs or engines: it reads the lines, runs the entries that they tell one after another on
//! the empty database, and looks whether each line says what comes of it.
//!
//! - `checks`: the call `audit`, which makes all checks; `verdict`: what it answers; `broken`: why a check stops
//! - `shape`: the first check, of the lines one after another; `parts`: the parts that it finds
//! - `says`: whether a line is the text of a value
//! - `replies`, `entries`, `tables`: the later checks
//! - `asked`: what clients ask for, found by client and index; `positions`: where something stands by these;
//!   `per_client`: a number for each client
//!
//! What the checks are stands in `ss_audit_laws`, with the laws that they hold exactly of a report that is right.
//!
//! # Promises
//!
//! `audit`: of all checks the least that a line breaks, and the first such line (`checks`). So yes is answered of a report
//! that is right alone (`right`), and of each such report whose lines are read as what they say (`valid`).
//!
//! # Choices
//!
//! - Five checks, each one pass over its lines and all over the next one's, instead of one pass that keeps of each check the first line
//!   that breaks it: so the least check is the one that stops first. What a pass needs again of a line it reads again, instead of
//!   holding values of all lines.
//! - What has to stand on a line is printed and compared as bytes, instead of the line being read into entries and outcomes, because
//!   printing is proved to be the definition already.
#![tactic(auto)]

mod asked;
mod broken;
mod checks;
mod entries;
mod parts;
mod per_client;
mod positions;
mod replies;
mod says;
mod shape;
mod tables;
mod verdict;

pub use checks::audit;
pub use verdict::Verdict;
