//! What an audit of a printed run checks, and laws that it answers exactly whether the report is right; no code.
//!
//! - `laws`: each is the contract of a function that does nothing. `proofs/worked/NoRequest` meets their premises at the
//!   report of a run that nobody asked anything
//!
//! The definitions are `specs/Shape`: the first check, of the lines one after another; `specs/Checks`: the later ones, and
//! the audit; `specs/Valid`: when a report is right; and `specs/Printed`: when one was printed so that it is read again.
//!
//! # Promises
//!
//! - Where an audit finds nothing, the lines are the report of one list from the empty database, which replays, has its
//!   orders, and behind which nothing is left to run; and it counts that list's entries (`right_is_valid`).
//! - Of such a report an audit finds nothing, where its lines are read as what they say (`valid_is_right`, and of the
//!   lines that a program printed `printed_is_right`).
//!
//! # Choices
//!
//! - That a line is read as what it says is a premise (`IsReadable`), because the model's numbers have no range, and a number
//!   of more than 64 bits is read as a float. What was really printed meets it.
//! - A check is told only where those before it found nothing in any line (`audited`), instead of the first line that breaks
//!   some check, because what a later check says of a line means something only behind the earlier ones.
#![tactic(auto)]

mod laws;

pub use laws::{printed_is_right, right_is_valid, valid_is_right};
