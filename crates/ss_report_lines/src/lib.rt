//! What a line of a report says, read from its bytes.
//!
//! - `kind`: the kinds of lines; `kinds`: of which kind a value is, by its form and the types in it
//! - `outcome`: whether a value has the form of an outcome; `part`: of a row, a number or a word
//! - `reading`: the value of a line that is the compact text of a line of a report, and the bytes of such a value
//!
//! The definitions are `specs/Kinds`: which values have the form of a line; and `specs/Said`: what bytes say.
//!
//! # Promises
//!
//! - `said`: a value exactly where bytes are the compact text of one that has the form of a line. So a blank, a number
//!   written otherwise or a key more is no line.
//! - `bytes_of`: the bytes of such a value, which say just this value again (`again`). So on all values that a program can
//!   hold, reading is the inverse of printing.
//!
//! # Choices
//!
//! - A line is read as a value with a kind, instead of as an entry with an outcome, because whoever has to believe it prints what
//!   has to stand there and compares bytes. So names and places of a line are any, and its form is all that is asked.
//! - A number of a row is any integer of 64 bits, with a sign or without, because a value that is read keeps its sign and a
//!   definition of numbers has no range.
#![tactic(auto)]

mod kind;
mod kinds;
mod outcome;
mod part;
mod reading;

pub use kind::LineKind;
pub use kinds::kind_of;
pub use reading::{bytes_of, is_text_of, said};
