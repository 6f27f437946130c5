//! An input, read or refused; and what is written of each refusal, of words, inputs and disks, with its status.
//!
//! [`read_input`] gives the catalogue and the requests that the bytes of a source ask for, or their first refusal. Where it is
//! refused nothing runs, and so too where the words of the command line can't be had, or where the disk holds something else
//! than the store of the run. The other calls write what is told then, and answer the [`Status`] with which the program ends.
//!
//! - `input`: the lines of an input, read as a catalogue and requests, or their first refusal; `laws`: an input has one answer
//! - `status`: how a run ends
//! - `refusals`: what is written of an input that is refused, and with which status; `store_refusals`: the same of a disk;
//!   `command_line`: the same where the words of the command line can't be had
//! - `line`: the text of a line that tells of a refusal
//!
//! Every call that takes `alloc` may find itself out of memory, which is then its error or its status. It is told by a text that
//! takes none ([`NO_MEMORY`]).
//!
//! # Promises
//!
//! - `read_input`: just the catalogue and the requests that the bytes say (`ok`: `Starts`), with the bodies that these install
//!   (`goes_on`), which recovery and clients may be given (`own`, `fit`); or the bytes' first refusal (`refused`: `IsRefusedBy`), with what it leaves of the source (`leaves`).
//! - `refuse` writes the text of the refusal and answers its status (`refused`: `ExitsRefused`), or says that there was no memory
//!   for this text; `refuse_store` the same of a refusal of recovery (`told`: `TellsRefusal`). Which text and which status, each
//!   refusal of an input by itself, `specs/Statuses` says.
//! - Law `an_input_has_one_answer`: an input starts with one catalogue and one list of requests, or has one refusal.
//!
//! The definitions are `specs/Starts` and `specs/Refused`: what bytes say, and their first refusal; `specs/Statuses`: numbers and
//! texts; `specs/Sinks`: what a call has written and taken; and `specs/Inputs`: the laws, and how an input may end.
//! `proofs/InputPremises` meets a premise.
//!
//! # Choices
//!
//! - This is a crate beside the engine, instead of a part of the top call, because no refusal names the engine: so it is proved
//!   while that is, and the top call has its commands alone.
//! - Reading an input stands with its refusals, instead of with the commands, because both are said by the same definitions, line
//!   by line, and the law is about the two together.
//! - Out of memory and a fault of the source are told by constant texts, instead of by texts that are made, because these would
//!   take memory. They say nothing of the input (`says_nothing`).
#![tactic(auto)]

mod command_line;
mod input;
mod laws;
mod line;
mod refusals;
mod status;
mod store_refusals;

pub use command_line::refuse_words;
pub use input::{InputError, ParsedInput, catalog_at, read_input, request_in};
pub use laws::an_input_has_one_answer;
pub use line::line_of;
pub use refusals::{NO_MEMORY, USAGE, refuse, write_line};
pub use status::Status;
pub use store_refusals::{refuse_store, write_whole};
