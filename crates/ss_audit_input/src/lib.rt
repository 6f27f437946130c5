//! The command `audit`: an input with a script and a report, and what is written of it.
//!
//! The first line of the input is a catalogue. Behind it stands a request on each line, up to the first line whose value is
//! an array: this one and all behind it are the report. They are refused only where they are too long or no JSON; all else
//! that is wrong with them is what the audit is about.
//!
//! - `input`: the lines of such an input, or their first refusal; `verdict`: what is written of a verdict
//! - `command`: the command
//!
//! # Promises
//!
//! - `audit_input`: what it comes to (`comes`: `AuditComes`), by its status (`AuditEnds`): the verdict of the report for the requests
//!   (`IsVerdict`), or the input's first refusal (`IsRefusedAudit`).
//!
//! The definitions are `specs/Audits`: what the bytes of an input say; `specs/Refused`: their first refusal; and `specs/Told`:
//! texts and statuses.
//!
//! # Choices
//!
//! - This is a crate beside the engine, instead of a part of the top call, because it runs on no threads and no disk, so
//!   it is proved while the engine is.
#![tactic(auto)]

mod command;
mod input;
mod verdict;

pub use command::audit_input;
