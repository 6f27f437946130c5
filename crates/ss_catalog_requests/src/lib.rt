//! What a client asks for, read from a request line's JSON value.
//!
//! `request_of` reads a value as a request of a catalogue, or answers a `RequestError`.
//!
//! A request is an object, and has one of three forms; `client`, an Int from 0 to 7, may be missing and is then 0:
//!
//! - `{"client":0,"call":"procedure","args":[7,"x"]}` calls a call procedure with these arguments.
//! - `{"client":0,"push":"stream","source":"name","seq":0,"rows":[[7,"x"]]}` pushes a batch to a border stream, one
//!   that a border procedure takes. The batch is the one of number `seq`, an Int of at least 0, from this source, a name.
//! - `{"client":0,"install":"procedure","body":[..]}` installs a body for a procedure, of whatever kind: from this
//!   request on the procedure runs the steps of this body, an array as the catalogue has it at `body`. Touch set,
//!   arguments, inputs and kind stay. The text of the body is the compact text of the array. A nest has no other body
//!   than its own, and a member of a nest is no procedure.
//!
//! It is a push where `push` is there, else an install where `install` is there, and else a call.
//!
//! A value is an Int or a text, and an Int is a number of 64 bits with neither fraction nor exponent nor a minus before
//! a 0. A request is refused for the first of these reasons, in this order, that holds anywhere in it:
//!
//! - C11: it isn't in that form: it is no object, or has another key, or lacks a key, or has a value of another kind at
//!   a key. So also where two of `call`, `push` and `install` are there.
//! - C12: there is no call procedure, no border stream, or for an install no procedure of any kind, of that name.
//! - C13: the number or a type of the arguments, or of a row's values, is not that of the procedure's arguments or
//!   the stream's columns, or a text is over 255 bytes.
//! - C14: there are over 1,024 rows.
//! - C16: an install names a nest.
//! - C15: the catalogue without its nests would be refused with that body in place of the procedure's own; the error
//!   carries that refusal. Bodies that were installed before make no difference.
//! - C11 again: the text of the body has over 1,048,576 bytes.
//!
//! What a request asks for and why it is refused are relations (`Asks`, `RefusesRequest`), since the grammar of the SQL
//! in a body is one. That a value asks for one request at most or has one refusal is said by
//! `a_request_has_one_answer`. A body that is asked for is added to those that may be installed in the catalogue, so
//! that the request fits it.
//!
//! Modules, each on those before it:
//!
//! - `outline`: what a request says, with names that aren't looked up
//! - `values`: readers of its values, rows and numbers; `shape`: the reader of the whole
//! - `targets`: what its name is the name of; `fitting`: whether its values fit that
//! - `request`: the request, or the first refusal; `laws`: there is one answer
//!
//! Every call that takes `alloc` may answer `NoMemory`, which says nothing about the value, and takes time linear in
//! what it is given, unless its page says otherwise.
#![tactic(auto)]

mod fitting;
mod laws;
mod outline;
mod request;
mod shape;
mod targets;
mod values;

pub use laws::a_request_has_one_answer;
pub use request::{RequestError, request_of};
