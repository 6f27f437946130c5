//! Readers of JSON values: a value is read as a text, a number, an array or an object, or refused at its first fault.
//!
//! A fault is reported by the *way* to it, which is the path from the value that is read: `.key` into an object and
//! `[n]` into an array. Of several faults the first is reported. In an object they come in this order: that it is no
//! object; its least key that isn't allowed; then its keys in the order in which they are read, where the fault of a
//! missing key is the object's own.
//!
//! - `json_readers`: `Reader`, how a value is read; the readers of texts, numbers and arrays; the calls that read an
//!   object key by key
//! - `word`: `Word`, a text of any length
//! - `read_error`: `ReadError`, why a value isn't read
//!
//! Every call that takes `alloc` may answer `NoMemory`, which says nothing about the value, and takes time linear in
//! what it is given, unless its page says otherwise.
#![tactic(auto)]

mod json_readers;
mod read_error;
mod word;

pub use json_readers::{
    ArrayOf, ItemCount, NameReader, NumberBetween, Reader, WordReader, at_item, at_key, fault_here,
    has_key, no_key, object_of, read_item, read_key, read_key_or, word_of,
};
pub use read_error::ReadError;
pub use word::Word;
