//! Rows and entries as bytes: each has one spelling, which is read again whatever follows it.
//!
//! `write_record` appends an entry's record, and `read_record` reads it again or refuses the first thing wrong from the
//! left. `encode_row` and `decode_row` do so for a row. Numbers are big endian.
//!
//! A command log is made of such records: each has what is needed to run a transaction again, which is its procedure and
//! its arguments and not the rows that it changed (Malviya, Weisberg, Madden and Stonebraker, "Rethinking Main Memory
//! OLTP Recovery", ICDE 2014, section 3, on the command log of VoltDB, the later H-Store).
//!
//! - `numbers`: numbers to bytes; `write`: rows and entries to bytes
//! - `read`: rows from bytes; `record`: entries from bytes
//! - `laws`: what holds of records
//!
//! The definitions are `specs/Spelling`, how rows and entries are spelled, with the bounds in `specs/Bounds`, and
//! `specs/Reading` and `specs/Records`, how they are read.
//!
//! Calls that take `alloc` may answer `NoMemory` in place of their answer, and so may those that only append.
//!
//! # Promises
//!
//! - `write_record` and `encode_row` append exactly the spelling (`ok`), and tell that what has one is typed (`typed`);
//!   out of memory leaves the bytes as they were (`err`).
//! - `read_record` and `decode_row` give exactly what stands in front of the bytes, with its length, or the first fault
//!   from the left (`exact`). What is spelled there is found (`only`), and what is found is spelled so (`found`).
//! - Writing and reading are joined by the laws `records_are_read_again` and `what_is_read_is_spelled_so`.
//!
//! # Choices
//!
//! - How an entry is spelled is one function (`record_bytes`), and how bytes are read another (`record_at`), instead of
//!   one relation for both: so writing is exactly the one, and reading exactly the other, to its first fault.
//! - Rows are spelled here, beside the records that hold them, instead of with the rows in `ss_value`: nothing between
//!   the two crates has to spell a row, and a change of `ss_value` proves everything again.
#![tactic(auto)]

mod laws;
mod numbers;
mod read;
mod record;
mod write;

pub use laws::{records_are_read_again, what_is_read_is_spelled_so};
pub use numbers::{push_u16, push_u32, push_u64};
pub use read::{byte_of, decode_row, u16_of, u32_of, u64_of};
pub use record::{RecordError, entry_in, name_in, read_record};
pub use write::{encode_row, record_of, write_record};
