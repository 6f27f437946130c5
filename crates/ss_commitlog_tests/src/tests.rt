//! Two clients on one log, each on a thread of its own.

mod catalog;
mod clients;
mod two_threads;
