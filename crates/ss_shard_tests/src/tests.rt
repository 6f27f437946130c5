//! The test and its catalogue.

mod catalog;
mod two_threads;
