//! Bays of counters, on one thread and on two.

mod counters;
mod one_thread;
mod two_threads;
