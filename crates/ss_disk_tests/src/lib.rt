//! Tests of the disk in memory: what it gives, and what a crash in each of its calls leaves, decided by hand.
//!
//! The contracts of `ss_disk` say that a crash leaves one of the images of its moment, and which. That these definitions
//! say what they mean to say, and that the calls answer at all, these tests show. A case is a list of steps, the calls
//! that are to fail, and what then stands.
//!
//! The crate has tests alone:
//!
//! - `steps`: takes steps on any disk, and tells what is in its files; `crashes`: a case, with its crashes
//! - `folders`: a disk in a folder of the file system
//! - `runs`: a claim about each moment of two writes, by the laws on runs of calls
#![tactic(auto)]

#[cfg(test)]
mod tests;
