//! Upstream backup: what a sender has to send again where the receiver's disk fails.
//!
//! A sender keeps each request of its own whose execution may still be lost, until a receipt covers it. Where the receiver
//! goes on from its disk, the sender goes on from the first of them that wasn't found there.
//!
//! Source: S-Store (Meehan et al., PVLDB 8, 2015, section 2), whose streams are fed so that a batch that a crash took away
//! comes again; that a sender keeps a batch until it is known to be safe is this project's own rule.
//!
//! - `backup`: `Backup`, the indexes of a client's requests with the places at which they are listed
#![tactic(auto)]

pub mod backup;

pub use backup::{Backup, BackupError, Sent};
