//! A disk of three files, as a store sees it: what a read gives, what a crash may leave, and when.
//!
//! `Disk` says what its calls do to the files and to what a crash may leave of them, and that is the model on which all
//! that is said of crashes rests. `MemoryDisk` keeps both in memory, fails at chosen calls, and tells what a crash in any
//! of its calls may leave.
//!
//! - `disk`: what a disk is; `laws`: how its calls are put together into runs
//! - `write`: a write that lasts
//! - `contents`: the bytes of three files; `events`: what has happened to them; `memory`: a disk of both
//! - `crash`: what a crash leaves of a disk in memory; `folder`: a disk in a folder of the file system
//!
//! `MemoryDisk::crash` and the calls that write or cut may answer `NoMemory`. A call of the disk in memory takes time in
//! the bytes that it reads or writes, and in the number of the calls that are to fail.
#![tactic(auto)]

mod contents;
mod crash;
mod disk;
mod events;
mod folder;
mod laws;
mod memory;
mod write;

pub use crash::Torn;
pub use disk::{Disk, DiskError, FileNo};
pub use folder::FolderDisk;
pub use laws::{Claim, runs_compose};
pub use memory::MemoryDisk;
pub use write::write_synced;
