//! Where things are at home, and which partitions an entry touches: each call is exactly its definition in `ss_model`.
//!
//! Partitions are numbered from 0; at most 8 run, and a part of a catalogue is taken modulo their number. No call but `homes`
//! takes memory.
//!
//! - `touching`: whether an entry touches a partition; `sets`: all that it touches, as a set
//! - `at_home`: the homes of procedures, border streams and windows
//! - `rows`: the partition of a table's row
#![tactic(auto)]

mod at_home;
mod rows;
mod sets;
mod touching;

pub use at_home::{border_home, home, homes, window_home};
pub use rows::row_partition;
pub use sets::{procedure_touch_set, touch_set};
pub use touching::touches;
