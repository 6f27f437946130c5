//! What one partition holds, and what an execution does to it.
//!
//! A `Shard` has the tables, indexes, windows and counts of a partition, and notes each change of a row or a window until a
//! `commit` makes all of them final or a `rollback` takes all of them back. Statements change rows by its calls alone. It
//! *stands for* a database of the model, in which nothing is noted, and where each window lists all units that it ever had.
//! Each table is dealt to the partitions that run, and a shard has the parts of some of them: of its own, of several that an
//! execution touches, or of all. `Database` has a shard of all, and the streams beside it.
//!
//! - `shard`: tables, their indexes and windows, with the changes that a rollback takes back, counts and sources
//!   - `joining`: a shard takes in the part of another, and gives it back
//!   - `bodies`: which body each procedure has, by number, and the one that is to come
//! - `joins`: tables with their indexes take in those of another part, and give them back
//! - `exchanges`: what two shards have at a home changes places
//! - `pairs`: a row of a table and its pairs, put in together, and whether they are there already
//! - `rows`: the rows of a table, lent in the order of their keys
//! - `sources`: the sources of pushes, with the numbers that their next pushes have to carry
//! - `database`: shards before the first execution, and the shard of all partitions with the streams beside it
//! - `unions`: a shard takes in the parts of several others, and gives them back
//! - `splits`: one shard of all partitions becomes one for each, and these become one again
//! - `laws`: what a shard stands for
//!
//! Every call whose error is or has `NoMemory` may answer that in place of any other answer, and a call costs time linear in
//! what it is given, unless its page says otherwise.
//!
//! # Promises
//!
//! - `insert_row`, `delete_row`, `replace_row` and `stage_unit` change just that, and note it (`ok`); an error changes
//!   no row and no window (`err`). In tables and windows of a catalogue an insert and a unit come to exactly what the
//!   model's do, or stop as they do (`ok`, `stops`). Each of them leaves the rest of a shard, and where a rollback ends
//!   (`Changed`).
//! - `rollback` ends where nothing was noted (`back`, `holds`). `commit` keeps the live rows, and of each window the
//!   number of units and those that may still be seen (`tables`, `windows`). Behind both there is nothing to take back
//!   (`committed`), and neither takes memory. A body that was noted by `install` is there behind a `commit` (`bodies`),
//!   and dropped by a `rollback`; `body` has the steps of the one that a procedure has in whatever database the shard
//!   stands for (`held`).
//! - In each of the `indexes` of a table every live row has its pair (`rows`). `next_number` is exactly the next
//!   number. Each source is a name, and so is each source of a whole database that a shard stands for
//!   (`sources_are_names`), of which the model knows nothing.
//! - `rows_in_order` lends the rows of a table in the order of their keys, and `numbered_sources` the sources of a stream
//!   that have pushed, each with its number: with `windows` and `cursors` all that an image of a database is written from.
//!   `resumed` gives a shard the windows, counts and sources that were read from one, and changes nothing else.
//! - `absorb`, `unite` and `join` bring the parts of several shards into one, and `release`, `part` and `split` give
//!   them back: whatever database each held its parts of, each holds just the parts that it then has (`HasAbsorbed`,
//!   `WereUnited`, `WereJoined`; `HasReleased`, `WereParted`, `WasSplit`). Out of memory leaves each shard what it
//!   held. `release` and `part` take none.
//! - `blank` is the shard of one partition before the first entry (`is_shard`, `holds`), and `opening` the whole
//!   database with its streams (`is_whole`, `stands`, `whole`).
//!
//! # How a shard stands for a database
//!
//! - To the model a shard is what `contents_of` says: of each table its live rows by key, and of each window all its
//!   units, with blank ones in place of those dropped. Slots, dead rows and noted changes are no part of it. So what an
//!   insert or a unit comes to is an equation of contents.
//! - It stands for every database with the same rows, counts, next numbers and bodies, and with windows of as many units of
//!   which the same may still be seen (`HoldsDatabase`), instead of for one that it remembers: for its own contents
//!   (`holds_itself`), and what an entry comes to there it comes to on each of the others (`carried_to_each`).
//! - A shard of some partitions stands for a database with blanks for what is of the others (`HoldsParts`). So nothing
//!   that runs on a shard knows how many parts it has: on one that has what an entry touches, an execution is the one
//!   on the whole database (`runs_on_parts` of `ss_proc`).
//! - A `Database` stands for one of the model (`StandsFor`) with its shard and its streams, and is whole where there is
//!   nothing to take back, and some whole database of the model is one that it stands for (`IsWhole`).
//!
//! # Choices
//!
//! - That rows stand in the parts that a shard has is a fact of what it stands for, instead of an invariant: a
//!   statement may name any key, and only the locality of accepted catalogues says that it doesn't (`uses_are_touched`
//!   of `ss_model_laws`). A shard that takes in another has to hold, with it, parts of some one database; nothing else
//!   asks for it.
//! - That tables have a catalogue's keys and limits is a clause (`HasTables`), instead of part of the type, because a
//!   type's invariant can name no catalogue but one that the value holds, and a shard that held its catalogue would
//!   copy it, or borrow it for as long as it lives. `opening` makes such tables and no others, each change leaves them
//!   so (`Changed`), and so do `commit` and `rollback` (`committed`): no run tests it.
#![tactic(auto)]

mod database;
mod exchanges;
mod joins;
mod laws;
mod pairs;
mod rows;
mod shard;
mod sources;
mod splits;
mod unions;

pub use database::{Database, TABLE_ROWS, blank, opening};
pub use laws::{carried_to_each, holds_itself};
pub use rows::rows_in_order;
pub use shard::{Shard, WINDOW_UNITS, body_number};
pub use sources::{Sources, no_sources, push_outcome};
pub use splits::{join, split};
pub use unions::{part, unite};
