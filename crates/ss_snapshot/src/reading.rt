//! Parts of an image from bytes, each as its form says.
//!
//! - `fields`: numbers and rows; `rows`: rows one behind another
//! - `tables`: tables, put into those of a shard by chunks of rows; `windows`, `streams`: windows and streams
//! - `counts`, `sources`: how many batches each procedure has taken, and the sources of pushes
//! - `bodies`: which body each procedure has, and the bodies to be installed
//! - `image`: all of them; `resumed`: streams of the program; `database`: the database that all of it makes

mod bodies;
mod counts;
mod database;
mod fields;
mod image;
mod resumed;
mod rows;
mod sources;
mod streams;
mod tables;
mod windows;

pub(crate) use database::database_in;
pub(crate) use fields::PartError;
