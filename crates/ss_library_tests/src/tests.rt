//! Inputs through sources and sinks, backups, and reports.

mod lines;
mod report;
mod upstream;
