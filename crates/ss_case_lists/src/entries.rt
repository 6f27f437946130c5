//! Entries from words, whether or not they fit a catalogue.
//!
//! ```text
//! show [1,"a"]         a call with its arguments
//! push s a 0 [[1]]     a push to a stream: its source, its number and its rows
//! step b 0             a step of a procedure on the batch of this number
//! install show []      an install for a procedure: the text of the body, as it is written
//! install 7 []         one for the procedure of a number, which may be none that is there
//! ```

use crate::names::{procedure_number, stream_number};
use crate::rows::{row_in, rows_in};
use ss_case_files::Wrong;
use ss_model::{Catalog, Entry};
use ss_value::{Name, Seq, name_of};
use std::alloc::Global;

/// A client, and the position of a request among its own.
#[derive(Clone, Copy, Drop)]
pub struct Asker {
    pub client: u8,
    pub index: u64,
}

/// The number that digits spell. Wrong where they spell none of 64 bits.
pub fn number_of(alloc: Global, digits: &str) -> Result<u64, Wrong> {
    match digits.parse::<u64>() {
        Ok(number) => Ok(number),
        Err(_) => Err(Wrong::text(alloc, "no number")),
    }
}

/// The source of a push.
fn source_of(alloc: Global, word: &str) -> Result<Name, Wrong> {
    match name_of(alloc, word.as_bytes()) {
        Ok(name) => Ok(name),
        Err(_) => Err(Wrong::text(alloc, "no name of a source")),
    }
}

/// The call of a procedure with these arguments.
fn call_of(
    alloc: Global,
    catalog: &Catalog,
    asker: Asker,
    name: &str,
    args: &str,
) -> Result<Entry, Wrong> {
    let procedure = procedure_number(alloc, catalog, name)?;
    let args = row_in(alloc, args)?;
    Ok(Entry::Call {
        client: asker.client,
        index: asker.index,
        procedure,
        args,
    })
}

/// The push of a stream, a source, a number and rows.
fn push_of(alloc: Global, catalog: &Catalog, asker: Asker, given: &str) -> Result<Entry, Wrong> {
    let (stream, given) = given.split_once(' ').unwrap_or((given, ""));
    let (source, given) = given.split_once(' ').unwrap_or((given, ""));
    let (seq, rows) = given.split_once(' ').unwrap_or((given, ""));
    let stream = stream_number(alloc, catalog, stream)?;
    let seq = number_of(alloc, seq)?;
    let source = source_of(alloc, source)?;
    let rows = rows_in(alloc, rows)?;
    Ok(Entry::Push {
        client: asker.client,
        index: asker.index,
        stream,
        source,
        seq,
        rows,
    })
}

/// The step of a procedure on the batch of a number.
fn step_of(alloc: Global, catalog: &Catalog, given: &str) -> Result<Entry, Wrong> {
    let (name, batch) = given.split_once(' ').unwrap_or((given, ""));
    let procedure = procedure_number(alloc, catalog, name)?;
    let batch = number_of(alloc, batch)?;
    Ok(Entry::Step { procedure, batch })
}

/// What an install is given, and None of another entry.
pub fn install_in(asked: &str) -> Option<&str> {
    asked.strip_prefix("install ")
}

/// The procedure and the text of a body that an install is given.
pub fn body_at<'a>(
    alloc: Global,
    catalog: &Catalog,
    given: &'a str,
) -> Result<(u16, &'a str), Wrong> {
    let (name, text) = given.split_once(' ').unwrap_or((given, ""));
    match name.parse::<u16>() {
        Ok(number) => Ok((number, text)),
        Err(_) => Ok((procedure_number(alloc, catalog, name)?, text)),
    }
}

/// The install of a body.
fn install_of(alloc: Global, catalog: &Catalog, asker: Asker, given: &str) -> Result<Entry, Wrong> {
    let (procedure, text) = body_at(alloc, catalog, given)?;
    let text = String::from_str(alloc, text)?;
    Ok(Entry::Install {
        client: asker.client,
        index: asker.index,
        procedure,
        text: Seq::from_vec(text.into_bytes()),
    })
}

/// The entry that words ask for. Wrong where the catalogue doesn't have what they name, and where a number, a source or JSON
/// can't be read.
pub fn entry_of(
    alloc: Global,
    catalog: &Catalog,
    asker: Asker,
    asked: &str,
) -> Result<Entry, Wrong> {
    let (word, given) = asked.split_once(' ').unwrap_or((asked, ""));
    match word {
        "push" => push_of(alloc, catalog, asker, given),
        "step" => step_of(alloc, catalog, given),
        "install" => install_of(alloc, catalog, asker, given),
        _ => call_of(alloc, catalog, asker, word, given),
    }
}
