//! The load that the words of the command line ask for.

ghost use Rattle.std.specs.Prelude.{◌<◌, IfOk};

use std::rt::Env;
use std::{env, io};

/// So many calls in groups of so many, in a folder.
#[derive(Drop)]
pub struct Load {
    pub folder: String,
    pub records: u32,
    pub group: u32,
    /// Whether times are printed.
    pub timed: bool,
}

/// The error of words that ask for nothing.
fn wrong_words() -> io::Error {
    io::Error::other("the words are FOLDER RECORDS GROUP [time], with a group of at least 1")
}

/// The number that a word writes.
fn number_of(word: Option<String>) -> io::Result<u32> {
    match word {
        Some(word) => word.parse::<u32>().map_err(|_| wrong_words()),
        None => Err(wrong_words()),
    }
}

/// The load that the words behind the program's name ask for.
pub fn load_of<R: Env + AllocGlobal>(rt: &R) -> io::Result<Load>
    ensures { IfOk result (λ load. 0 < load.group) }
{
    let mut words = env::args(rt)?.skip(1);
    let Some(folder) = words.next() else {
        return Err(wrong_words());
    };
    let records = number_of(words.next())?;
    let group = number_of(words.next())?;
    let timed = match words.next() {
        None => false,
        Some(word) if word.as_str() == "time" => true,
        Some(_) => return Err(wrong_words()),
    };
    if group == 0 || words.next().is_some() {
        return Err(wrong_words());
    }
    Ok(Load {
        folder,
        records,
        group,
        timed,
    })
}
