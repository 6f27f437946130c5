//! Numbers and rows from text.

use ss_case_files::Wrong;
use ss_value::{Row, Seq, Value, text_of};
use std::alloc::Global;

/// The words in front of and behind the first space.
pub fn first_word(text: &str) -> (&str, &str) {
    text.split_once(' ').unwrap_or((text, ""))
}

/// The number that a word spells.
pub fn number_of(alloc: Global, word: &str) -> Result<usize, Wrong> {
    match word.parse::<usize>() {
        Ok(number) => Ok(number),
        Err(_) => Err(Wrong::text(alloc, "no number")),
    }
}

/// The number in front of the first space, and the words behind it.
pub fn count_of(alloc: Global, text: &str) -> Result<(usize, &str), Wrong> {
    let (word, words) = first_word(text);
    Ok((number_of(alloc, word)?, words))
}

/// The columns that words spell.
pub fn columns_of(alloc: Global, words: &str) -> Result<Seq<u8>, Wrong> {
    let mut columns = Seq::new(alloc);
    for word in words.split_whitespace() {
        match word.parse::<u8>() {
            Ok(column) => columns.push(column)?,
            Err(_) => return Err(Wrong::text(alloc, "no column")),
        }
    }
    Ok(columns)
}

/// The value that a word spells, where it spells one.
fn value_of(alloc: Global, word: &str) -> Option<Value> {
    match word.strip_prefix('\'') {
        Some(text) => {
            let text = text.strip_suffix('\'')?;
            text_of(alloc, text.as_bytes()).ok().map(Value::Text)
        }
        None => word.parse::<i64>().ok().map(Value::Int),
    }
}

/// The row that words spell.
pub fn row_of(alloc: Global, words: &str) -> Result<Row, Wrong> {
    let mut row = Seq::new(alloc);
    for word in words.split_whitespace() {
        match value_of(alloc, word) {
            Some(value) => row.push(value)?,
            None => return Err(Wrong::text(alloc, "no value")),
        }
    }
    Ok(row)
}

/// The row that words spell with a number for each `#`.
pub fn numbered_row(alloc: Global, words: &str, number: usize) -> Result<Row, Wrong> {
    let digits = format!(in alloc; "{number}")?;
    let words = words.replace(alloc, '#', digits.as_str())?;
    row_of(alloc, words.as_str())
}
