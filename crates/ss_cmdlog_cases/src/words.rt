//! Bytes, numbers and files from text, and text as an answer.

use ss_case_files::Wrong;
use ss_disk::FileNo;
use std::alloc::Global;

/// The number that a word spells.
pub fn number_of(alloc: Global, word: &str) -> Result<u64, Wrong> {
    match word.parse::<u64>() {
        Ok(number) => Ok(number),
        Err(_) => Err(Wrong::text(alloc, "no number")),
    }
}

/// These words, as an answer.
pub fn said(alloc: Global, words: &str) -> Result<String, Wrong> {
    Ok(String::from_str(alloc, words)?)
}

/// The file that a word names.
pub fn file_of(alloc: Global, word: &str) -> Result<FileNo, Wrong> {
    match word {
        "selector" => Ok(FileNo::Selector),
        "first" => Ok(FileNo::First),
        "second" => Ok(FileNo::Second),
        _ => Err(Wrong::text(alloc, "no file")),
    }
}

/// Adds the byte that two hexadecimal digits spell, as often as the number behind `*` says, if there is one.
fn add_word(alloc: Global, word: &str, bytes: &mut Vec<u8>) -> Result<(), Wrong> {
    let (digits, many) = word.split_once('*').unwrap_or((word, "1"));
    let many = number_of(alloc, many)?;
    let Ok(byte) = u8::from_str_radix(digits, 16) else {
        return Err(Wrong::text(alloc, "no byte"));
    };
    let run = vec![in alloc; byte; many as usize]?;
    bytes.extend_from_slice(run.as_slice())?;
    Ok(())
}

/// The bytes that hexadecimal digits spell, two a byte: `00*8` are eight of 0.
pub fn bytes_of(alloc: Global, text: &str) -> Result<Vec<u8>, Wrong> {
    let mut bytes = Vec::new(alloc);
    for word in text.split_whitespace() {
        add_word(alloc, word, &mut bytes)?;
    }
    Ok(bytes)
}
