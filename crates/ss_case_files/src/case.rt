//! What a program is told of a case, and what it has to say of the kinds of its blocks.

use crate::wrong::Wrong;
use std::alloc::Global;

/// What stands behind the word of a block's first line.
#[derive(Clone, Copy, Debug, PartialEq, Eq, Drop)]
pub enum Behind {
    Nothing,
    /// The name of a base.
    Base,
    /// A word that the kind itself reads.
    Word,
}

/// How the blocks of a kind are read. A `base` is of none of a program's kinds.
#[derive(Clone, Copy, Debug, PartialEq, Eq, Drop)]
pub struct BlockForm {
    pub behind: Behind,
    /// Whether each line of the block is a case. Else the whole block is one.
    pub has_rows: bool,
}

/// The lines of a file from one empty line to the next.
#[derive(Drop)]
pub struct Block {
    /// The word of its kind.
    pub word: String,
    /// The rest of the first line, behind the kind's word.
    pub name: String,
    /// The number of the line with that word, from 1 on.
    pub number: u64,
    pub lines: Vec<String>,
}

/// A case: a row of a block, or a whole block.
#[derive(Drop)]
pub struct Case<'a> {
    /// The folder of the case file, with its slash; empty where the file's name has none.
    pub folder: &'a str,
    pub block: &'a Block,
    /// The text of the base that the block names; empty where its kind has none.
    pub base: &'a str,
    /// Empty where the whole block is the case.
    pub row: &'a str,
}

/// A row's first column, and the rest of it.
pub fn column(alloc: Global, row: &str) -> Result<(&str, &str), Wrong> {
    match row.split_once(" ~ ") {
        Some(parts) => Ok(parts),
        None => Err(Wrong::text(alloc, "too few columns")),
    }
}
