//! Changes of a row, and what a side answers to one.

use ss_table::TableError;

/// What a call changes.
#[derive(Clone, Copy, PartialEq, Eq, Drop)]
pub enum Change {
    /// A row is inserted.
    Insert,
    /// The row of a key is deleted.
    Delete,
    /// A row is put in place of the one with its key.
    Replace,
}

/// What comes of it.
#[derive(Clone, Copy, PartialEq, Eq, Drop)]
pub enum Answer {
    /// It is made.
    Made,
    /// It is refused, since no row has the key.
    Absent,
    /// It is refused for this reason.
    Refused(TableError),
}

impl Answer {
    /// The answer to a change of the row of a key, where there is one.
    pub fn of_found(is_found: bool) -> Answer {
        if is_found {
            Answer::Made
        } else {
            Answer::Absent
        }
    }
}

/// The change that a word asks for and what has to come of it, where it is such a word.
pub fn change_of(word: &str) -> Option<(Change, Answer)> {
    match word {
        "insert" => Some((Change::Insert, Answer::Made)),
        "taken" => Some((Change::Insert, Answer::Refused(TableError::KeyTaken))),
        "full" => Some((Change::Insert, Answer::Refused(TableError::Full))),
        "delete" => Some((Change::Delete, Answer::Made)),
        "absent" => Some((Change::Delete, Answer::Absent)),
        "replace" => Some((Change::Replace, Answer::Made)),
        _ => None,
    }
}
