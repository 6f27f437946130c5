//! Tables as plain maps of std, each with a copy of what it was before.

ghost use Rattle.std.specs.Prelude.{◌≡◌, IfOk};
ghost use Rattle.ss_table.specs.TableValue.{key_of};

use crate::change::{Answer, Change};
use ss_case_files::Wrong;
use ss_table::TableError;
use ss_value::{Row, Seq, copy_row};
use std::alloc::Global;
use std::collections::BTreeMap;

/// Rows by their keys.
pub type Rows = BTreeMap<Row, Row>;

/// The key of a row: its values in the columns of the key.
pub fn key_of(alloc: Global, columns: &[u8], row: &Row) -> Result<Row, Wrong>
    ensures { IfOk result (λ key. key ≡ key_of columns.now row.now) }
{
    let mut key = Seq::new(alloc);
    for column in columns {
        match row.get(usize::from(*column)) {
            Some(value) => key.push(value.copy(alloc)?)?,
            None => return Err(Wrong::text(alloc, "a row without a key")),
        }
    }
    Ok(key)
}

/// Puts a row under a key, in place of the one that is there.
fn put(alloc: Global, rows: &mut Rows, key: &Row, row: &Row) -> Result<(), Wrong> {
    let key = copy_row(alloc, key)?;
    let row = copy_row(alloc, row)?;
    let _replaced = rows.insert(key, row)?;
    Ok(())
}

/// The same rows again.
fn copy(alloc: Global, rows: &Rows) -> Result<Rows, Wrong> {
    let mut copied = BTreeMap::new(alloc);
    for (key, row) in rows.iter() {
        put(alloc, &mut copied, key, row)?;
    }
    Ok(copied)
}

/// A table as it is, and as it was at the last commit.
#[derive(Drop)]
pub struct Plain {
    /// How many rows there may be.
    limit: Option<usize>,
    now: Rows,
    before: Rows,
}

impl Plain {
    /// A table without a row.
    pub fn new(alloc: Global, limit: Option<usize>) -> Plain {
        Plain {
            limit,
            now: BTreeMap::new(alloc),
            before: BTreeMap::new(alloc),
        }
    }

    /// The rows as they are.
    pub fn rows(&self) -> &Rows {
        &self.now
    }

    /// Inserts a row under its key, or answers why not.
    fn insert(&mut self, alloc: Global, key: &Row, row: &Row) -> Result<Answer, Wrong> {
        if self.now.contains_key(key) {
            return Ok(Answer::Refused(TableError::KeyTaken));
        }
        if self.limit.is_some_and(|limit| limit <= self.now.len()) {
            return Ok(Answer::Refused(TableError::Full));
        }
        put(alloc, &mut self.now, key, row)?;
        Ok(Answer::Made)
    }

    /// Puts a row in place of the one with its key, if there is one.
    fn replace(&mut self, alloc: Global, key: &Row, row: &Row) -> Result<Answer, Wrong> {
        if !self.now.contains_key(key) {
            return Ok(Answer::Absent);
        }
        put(alloc, &mut self.now, key, row)?;
        Ok(Answer::Made)
    }

    /// Makes a change of a row under its key; a deletion asks for the key alone.
    pub fn make(
        &mut self,
        alloc: Global,
        change: Change,
        key: &Row,
        row: &Row,
    ) -> Result<Answer, Wrong> {
        match change {
            Change::Insert => self.insert(alloc, key, row),
            Change::Delete => Ok(Answer::of_found(self.now.remove(key).is_some())),
            Change::Replace => self.replace(alloc, key, row),
        }
    }

    /// Commits all changes, or rolls them back.
    pub fn end(&mut self, alloc: Global, commits: bool) -> Result<(), Wrong> {
        if commits {
            self.before = copy(alloc, &self.now)?;
        } else {
            self.now = copy(alloc, &self.before)?;
        }
        Ok(())
    }
}
