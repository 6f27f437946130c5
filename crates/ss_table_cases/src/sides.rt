//! Runs the calls of a row on tables and on plain maps side by side.

use crate::change::{Answer, Change, change_of};
use crate::compare::{hold_the_same, live_below};
use crate::plain::{Plain, key_of};
use crate::real::Real;
use crate::words::{columns_of, count_of, first_word, number_of, numbered_row, row_of};
use ss_case_files::Wrong;
use ss_value::{NoMemory, Row, Seq, copy_row};
use std::alloc::Global;

/// What is wrong where a side says something else than a call does.
const OTHERWISE: &str = "it is answered otherwise";

/// Tables and plain maps that have to hold the same.
struct Sides {
    real: Real,
    first: Plain,
    second: Plain,
    /// The keys that any call named.
    keys: Seq<Row>,
    /// The table that the next calls are on: 0 or 1.
    at: u16,
}

// By hand, so that letting it go is one call here and one for each of its fields there.
impl Drop for Sides {
    fn drop(self) {
        let Sides {
            real,
            first,
            second,
            keys: _,
            at: _,
        } = self;
        drop(real);
        drop(first);
        drop(second);
    }
}

/// The columns of the key that a block names, and its limit.
fn shape_of(alloc: Global, words: &str) -> Result<(Seq<u8>, Option<usize>), Wrong> {
    let Some(words) = words.strip_prefix("key") else {
        return Err(Wrong::text(alloc, "a block without a key"));
    };
    match words.split_once(" limit ") {
        Some((columns, limit)) => {
            let limit = number_of(alloc, limit)?;
            Ok((columns_of(alloc, columns)?, Some(limit)))
        }
        None => Ok((columns_of(alloc, words)?, None)),
    }
}

impl Sides {
    /// Two tables without a row on either side, of the key and the limit that a block names.
    fn empty(alloc: Global, words: &str) -> Result<Sides, Wrong> {
        let (key, limit) = shape_of(alloc, words)?;
        Ok(Sides {
            real: Real::new(alloc, key, limit)?,
            first: Plain::new(alloc, limit),
            second: Plain::new(alloc, limit),
            keys: Seq::new(alloc),
            at: 0,
        })
    }

    /// One of the maps.
    fn plain(&self, at: u16) -> &Plain {
        if at == 0 { &self.first } else { &self.second }
    }

    /// The map that the next calls are on.
    fn plain_here(&mut self) -> &mut Plain {
        if self.at == 0 {
            &mut self.first
        } else {
            &mut self.second
        }
    }

    // ---- calls

    /// The key that a change of a row, or of a key, names.
    fn key_named(&self, alloc: Global, change: Change, row: &Row) -> Result<Row, Wrong> {
        if change == Change::Delete {
            Ok(copy_row(alloc, row)?)
        } else {
            key_of(alloc, self.real.key(), row)
        }
    }

    /// Makes a change of a row, or of a key, on both sides, which both have to answer as is wanted.
    fn make(
        &mut self,
        alloc: Global,
        change: Change,
        row: &Row,
        want: Answer,
    ) -> Result<(), Wrong> {
        let key = self.key_named(alloc, change, row)?;
        let plain = self.plain_here().make(alloc, change, &key, row)?;
        self.keys.push(key)?;
        let real = self.real.make(alloc, self.at, change, row)?;
        if plain == want && real == want {
            return Ok(());
        }
        Err(Wrong::text(alloc, OTHERWISE))
    }

    /// Inserts as many rows on both sides as are given, with numbers below that for `#`: from 0 on, each `skip` further than
    /// the last, and around at the end. None may be refused.
    fn fill(&mut self, alloc: Global, given: &str) -> Result<(), Wrong> {
        let (count, given) = count_of(alloc, given)?;
        let (skip, words) = count_of(alloc, given)?;
        let mut number = 0usize;
        for _ in 0..count {
            let row = numbered_row(alloc, words, number)?;
            self.make(alloc, Change::Insert, &row, Answer::Made)?;
            number = number.wrapping_add(skip).checked_rem(count).unwrap_or(0);
        }
        Ok(())
    }

    /// The keys of the rows whose places in the order of the keys, from 0 on, are multiples of `step`.
    fn each(&self, alloc: Global, step: usize) -> Result<Seq<Row>, NoMemory> {
        let mut keys = Seq::new(alloc);
        for (place, key) in self.plain(self.at).rows().keys().enumerate() {
            if place.checked_rem(step) == Some(0) {
                keys.push(copy_row(alloc, key)?)?;
            }
        }
        Ok(keys)
    }

    /// Deletes these rows on both sides, where `step` is given.
    fn thin(&mut self, alloc: Global, given: &str) -> Result<(), Wrong> {
        let step = number_of(alloc, given)?;
        for key in self.each(alloc, step)?.as_slice() {
            self.make(alloc, Change::Delete, key, Answer::Made)?;
        }
        Ok(())
    }

    /// Deletes the row with a row's key and inserts the row, on both sides.
    fn renew(&mut self, alloc: Global, row: &Row) -> Result<(), Wrong> {
        let key = key_of(alloc, self.real.key(), row)?;
        self.make(alloc, Change::Delete, &key, Answer::Made)?;
        self.make(alloc, Change::Insert, row, Answer::Made)
    }

    /// The same as often as is given.
    fn again(&mut self, alloc: Global, given: &str) -> Result<(), Wrong> {
        let (count, words) = count_of(alloc, given)?;
        let row = row_of(alloc, words)?;
        for _ in 0..count {
            self.renew(alloc, &row)?;
        }
        Ok(())
    }

    /// All rows have to stand in the first slots, as many as are given.
    fn stand_below(&self, alloc: Global, given: &str) -> Result<(), Wrong> {
        let slots = number_of(alloc, given)?;
        let live = live_below(self.real.table(alloc, self.at)?, slots);
        if live == self.plain(self.at).rows().len() {
            return Ok(());
        }
        Err(Wrong::text(alloc, OTHERWISE))
    }

    /// Commits all changes on both sides, or rolls them back.
    fn end(&mut self, alloc: Global, commits: bool) -> Result<(), Wrong> {
        if commits {
            self.real.commit(alloc);
        } else {
            self.real.rollback(alloc);
        }
        self.first.end(alloc, commits)?;
        self.second.end(alloc, commits)
    }

    // ---- calls by their words

    /// Makes a change of a row, or of a key, by its word.
    fn change(&mut self, alloc: Global, name: &str, given: &str) -> Result<(), Wrong> {
        let Some((change, want)) = change_of(name) else {
            return Err(Wrong::text(alloc, "no such call"));
        };
        self.make(alloc, change, &row_of(alloc, given)?, want)
    }

    /// Makes a call, which both sides have to answer as it says.
    fn call(&mut self, alloc: Global, call: &str) -> Result<(), Wrong> {
        let (name, given) = first_word(call);
        match name {
            "on" => {
                self.at = u16::from(given != "0");
                Ok(())
            }
            "commit" => self.end(alloc, true),
            "rollback" => self.end(alloc, false),
            "fill" => self.fill(alloc, given),
            "again" => self.again(alloc, given),
            "thin" => self.thin(alloc, given),
            "slots" => self.stand_below(alloc, given),
            _ => self.change(alloc, name, given),
        }
    }

    // ---- what is wrong behind them

    /// Both sides have to hold the same in one of their tables.
    fn hold_the_same(&self, alloc: Global, at: u16) -> Result<(), Wrong> {
        let table = self.real.table(alloc, at)?;
        hold_the_same(alloc, table, self.plain(at).rows(), self.keys.as_slice())
    }

    /// Makes a call, and compares both tables behind it.
    fn call_and_compare(&mut self, alloc: Global, call: &str) -> Result<(), Wrong> {
        self.call(alloc, call)?;
        self.hold_the_same(alloc, 0)?;
        self.hold_the_same(alloc, 1)
    }
}

/// What is wrong, behind the call that shows it.
fn wrong_of(alloc: Global, call: &str, wrong: &Wrong) -> Result<(), Wrong> {
    let why = wrong.as_str();
    let words = format!(in alloc; "{call}: {why}")?;
    Err(Wrong::Text(words))
}

/// A row of `calls`: they are made one behind the other on tables of the key and the limit that its block names.
pub fn check_calls(alloc: Global, shape: &str, row: &str) -> Result<(), Wrong> {
    let mut sides = Sides::empty(alloc, shape)?;
    for call in row.split(", ") {
        if let Err(wrong) = sides.call_and_compare(alloc, call) {
            return wrong_of(alloc, call, &wrong);
        }
    }
    Ok(())
}
