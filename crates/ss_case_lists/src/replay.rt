//! Lists of entries, applied one after another by the program that computes the definitions, from the empty database on.
//!
//! ```text
//! replay BASE    lines of entries and of looks, each with what it comes to, and then the lines of all tables
//! list BASE      the same, where the program prints this list on the requests in it, and these tables
//!
//! step b 0 -> done []         an entry, as in `entries`, and its outcome, as in `script`
//! step b 7 -> none            one that has no value
//! visible w -> [[2],[3]]      the rows that a window shows
//! units w -> [[[1]],[]]       all units that a window ever had
//! batches s -> [[[1]],[]]     all batches that a stream ever had
//! t 1                         a line of a table, by their names, and its number of rows
//! t [1,2]                     a line of a row
//! ```
//!
//! Of units and batches a list of more than 32 rows stands as their number. The definitions ask for no accepted catalogue,
//! so the base of a `replay` is read without the checks behind its SQL; where a line installs a body, with them, since the
//! body may then be installed from the beginning on, and so is one with nests. All entries are those of client 0.

use crate::catalogs::{catalog_with_bodies, installs_in};
use crate::entries::{Asker, entry_of};
use crate::names::{stream_number, window_number};
use crate::rows::json_of;
use serde_json::Value as Json;
use ss_case_files::{Wrong, compare, text_of};
use ss_case_texts::{Listing, check_report, outcome_of};
use ss_catalog_outline::{Outline, is_too_many_to_number, read_outline};
use ss_catalog_resolve::resolve::resolve;
use ss_model::{Catalog, Outcome};
use ss_model_computed::entries::database::{Applied, Database};
use ss_model_computed::{Table, apply, visible_rows};
use ss_report::{outcome_json, row_json, rows_json};
use ss_value::{NoMemory, Row, Rows, Seq};
use std::alloc::{AllocError, Global};
use std::collections::BTreeMap;

/// Lists of more rows than these are printed as their number.
const LONG: usize = 32;

/// What an entry without a value comes to.
const NONE: &str = "none";

/// A list so far, and the database behind it.
struct Replay {
    catalog: Catalog,
    database: Database,
    listing: Listing,
}

// By hand, so that letting it go is one call here and one for each of its fields there, and not one for each of their parts.
impl Drop for Replay {
    fn drop(self) {
        let Replay {
            catalog,
            database,
            listing: _,
        } = self;
        drop(catalog);
        drop(database);
    }
}

/// The catalogue of an outline, without the checks behind its SQL.
fn resolved(alloc: Global, outline: &Outline) -> Result<Catalog, Wrong> {
    if is_too_many_to_number(outline) {
        return Err(Wrong::text(alloc, "the base has too many definitions"));
    }
    match resolve(alloc, outline, Seq::new(alloc), Seq::new(alloc)) {
        Ok(catalog) => Ok(catalog),
        Err(_) => Err(Wrong::text(alloc, "the base has faulty SQL")),
    }
}

/// The catalogue of a base, without the checks behind its SQL.
fn unchecked_catalog(alloc: Global, base: &str) -> Result<Catalog, Wrong> {
    let value = json_of(alloc, base)?;
    let outline = read_outline(alloc, &value);
    drop(value);
    let Ok(outline) = outline else {
        return Err(Wrong::text(alloc, "the base is no catalogue"));
    };
    let catalog = resolved(alloc, &outline);
    drop(outline);
    catalog
}

/// Whether a base has a section of nests.
fn has_nests(alloc: Global, base: &str) -> Result<bool, Wrong> {
    let value = json_of(alloc, base)?;
    let is_there = value.get("nests").is_some();
    drop(value);
    Ok(is_there)
}

/// The catalogue of a base, in which the bodies may be installed that lines install. Only where there is such a line, or a section
/// of nests, the base is read with all checks.
fn catalog_for(alloc: Global, base: &str, lines: &str) -> Result<Catalog, Wrong> {
    let installs = installs_in(alloc, lines)?;
    if installs.is_empty() && !has_nests(alloc, base)? {
        unchecked_catalog(alloc, base)
    } else {
        catalog_with_bodies(alloc, base, installs.as_slice())
    }
}

// ---- what is printed of a database

/// The text of a value, which is let go by one call.
fn text_of_json(alloc: Global, value: Json) -> Result<String, Wrong> {
    let text = value.to_string(alloc);
    drop(value);
    Ok(text?)
}

/// A list of rows, or their number where it is long.
fn rows_or_count(alloc: Global, rows: &Rows) -> Result<Json, AllocError> {
    if rows.len() > LONG {
        Ok(Json::from(rows.len() as u64))
    } else {
        rows_json(alloc, rows.as_slice())
    }
}

/// Lists of rows.
fn lists_text(alloc: Global, lists: &[Rows]) -> Result<String, Wrong> {
    let mut items = Vec::new(alloc);
    for rows in lists {
        items.push(rows_or_count(alloc, rows)?)?;
    }
    text_of_json(alloc, Json::Array(items))
}

/// Adds the line of a row, as the report prints it.
fn add_row(alloc: Global, text: &mut String, name: &str, row: &Row) -> Result<(), Wrong> {
    let row = text_of_json(alloc, row_json(alloc, row.as_slice())?)?;
    write!(text, "[\"row\",\"{name}\",{row}]\n")?;
    Ok(())
}

/// Adds the lines of a table, as the report prints them.
fn add_table(alloc: Global, text: &mut String, name: &str, table: &Table) -> Result<(), Wrong> {
    write!(text, "[\"table\",\"{name}\",{}]\n", table.len())?;
    let entries = table.entries(alloc)?;
    for (_, row) in entries.as_slice() {
        add_row(alloc, text, name, row)?;
    }
    Ok(())
}

/// The words of an outcome, as the report prints it.
pub fn outcome_words(alloc: Global, catalog: &Catalog, outcome: &Outcome) -> Result<String, Wrong> {
    text_of_json(alloc, outcome_json(alloc, catalog, outcome)?)
}

/// The tables by their names.
fn by_name<'a>(
    alloc: Global,
    catalog: &'a Catalog,
    tables: &'a [Table],
) -> Result<BTreeMap<&'a str, &'a Table>, NoMemory> {
    let mut named = BTreeMap::new(alloc);
    for (def, table) in catalog.tables.as_slice().iter().zip(tables) {
        named.insert(def.name.as_str(), table)?;
    }
    Ok(named)
}

impl Replay {
    /// The catalogue of a base for lines, and its empty database.
    fn new(alloc: Global, base: &str, lines: &str) -> Result<Replay, Wrong> {
        let catalog = catalog_for(alloc, base, lines)?;
        match Database::empty(alloc, &catalog) {
            Ok(database) => Ok(Replay {
                catalog,
                database,
                listing: Listing::new(alloc),
            }),
            Err(NoMemory) => {
                drop(catalog);
                Err(Wrong::NoMemory)
            }
        }
    }

    /// The lines of all tables.
    fn tables_text(&self, alloc: Global) -> Result<String, Wrong> {
        let tables = by_name(
            alloc,
            &self.catalog,
            self.database.contents.tables.as_slice(),
        )?;
        let mut text = String::new(alloc);
        for (name, table) in tables.iter() {
            add_table(alloc, &mut text, name, table)?;
        }
        Ok(text)
    }

    /// The rows that a window shows.
    fn visible_text(&self, alloc: Global, name: &str) -> Result<String, Wrong> {
        let window = window_number(alloc, &self.catalog, name)?;
        let rows = visible_rows(alloc, &self.catalog, window, &self.database.contents)?;
        text_of_json(alloc, rows_json(alloc, rows.as_slice())?)
    }

    /// The units of a window.
    fn units_text(&self, alloc: Global, name: &str) -> Result<String, Wrong> {
        let window = window_number(alloc, &self.catalog, name)?;
        match self.database.contents.windows.get(usize::from(window)) {
            Some(units) => lists_text(alloc, units.as_slice()),
            None => Err(Wrong::text(alloc, "no units")),
        }
    }

    /// The batches of a stream.
    fn batches_text(&self, alloc: Global, name: &str) -> Result<String, Wrong> {
        let stream = stream_number(alloc, &self.catalog, name)?;
        match self.database.streams.get(usize::from(stream)) {
            Some(batches) => lists_text(alloc, batches.as_slice()),
            None => Err(Wrong::text(alloc, "no batches")),
        }
    }

    /// Applies an entry. None where it has no value.
    fn applied(&mut self, alloc: Global, asked: &str) -> Result<Option<Applied>, Wrong> {
        // A database doesn't know one request of a client from another.
        let asker = Asker {
            client: 0,
            index: 0,
        };
        let entry = entry_of(alloc, &self.catalog, asker, asked)?;
        let applied = apply(alloc, &self.catalog, &mut self.database, &entry);
        drop(entry);
        Ok(applied?)
    }

    /// Applies an entry: its outcome, as the report prints it.
    fn outcome_text(&mut self, alloc: Global, asked: &str) -> Result<String, Wrong> {
        match self.applied(alloc, asked)? {
            Some(applied) => outcome_words(alloc, &self.catalog, &applied.outcome),
            None => Ok(String::from_str(alloc, NONE)?),
        }
    }

    /// What a look or an entry comes to.
    fn answer(&mut self, alloc: Global, asked: &str) -> Result<String, Wrong> {
        let (word, name) = asked.split_once(' ').unwrap_or((asked, ""));
        match word {
            "visible" => self.visible_text(alloc, name),
            "units" => self.units_text(alloc, name),
            "batches" => self.batches_text(alloc, name),
            _ => self.outcome_text(alloc, asked),
        }
    }

    /// Compares what a look or an entry comes to.
    fn check_answer(&mut self, alloc: Global, asked: &str, want: &str) -> Result<(), Wrong> {
        let came = self.answer(alloc, asked)?;
        compare(alloc, asked, want, came.as_str())
    }

    /// Notes an entry with its outcome, and compares what it comes to.
    fn add_entry(&mut self, alloc: Global, asked: &str, want: &str) -> Result<(), Wrong> {
        let outcome = outcome_of(alloc, want)?;
        self.listing.add_entry(alloc, asked, outcome.as_str())?;
        self.check_answer(alloc, asked, outcome.as_str())
    }

    /// Compares what a line comes to; an entry and a line of a table are noted.
    fn add_line(&mut self, alloc: Global, line: &str) -> Result<(), Wrong> {
        match line.split_once(" -> ") {
            None => Ok(self.listing.add_row(line)?),
            Some((asked, want)) if want == NONE || want.starts_with('[') => {
                self.check_answer(alloc, asked, want)
            }
            Some((asked, want)) => self.add_entry(alloc, asked, want),
        }
    }

    /// Compares the tables that are left with those that lines said.
    fn check_tables(&self, alloc: Global) -> Result<(), Wrong> {
        let tables = self.tables_text(alloc)?;
        check_report(alloc, tables.as_str(), self.listing.tables().as_bytes())
    }

    /// The list alone.
    fn into_listing(self) -> Listing {
        let Replay {
            catalog,
            database,
            listing,
        } = self;
        drop(catalog);
        drop(database);
        listing
    }
}

/// The list of a block, whose lines came to what they say on the definitions: its requests, and the report on them. Wrong at
/// the first line that came to anything else, where the tables that are left differ, and where a line installs a body on a
/// base that is refused. The base has no marks any more. An entry costs what `apply` does, which copies what it needs.
pub fn replayed(alloc: Global, base: &str, lines: &[String]) -> Result<Listing, Wrong> {
    let text = text_of(alloc, lines.join(alloc, "␤")?.as_str())?;
    let mut replay = Replay::new(alloc, base, text.as_str())?;
    for line in text.split('\n') {
        replay.add_line(alloc, line)?;
    }
    replay.check_tables(alloc)?;
    Ok(replay.into_listing())
}
