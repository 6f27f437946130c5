//! Executions on databases of 1 to 8 partitions, which are split into one shard for each and joined again behind each of them.
//!
//! ```text
//! joined BASE    lines of executions, as in `executions`, and of looks, each with what it comes to
//!
//! taken b -> 2             how many batches a procedure has taken
//! shown w -> [[4],[5]]     the rows that a window shows
//! next s a -> 1            the number that the next push of a stream and a source has to carry
//! ```

ghost use Rattle.std.specs.Prelude.{◌≡◌, ◌≤◌, map, IfOk};
ghost use Rattle.ss_model.specs.Accepted.{Accepted};
ghost use Rattle.ss_shard.specs.Parts.{IsWholeShard, dealing_of};
ghost use Rattle.ss_shard.specs.Shards.{IsCommitted};

use crate::executions::check_line;
use ss_case_files::{Wrong, compare};
use ss_case_lists::{catalog_of_lines, procedure_number, stream_number, window_number};
use ss_model::Catalog;
use ss_report::rows_json;
use ss_shard::{Database, Shard, holds_itself, join, opening, split};
use ss_value::{NoMemory, Rows, Seq, copy_row, name_of};
use std::alloc::Global;

/// Windows of cases show fewer rows.
const MOST_SHOWN: usize = 64;

// ---- looks

/// How many batches the procedure with a name has taken.
fn taken(alloc: Global, catalog: &Catalog, shard: &Shard, name: &str) -> Result<String, Wrong> {
    let procedure = procedure_number(alloc, catalog, name)?;
    let count = shard.cursor(procedure);
    Ok(format!(in alloc; "{count}")?)
}

/// The rows that a window shows.
fn rows_shown(alloc: Global, shard: &Shard, window: u16) -> Result<Rows, NoMemory> {
    let mut rows = Seq::new(alloc);
    let Some(window) = shard.window(window) else {
        return Ok(rows);
    };
    for at in 0..MOST_SHOWN {
        if let Some(row) = window.visible(at) {
            rows.push(copy_row(alloc, row)?)?;
        }
    }
    Ok(rows)
}

/// The rows that the window with a name shows.
fn shown(alloc: Global, catalog: &Catalog, shard: &Shard, name: &str) -> Result<String, Wrong> {
    let window = window_number(alloc, catalog, name)?;
    let rows = rows_shown(alloc, shard, window)?;
    Ok(rows_json(alloc, rows.as_slice())?.to_string(alloc)?)
}

/// The number that the next push of a stream and a source, whose names stand behind one another, has to carry.
fn next(alloc: Global, catalog: &Catalog, shard: &Shard, names: &str) -> Result<String, Wrong> {
    let (stream, source) = names.split_once(' ').unwrap_or((names, ""));
    let stream = stream_number(alloc, catalog, stream)?;
    let Ok(source) = name_of(alloc, source.as_bytes()) else {
        return Err(Wrong::text(alloc, "no name of a source"));
    };
    let number = shard.next_number(stream, &source);
    Ok(format!(in alloc; "{number}")?)
}

/// What a look comes to, if it is one.
fn looked(
    alloc: Global,
    catalog: &Catalog,
    shard: &Shard,
    asked: &str,
) -> Option<Result<String, Wrong>> {
    let (word, names) = asked.split_once(' ').unwrap_or((asked, ""));
    match word {
        "taken" => Some(taken(alloc, catalog, shard, names)),
        "shown" => Some(shown(alloc, catalog, shard, names)),
        "next" => Some(next(alloc, catalog, shard, names)),
        _ => None,
    }
}

/// Whether a line is a look, which comes to what it says.
fn is_look(alloc: Global, catalog: &Catalog, shard: &Shard, line: &str) -> Result<bool, Wrong> {
    let (asked, want) = line.split_once(" -> ").unwrap_or((line, ""));
    let Some(came) = looked(alloc, catalog, shard, asked) else {
        return Ok(false);
    };
    compare(alloc, asked, want, came?.as_str())?;
    Ok(true)
}

// ---- executions

/// The shard of all partitions, split into one for each and joined again.
fn joined_again(alloc: Global, catalog: &Catalog, parts: u8, whole: Shard) -> Result<Shard, Wrong>
    requires accepted { Accepted catalog.now }
    requires some { 1 ≤ parts }
    requires few { parts ≤ 8 }
    requires whole { IsWholeShard catalog.now parts whole }
    ensures { IfOk result (IsWholeShard catalog.now parts) }
{
    // A law, which does nothing: the shard stands for a database, of which each part is held then.
    holds_itself();
    let Ok(shards) = split(alloc, whole, catalog, parts) else {
        return Err(Wrong::NoMemory);
    };
    match join(alloc, shards, catalog, parts) {
        Ok(again) => Ok(again),
        Err(_) => Err(Wrong::NoMemory),
    }
}

/// Looks at a shard, or runs the execution of a line, and compares what that came to.
fn run_line(alloc: Global, catalog: &Catalog, shard: &mut Shard, line: &str) -> Result<(), Wrong>
    requires accepted { Accepted catalog.now }
    requires committed { IsCommitted catalog.now shard.old }
    ensures committed { IsCommitted catalog.now shard.new }
    ensures number { shard.new.number ≡ shard.old.number }
    ensures dealt { map dealing_of shard.new.tables ≡ map dealing_of shard.old.tables }
{
    if is_look(alloc, catalog, shard, line)? {
        return Ok(());
    }
    check_line(alloc, catalog, shard, line)
}

/// The shard of all partitions after a line, which came to what it says, split and joined again.
fn line_joined(
    alloc: Global,
    catalog: &Catalog,
    parts: u8,
    whole: Shard,
    line: &str,
) -> Result<Shard, Wrong>
    requires accepted { Accepted catalog.now }
    requires some { 1 ≤ parts }
    requires few { parts ≤ 8 }
    requires whole { IsWholeShard catalog.now parts whole }
    ensures { IfOk result (IsWholeShard catalog.now parts) }
{
    let mut shard = whole;
    match run_line(alloc, catalog, &mut shard, line) {
        Err(wrong) => Err(wrong),
        Ok(()) => joined_again(alloc, catalog, parts, shard),
    }
}

/// The shard of all partitions of the empty database.
fn opened(alloc: Global, catalog: &Catalog, parts: u8) -> Result<Shard, NoMemory>
    requires accepted { Accepted catalog.now }
    requires some { 1 ≤ parts }
    requires few { parts ≤ 8 }
    ensures { IfOk result (IsWholeShard catalog.now parts) }
{
    let Database { whole, .. } = opening(alloc, catalog, parts)?;
    Ok(whole)
}

/// Runs the lines on a database of so many partitions.
fn check_on(alloc: Global, catalog: &Catalog, parts: u8, lines: &[String]) -> Result<(), Wrong>
    requires accepted { Accepted catalog.now }
    requires some { 1 ≤ parts }
    requires few { parts ≤ 8 }
{
    let mut shard = opened(alloc, catalog, parts)?;
    for line in lines {
        shard = line_joined(alloc, catalog, parts, shard, line.as_str())?;
    }
    Ok(())
}

/// Runs the lines on databases of 1 to 8 partitions.
fn check_on_each(alloc: Global, catalog: &Catalog, lines: &[String]) -> Result<(), Wrong>
    requires accepted { Accepted catalog.now }
{
    for parts in 1..9 {
        check_on(alloc, catalog, parts, lines)?;
    }
    Ok(())
}

/// A block `joined`, on 1 to 8 partitions.
pub fn check_joined(alloc: Global, base: &str, lines: &[String]) -> Result<(), Wrong> {
    let catalog = catalog_of_lines(alloc, base, lines)?;
    check_on_each(alloc, &catalog, lines)
}
