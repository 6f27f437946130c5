//! Executions on the shards that they touch, of databases of 1 to 8 partitions.
//!
//! ```text
//! touching BASE    lines of calls, pushes and installs, each with what it comes to
//! ```
//!
//! Each runs on the shard that it touches alone, or else on all of them, united for it. Outcomes are as in `executions`.

ghost use Rattle.std.specs.Prelude.{◌≡◌, ◌≤◌, ◌<◌, ◌∷◌, ℕ, true, IfOk, IfSome, IsTrue};
ghost use Rattle.ss_model.specs.Accepted.{Accepted};
ghost use Rattle.ss_model.specs.Database.{fits_entry};
ghost use Rattle.ss_shard.specs.ShardValue.{ShardValue};
ghost use Rattle.ss_proc.specs.Entries.{IsNext, IsCountable};
ghost use Rattle.ss_execution_cases.specs.Held.{AreOfOne, TakesNone, TouchesOnly};

use crate::executions::request_in;
use ss_case_files::{Wrong, compare};
use ss_case_lists::{catalog_of_lines, outcome_words};
use ss_case_texts::outcome_of;
use ss_model::{Catalog, Entry, Outcome};
use ss_model_laws::{touched_run, untouched_stay};
use ss_partition::touch_set;
use ss_plan::{Batches, Inputs};
use ss_proc::{PlainRunner, Runner, commit, runs_on_parts};
use ss_shard::{Database, Shard, opening, part, split, unite};
use ss_value::{NoMemory, PartSet, Seq};
use std::alloc::Global;

/// Whether an entry touches a partition, of so many, and no other.
fn touches_only(catalog: &Catalog, entry: &Entry, parts: u8, partition: u8) -> bool
    requires some { 1 ≤ parts }
    requires few { parts ≤ 8 }
    requires below { partition < 8 }
    ensures { IsTrue result → TouchesOnly catalog.now parts entry.now partition }
{
    let mut one = PartSet::empty();
    one.insert(partition);
    touch_set(catalog, entry, parts) == one
}

/// Runs an entry that takes no batch on the one shard that it touches, and commits it, or does nothing without memory.
fn run_on_one(
    alloc: Global,
    catalog: &Catalog,
    parts: u8,
    partition: u8,
    shards: &mut Seq<Shard>,
    entry: &Entry,
) -> Option<Outcome>
    requires accepted { Accepted catalog.now }
    requires some { 1 ≤ parts }
    requires fits { fits_entry catalog.now entry.now ≡ true }
    requires asked { (s : ShardValue) → IsNext entry.now s × IsCountable entry.now }
    requires none { TakesNone entry.now }
    requires only { TouchesOnly catalog.now parts entry.now partition }
    requires of_one { AreOfOne catalog.now parts shards.old }
    ensures { AreOfOne catalog.now parts shards.new }
{
    // Laws, which do nothing: what ran on the shard ran on the whole database, and left the parts of all others.
    runs_on_parts();
    untouched_stay();
    let batches = Batches::new(alloc);
    let no_row = Seq::new(alloc);
    let inputs = Inputs {
        batches: &batches,
        inserted: no_row.as_slice(),
    };
    let shard = shards.get_mut(usize::from(partition))?;
    let executed = match PlainRunner.execute(alloc, catalog, shard, &inputs, entry) {
        Ok(executed) => executed,
        Err(NoMemory) => return None,
    };
    commit(shard, entry, &executed.outcome);
    Some(executed.outcome)
}

/// The partition that an entry touches and no other, of so many, if there is one.
fn only_partition(catalog: &Catalog, entry: &Entry, parts: u8) -> Option<u8>
    requires some { 1 ≤ parts }
    requires few { parts ≤ 8 }
    ensures { IfSome result (λ p. TouchesOnly catalog.now parts entry.now p) }
{
    for partition in 0..parts {
        if touches_only(catalog, entry, parts, partition) {
            return Some(partition);
        }
    }
    None
}

/// Runs an entry that takes no batch on a shard that takes the others in for it, and commits it. None without memory.
fn run_on_union(
    alloc: Global,
    catalog: &Catalog,
    parts: u8,
    first: &mut Shard,
    others: &mut [Shard],
    entry: &Entry,
) -> Option<Outcome>
    requires accepted { Accepted catalog.now }
    requires some { 1 ≤ parts }
    requires fits { fits_entry catalog.now entry.now ≡ true }
    requires asked { (s : ShardValue) → IsNext entry.now s × IsCountable entry.now }
    requires none { TakesNone entry.now }
    requires of_one { AreOfOne catalog.now parts (first.old ∷ others.old) }
    ensures { IfSome result (λ outcome. AreOfOne catalog.now parts (first.new ∷ others.new)) }
{
    // Laws, which do nothing: the partitions that an entry touches are among those that run, so all that it touches is held.
    runs_on_parts();
    touched_run();
    let batches = Batches::new(alloc);
    let no_row = Seq::new(alloc);
    let inputs = Inputs {
        batches: &batches,
        inserted: no_row.as_slice(),
    };
    match unite(alloc, catalog, parts, first, others) {
        Ok(()) => {}
        Err(NoMemory) => return None,
    }
    let executed = match PlainRunner.execute(alloc, catalog, first, &inputs, entry) {
        Ok(executed) => executed,
        Err(NoMemory) => return None,
    };
    commit(first, entry, &executed.outcome);
    part(alloc, catalog, parts, first, others);
    Some(executed.outcome)
}

/// Runs an entry that takes no batch on all shards, united for it, and commits it. None without memory.
fn run_on_all(
    alloc: Global,
    catalog: &Catalog,
    parts: u8,
    shards: Seq<Shard>,
    entry: &Entry,
) -> Option<(Seq<Shard>, Outcome)>
    requires accepted { Accepted catalog.now }
    requires some { 1 ≤ parts }
    requires fits { fits_entry catalog.now entry.now ≡ true }
    requires asked { (s : ShardValue) → IsNext entry.now s × IsCountable entry.now }
    requires none { TakesNone entry.now }
    requires of_one { AreOfOne catalog.now parts shards }
    ensures { IfSome result (λ after. AreOfOne catalog.now parts after.0) }
{
    let mut list = shards.into_vec();
    let (first, others) = list.as_mut_slice().split_first_mut()?;
    let outcome = run_on_union(alloc, catalog, parts, first, others, entry)?;
    Some((Seq::from_vec(list), outcome))
}

/// Runs an entry on the shard that it touches alone, or else on all of them. None without memory.
fn run_where_it_touches(
    alloc: Global,
    catalog: &Catalog,
    parts: u8,
    shards: Seq<Shard>,
    entry: &Entry,
) -> Option<(Seq<Shard>, Outcome)>
    requires accepted { Accepted catalog.now }
    requires some { 1 ≤ parts }
    requires few { parts ≤ 8 }
    requires fits { fits_entry catalog.now entry.now ≡ true }
    requires asked { (s : ShardValue) → IsNext entry.now s × IsCountable entry.now }
    requires none { TakesNone entry.now }
    requires of_one { AreOfOne catalog.now parts shards }
    ensures { IfSome result (λ after. AreOfOne catalog.now parts after.0) }
{
    let Some(partition) = only_partition(catalog, entry, parts) else {
        return run_on_all(alloc, catalog, parts, shards, entry);
    };
    let mut shards = shards;
    let outcome = run_on_one(alloc, catalog, parts, partition, &mut shards, entry)?;
    Some((shards, outcome))
}

/// The shards of the empty database. None without memory.
fn opened(alloc: Global, catalog: &Catalog, parts: u8) -> Option<Seq<Shard>>
    requires accepted { Accepted catalog.now }
    requires some { 1 ≤ parts }
    requires few { parts ≤ 8 }
    ensures { IfSome result (AreOfOne catalog.now parts) }
{
    let Ok(Database { whole, .. }) = opening(alloc, catalog, parts) else {
        return None;
    };
    match split(alloc, whole, catalog, parts) {
        Ok(shards) => Some(shards),
        Err(_) => None,
    }
}

/// Compares an outcome with that of a line.
fn check_outcome(
    alloc: Global,
    catalog: &Catalog,
    line: &str,
    outcome: &Outcome,
) -> Result<(), Wrong> {
    let (asked, want) = line.split_once(" -> ").unwrap_or((line, ""));
    let want = outcome_of(alloc, want)?;
    let came = outcome_words(alloc, catalog, outcome)?;
    compare(alloc, asked, want.as_str(), came.as_str())
}

/// The shards after the execution of a line, which came to what it says.
fn shards_after(
    alloc: Global,
    catalog: &Catalog,
    parts: u8,
    shards: Seq<Shard>,
    line: &str,
) -> Result<Seq<Shard>, Wrong>
    requires accepted { Accepted catalog.now }
    requires some { 1 ≤ parts }
    requires few { parts ≤ 8 }
    requires of_one { AreOfOne catalog.now parts shards }
    ensures { IfOk result (AreOfOne catalog.now parts) }
{
    let (asked, _) = line.split_once(" -> ").unwrap_or((line, ""));
    let wanted = request_in(alloc, catalog, asked)?;
    let Some((after, outcome)) = run_where_it_touches(alloc, catalog, parts, shards, &wanted.entry)
    else {
        return Err(Wrong::NoMemory);
    };
    check_outcome(alloc, catalog, line, &outcome)?;
    Ok(after)
}

/// Runs the lines on the shards of so many partitions.
fn check_on(alloc: Global, catalog: &Catalog, parts: u8, lines: &[String]) -> Result<(), Wrong>
    requires accepted { Accepted catalog.now }
    requires some { 1 ≤ parts }
    requires few { parts ≤ 8 }
{
    let Some(mut shards) = opened(alloc, catalog, parts) else {
        return Err(Wrong::NoMemory);
    };
    for line in lines {
        shards = shards_after(alloc, catalog, parts, shards, line.as_str())?;
    }
    Ok(())
}

/// Runs the lines on the shards of 1 to 8 partitions.
fn check_on_each(alloc: Global, catalog: &Catalog, lines: &[String]) -> Result<(), Wrong>
    requires accepted { Accepted catalog.now }
{
    for parts in 1..9 {
        check_on(alloc, catalog, parts, lines)?;
    }
    Ok(())
}

/// A block `touching`, on 1 to 8 partitions.
pub fn check_touching(alloc: Global, base: &str, lines: &[String]) -> Result<(), Wrong> {
    let catalog = catalog_of_lines(alloc, base, lines)?;
    check_on_each(alloc, &catalog, lines)
}
