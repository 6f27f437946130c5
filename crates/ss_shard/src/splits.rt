//! One shard of all partitions becomes one for each, and these become one again.
//!
//! While that goes on, a list has at each partition's number a shell where the whole shard has its part, and else the shard.

ghost use Rattle.std.specs.Prelude.{◌≡◌, ◌≤◌, ◌<◌, suc, length, IfOk, IfErr, OnOk, OnErr};
ghost use Rattle.std.specs.List.{AllByRecursion};
ghost use Rattle.ss_model.specs.Accepted.{Accepted};
ghost use Rattle.ss_model.specs.Database.{Database};
ghost use Rattle.ss_shard.specs.Databases.{WindowIsSound};
ghost use Rattle.ss_shard.specs.Parts.{IsWholeShard, WasSplit, AreShards, HoldTheirParts, WereJoined, AreStill};
ghost use Rattle.ss_shard.specs.Splits.{IsShellOf, AreNumberedShells, ArePartlyJoined, HoldPartlyJoined, HoldStill};

use crate::database::{blanks_beside, shell_tables};
use crate::shard::Shard;
use ss_model::Catalog;
use ss_value::{NoMemory, Seq};
use std::alloc::Global;

/// What is left of a shard of one partition that lent all it has.
fn shell(alloc: Global, catalog: &Catalog, parts: u8, number: u8) -> Result<Shard, NoMemory>
    requires sound { AllByRecursion WindowIsSound catalog.now.windows }
    requires some { 1 ≤ parts }
    requires below { number < 8 }
    ensures { IfOk result (λ shell. IsShellOf catalog.now parts number shell) }
{
    let tables = shell_tables(alloc, catalog.tables.as_slice(), parts, number)?;
    blanks_beside(alloc, catalog, number, tables)
}

/// The shells of all partitions, by number.
fn shells(alloc: Global, catalog: &Catalog, parts: u8) -> Result<Seq<Shard>, NoMemory>
    requires sound { AllByRecursion WindowIsSound catalog.now.windows }
    requires some { 1 ≤ parts }
    requires few { parts ≤ 8 }
    ensures { IfOk result (λ shells. AreNumberedShells catalog.now parts shells) }
{
    let mut made = Seq::new(alloc);
    for number in 0..parts {
        let shell = shell(alloc, catalog, parts, number)?;
        made.push(shell)?;
    }
    Ok(made)
}

/// The whole shard gives the shell of the last partition that it has, which is not the first, its part back.
fn release_last(
    alloc: Global,
    catalog: &Catalog,
    parts: u8,
    last: u8,
    whole: &mut Shard,
    shards: &mut Seq<Shard>,
)
    requires accepted { Accepted catalog.now }
    requires some { 1 ≤ parts }
    requires second { 1 ≤ last }
    requires there { last < length shards.old }
    requires joined { ArePartlyJoined catalog.now parts (suc last) whole.old shards.old }
    ensures joined { ArePartlyJoined catalog.now parts last whole.new shards.new }
    ensures hold { HoldStill catalog.now parts (suc last) whole.old shards.old last whole.new shards.new }
{
    let Some(shell) = shards.get_mut(usize::from(last)) else {
        unreachable!()
    };
    whole.release(alloc, catalog, parts, shell);
}

/// The whole shard, which has the parts of so many partitions, gives them back, the last one first, and keeps that of the first.
fn release_all(
    alloc: Global,
    catalog: &Catalog,
    parts: u8,
    held: u8,
    whole: &mut Shard,
    shards: &mut Seq<Shard>,
)
    requires accepted { Accepted catalog.now }
    requires some { 1 ≤ held }
    requires within { held ≤ parts }
    requires joined { ArePartlyJoined catalog.now parts held whole.old shards.old }
    ensures joined { ArePartlyJoined catalog.now parts 1 whole.new shards.new }
    ensures hold { HoldStill catalog.now parts held whole.old shards.old 1 whole.new shards.new }
{
    let mut last = held;
    while last > 1 {
        last -= 1;
        release_last(alloc, catalog, parts, last, whole, shards);
    }
}

/// The whole shard takes in that of the next partition.
fn absorb_next(
    alloc: Global,
    catalog: &Catalog,
    parts: u8,
    next: u8,
    whole: &mut Shard,
    shards: &mut Seq<Shard>,
) -> Result<(), NoMemory>
    requires accepted { Accepted catalog.now }
    requires some { 1 ≤ parts }
    requires there { next < length shards.old }
    requires joined { ArePartlyJoined catalog.now parts next whole.old shards.old }
    requires hold { (db : Database) × HoldPartlyJoined catalog.now parts next whole.old shards.old db }
    ensures joined { OnOk result (ArePartlyJoined catalog.now parts (suc next) whole.new shards.new) }
    ensures hold { OnOk result (HoldStill catalog.now parts next whole.old shards.old (suc next) whole.new shards.new) }
    ensures err { OnErr result ((whole.new ≡ whole.old) × (shards.new ≡ shards.old)) }
{
    let Some(shard) = shards.get_mut(usize::from(next)) else {
        unreachable!()
    };
    whole.absorb(alloc, catalog, parts, shard)
}

/// The whole shard, which has the part of the first partition, takes in those of the others in order. Answers of how many it has
/// the part then: of all, or of fewer where there was no memory.
fn absorb_all(
    alloc: Global,
    catalog: &Catalog,
    parts: u8,
    whole: &mut Shard,
    shards: &mut Seq<Shard>,
) -> u8
    requires accepted { Accepted catalog.now }
    requires some { 1 ≤ parts }
    requires joined { ArePartlyJoined catalog.now parts 1 whole.old shards.old }
    requires hold { (db : Database) × HoldPartlyJoined catalog.now parts 1 whole.old shards.old db }
    ensures some { 1 ≤ result }
    ensures within { result ≤ parts }
    ensures joined { ArePartlyJoined catalog.now parts result whole.new shards.new }
    ensures hold { HoldStill catalog.now parts 1 whole.old shards.old result whole.new shards.new }
{
    for next in 1..parts {
        let Ok(()) = absorb_next(alloc, catalog, parts, next, whole, shards) else {
            return next;
        };
    }
    parts
}

/// Splits the shard of all partitions into one for each, by number.
///
/// Linear in tables, indexes, windows, procedures and streams for each partition, whatever the rows: no row is moved. All memory
/// is taken first; without it the whole shard comes back.
pub fn split(
    alloc: Global,
    whole: Shard,
    catalog: &Catalog,
    parts: u8,
) -> Result<Seq<Shard>, (NoMemory, Shard)>
    requires accepted { Accepted catalog.now }
    requires some { 1 ≤ parts }
    requires few { parts ≤ 8 }
    requires whole { IsWholeShard catalog.now parts whole }
    ensures ok { IfOk result (λ shards. WasSplit catalog.now parts whole shards) }
    ensures err { IfErr result (λ e. e.1 ≡ whole) }
{
    let Ok(mut shards) = shells(alloc, catalog, parts) else {
        return Err((NoMemory, whole));
    };
    let mut first = whole;
    release_all(alloc, catalog, parts, parts, &mut first, &mut shards);
    let _ = shards.put(0, first);
    Ok(shards)
}

/// Joins the shards of all partitions.
///
/// Linear in tables, indexes, windows, procedures and streams for each partition, whatever the rows: no row is moved. Out of
/// memory gives the shards back, each with its part.
pub fn join(
    alloc: Global,
    shards: Seq<Shard>,
    catalog: &Catalog,
    parts: u8,
) -> Result<Shard, (NoMemory, Seq<Shard>)>
    requires accepted { Accepted catalog.now }
    requires some { 1 ≤ parts }
    requires few { parts ≤ 8 }
    requires shards { AreShards catalog.now parts shards × ((db : Database) × HoldTheirParts catalog.now parts shards db) }
    ensures ok { IfOk result (λ whole. WereJoined catalog.now parts shards whole) }
    ensures err { IfErr result (λ e. AreStill catalog.now parts shards e.1) }
{
    let Ok(shell) = shell(alloc, catalog, parts, 0) else {
        return Err((NoMemory, shards));
    };
    let mut list = shards;
    let mut whole = list.put(0, shell);
    let held = absorb_all(alloc, catalog, parts, &mut whole, &mut list);
    if held < parts {
        release_all(alloc, catalog, parts, held, &mut whole, &mut list);
        let _ = list.put(0, whole);
        return Err((NoMemory, list));
    }
    Ok(whole)
}
