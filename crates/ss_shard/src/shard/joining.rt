//! Shards that take in the parts of others, and give them back.
//!
//! What lends its part leaves a *shell*: its lists of tables, indexes, windows, counts, sources and bodies, with blanks in
//! them, into which all of it is put back. So giving back takes no memory and can't fail, as it must not once an
//! execution is listed.

ghost use Rattle.std.specs.Prelude.{◌≡◌, ◌≤◌, length, List, ℕ, OnOk, OnErr};
ghost use Rattle.ss_model.specs.Accepted.{Accepted};
ghost use Rattle.ss_shard.specs.Shards.{AllKeyed};
ghost use Rattle.ss_shard.specs.Parts.{with_homes, MayAbsorb, Absorbs, MayRelease, Releases};

use crate::exchanges::{exchange_cursors, exchange_sources, exchange_windows};
use crate::joins::{absorb_lists, release_lists};
use crate::shard::Shard;
use crate::shard::bodies::write_over;
use ss_model::Catalog;
use ss_table::Table;
use ss_value::NoMemory;
use std::alloc::Global;

/// All windows, counts and sources that are at home on the other's partition change places.
fn exchange_homes(catalog: &Catalog, parts: u8, shard: &mut Shard, other: &mut Shard)
    requires some { 1 ≤ parts }
    requires few { (length shard.old.windows ≤ 64) × (length shard.old.sources ≤ 64) }
    requires each { length shard.old.cursors ≡ length catalog.now.procedures }
    requires windows { length other.old.windows ≡ length shard.old.windows }
    requires cursors { length other.old.cursors ≡ length shard.old.cursors }
    requires sources { length other.old.sources ≡ length shard.old.sources }
    ensures here { shard.new ≡ with_homes catalog.now parts other.old.number shard.old other.old }
    ensures there { other.new ≡ with_homes catalog.now parts other.old.number other.old shard.old }
{
    let partition = other.number;
    exchange_windows(
        catalog,
        parts,
        partition,
        &mut shard.windows,
        &mut other.windows,
    );
    exchange_cursors(
        catalog,
        parts,
        partition,
        &mut shard.cursors,
        &mut other.cursors,
    );
    exchange_sources(
        catalog,
        parts,
        partition,
        &mut shard.sources,
        &mut other.sources,
    );
}

/// Each row of each of these tables stands at its key, in a slot of its own. A law: it does nothing but pass over the tables.
fn all_are_keyed(tables: &[Table])
    ensures { AllKeyed tables.now }
{
    match tables.split_first() {
        None => (),
        Some((table, rest)) => {
            table.rows_are_keyed();
            all_are_keyed(rest);
        }
    }
}

impl Shard {
    /// Takes in the part of another shard, of which a shell is left, so that an execution that touches both parts finds them in
    /// one. `parts` is how many partitions run.
    ///
    /// Linear in tables, indexes, windows, procedures and streams, whatever the rows: no row is moved or copied. Out of memory
    /// changes neither.
    pub fn absorb(
        &mut self,
        alloc: Global,
        catalog: &Catalog,
        parts: u8,
        other: &mut Shard,
    ) -> Result<(), NoMemory>
        requires accepted { Accepted catalog.now }
        requires some { 1 ≤ parts }
        requires may { (held : List ℕ) × MayAbsorb catalog.now parts held self.old other.old }
        ensures ok { OnOk result (Absorbs catalog.now parts self.old other.old self.new other.new) }
        ensures err { OnErr result ((self.new ≡ self.old) × (other.new ≡ other.old)) }
    {
        // Tables and indexes first, one by one, which are given back where the next finds no memory; what changes
        // places takes none. So an error has changed nothing.
        absorb_lists(
            alloc,
            &mut self.tables,
            &mut self.indexes,
            &mut other.tables,
            &mut other.indexes,
        )?;
        // A law, which does nothing: the proof needs it of the tables, here and below.
        all_are_keyed(self.tables.as_slice());
        // The other's partition runs, so its bodies are those of all; this shard has them too where it has some partition.
        write_over(other.bodies.as_slice(), &mut self.bodies);
        exchange_homes(catalog, parts, self, other);
        Ok(())
    }

    /// Gives a shell the part back that it lent last. `parts` is how many partitions run.
    ///
    /// Linear in tables, indexes, windows, procedures and streams, whatever the rows; takes no memory.
    pub fn release(&mut self, alloc: Global, catalog: &Catalog, parts: u8, back: &mut Shard)
        requires accepted { Accepted catalog.now }
        requires some { 1 ≤ parts }
        requires may { (held : List ℕ) × MayRelease catalog.now parts held self.old back.old }
        ensures { Releases catalog.now parts self.old back.old self.new back.new }
    {
        release_lists(
            alloc,
            &mut self.tables,
            &mut self.indexes,
            &mut back.tables,
            &mut back.indexes,
        );
        all_are_keyed(self.tables.as_slice());
        all_are_keyed(back.tables.as_slice());
        write_over(self.bodies.as_slice(), &mut back.bodies);
        exchange_homes(catalog, parts, self, back);
    }
}
