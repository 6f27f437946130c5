//! The rows of one table, by key.

ghost use Rattle.std.specs.Prelude.{◌≡◌, ◌<◌, ◌^◌, OnOk, IfOk};
ghost use Rattle.std.specs.List.{fold};
ghost use Rattle.std.specs.FinMap as finmap;

use ss_value::{Copies, NoMemory, Row, Seq};
use std::alloc::Global;
use std::collections::BTreeMap;
use std::marker::Model;

/// A key and the row that stands at it.
pub type Entry = (Row, Row);

/// The rows of a table by the values of their keys: a finite map to contracts.
///
/// A look-up or a change costs the comparisons on one path through a balanced tree. Memory is that of rows and keys.
#[derive(Drop)]
pub struct Table {
    rows: BTreeMap<Row, Row>,
}

impl Model for Table {
    ghost use Rattle.std.specs.FinMap.{from_entries};
    ghost use Rattle.ss_model.specs.Contents.{Table};
    ghost use Rattle.ss_model_computed.specs.TableCodes.{coded_table};

    ghost Value = { Table };

    ghost coded = { coded_table };

    ghost view = { λ t. from_entries t.rows.entries };
}

impl Table {
    /// The table of no rows. Takes no memory.
    pub fn new(alloc: Global) -> Table
        ensures { result ≡ finmap.empty }
    {
        Table {
            rows: BTreeMap::new(alloc),
        }
    }

    /// The number of rows, in constant time.
    pub fn len(&self) -> usize
        ensures { result ≡ finmap.len self.now }
    {
        self.rows.len()
    }

    /// Whether a row has this key.
    pub fn contains_key(&self, key: &Row) -> bool
        ensures { result ≡ finmap.contains_key self.now key.now }
    {
        self.rows.contains_key(key)
    }

    /// Puts a row at a key, in place of the one that stands there.
    pub fn insert(&mut self, key: Row, row: Row) -> Result<(), NoMemory>
        ensures { OnOk result (self.new ≡ finmap.insert self.old key row) }
    {
        self.rows.insert(key, row)?;
        Ok(())
    }

    /// Takes out the row at a key, if there is one. Takes no memory.
    pub fn remove(&mut self, key: &Row)
        ensures { self.new ≡ finmap.remove self.old key.now }
    {
        let _row = self.rows.remove(key);
    }

    /// Puts each row at its key, in this order.
    pub fn insert_all(&mut self, entries: Seq<Entry>) -> Result<(), NoMemory>
        ensures { OnOk result (self.new ≡ fold (λ m e. finmap.insert m e.0 e.1) self.old entries) }
    {
        for (key, row) in entries.into_vec() {
            self.insert(key, row)?;
        }
        Ok(())
    }

    /// Takes out the rows at these keys, in this order. Takes no memory.
    pub fn remove_all(&mut self, entries: Seq<Entry>)
        ensures { self.new ≡ fold (λ m e. finmap.remove m e.0) self.old entries }
    {
        for (key, _) in entries.into_vec() {
            self.remove(&key);
        }
    }

    /// Copies of the keys and rows, in key order: linear in their values.
    pub fn entries(&self, alloc: Global) -> Result<Seq<Entry>, NoMemory>
        ensures { IfOk result (λ entries. entries ≡ finmap.entries self.now) }
    {
        let mut entries = Seq::new(alloc);
        for (key, row) in self.rows.iter() {
            let key = key.duplicate(alloc)?;
            let row = row.duplicate(alloc)?;
            entries.push((key, row))?;
        }
        Ok(entries)
    }

    /// A copy of the table: linear in its values, with the comparisons to put each row in.
    pub fn copy(&self, alloc: Global) -> Result<Table, NoMemory>
        ensures { IfOk result (λ copy. copy ≡ self.now) }
    {
        let entries = self.entries(alloc)?;
        let mut copy = Table::new(alloc);
        copy.insert_all(entries)?;
        Ok(copy)
    }
}

impl Copies for Table {
    fn duplicate(&self, alloc: Global) -> Result<Table, NoMemory> {
        self.copy(alloc)
    }
}
