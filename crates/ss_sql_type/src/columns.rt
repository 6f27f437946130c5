//! Columns, sought by their names.

ghost use Rattle.std.specs.Prelude.{◌≡◌, IfOk};
ghost use Rattle.ss_sql_type.specs.Names.{column_named};

use ss_names::NameIndex;
use ss_value::{Column, Name, NoMemory};
use std::alloc::Global;
use std::marker::Model;

/// A list of columns, in which a name is sought by its hash.
#[derive(Drop)]
pub struct Columns<'a> {
    list: &'a [Column],
    names: NameIndex<'a>,
}

impl<'a> Model for Columns<'a> {
    ghost use Rattle.std.specs.Prelude.{◌≡◌, List, map};
    ghost use Rattle.ss_value.specs.declared.schema.Column.{Column as Item};
    ghost use Rattle.ss_names.specs.Names.{column_name};

    ghost Value = { List Item };

    ghost view = { λ c. c.list.now };

    ghost invariant = { λ c. c.names ≡ map column_name c.list.now };
}

impl<'a> Columns<'a> {
    /// The columns with an index of their names, in time and memory linear in them.
    pub fn new(alloc: Global, list: &'a [Column]) -> Result<Columns<'a>, NoMemory>
        ensures { IfOk result (λ columns. columns ≡ list.now) }
    {
        let names = NameIndex::new(alloc, list)?;
        Ok(Columns { list, names })
    }

    /// The columns, at no cost.
    pub fn as_slice(&self) -> &'a [Column]
        ensures { result.now ≡ self.now }
    {
        self.list
    }

    /// The position of the column with a name, the first of several. Takes the time of a hash.
    #[tactic(auto, using(crate::proofs::Hashed::column_named_is))]
    pub fn position(&self, name: &Name) -> Option<usize>
        ensures { result ≡ column_named self.now name.now }
    {
        self.names.position(name.as_bytes())
    }
}
