//! The columns of GROUP BY as a set.

ghost use Rattle.std.specs.Prelude.{◌≡◌, IfOk};
ghost use Rattle.std.specs.List.{list_any};
ghost use Rattle.ss_sql_trees.specs.WellTyped.{is_column};
ghost use Rattle.ss_sql_type.specs.Hashed.{IsSetOf};

use indexmap::IndexSet;
use ss_sql_trees::ColAt;
use ss_value::NoMemory;
use std::alloc::Global;
use std::marker::Model;

/// A list of columns, in which a column is sought by its hash.
#[derive(Drop)]
pub struct Grouped<'a> {
    list: &'a [ColAt],
    places: IndexSet<(u8, u8)>,
}

impl<'a> Model for Grouped<'a> {
    ghost use Rattle.std.specs.Prelude.{List};
    ghost use Rattle.ss_sql_trees.specs.declared.typed.ColAt.{ColAt as Item};

    ghost Value = { List Item };

    ghost use Rattle.ss_sql_type.specs.Hashed.{IsSetOf};

    ghost view = { λ g. g.list.now };

    ghost invariant = { λ g. IsSetOf g.list.now g.places };
}

/// The source and the position of each column.
fn positions_of(alloc: Global, columns: &[ColAt]) -> Result<IndexSet<(u8, u8)>, NoMemory>
    ensures { IfOk result (IsSetOf columns.now) }
{
    let mut places = IndexSet::new(alloc);
    for column in columns {
        places.insert((column.source, column.column))?;
    }
    Ok(places)
}

impl<'a> Grouped<'a> {
    /// The columns with a set of them, in time and memory linear in them.
    pub fn new(alloc: Global, list: &'a [ColAt]) -> Result<Grouped<'a>, NoMemory>
        ensures { IfOk result (λ columns. columns ≡ list.now) }
    {
        let places = positions_of(alloc, list)?;
        Ok(Grouped { list, places })
    }

    /// Whether a column is one of these. Takes the time of a hash.
    pub fn has(&self, column: ColAt) -> bool
        ensures { result ≡ list_any (λ g. is_column g column.source column.column) self.now }
    {
        let place = (column.source, column.column);
        self.places.contains(&place)
    }
}
