//! Rows that a search found.

ghost use Rattle.std.specs.Prelude.{◌≡◌, length};
ghost use Rattle.ss_plan.specs.Found.{pairs_found};

use ss_rows::RowsOf;
use ss_sql_trees::SourceId;
use ss_value::{Row, Seq, Slot};

/// Rows that a search found, with their slots, as the source of a query of one table.
///
/// They are a source of their own, instead of a second way to run a query. A row that the execution doesn't see is not
/// among them. Costs that a JOIN walks both of its sources: what the WHERE of each would be is said nowhere.
///
/// A row's position is its number among them, from 0. A look-up and a step are constant, so hints say nothing here.
///
/// A search by a key finds one row at most, and then no list is made.
#[derive(Drop)]
pub enum FoundRows<'a> {
    /// No row.
    Nothing,
    /// One row.
    One((Slot, &'a Row)),
    /// Any number of rows, each once, in the order of their keys.
    Many(Seq<(Slot, &'a Row)>),
}

impl<'a> FoundRows<'a> {
    /// The rows with their slots, in the order of their keys. Constant.
    pub fn as_slice(&self) -> &[(Slot, &'a Row)]
        ensures { result.now ≡ pairs_found self.now }
    {
        match self {
            FoundRows::Nothing => &[],
            FoundRows::One(pair) => std::slice::from_ref(pair),
            FoundRows::Many(pairs) => pairs.as_slice(),
        }
    }

    /// How many rows there are. Constant.
    fn len(&self) -> usize
        ensures { result ≡ length (pairs_found self.now) }
    {
        self.as_slice().len()
    }
}

impl<'a> RowsOf for FoundRows<'a> {
    ghost use Rattle.ss_plan.specs.Found.{at_positions};

    ghost positioned = { λ s source. at_positions s };

    fn first(&self, _source: &SourceId) -> (Option<usize>, usize) {
        match self.as_slice().get(0) {
            None => (None, 0),
            Some(_) => (Some(0), 0),
        }
    }

    fn after(&self, _source: &SourceId, at: usize, hint: usize) -> (Option<usize>, usize) {
        let count = self.len();
        if at + 1 < count {
            (Some(at + 1), hint)
        } else {
            (None, hint)
        }
    }

    fn row(&self, _source: &SourceId, at: usize) -> Option<&Row> {
        match self.as_slice().get(at) {
            Some(&(_, row)) => Some(row),
            None => None,
        }
    }
}
