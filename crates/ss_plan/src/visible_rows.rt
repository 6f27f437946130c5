//! The rows that an execution sees, as the sources of a query.

ghost use Rattle.std.specs.Prelude.{◌≡◌, [], get_or, Option, pos};
ghost use Rattle.std.specs.Option.{option_map};
ghost use Rattle.ss_value.specs.declared.value.Value.TheVariants.{Int};
ghost use Rattle.ss_value.specs.Rows.{column_value};
ghost use Rattle.ss_plan.specs.Statements.{split_of};
ghost use Rattle.ss_value.specs.declared.value.Value.{Value};
ghost use Rattle.ss_model.specs.declared.catalog.Catalog.{Catalog};
ghost use Rattle.ss_plan.specs.Seen.{positioned_by, rows_numbered, value_behind};
ghost use Rattle.ss_plan.specs.Scans.{IsAt};

use crate::batches::Batches;
use crate::inputs::Inputs;
use crate::listed::{first_listed, first_shown, listed_row, next_listed, next_shown, shown_row};
use crate::visible::{first_seen, next_seen, seen_row};
use ss_model::Catalog;
use ss_rows::{Frame, RowsOf, column_in};
use ss_shard::Shard;
use ss_sql_trees::SourceId;
use ss_table::Table;
use ss_value::{Row, Value};
use ss_window::Window;

/// Where the rows of a source stand.
#[derive(Clone, Copy, Drop)]
pub enum RowsAt<'a> {
    /// In a table, of this number.
    InTable(u16, &'a Table),
    /// In a window.
    InWindow(&'a Window),
    /// In a list.
    InList(&'a [Row]),
    /// Nowhere: there is no such source.
    Nowhere,
}

/// The rows that an execution sees on a shard, where they stand.
///
/// They are a source of their own, which passes over the rows that aren't seen, instead of a conjunct that is added to
/// WHERE: so queries, UPDATE and DELETE share one rule, and a row that isn't seen is never tested.
///
/// A table gives its rows by key, at their slots; a split table gives an execution that is limited to a value only the rows
/// that have it. A window gives the rows of its visible units, an input its batch, and `inserted` the rows of the emit at
/// hand, each row at its number. A look-up is constant, and in a window a search. A step is constant in a list, a look-up in
/// a window, and in a table a step of its walk, constant with its hint, with one more for each row that is passed over.
#[derive(Clone, Copy, Drop)]
pub struct ShardRows<'a, 'b: 'a> {
    /// The catalogue, which says by which columns tables are split.
    pub catalog: &'a Catalog,
    /// The shard that holds the rows.
    pub shard: &'a Shard,
    /// The value that split columns are limited to, if they are.
    pub split: Option<&'a Value>,
    /// The rows at hand.
    pub inputs: Inputs<'a, 'b>,
}

/// Where the rows of the batch of an input stand. Constant.
fn batch_of<'a, 'b>(batches: &'a Batches<'b>, at: u16) -> RowsAt<'a>
    ensures { (catalog : Catalog) (split : Option Value) → positioned_by catalog split result ≡ rows_numbered 0 (get_or batches.now at []) }
{
    match batches.get(usize::from(at)) {
        Some(rows) => RowsAt::InList(rows.as_slice()),
        None => RowsAt::Nowhere,
    }
}

impl<'a, 'b> ShardRows<'a, 'b> {
    /// Where the rows of a source stand. Constant.
    fn rows_at(&self, source: &SourceId) -> RowsAt<'a>
        ensures { IsAt self.now source.now result }
    {
        match source {
            SourceId::Table(table) => match self.shard.table(*table) {
                Some(rows) => RowsAt::InTable(*table, rows),
                None => RowsAt::Nowhere,
            },
            SourceId::Window(window) => match self.shard.window(*window) {
                Some(window) => RowsAt::InWindow(window),
                None => RowsAt::Nowhere,
            },
            SourceId::Batch(at) => batch_of(self.inputs.batches, *at),
            SourceId::Inserted => RowsAt::InList(self.inputs.inserted),
        }
    }
}

/// The value that split columns are limited to: that of the argument which the touch set names, and `zero` where that argument
/// is missing.
fn split_value<'a>(args: &'a Row, argument: Option<u8>, zero: &'a Value) -> Option<&'a Value>
    requires { zero.now ≡ Int (pos 0) }
    ensures { value_behind result ≡ option_map (λ a. column_value args.now a) argument }
{
    match argument {
        None => None,
        Some(argument) => match column_in(args, usize::from(argument)) {
            Some(value) => Some(value),
            None => Some(zero),
        },
    }
}

/// The rows that an execution with this frame and these inputs sees on a shard. `zero` is lent where the argument that it is
/// limited to is missing. Constant.
pub fn rows_seen<'a, 'b>(
    catalog: &'a Catalog,
    shard: &'a Shard,
    frame: Frame<'a>,
    inputs: Inputs<'a, 'b>,
    zero: &'a Value,
) -> ShardRows<'a, 'b>
    requires { zero.now ≡ Int (pos 0) }
    ensures catalog { result.catalog.now ≡ catalog.now }
    ensures shard { result.shard.now ≡ shard.now }
    ensures split { value_behind result.split ≡ split_of frame.entry }
    ensures batches { (result.inputs).batches.now ≡ inputs.entry.batches.now }
    ensures inserted { (result.inputs).inserted.now ≡ inputs.entry.inserted.now }
{
    ShardRows {
        catalog,
        shard,
        split: split_value(frame.args, frame.arg, zero),
        inputs,
    }
}

impl<'a, 'b> RowsOf for ShardRows<'a, 'b> {
    ghost use Rattle.ss_plan.specs.Seen.{positioned_in, value_behind};

    ghost positioned = { λ s source. positioned_in s.catalog.now (value_behind s.split) (s.inputs).batches.now (s.inputs).inserted.now s.shard.now source };

    fn first(&self, source: &SourceId) -> (Option<usize>, usize) {
        match self.rows_at(source) {
            RowsAt::InTable(table, rows) => first_seen(self.catalog, self.split, table, rows),
            RowsAt::InWindow(window) => (first_shown(window), 0),
            RowsAt::InList(rows) => (first_listed(rows), 0),
            RowsAt::Nowhere => (None, 0),
        }
    }

    fn after(&self, source: &SourceId, at: usize, hint: usize) -> (Option<usize>, usize) {
        match self.rows_at(source) {
            RowsAt::InTable(table, rows) => {
                next_seen(self.catalog, self.split, table, rows, at, hint)
            }
            RowsAt::InWindow(window) => (next_shown(window, at), hint),
            RowsAt::InList(rows) => (next_listed(rows, at), hint),
            RowsAt::Nowhere => (None, hint),
        }
    }

    fn row(&self, source: &SourceId, at: usize) -> Option<&Row> {
        match self.rows_at(source) {
            RowsAt::InTable(table, rows) => seen_row(self.catalog, self.split, table, rows, at),
            RowsAt::InWindow(window) => shown_row(window, at),
            RowsAt::InList(rows) => listed_row(rows, at),
            RowsAt::Nowhere => None,
        }
    }
}
