//! What gives the rows of sources.

ghost use Rattle.std.specs.Prelude.{◌≡◌, true, false, None, Some};
ghost use Rattle.std.specs.Option.{option_copied};
ghost use Rattle.ss_value.specs.Rows.{Row};
ghost use Rattle.ss_sql_trees.specs.declared.typed.SourceId.{SourceId};
ghost use Rattle.ss_rows.specs.Sources.{Positioned, has_position, first_position, StandsAt};

use ss_sql_trees::SourceId;
use ss_value::Row;

/// What gives the rows of sources.
///
/// Each source is a list of rows in an order, and each row of it stands at a position, a number that the implementor chooses
/// (a table's slot, a number in a list). A walk from `first` by `after` meets them all. What the calls cost, the implementor
/// says; a query asks `after` and `row` once for each row of its sources, and hands each hint to the next `after`.
/// No clause speaks of hints, so a wrong one can cost time alone.
pub trait RowsOf {
    ghost positioned: { Self → SourceId → Positioned };

    /// The position of a source's first row, and None exactly where it has none, with a hint for the step behind it.
    fn first(&self, source: &SourceId) -> (Option<usize>, usize)
        ensures { result.0 ≡ first_position (positioned self.now source.now) };

    /// The position of the row behind the one at a position, and None exactly behind the last, with a hint for the next
    /// step. The position is the same whatever the hint is; the hint that came with a position makes the step from it cheap.
    fn after(&self, source: &SourceId, at: usize, hint: usize) -> (Option<usize>, usize)
        requires { has_position (positioned self.now source.now) at ≡ true }
        ensures { (row : Row) (behind : Positioned) → StandsAt (positioned self.now source.now) at row behind → result.0 ≡ first_position behind };

    /// The row at a position, and None exactly where it is none of the source's positions.
    fn row(&self, source: &SourceId, at: usize) -> Option<&Row>
        ensures some { (row : Row) (behind : Positioned) → StandsAt (positioned self.now source.now) at row behind → option_copied result ≡ Some row }
        ensures none { has_position (positioned self.now source.now) at ≡ false → result ≡ None };
}
