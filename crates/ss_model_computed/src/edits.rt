//! UPDATE and DELETE.

ghost use Rattle.std.specs.Prelude.{◌≡◌, ◌∷◌, [], set, IfOk, IfErr, OnOk, Ok};
ghost use Rattle.std.specs.List.{fold};
ghost use Rattle.ss_model.specs.Results.{try_map, try_filter};
ghost use Rattle.ss_model.specs.Queries.{where_passes};
ghost use Rattle.ss_model.specs.Statements.{updated_row, update_rows, delete_rows};
ghost use Rattle.ss_model.specs.Stops.{StopsAs};
ghost use Rattle.ss_model_computed.specs.State.{contents_of, context_of};
ghost use Rattle.ss_model_computed.specs.Edits.{set_value, updated_entry};
ghost use Rattle.ss_model_computed.specs.Meanings.{TurnsInto};

use crate::contents::{Contents, Context};
use crate::lists::one_item;
use crate::stored_rows::{put_entries, remove_entries, visible_entries};
use crate::table::Entry;
use ss_model::RunError;
use ss_model_computed_sql::{evaluate, where_passes};
use ss_sql_trees::{Expr, SetTo};
use ss_value::{Copies, Row, Rows, Seq, Value};
use std::alloc::Global;

/// Whether a row passes WHERE.
fn row_passes(alloc: Global, params: &Row, test: &Option<Expr>, row: &Row) -> Result<bool, RunError>
    ensures ok { IfOk result (λ b. where_passes params.now test.now (row.now ∷ []) ≡ Ok b) }
    ensures stops { IfErr result (λ stop. StopsAs (where_passes params.now test.now (row.now ∷ [])) stop) }
{
    let row = row.duplicate(alloc)?;
    // WHERE sees a tuple, one row per source; a statement has one source, its table.
    let here = one_item(alloc, row)?;
    where_passes(alloc, test, &here, params)
}

/// Those of these entries whose row passes WHERE, in their order. Aborts as the first test that does.
fn passing(
    alloc: Global,
    params: &Row,
    test: &Option<Expr>,
    entries: Seq<Entry>,
) -> Result<Seq<Entry>, RunError>
    ensures ok { IfOk result (λ found. try_filter (λ e. where_passes params.now test.now (e.1 ∷ [])) entries ≡ Ok found) }
    ensures stops { IfErr result (λ stop. StopsAs (try_filter (λ e. where_passes params.now test.now (e.1 ∷ [])) entries) stop) }
{
    let mut found = Seq::new(alloc);
    for (key, row) in entries.into_vec() {
        if row_passes(alloc, params, test, &row)? {
            found.push((key, row))?;
        }
    }
    Ok(found)
}

/// The columns and values of the SETs on a tuple, in their order. Aborts as the first value that does.
fn set_values(
    alloc: Global,
    params: &Row,
    sets: &[SetTo],
    here: &Rows,
) -> Result<Seq<(u8, Value)>, RunError>
    ensures ok { IfOk result (λ values. try_map (set_value params.now here.now) sets.now ≡ Ok values) }
    ensures stops { IfErr result (λ stop. StopsAs (try_map (set_value params.now here.now) sets.now) stop) }
{
    let mut values = Seq::new(alloc);
    for set in sets {
        let value = evaluate(alloc, &set.value, here, params)?;
        values.push((set.column, value))?;
    }
    Ok(values)
}

/// Puts a value in a column of a row; changes nothing past the row's end.
fn put_value(row: &mut Row, column: u8, value: Value)
    ensures { row.new ≡ set row.old column value }
{
    match row.get_mut(usize::from(column)) {
        Some(place) => *place = value,
        None => {}
    }
}

/// Puts values in columns of a row, the first one first.
fn put_values(row: &mut Row, values: Seq<(u8, Value)>)
    ensures { row.new ≡ fold (λ r e. set r e.0 e.1) row.old values }
{
    for (column, value) in values.into_vec() {
        put_value(row, column, value);
    }
}

/// The row that the SETs make of a row, each on the old row. Aborts as the first SET that does.
fn updated_row(alloc: Global, params: &Row, sets: &Seq<SetTo>, row: &Row) -> Result<Row, RunError>
    ensures ok { IfOk result (λ new. updated_row params.now sets.now row.now ≡ Ok new) }
    ensures stops { IfErr result (λ stop. StopsAs (updated_row params.now sets.now row.now) stop) }
{
    let mut new = row.duplicate(alloc)?;
    let old = row.duplicate(alloc)?;
    let here = one_item(alloc, old)?;
    let values = set_values(alloc, params, sets.as_slice(), &here)?;
    put_values(&mut new, values);
    Ok(new)
}

/// The entries with the rows that the SETs make of theirs, in their order. Aborts as the first row that does.
fn updated_entries(
    alloc: Global,
    params: &Row,
    sets: &Seq<SetTo>,
    entries: Seq<Entry>,
) -> Result<Seq<Entry>, RunError>
    ensures ok { IfOk result (λ new. try_map (updated_entry params.now sets.now) entries ≡ Ok new) }
    ensures stops { IfErr result (λ stop. StopsAs (try_map (updated_entry params.now sets.now) entries) stop) }
{
    let mut new = Seq::new(alloc);
    for (key, row) in entries.into_vec() {
        let row = updated_row(alloc, params, sets, &row)?;
        new.push((key, row))?;
    }
    Ok(new)
}

/// UPDATE: WHERE on all rows, then the SETs on the chosen ones, and then the new rows at the same keys.
///
/// The order decides which abort comes: one of WHERE on any row goes before one of a SET.
#[tactic(auto, unfolding(ss_model::specs::Statements::update_rows))]
pub fn update_rows(
    alloc: Global,
    context: &Context,
    params: &Row,
    table: u16,
    sets: &Seq<SetTo>,
    test: &Option<Expr>,
    contents: &mut Contents,
) -> Result<(), RunError>
    ensures ok { OnOk result (TurnsInto (update_rows (context_of context.now) params.now table sets.now test.now) contents.old contents.new) }
    ensures stops { IfErr result (λ stop. StopsAs (update_rows (context_of context.now) params.now table sets.now test.now (contents_of contents.old)) stop) }
{
    let entries = visible_entries(alloc, context, contents, table)?;
    let old = passing(alloc, params, test, entries)?;
    let new = updated_entries(alloc, params, sets, old)?;
    put_entries(table, new, contents)?;
    Ok(())
}

/// DELETE: WHERE on all rows, and then the removal of the chosen ones.
#[tactic(auto, unfolding(ss_model::specs::Statements::delete_rows))]
pub fn delete_rows(
    alloc: Global,
    context: &Context,
    params: &Row,
    table: u16,
    test: &Option<Expr>,
    contents: &mut Contents,
) -> Result<(), RunError>
    ensures ok { OnOk result (delete_rows (context_of context.now) params.now table test.now (contents_of contents.old) ≡ Ok (contents_of contents.new)) }
    ensures stops { IfErr result (λ stop. StopsAs (delete_rows (context_of context.now) params.now table test.now (contents_of contents.old)) stop) }
{
    let entries = visible_entries(alloc, context, contents, table)?;
    let old = passing(alloc, params, test, entries)?;
    remove_entries(table, old, contents);
    Ok(())
}
