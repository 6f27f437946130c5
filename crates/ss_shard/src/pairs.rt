//! A row of a table and its pairs, put in together, and whether they are there already.

ghost use Rattle.std.specs.Prelude.{◌≡◌, ◌↔◌, None, OnOk, OnErr, IfOk, IfErr, IsTrue};
ghost use Rattle.ss_table.specs.TableValue.{HasKey, insert};
ghost use Rattle.ss_table.specs.Refusals.{refusal, RefusesAs};
ghost use Rattle.ss_table.specs.Steps.{WasInserted};
ghost use Rattle.ss_undo.specs.Indexed.{columns_of, with_row_of};
ghost use Rattle.ss_undo.specs.Staying.{HasPairsOf};

use ss_index::Indexes;
use ss_table::{Table, TableError};
use ss_value::{NoMemory, Row, Seq, Slot};

/// Adds the pairs of a row to the indexes of a table, where it has any. Costs a search and a move of one chunk for each
/// index. Out of memory leaves all of them as they are.
pub fn add_pairs(
    indexes: &mut Seq<Indexes>,
    table: u16,
    row: &Row,
    slot: Slot,
) -> Result<(), NoMemory>
    ensures ok { OnOk result (indexes.new ≡ with_row_of indexes.old table row.now slot) }
    ensures err { OnErr result (indexes.new ≡ indexes.old) }
{
    match indexes.get_mut(usize::from(table)) {
        None => Ok(()),
        Some(group) => group.add(row, slot),
    }
}

/// Whether a row has the pairs of the one that stands in a slot of a table: the same values in the columns of each of the
/// table's indexes. Compares a value for each of these columns, up to the first that differs.
pub fn has_pairs_of(
    tables: &Seq<Table>,
    indexes: &Seq<Indexes>,
    table: u16,
    slot: Slot,
    row: &Row,
) -> bool
    ensures { IsTrue result ↔ HasPairsOf (columns_of indexes.now) tables.now table slot row.now }
{
    let Some(rows) = tables.get(usize::from(table)) else {
        return true;
    };
    let Some(standing) = rows.row(slot) else {
        return true;
    };
    match indexes.get(usize::from(table)) {
        None => true,
        Some(group) => group.agree(row, standing),
    }
}

/// Inserts a row into a table and its pairs into the table's indexes, and answers its slot. Costs what the table's `insert`
/// and `add_pairs` cost. An error changes nothing.
#[tactic(auto, using(ss_undo::proofs::Back::removed_back))]
pub fn insert_indexed(
    rows: &mut Table,
    indexes: &mut Seq<Indexes>,
    table: u16,
    row: Row,
) -> Result<Slot, TableError>
    requires { HasKey rows.old.key row }
    ensures ok { IfOk result (λ slot. rows.new ≡ insert rows.old slot row) }
    ensures admitted { OnOk result (refusal rows.old row ≡ None) }
    ensures step { IfOk result (λ slot. WasInserted rows.old rows.new slot) }
    ensures pairs { IfOk result (λ slot. (was : WasInserted rows.old rows.new slot) → indexes.new ≡ with_row_of indexes.old table was.row slot) }
    ensures err { OnErr result (rows.new ≡ rows.old) }
    ensures unpaired { OnErr result (indexes.new ≡ indexes.old) }
    ensures refused { IfErr result (RefusesAs (refusal rows.old row)) }
{
    let slot = match rows.insert(row) {
        Ok(slot) => slot,
        Err((error, _)) => return Err(error),
    };
    let Some(row) = rows.row(slot) else {
        unreachable!()
    };
    // The row first, since its pairs have its slot; where they find no memory it is taken out again, which needs none.
    // So an index without memory keeps the row out, instead of lagging behind.
    if add_pairs(indexes, table, row, slot).is_err() {
        let _ = rows.remove_fresh(slot);
        return Err(TableError::NoMemory);
    }
    Ok(slot)
}
