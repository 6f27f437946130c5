//! Both ends of a change: it is rolled back, or made final.

ghost use Rattle.std.specs.Prelude.{◌≡◌, ◌≤◌, List, [], ◌∷◌, ◌++◌, IfSome, IsSomeAnd, slice_get};
ghost use Rattle.ss_index.specs.Indexes.{HavePair};
ghost use Rattle.ss_undo.specs.declared.change.Change.{Change};
ghost use Rattle.ss_undo.specs.Completion.{CanRollBack, CanCommit, rollback_change, commit_change};
ghost use Rattle.ss_undo.specs.Indexed.{AreIndexed, columns_of, without_row_of};
ghost use Rattle.ss_undo.specs.Staying.{HasStayed};
ghost use Rattle.ss_undo.specs.Windows.{CanRollBackStaging, rollback_staging, without_last, commit_staging, with_window, IsCommittedIfThere, IsCommittedStaging};
ghost use Rattle.ss_window.specs.WindowValue.{commit as settled_units};

use crate::change::Change;
use ss_index::Indexes;
use ss_table::Table;
use ss_value::{Row, Seq, Slot};
use ss_window::Window;

/// Drops the pairs of a row from the indexes of a table, if it has any.
fn drop_pairs(indexes: &mut Seq<Indexes>, table: u16, row: &Row, slot: Slot)
    requires { IfSome (slice_get indexes.old table) (λ group. HavePair row.now slot group) }
    ensures { indexes.new ≡ without_row_of indexes.old table row.now slot }
{
    if let Some(group) = indexes.get_mut(usize::from(table)) {
        group.drop_row(row, slot);
    }
}

/// Takes the last staged unit of a window off again.
fn unstage_last(window: u16, windows: &mut Seq<Window>)
    requires { IsSomeAnd (slice_get windows.old window) (λ h. 1 ≤ h.fresh) }
    ensures { windows.new ≡ with_window windows.old window without_last (slice_get windows.old window) }
{
    match windows.get_mut(usize::from(window)) {
        None => unreachable!(),
        Some(window) => {
            let _ = window.unstage();
        }
    }
}

/// Rolls a change back, where it was the last one. The pairs of a row that comes out are dropped, unless they are those of
/// the row that is put back; a deleted row has kept its own.
///
/// Costs as much as one call of the table and one of each of its indexes, or as one call of the window; takes no memory.
pub fn rollback_change(
    change: Change,
    tables: &mut Seq<Table>,
    indexes: &mut Seq<Indexes>,
    windows: &mut Seq<Window>,
)
    requires undo { CanRollBack tables.old change }
    requires window { CanRollBackStaging windows.old change }
    requires indexed { (before : List Change) × AreIndexed tables.old (before ++ change ∷ []) indexes.old }
    requires stayed { HasStayed (columns_of indexes.old) tables.old change }
    ensures tables { tables.new ≡ rollback_change tables.old change }
    ensures indexed { (before : List Change) → AreIndexed tables.old (before ++ change ∷ []) indexes.old → AreIndexed tables.new before indexes.new }
    ensures columns { columns_of indexes.new ≡ columns_of indexes.old }
    ensures windows { windows.new ≡ rollback_staging windows.old change }
{
    match change {
        Change::Inserted { table, slot } => match tables.get_mut(usize::from(table)) {
            None => unreachable!(),
            Some(rows) => {
                // The law by which the slot's row is the one at its key, so that its pair is among those of the indexes.
                rows.rows_are_keyed();
                let fresh = rows.remove_fresh(slot);
                drop_pairs(indexes, table, &fresh, slot);
            }
        },
        Change::Deleted { table, slot } => match tables.get_mut(usize::from(table)) {
            None => unreachable!(),
            Some(rows) => rows.unmark(slot),
        },
        Change::Replaced { table, slot, old } => match tables.get_mut(usize::from(table)) {
            None => unreachable!(),
            Some(rows) => {
                rows.rows_are_keyed();
                let newer = rows.replace(slot, old);
                drop_pairs(indexes, table, &newer, slot);
            }
        },
        Change::Amended { table, slot, old } => match tables.get_mut(usize::from(table)) {
            None => unreachable!(),
            Some(rows) => {
                rows.rows_are_keyed();
                // What comes out has the pairs of what is put back, so they stay.
                let _ = rows.replace(slot, old);
            }
        },
        Change::Staged { window } => unstage_last(window, windows),
    }
}

/// Commits a window, if there is one with this number.
fn commit_window(window: u16, windows: &mut Seq<Window>)
    ensures windows { windows.new ≡ with_window windows.old window settled_units (slice_get windows.old window) }
    ensures ended { IsCommittedIfThere (slice_get windows.new window) }
{
    match windows.get_mut(usize::from(window)) {
        None => (),
        Some(window) => {
            // By its invariant a second commit would change nothing, as the clause `ended` promises.
            window.invariant_holds();
            window.commit();
        }
    }
}

/// Makes a change final: frees the slot of a deleted row, drops the pairs of a row that is freed, unless another has them,
/// and frees the units of a window that no slide can show again.
///
/// Costs as much as one call of the table and one of each of its indexes, or as one call of the window; takes no memory.
pub fn commit_change(
    change: Change,
    tables: &mut Seq<Table>,
    indexes: &mut Seq<Indexes>,
    windows: &mut Seq<Window>,
)
    requires settle { CanCommit tables.old change }
    requires indexed { (before : List Change) × AreIndexed tables.old (before ++ change ∷ []) indexes.old }
    ensures tables { tables.new ≡ commit_change tables.old change }
    ensures indexed { (before : List Change) → AreIndexed tables.old (before ++ change ∷ []) indexes.old → AreIndexed tables.new before indexes.new }
    ensures columns { columns_of indexes.new ≡ columns_of indexes.old }
    ensures windows { windows.new ≡ commit_staging windows.old change }
    ensures ended { IsCommittedStaging windows.new change }
{
    match change {
        Change::Inserted { .. } => (),
        Change::Deleted { table, slot } => match tables.get_mut(usize::from(table)) {
            None => unreachable!(),
            Some(rows) => {
                let dead = rows.purge(slot);
                drop_pairs(indexes, table, &dead, slot);
            }
        },
        Change::Replaced { table, slot, old } => drop_pairs(indexes, table, &old, slot),
        // The row that stands has the old one's pairs.
        Change::Amended { .. } => (),
        Change::Staged { window } => commit_window(window, windows),
    }
}
