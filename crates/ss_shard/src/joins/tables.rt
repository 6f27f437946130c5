//! The tables of two parts, each with its indexes.

ghost use Rattle.std.specs.Prelude.{◌≡◌, [], length, OnOk, OnErr};
ghost use Rattle.ss_undo.specs.Indexed.{AreIndexed, columns_of};
ghost use Rattle.ss_shard.specs.Joins.{MayTakeInAll, with_tables, shells_of, MayGiveBackAll, WereGivenBack};

use crate::joins::indexed::{absorb, release};
use ss_index::Indexes;
use ss_table::Table;
use ss_value::NoMemory;

/// Each table takes in its fellow, and its indexes those of its fellow, which is left a shell. Linear in the tables and their
/// indexes, whatever the rows. Out of memory changes no table: those that were taken in are given back.
pub fn absorb_tables(
    tables: &mut [Table],
    indexes: &mut [Indexes],
    others: &mut [Table],
    other_indexes: &mut [Indexes],
) -> Result<(), NoMemory>
    requires may { MayTakeInAll tables.old others.old }
    requires each { length indexes.old ≡ length tables.old }
    requires alike { columns_of other_indexes.old ≡ columns_of indexes.old }
    requires indexed { AreIndexed tables.old [] indexes.old × AreIndexed others.old [] other_indexes.old }
    ensures ok { OnOk result ((tables.new ≡ with_tables tables.old others.old) × (others.new ≡ shells_of others.old)) }
    ensures err { OnErr result ((tables.new ≡ tables.old) × (others.new ≡ others.old)) }
    ensures columns { (columns_of indexes.new ≡ columns_of indexes.old) × (columns_of other_indexes.new ≡ columns_of other_indexes.old) }
    ensures indexed { AreIndexed tables.new [] indexes.new × AreIndexed others.new [] other_indexes.new }
{
    let Some((table, behind)) = tables.split_first_mut() else {
        return Ok(());
    };
    let Some((group, groups)) = indexes.split_first_mut() else {
        unreachable!()
    };
    let Some((other, fellows)) = others.split_first_mut() else {
        unreachable!()
    };
    let Some((other_group, fellow_groups)) = other_indexes.split_first_mut() else {
        unreachable!()
    };
    // The law by which the table has a part that it keeps when it gives the other back.
    table.rows_are_placed();
    absorb(table, group, other, other_group)?;
    if absorb_tables(behind, groups, fellows, fellow_groups).is_err() {
        release(table, group, other, other_group);
        return Err(NoMemory);
    }
    Ok(())
}

/// Each table gives the rows of its last part, and its indexes their pairs, back to its fellow, a shell. Linear in the tables
/// and their indexes, whatever the rows; takes no memory.
pub fn release_tables(
    tables: &mut [Table],
    indexes: &mut [Indexes],
    backs: &mut [Table],
    back_indexes: &mut [Indexes],
)
    requires may { MayGiveBackAll tables.old backs.old }
    requires each { length indexes.old ≡ length tables.old }
    requires alike { columns_of back_indexes.old ≡ columns_of indexes.old }
    requires indexed { AreIndexed tables.old [] indexes.old × AreIndexed backs.old [] back_indexes.old }
    ensures given { WereGivenBack tables.old backs.old tables.new backs.new }
    ensures columns { (columns_of indexes.new ≡ columns_of indexes.old) × (columns_of back_indexes.new ≡ columns_of back_indexes.old) }
    ensures indexed { AreIndexed tables.new [] indexes.new × AreIndexed backs.new [] back_indexes.new }
{
    let Some((table, behind)) = tables.split_first_mut() else {
        return;
    };
    let Some((group, groups)) = indexes.split_first_mut() else {
        unreachable!()
    };
    let Some((back, fellows)) = backs.split_first_mut() else {
        unreachable!()
    };
    let Some((back_group, fellow_groups)) = back_indexes.split_first_mut() else {
        unreachable!()
    };
    release(table, group, back, back_group);
    release_tables(behind, groups, fellows, fellow_groups)
}
