//! The same of lists, whose items are moved out for it and back, since a `Seq` lends no slice that can be changed. That
//! costs a few words, whatever the lists are.

ghost use Rattle.std.specs.Prelude.{◌≡◌, [], length, OnOk, OnErr};
ghost use Rattle.ss_undo.specs.Indexed.{AreIndexed, columns_of};
ghost use Rattle.ss_shard.specs.Joins.{MayTakeInAll, with_tables, shells_of, MayGiveBackAll, WereGivenBack};

use crate::joins::tables::{absorb_tables, release_tables};
use ss_index::Indexes;
use ss_table::Table;
use ss_value::{NoMemory, Seq};
use std::alloc::Global;

/// Each table of a list takes in its fellow, as `absorb_tables` says.
pub fn absorb_lists(
    alloc: Global,
    tables: &mut Seq<Table>,
    indexes: &mut Seq<Indexes>,
    others: &mut Seq<Table>,
    other_indexes: &mut Seq<Indexes>,
) -> Result<(), NoMemory>
    requires may { MayTakeInAll tables.old others.old }
    requires each { length indexes.old ≡ length tables.old }
    requires alike { columns_of other_indexes.old ≡ columns_of indexes.old }
    requires indexed { AreIndexed tables.old [] indexes.old × AreIndexed others.old [] other_indexes.old }
    ensures ok { OnOk result ((tables.new ≡ with_tables tables.old others.old) × (others.new ≡ shells_of others.old)) }
    ensures err { OnErr result ((tables.new ≡ tables.old) × (others.new ≡ others.old)) }
    ensures columns { (columns_of indexes.new ≡ columns_of indexes.old) × (columns_of other_indexes.new ≡ columns_of other_indexes.old) }
    ensures indexed { AreIndexed tables.new [] indexes.new × AreIndexed others.new [] other_indexes.new }
{
    let mut own = std::mem::replace(tables, Seq::new(alloc)).into_vec();
    let mut groups = std::mem::replace(indexes, Seq::new(alloc)).into_vec();
    let mut fellows = std::mem::replace(others, Seq::new(alloc)).into_vec();
    let mut fellow_groups = std::mem::replace(other_indexes, Seq::new(alloc)).into_vec();
    let result = absorb_tables(
        own.as_mut_slice(),
        groups.as_mut_slice(),
        fellows.as_mut_slice(),
        fellow_groups.as_mut_slice(),
    );
    *tables = Seq::from_vec(own);
    *indexes = Seq::from_vec(groups);
    *others = Seq::from_vec(fellows);
    *other_indexes = Seq::from_vec(fellow_groups);
    match result {
        Ok(()) => Ok(()),
        Err(NoMemory) => Err(NoMemory),
    }
}

/// Each table of a list gives the rows of its last part back to its fellow, as `release_tables` says. Takes no memory.
pub fn release_lists(
    alloc: Global,
    tables: &mut Seq<Table>,
    indexes: &mut Seq<Indexes>,
    backs: &mut Seq<Table>,
    back_indexes: &mut Seq<Indexes>,
)
    requires may { MayGiveBackAll tables.old backs.old }
    requires each { length indexes.old ≡ length tables.old }
    requires alike { columns_of back_indexes.old ≡ columns_of indexes.old }
    requires indexed { AreIndexed tables.old [] indexes.old × AreIndexed backs.old [] back_indexes.old }
    ensures given { WereGivenBack tables.old backs.old tables.new backs.new }
    ensures columns { (columns_of indexes.new ≡ columns_of indexes.old) × (columns_of back_indexes.new ≡ columns_of back_indexes.old) }
    ensures indexed { AreIndexed tables.new [] indexes.new × AreIndexed backs.new [] back_indexes.new }
{
    let mut own = std::mem::replace(tables, Seq::new(alloc)).into_vec();
    let mut groups = std::mem::replace(indexes, Seq::new(alloc)).into_vec();
    let mut fellows = std::mem::replace(backs, Seq::new(alloc)).into_vec();
    let mut fellow_groups = std::mem::replace(back_indexes, Seq::new(alloc)).into_vec();
    release_tables(
        own.as_mut_slice(),
        groups.as_mut_slice(),
        fellows.as_mut_slice(),
        fellow_groups.as_mut_slice(),
    );
    *tables = Seq::from_vec(own);
    *indexes = Seq::from_vec(groups);
    *backs = Seq::from_vec(fellows);
    *back_indexes = Seq::from_vec(fellow_groups);
}
