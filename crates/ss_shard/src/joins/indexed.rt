//! One table with its indexes, and those of another part.

ghost use Rattle.std.specs.Prelude.{◌≡◌, [], OnOk, OnErr};
ghost use Rattle.ss_table.specs.Joins.{with_table, shell_of};
ghost use Rattle.ss_undo.specs.Holding.{HoldAll};
ghost use Rattle.ss_undo.specs.Indexed.{columns_in};
ghost use Rattle.ss_shard.specs.Joins.{MayTakeIn, MayGiveBack, WasGivenBack};

use ss_index::Indexes;
use ss_table::Table;
use ss_value::NoMemory;

/// A table takes in another, and its indexes those of the other, which is left a shell. Linear in the indexes, whatever the
/// rows. Out of memory changes no table.
pub fn absorb(
    table: &mut Table,
    indexes: &mut Indexes,
    other: &mut Table,
    other_indexes: &mut Indexes,
) -> Result<(), NoMemory>
    requires may { MayTakeIn table.old other.old }
    requires alike { columns_in other_indexes.old ≡ columns_in indexes.old }
    requires indexed { HoldAll table.old [] indexes.old × HoldAll other.old [] other_indexes.old }
    ensures ok { OnOk result ((table.new ≡ with_table table.old other.old) × (other.new ≡ shell_of other.old)) }
    ensures err { OnErr result ((table.new ≡ table.old) × (other.new ≡ other.old)) }
    ensures columns { (columns_in indexes.new ≡ columns_in indexes.old) × (columns_in other_indexes.new ≡ columns_in other_indexes.old) }
    ensures indexed { HoldAll table.new [] indexes.new × HoldAll other.new [] other_indexes.new }
{
    // The law by which the pairs of both are of slots of their parts.
    table.rows_are_placed();
    other.rows_are_placed();
    table.absorb(other)?;
    if indexes.absorb(other_indexes).is_err() {
        table.release(other);
        return Err(NoMemory);
    }
    Ok(())
}

/// A table gives the rows of its last part, and its indexes their pairs, back to the shell that lent them. Linear in the
/// indexes, whatever the rows; takes no memory.
pub fn release(
    table: &mut Table,
    indexes: &mut Indexes,
    back: &mut Table,
    back_indexes: &mut Indexes,
)
    requires may { MayGiveBack table.old back.old }
    requires alike { columns_in back_indexes.old ≡ columns_in indexes.old }
    requires indexed { HoldAll table.old [] indexes.old × HoldAll back.old [] back_indexes.old }
    ensures given { WasGivenBack table.old back.old table.new back.new }
    ensures columns { (columns_in indexes.new ≡ columns_in indexes.old) × (columns_in back_indexes.new ≡ columns_in back_indexes.old) }
    ensures indexed { HoldAll table.new [] indexes.new × HoldAll back.new [] back_indexes.new }
{
    // The law by which the slots of the last part are those of the rows that are at home there.
    table.rows_are_placed();
    indexes.release(back_indexes);
    table.release(back);
}
