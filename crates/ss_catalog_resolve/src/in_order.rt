//! Lists whose items are read in order, up to the first fault.

ghost use Rattle.std.specs.Prelude.{◌≡◌, ℕ, IsTrue, OnOk, Contains, Result};
ghost use Rattle.ss_sql_type.specs.declared.scope.Scope.{Scope as AScope};
ghost use Rattle.ss_sql_type.specs.Queries.{scope_narrow};
ghost use Rattle.ss_catalog_resolve.specs.Answers.{Answers};
ghost use Rattle.ss_catalog_resolve.specs.InOrder.{InOrder};

use crate::fault::SqlRefusal;
use ss_sql_type::Scope;
use ss_value::Seq;
use std::alloc::Global;

/// How the items of a list are read, each of which has a number.
pub trait ItemReader {
    type Item;

    type Read: Drop;

    type Fault;

    // how many numbers an item takes
    ghost size: { Self.Item → ℕ };

    // the names in scope of the SQL of the items
    ghost sees: { Self → AScope };

    // what an item at a number is read as
    ghost reads: { Self → ℕ → Self.Item → Result Self.Read Self.Fault → Type 0 };

    // which items it reads
    ghost takes: { Self → Self.Item → Type 0 } = { λ _ _. Unit {0} };

    /// How many numbers an item takes.
    fn size(&self, item: &Self::Item) -> usize
        ensures { result ≡ size item.now };

    /// What an item at a number is read as. Names that are put into the scope on the way are taken off again.
    fn read(
        &self,
        alloc: Global,
        scope: &mut Scope,
        number: usize,
        item: &Self::Item,
    ) -> Result<Self::Read, SqlRefusal<Self::Fault>>
        requires taken { takes self.now item.now }
        requires sees { scope.old ≡ sees self.now }
        requires narrow { IsTrue (scope_narrow scope.old) }
        ensures unchanged { OnOk result (scope.new ≡ scope.old) }
        ensures read { Answers (reads self.now number item.now) result };
}

/// What the items of a list are read as, the first of them at this number, or the first fault.
///
/// Reads each item up to the first with a fault, once.
pub fn read_in_order<R: ItemReader>(
    alloc: Global,
    reads: &R,
    scope: &mut Scope,
    first: usize,
    items: &[R::Item],
) -> Result<Seq<R::Read>, SqlRefusal<R::Fault>>
    requires taken { (item : R.Item) → Contains items.now item → R.takes reads.now item }
    requires sees { scope.old ≡ R.sees reads.now }
    requires narrow { IsTrue (scope_narrow scope.old) }
    ensures unchanged { OnOk result (scope.new ≡ scope.old) }
    ensures read { Answers (InOrder R.size (R.reads reads.now) first items.now) result }
{
    let mut all = Seq::new(alloc);
    let mut number = first;
    for item in items {
        let read = reads.read(alloc, scope, number, item)?;
        all.push(read)?;
        // No list in memory brings this about, so that an overflow may be answered as out of memory.
        let Some(next) = number.checked_add(reads.size(item)) else {
            return Err(SqlRefusal::NoMemory);
        };
        number = next;
    }
    Ok(all)
}
