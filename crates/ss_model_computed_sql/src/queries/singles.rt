//! Lists of one.

ghost use Rattle.std.specs.Prelude.{◌≡◌, [], ◌∷◌, map, IfOk};

use ss_value::{Copies, NoMemory, Seq};
use std::alloc::Global;

/// The list of one item, which is moved into it.
pub fn single<T: Drop>(alloc: Global, item: T) -> Result<Seq<T>, NoMemory>
    ensures { IfOk result (λ list. list ≡ item ∷ []) }
{
    let mut list = Seq::new(alloc);
    list.push(item)?;
    Ok(list)
}

/// A copy of each item as a list of one, in order.
pub fn singles<T: Copies + Drop>(alloc: Global, items: &[T]) -> Result<Seq<Seq<T>>, NoMemory>
    ensures { IfOk result (λ lists. lists ≡ map (λ x. x ∷ []) items.now) }
{
    let mut lists = Seq::new(alloc);
    for item in items {
        let list = single(alloc, item.duplicate(alloc)?)?;
        lists.push(list)?;
    }
    Ok(lists)
}
