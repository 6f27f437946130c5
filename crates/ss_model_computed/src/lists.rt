//! Lists, read and changed at an index, where past the end there is nothing.

ghost use Rattle.std.specs.Prelude.{◌≡◌, [], ◌∷◌, ◌++◌, get_or, set, replicate, IfOk, OnOk};

use ss_value::{Copies, NoMemory, Rows, Seq, copy_row};
use std::alloc::Global;

/// A copy of the list at an index, and the empty list past the end.
pub fn copy_at<T: Copies + Drop>(
    alloc: Global,
    lists: &Seq<Seq<T>>,
    at: usize,
) -> Result<Seq<T>, NoMemory>
    ensures { IfOk result (λ list. list ≡ get_or lists.now at []) }
{
    match lists.get(at) {
        Some(list) => list.duplicate(alloc),
        None => Ok(Seq::new(alloc)),
    }
}

/// Replaces the item at an index; past the end nothing changes. Takes no memory.
pub fn set_at<T: Drop>(list: &mut Seq<T>, at: usize, item: T)
    ensures { list.new ≡ set list.old at item }
{
    if at < list.len() {
        let _old = list.put(at, item);
    }
}

/// This many empty lists.
pub fn empty_lists<T: Drop>(alloc: Global, count: usize) -> Result<Seq<Seq<T>>, NoMemory>
    ensures { IfOk result (λ lists. lists ≡ replicate count []) }
{
    let mut lists = Seq::new(alloc);
    for _ in 0..count {
        lists.push(Seq::new(alloc))?;
    }
    Ok(lists)
}

/// The list of one item.
pub fn one_item<T: Drop>(alloc: Global, item: T) -> Result<Seq<T>, NoMemory>
    ensures { IfOk result (λ list. list ≡ item ∷ []) }
{
    let mut list = Seq::new(alloc);
    list.push(item)?;
    Ok(list)
}

/// Adds copies of rows behind others. Where it runs out of memory, some of them may have been added.
pub fn add_rows(alloc: Global, rows: &mut Rows, more: &Rows) -> Result<(), NoMemory>
    ensures { OnOk result (rows.new ≡ rows.old ++ more.now) }
{
    for row in more.as_slice() {
        let copy = copy_row(alloc, row)?;
        rows.push(copy)?;
    }
    Ok(())
}
