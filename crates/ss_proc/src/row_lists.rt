//! Lists of rows by number, which take no memory until one of them gets a row.

ghost use Rattle.std.specs.Prelude.{◌≡◌, ◌<◌, ◌≤◌, ◌-◌, ℕ, [], ◌∷◌, ◌++◌, set, get_or, replicate, length, OnOk};

use ss_value::{NoMemory, Row, Rows, Seq};
use std::alloc::Global;
use std::marker::Model;

/// So many lists of rows, numbered from 0.
///
/// Contracts see the lists. In memory are those up to the last one that was given a row: an execution has a list for each stream
/// and for each window, and most executions give rows to few of them or to none.
#[derive(Drop)]
pub struct RowLists {
    alloc: Global,
    count: usize,
    begun: Seq<Rows>,
    /// An empty list, which is lent for one that isn't begun.
    nothing: Rows,
}

impl Model for RowLists {
    ghost use Rattle.std.specs.Prelude.{◌≡◌, ◌≤◌, List, [], length};
    ghost use Rattle.ss_value.specs.Rows.{Rows};
    ghost use Rattle.ss_proc.specs.RowLists.{filled_up};

    ghost Value = { List Rows };

    ghost view = { λ l. filled_up l.count l.begun };

    ghost invariant = { λ l. (length l.begun ≤ l.count) × (l.nothing ≡ []) };
}

impl RowLists {
    /// So many lists, all empty. Takes no memory.
    pub fn new(alloc: Global, count: usize) -> RowLists
        ensures { result ≡ replicate count [] }
    {
        RowLists {
            alloc,
            count,
            begun: Seq::new(alloc),
            nothing: Seq::new(alloc),
        }
    }

    /// The rows of a list, and none where there is no list of this number. Constant.
    pub fn rows(&self, number: u16) -> &[Row]
        ensures { result.now ≡ get_or self.now number [] }
    {
        match self.begun.get(usize::from(number)) {
            Some(list) => list.as_slice(),
            None => &[],
        }
    }

    /// A list as it stands, and an empty one where there is no list of this number. Constant.
    pub fn list(&self, number: u16) -> &Rows
        ensures { result.now ≡ get_or self.now number [] }
    {
        match self.begun.get(usize::from(number)) {
            Some(list) => list,
            None => &self.nothing,
        }
    }

    /// Adds a row to a list, where there is one of this number. Constant on average; linear in the number where the list gets its
    /// first row.
    pub fn join(&mut self, number: u16, row: Row) -> Result<(), NoMemory>
        ensures { OnOk result (self.new ≡ set self.old number (get_or self.old number [] ++ row ∷ [])) }
    {
        let at = usize::from(number);
        if at >= self.count {
            return Ok(());
        }
        begin(self.alloc, at, &mut self.begun)?;
        join_begun(at, row, &mut self.begun)
    }

    /// Moves rows behind those of a list, where there is one of this number. No row is copied, and to an empty list none is moved by
    /// itself.
    pub fn append(&mut self, number: u16, rows: Rows) -> Result<(), NoMemory>
        ensures { OnOk result (self.new ≡ set self.old number (get_or self.old number [] ++ rows)) }
    {
        let at = usize::from(number);
        if at >= self.count {
            return Ok(());
        }
        begin(self.alloc, at, &mut self.begun)?;
        append_begun(at, rows, &mut self.begun)
    }

    /// Takes the rows of a list out, and leaves it empty. Takes no memory.
    pub fn take(&mut self, number: u16) -> Rows
        ensures rows { result ≡ get_or self.old number [] }
        ensures none { self.new ≡ set self.old number [] }
    {
        take_begun(self.alloc, usize::from(number), &mut self.begun)
    }
}

/// Begins empty lists until there is one of this number.
fn begin(alloc: Global, number: usize, begun: &mut Seq<Rows>) -> Result<(), NoMemory>
    ensures longer { begun.new ≡ begun.old ++ replicate (length begun.new - length begun.old) [] }
    ensures most { (count : ℕ) → number < count → length begun.old ≤ count → length begun.new ≤ count }
    ensures ok { OnOk result (number < length begun.new) }
{
    while begun.len() <= number {
        begun.push(Seq::new(alloc))?;
    }
    Ok(())
}

/// Adds a row to the list of a number, where it is begun.
fn join_begun(number: usize, row: Row, begun: &mut Seq<Rows>) -> Result<(), NoMemory>
    ensures long { length begun.new ≡ length begun.old }
    ensures ok { OnOk result (begun.new ≡ set begun.old number (get_or begun.old number [] ++ row ∷ [])) }
{
    match begun.get_mut(number) {
        Some(list) => {
            list.push(row)?;
        }
        None => {}
    }
    Ok(())
}

/// Moves rows behind those of the list of a number, where it is begun.
fn append_begun(number: usize, rows: Rows, begun: &mut Seq<Rows>) -> Result<(), NoMemory>
    ensures long { length begun.new ≡ length begun.old }
    ensures ok { OnOk result (begun.new ≡ set begun.old number (get_or begun.old number [] ++ rows)) }
{
    match begun.get_mut(number) {
        Some(list) => move_rows(rows, list),
        None => Ok(()),
    }
}

/// Takes the list of a number out, where it is begun, and leaves an empty one in its place.
fn take_begun(alloc: Global, number: usize, begun: &mut Seq<Rows>) -> Rows
    ensures rows { result ≡ get_or begun.old number [] }
    ensures none { begun.new ≡ set begun.old number [] }
{
    match begun.get_mut(number) {
        Some(list) => std::mem::replace(list, Seq::new(alloc)),
        None => Seq::new(alloc),
    }
}

/// Moves rows behind others. No row is copied; an empty list becomes the other one.
pub fn move_rows(rows: Rows, list: &mut Rows) -> Result<(), NoMemory>
    ensures { OnOk result (list.new ≡ list.old ++ rows) }
{
    if list.is_empty() {
        *list = rows;
        return Ok(());
    }
    for row in rows.into_vec() {
        list.push(row)?;
    }
    Ok(())
}
