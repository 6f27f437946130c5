//! Batches that an execution takes, lent from where they stand.

ghost use Rattle.std.specs.Prelude.{◌≡◌, [], ◌∷◌, ◌++◌, map, slice_get, IfOk, OnOk, OnErr};
ghost use Rattle.std.specs.Option.{option_copied};

use ss_value::{NoMemory, Rows};
use std::alloc::Global;
use std::marker::Model;

/// Batches, one behind another. None is copied.
///
/// Those that stand in a list already are lent with it, and take no memory. Each further one takes that of a reference.
///
/// Contracts see the list of the batches.
#[derive(Drop)]
pub struct Batches<'a> {
    /// The first ones, which stand in a list.
    first: &'a [Rows],
    /// Those behind them.
    others: Vec<&'a Rows>,
}

impl<'a> Model for Batches<'a> {
    ghost use Rattle.std.specs.Prelude.{List, ◌++◌, map};
    ghost use Rattle.ss_value.specs.Rows.{Rows};

    ghost Value = { List Rows };

    ghost view = { λ b. b.first.now ++ map (λ rows. rows.now) b.others.items };
}

impl<'a> Batches<'a> {
    /// No batch. Takes no memory.
    pub fn new(alloc: Global) -> Batches<'a>
        ensures { result ≡ [] }
    {
        Batches::all(alloc, &[])
    }

    /// The batches of a list. Constant, and takes no memory.
    pub fn all(alloc: Global, batches: &'a [Rows]) -> Batches<'a>
        ensures { result ≡ batches.now }
    {
        Batches {
            first: batches,
            others: Vec::new(alloc),
        }
    }

    /// The same batches, lent once more, so that others can follow them. Linear in those that stand in no list, each of which
    /// takes the memory of a reference again.
    pub fn again(&self, alloc: Global) -> Result<Batches<'a>, NoMemory>
        ensures { IfOk result (λ batches. batches ≡ self.now) }
    {
        let mut batches = Batches::all(alloc, self.first);
        push_all(self.others.as_slice(), &mut batches)?;
        Ok(batches)
    }

    /// One batch more, behind the others. Out of memory leaves them as they are. Constant on average.
    pub fn push(&mut self, rows: &'a Rows) -> Result<(), NoMemory>
        ensures ok { OnOk result (self.new ≡ self.old ++ rows.now ∷ []) }
        ensures err { OnErr result (self.new ≡ self.old) }
    {
        match self.others.push(rows) {
            Ok(()) => Ok(()),
            Err(_) => Err(NoMemory),
        }
    }

    /// The batch at a position. Constant.
    pub fn get(&self, at: usize) -> Option<&Rows>
        ensures { option_copied result ≡ slice_get self.now at }
    {
        let count = self.first.len();
        if at < count {
            self.first.get(at)
        } else {
            self.others.get(at - count).copied()
        }
    }
}

/// Puts batches behind others, in order.
fn push_all<'a>(more: &[&'a Rows], batches: &mut Batches<'a>) -> Result<(), NoMemory>
    ensures { OnOk result (batches.new ≡ batches.old ++ map (λ rows. rows.now) more.now) }
{
    for rows in more {
        batches.push(*rows)?;
    }
    Ok(())
}
