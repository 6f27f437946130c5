//! The plain entries, without their outcomes, of the rest of a list that the disk doesn't have. Memory alone: `durable` moves what it
//! got from the commit log, and `finishing` copies what its caller keeps.

ghost use Rattle.std.specs.Prelude.{◌≡◌, IfOk};
ghost use Rattle.ss_standing.specs.Standing.{listed_entries};

use ss_model::{Entry, Listed};
use ss_value::{Copies, NoMemory, Seq};
use std::alloc::Global;

/// The entries of a list, which are moved and not copied. Linear in them.
pub(crate) fn entries_of(alloc: Global, list: Seq<Listed>) -> Result<Seq<Entry>, NoMemory>
    ensures { IfOk result (λ entries. entries ≡ listed_entries list) }
{
    let mut entries = Vec::with_capacity(alloc, list.len())?;
    for listed in list.into_vec() {
        let Listed { entry, outcome: _ } = listed;
        entries.push_reserved(entry);
    }
    Ok(Seq::from_vec(entries))
}

/// Copies of the entries of a list. Linear in them.
pub(crate) fn copied_entries(alloc: Global, list: &[Listed]) -> Result<Seq<Entry>, NoMemory>
    ensures { IfOk result (λ entries. entries ≡ listed_entries list.now) }
{
    let mut entries = Vec::with_capacity(alloc, list.len())?;
    for listed in list {
        entries.push_reserved(listed.entry.duplicate(alloc)?);
    }
    Ok(Seq::from_vec(entries))
}
