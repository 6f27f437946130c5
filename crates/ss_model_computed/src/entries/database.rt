//! A database, and what an entry comes to.

ghost use Rattle.std.specs.Prelude.{◌≡◌, IfOk, replicate};
ghost use Rattle.std.specs.FinMap as finmap;
ghost use Rattle.ss_model.specs.Database.{empty_database, own_bodies, own_text};
ghost use Rattle.ss_model_computed.specs.Databases.{database_of};

use crate::contents::Contents;
use crate::entries::numbers::NextNumbers;
use crate::lists::empty_lists;
use ss_model::{Catalog, Outcome};
use ss_value::{Copies, NoMemory, Rows, Seq};
use std::alloc::Global;

/// Tables and windows, all batches that each stream has ever had, how many batches each procedure has taken, for each
/// stream the next numbers of the sources that push to it, and of each procedure the text of the body that it has.
pub struct Database {
    pub contents: Contents,
    pub streams: Seq<Seq<Rows>>,
    pub counts: Seq<u64>,
    pub next_numbers: Seq<NextNumbers>,
    pub bodies: Seq<Seq<u8>>,
}

// By hand, so that letting it go is one call and not one for each of its parts.
impl Drop for Database {
    fn drop(self) {
        let Database {
            contents: _,
            streams: _,
            counts: _,
            next_numbers: _,
            bodies: _,
        } = self;
    }
}

/// What an entry comes to, besides the database that it leaves: its outcome, and its batch per stream.
#[derive(Drop)]
pub struct Applied {
    pub outcome: Outcome,
    pub emitted: Seq<Rows>,
}

/// This many zeros.
fn zeros(alloc: Global, count: usize) -> Result<Seq<u64>, NoMemory>
    ensures { IfOk result (λ counts. counts ≡ replicate count 0) }
{
    let mut counts = Seq::new(alloc);
    for _ in 0..count {
        counts.push(0)?;
    }
    Ok(counts)
}

/// The next numbers of this many streams, of which no source has one yet.
fn no_numbers(alloc: Global, count: usize) -> Result<Seq<NextNumbers>, NoMemory>
    ensures { IfOk result (λ numbers. numbers ≡ replicate count finmap.empty) }
{
    let mut numbers = Seq::new(alloc);
    for _ in 0..count {
        numbers.push(NextNumbers::new(alloc))?;
    }
    Ok(numbers)
}

/// A copy of the text of a procedure's own body.
fn own_text(alloc: Global, catalog: &Catalog, procedure: usize) -> Result<Seq<u8>, NoMemory>
    ensures { IfOk result (λ text. text ≡ own_text catalog.now procedure) }
{
    match catalog.own_texts.get(procedure) {
        Some(text) => text.duplicate(alloc),
        None => Ok(Seq::new(alloc)),
    }
}

/// Copies of the texts of all procedures' own bodies.
fn own_bodies(alloc: Global, catalog: &Catalog) -> Result<Seq<Seq<u8>>, NoMemory>
    ensures { IfOk result (λ texts. texts ≡ own_bodies catalog.now) }
{
    let mut texts = Seq::new(alloc);
    for (number, _) in catalog.procedures.as_slice().iter().enumerate() {
        let text = own_text(alloc, catalog, number)?;
        texts.push(text)?;
    }
    Ok(texts)
}

impl Database {
    /// The database before any entry: no row, unit, batch or next number, every count is 0, and each procedure has its own
    /// body. Linear in the number of the catalogue's definitions and in the texts of its bodies.
    pub fn empty(alloc: Global, catalog: &Catalog) -> Result<Database, NoMemory>
        ensures { IfOk result (λ database. database_of database ≡ empty_database catalog.now) }
    {
        let streams = empty_lists(alloc, catalog.streams.len())?;
        let counts = zeros(alloc, catalog.procedures.len())?;
        let next_numbers = no_numbers(alloc, catalog.streams.len())?;
        let bodies = own_bodies(alloc, catalog)?;
        let contents = Contents::empty(alloc, catalog)?;
        Ok(Database {
            contents,
            streams,
            counts,
            next_numbers,
            bodies,
        })
    }
}
