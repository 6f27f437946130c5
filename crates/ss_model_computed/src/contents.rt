//! Tables and windows, and an execution on them.

ghost use Rattle.std.specs.Prelude.{◌≡◌, IfOk, replicate};
ghost use Rattle.std.specs.FinMap as finmap;
ghost use Rattle.ss_model.specs.Database.{empty_database};
ghost use Rattle.ss_model.specs.declared.entry.Outcome.TheVariants.{Done};
ghost use Rattle.ss_model_computed.specs.State.{contents_of};

use crate::bodies::runs::BodyResult;
use crate::lists::empty_lists;
use crate::table::Table;
use ss_model::{Catalog, Outcome};
use ss_value::{Copies, NoMemory, Row, Rows, Seq, Value};
use std::alloc::Global;

/// What executions read and write: the tables, and all units that each window has ever had, both by number.
pub struct Contents {
    pub tables: Seq<Table>,
    pub windows: Seq<Seq<Rows>>,
}

// By hand, so that letting it go is one call and not one for each of its parts.
impl Drop for Contents {
    fn drop(self) {
        let Contents {
            tables: _,
            windows: _,
        } = self;
    }
}

/// The state of an execution: tables and windows, its open unit per window, its batch per stream, and its reply.
pub struct Execution {
    pub contents: Contents,
    pub open_units: Seq<Rows>,
    pub emitted: Seq<Rows>,
    pub reply: Rows,
}

// By hand, as that of `Contents`.
impl Drop for Execution {
    fn drop(self) {
        let Execution {
            contents: _,
            open_units: _,
            emitted: _,
            reply: _,
        } = self;
    }
}

impl Execution {
    /// What it leaves once its body is done: tables and windows, the reply, and its batch per stream.
    pub(crate) fn into_result(self) -> BodyResult
        ensures { result ≡ record { contents = self.contents; outcome = Done self.reply; emitted = self.emitted } }
    {
        let Execution {
            contents,
            open_units: _,
            emitted,
            reply,
        } = self;
        BodyResult {
            contents,
            outcome: Outcome::Done(reply),
            emitted,
        }
    }
}

/// What an execution is given: the catalogue, its procedure's number, arguments, batches and inner streams, and the
/// value of split columns that it is limited to, if any.
#[derive(Drop)]
pub struct Context<'a> {
    pub catalog: &'a Catalog,
    pub procedure: u16,
    pub args: &'a Row,
    pub batches: &'a Seq<Rows>,
    pub inner: &'a Seq<u16>,
    pub split_value: Option<&'a Value>,
}

/// This many tables without a row.
fn empty_tables(alloc: Global, count: usize) -> Result<Seq<Table>, NoMemory>
    ensures { IfOk result (λ tables. tables ≡ replicate count finmap.empty) }
{
    let mut tables = Seq::new(alloc);
    for _ in 0..count {
        tables.push(Table::new(alloc))?;
    }
    Ok(tables)
}

impl Contents {
    /// The tables and windows of a catalogue, with no row and no unit.
    pub fn empty(alloc: Global, catalog: &Catalog) -> Result<Contents, NoMemory>
        ensures { IfOk result (λ contents. contents_of contents ≡ (empty_database catalog.now).contents) }
    {
        let tables = empty_tables(alloc, catalog.tables.len())?;
        let windows = empty_lists(alloc, catalog.windows.len())?;
        Ok(Contents { tables, windows })
    }

    /// A copy of all tables and windows.
    pub fn copy(&self, alloc: Global) -> Result<Contents, NoMemory>
        ensures { IfOk result (λ copy. copy ≡ self.now) }
    {
        let tables = self.tables.duplicate(alloc)?;
        let windows = self.windows.duplicate(alloc)?;
        Ok(Contents { tables, windows })
    }
}
