//! What executes an entry.

ghost use Rattle.std.specs.Prelude.{◌≡◌, ◌≤◌, ◌<◌, None, true, length, slice_get, IfOk, OnErr};
ghost use Rattle.ss_model.specs.Accepted.{Accepted};
ghost use Rattle.ss_model.specs.Database.{fits_entry};
ghost use Rattle.ss_shard.specs.ShardValue.{ShardValue};
ghost use Rattle.ss_shard.specs.Shards.{IsOf, CanRollBack, Same, IsCommitted};
ghost use Rattle.ss_model.specs.Batches.{output_batches};
ghost use Rattle.ss_model.specs.Database.{Database};
ghost use Rattle.ss_shard.specs.Windows.{HoldsDatabase};
ghost use Rattle.ss_proc.specs.Entries.{IsNext, EntryHasSource, ProcedureRan, RanOnEach};

use crate::bodies::{BodyResult, run_body, touched_argument};
use crate::installs::run_install;
use crate::outputs::emitted_batches;
use crate::pushes::run_push;
use crate::work::Given;
use ss_model::{Catalog, Emitted, Entry, Outcome};
use ss_plan::{Batches, Inputs};
use ss_shard::Shard;
use ss_value::{NoMemory, Row, Seq};
use std::alloc::Global;

/// What an execution came to.
#[derive(Drop)]
pub struct Executed {
    /// Its outcome.
    pub outcome: Outcome,
    /// Its batches: of a step one for each stream that its procedure emits to, in rising order of streams, and of an accepted
    /// push its own. A call and an install have none.
    pub emitted: Seq<Emitted>,
}

/// What executes entries.
///
/// An execution is a transaction: it changes all that its body changes, or nothing (Meehan et al., PVLDB 8, 2015, section
/// 2.3). Whoever executes entries needs this contract alone, which is the model's meaning of an entry, and not how bodies are run.
pub trait Runner {
    /// Executes an entry on a shard between executions, on the batches that it takes. Its caller then calls `commit` or
    /// `rollback`: it alone knows whether the entry has its place in the list.
    ///
    /// Answers exactly the outcome and the batches that the entry has on whatever database the shard stands for, and leaves
    /// the tables and windows that the entry leaves: after an abort those from before, with empty batches. Counts, next
    /// numbers and bodies stay until the commit. After out of memory the shard stands for what it stood for, and nothing is
    /// left to roll back.
    ///
    /// That the batches are those of the database is a premise of what is promised (`RanOnEach`), instead of one of the
    /// call: whoever executes a step got its batches from the list that it knows, and the clause serves each database of
    /// which that is true.
    fn execute(
        &self,
        alloc: Global,
        catalog: &Catalog,
        shard: &mut Shard,
        inputs: &Inputs,
        entry: &Entry,
    ) -> Result<Executed, NoMemory>
        requires accepted { Accepted catalog.now }
        requires fits { fits_entry catalog.now entry.now ≡ true }
        requires next { IsNext entry.now shard.old }
        requires committed { IsCommitted catalog.now shard.old }
        ensures ok { IfOk result (RanOnEach catalog.now shard.old shard.new entry.now inputs.now.batches.now) }
        ensures sourced { IfOk result (λ e. EntryHasSource entry.now e.outcome shard.new.sources) }
        ensures of_catalog { IsOf catalog.now shard.new }
        ensures back { IfOk result (λ e. CanRollBack shard.old shard.new) }
        ensures holds { OnErr result ((db : Database) → HoldsDatabase catalog.now shard.old db → HoldsDatabase catalog.now shard.new db) }
        ensures err { OnErr result (Same shard.old shard.new) }
        ensures committed { OnErr result (IsCommitted catalog.now shard.new) };
}

/// The runner that reads bodies as they stand in the catalogue: of each procedure the one that it has on the shard.
#[derive(Clone, Copy, Debug, PartialEq, Eq, Drop)]
pub struct PlainRunner;

/// Runs the body that a procedure has on a shard with these arguments and batches, all of it or nothing.
fn run_procedure(
    alloc: Global,
    catalog: &Catalog,
    number: u16,
    args: &Row,
    batches: &Batches,
    shard: &mut Shard,
) -> Result<BodyResult, NoMemory>
    requires accepted { Accepted catalog.now }
    requires there { number < length catalog.now.procedures }
    requires committed { IsCommitted catalog.now shard.old }
    ensures ok { IfOk result (ProcedureRan catalog.now number args.now batches.now shard.old shard.new) }
    ensures of_catalog { IsOf catalog.now shard.new }
    ensures back { IfOk result (λ left. CanRollBack shard.old shard.new) }
    ensures none { IfOk result (λ left. shard.new.coming ≡ None) }
    ensures err { OnErr result (Same shard.old shard.new) }
    ensures committed { OnErr result (IsCommitted catalog.now shard.new) }
{
    let procedure = catalog.procedures.at(usize::from(number));
    let given = Given {
        catalog,
        procedure: number,
        args,
        arg: touched_argument(&procedure.touch),
        batches,
        inner: procedure.inner.as_slice(),
    };
    let body = shard.body(catalog, number);
    run_body(alloc, &given, body, shard)
}

/// What an execution came to, with the batches of the streams that its procedure emits to. Out of memory rolls the execution
/// back.
fn with_outputs(
    alloc: Global,
    catalog: &Catalog,
    number: u16,
    left: BodyResult,
    shard: &mut Shard,
) -> Result<Executed, NoMemory>
    requires there { number < length catalog.now.procedures }
    requires few { length catalog.now.streams ≤ 32 }
    requires back { (before : ShardValue) × CanRollBack before shard.old × IsOf catalog.now before }
    ensures ok { IfOk result (λ e. e.outcome ≡ left.outcome) }
    ensures emitted { IfOk result (λ e. e.emitted ≡ output_batches catalog.now left.emitted (slice_get catalog.now.procedures number)) }
    ensures unchanged { IfOk result (λ e. shard.new ≡ shard.old) }
    ensures err { OnErr result ((before : ShardValue) → CanRollBack before shard.old → Same before shard.new) }
    ensures committed { OnErr result (IsCommitted catalog.now shard.new) }
{
    let procedure = catalog.procedures.at(usize::from(number));
    let BodyResult { outcome, emitted } = left;
    match emitted_batches(alloc, catalog, procedure, emitted) {
        Ok(emitted) => Ok(Executed { outcome, emitted }),
        Err(NoMemory) => {
            shard.rollback();
            Err(NoMemory)
        }
    }
}

impl Runner for PlainRunner {
    /// Costs what the steps of the body and their triggers cost, and for an abort at most as much again. Its own memory is that
    /// of its open units, batches and reply; the changes are noted in the shard. A push is logarithmic in its stream's sources,
    /// and takes a copy of its rows. An install is linear in the texts of the bodies that its procedure may have, and takes no
    /// memory.
    fn execute(
        &self,
        alloc: Global,
        catalog: &Catalog,
        shard: &mut Shard,
        inputs: &Inputs,
        entry: &Entry,
    ) -> Result<Executed, NoMemory> {
        match entry {
            Entry::Call {
                procedure,
                args,
                ..
            } => {
                let left = run_procedure(alloc, catalog, *procedure, args, inputs.batches, shard)?;
                Ok(Executed {
                    outcome: left.outcome,
                    emitted: Seq::new(alloc),
                })
            }
            Entry::Step { procedure, .. } => {
                let nothing = Seq::new(alloc);
                let left = run_procedure(
                    alloc,
                    catalog,
                    *procedure,
                    &nothing,
                    inputs.batches,
                    shard,
                )?;
                with_outputs(alloc, catalog, *procedure, left, shard)
            }
            Entry::Push {
                stream,
                source,
                seq,
                rows,
                ..
            } => run_push(alloc, shard, *stream, source, *seq, rows),
            Entry::Install {
                procedure,
                text,
                ..
            } => Ok(run_install(alloc, catalog, shard, *procedure, text.as_slice())),
        }
    }
}
