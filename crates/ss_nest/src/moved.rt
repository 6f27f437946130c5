//! The steps of a member as steps of its nest: where an input was read by its position in the member, it is read by the
//! position of its stream in the nest, and an emit to an inner stream becomes a step on its inner batch.

ghost use Rattle.std.specs.Prelude.{◌≡◌, ◌++◌, ℕ, length, map, IfOk, OnOk};
ghost use Rattle.std.specs.Option.{option_map};
ghost use Rattle.ss_model.specs.Nests.{position_of, moved_source, moved_join, moved_query, moved_condition, moved_statement, moved_inner, moved_emit, moved_step};
ghost use Rattle.ss_nest.specs.Members.{stands_in};
ghost use Rattle.ss_nest.specs.Moves.{moved_by, moves_in};

use crate::twice::stands_in;
use ss_model::{Inner, Step};
use ss_sql_trees::{Condition, Joined, Query, SourceId, Statement};
use ss_value::{Copies, NoMemory, Seq};
use std::alloc::Global;

/// Where the inputs of a member stand in what its nest reads.
#[derive(Drop)]
pub struct Moves {
    /// By the input's position in the member.
    pub positions: Seq<u16>,
    /// The position behind all that the nest reads, for an input that isn't there.
    pub behind: u16,
}

/// Where a stream stands among these, from 0, and their number where it doesn't. Linear in them.
#[tactic(auto, using(crate::proofs::Reading::stands_here, crate::proofs::Reading::stands_further))]
fn position_of(stream: u16, reads: &[u16]) -> usize
    ensures { result ≡ position_of stream reads.now }
{
    for (position, read) in reads.iter().enumerate() {
        if *read == stream {
            return position;
        }
    }
    reads.len()
}

/// A position as trees carry it. A nest reads at most 40 streams, so each fits; one that didn't would be out of memory.
fn narrow(position: usize) -> Result<u16, NoMemory>
    ensures { IfOk result (λ narrow. narrow ≡ position) }
{
    match u16::try_from(position) {
        Ok(position) => Ok(position),
        Err(_) => Err(NoMemory),
    }
}

/// Where these inputs stand in what the nest reads.
fn positions_of(alloc: Global, reads: &[u16], inputs: &[u16]) -> Result<Seq<u16>, NoMemory>
    ensures { IfOk result (λ positions. positions ≡ map (λ s. position_of s reads.now) inputs.now) }
{
    let mut positions = Seq::with_capacity(alloc, inputs.len())?;
    for input in inputs {
        let position = narrow(position_of(*input, reads))?;
        positions.push(position)?;
    }
    Ok(positions)
}

impl Moves {
    /// Where the inputs of a member go in a nest that reads these streams. Linear in the inputs, times the streams.
    pub(crate) fn of(alloc: Global, reads: &[u16], inputs: &[u16]) -> Result<Moves, NoMemory>
        ensures { IfOk result (λ moves. moves ≡ moves_in reads.now inputs.now) }
    {
        let positions = positions_of(alloc, reads, inputs)?;
        let behind = narrow(reads.len())?;
        Ok(Moves { positions, behind })
    }

    /// Where an input goes.
    fn position(&self, input: u16) -> u16
        ensures { result ≡ moved_by self.now input }
    {
        match self.positions.get(usize::from(input)) {
            Some(position) => *position,
            None => self.behind,
        }
    }
}

// ---- SQL

fn moved_source(moves: &Moves, source: SourceId) -> SourceId
    ensures { result ≡ moved_source (moved_by moves.now) source }
{
    match source {
        SourceId::Batch(input) => SourceId::Batch(moves.position(input)),
        SourceId::Table(table) => SourceId::Table(table),
        SourceId::Window(window) => SourceId::Window(window),
        SourceId::Inserted => SourceId::Inserted,
    }
}

fn moved_join(moves: &Moves, joined: Option<Joined>) -> Option<Joined>
    ensures { result ≡ option_map (moved_join (moved_by moves.now)) joined }
{
    match joined {
        Some(joined) => Some(Joined {
            source: moved_source(moves, joined.source),
            left: joined.left,
            right: joined.right,
        }),
        None => None,
    }
}

/// A copy of a query of the member, as one of the nest. Linear in it.
fn moved_query(alloc: Global, moves: &Moves, query: &Query) -> Result<Query, NoMemory>
    ensures { IfOk result (λ moved. moved ≡ moved_query (moved_by moves.now) query.now) }
{
    let mut moved = query.duplicate(alloc)?;
    moved.from = moved_source(moves, query.from);
    moved.joined = moved_join(moves, query.joined);
    Ok(moved)
}

fn moved_condition(alloc: Global, moves: &Moves, test: &Condition) -> Result<Condition, NoMemory>
    ensures { IfOk result (λ moved. moved ≡ moved_condition (moved_by moves.now) test.now) }
{
    let mut moved = test.duplicate(alloc)?;
    moved.query = moved_query(alloc, moves, &test.query)?;
    Ok(moved)
}

/// A copy of a statement of the member, as one of the nest. Only an INSERT with a query reads batches.
fn moved_statement(
    alloc: Global,
    moves: &Moves,
    statement: &Statement,
) -> Result<Statement, NoMemory>
    ensures { IfOk result (λ moved. moved ≡ moved_statement (moved_by moves.now) statement.now) }
{
    match statement {
        Statement::InsertQuery { target, query } => {
            let query = moved_query(alloc, moves, query)?;
            Ok(Statement::InsertQuery {
                target: *target,
                query,
            })
        }
        Statement::InsertValues { .. } => statement.duplicate(alloc),
        Statement::Update { .. } => statement.duplicate(alloc),
        Statement::Delete { .. } => statement.duplicate(alloc),
    }
}

// ---- steps

fn moved_inner(alloc: Global, moves: &Moves, inner: &Inner) -> Result<Inner, NoMemory>
    ensures { IfOk result (λ moved. moved ≡ moved_inner (moved_by moves.now) inner.now) }
{
    match inner {
        Inner::Sql(statement) => Ok(Inner::Sql(moved_statement(alloc, moves, statement)?)),
        Inner::AbortIf { test, code } => {
            let test = moved_condition(alloc, moves, test)?;
            Ok(Inner::AbortIf { test, code: *code })
        }
    }
}

/// The steps inside a `for_each`. A function of its own, since the prover doesn't find the walk inside an arm of a match.
fn moved_inners(alloc: Global, moves: &Moves, body: &[Inner]) -> Result<Seq<Inner>, NoMemory>
    ensures { IfOk result (λ moved. moved ≡ map (moved_inner (moved_by moves.now)) body.now) }
{
    let mut moved = Seq::with_capacity(alloc, body.len())?;
    for inner in body {
        let inner = moved_inner(alloc, moves, inner)?;
        moved.push(inner)?;
    }
    Ok(moved)
}

/// An emit, which is a step on an inner batch where the stream is an inner one.
fn moved_emit(is_inner: bool, stream: u16, query: Query) -> Step
    ensures { (move : ℕ → ℕ) → result ≡ moved_emit move is_inner stream query }
{
    if is_inner {
        Step::Local { stream, query }
    } else {
        Step::Emit { stream, query }
    }
}

/// A copy of a step of a member, as one of its nest, of which these are the inner streams. Linear in the step.
fn moved_step(alloc: Global, moves: &Moves, inner: &[u16], step: &Step) -> Result<Step, NoMemory>
    ensures { IfOk result (λ moved. moved ≡ moved_step (moved_by moves.now) inner.now step.now) }
{
    match step {
        Step::Sql(statement) => Ok(Step::Sql(moved_statement(alloc, moves, statement)?)),
        Step::AbortIf { test, code } => {
            let test = moved_condition(alloc, moves, test)?;
            Ok(Step::AbortIf { test, code: *code })
        }
        Step::ForEach { input, body } => {
            let body = moved_inners(alloc, moves, body.as_slice())?;
            Ok(Step::ForEach {
                input: moves.position(*input),
                body,
            })
        }
        Step::Emit { stream, query } => {
            let query = moved_query(alloc, moves, query)?;
            Ok(moved_emit(stands_in(inner, usize::from(*stream)), *stream, query))
        }
        Step::Local { stream, query } => {
            let query = moved_query(alloc, moves, query)?;
            Ok(Step::Local {
                stream: *stream,
                query,
            })
        }
        Step::Return(query) => Ok(Step::Return(moved_query(alloc, moves, query)?)),
    }
}

/// Adds copies of the steps of a member's body to its nest's. Linear in the body.
pub(crate) fn add_moved(
    alloc: Global,
    moves: &Moves,
    inner: &[u16],
    body: &[Step],
    joined: &mut Seq<Step>,
) -> Result<(), NoMemory>
    ensures { OnOk result (joined.new ≡ joined.old ++ map (moved_step (moved_by moves.now) inner.now) body.now) }
{
    for step in body {
        let step = moved_step(alloc, moves, inner, step)?;
        joined.push(step)?;
    }
    Ok(())
}
