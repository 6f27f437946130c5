//! The catalogue of the tests, and what its clients ask for.

ghost use Rattle.std.specs.Prelude.{◌≡◌, [], ◌∷◌, IfSome};
ghost use Rattle.ss_commitlog_tests.specs.Workflow.{stream, taker, note, workflow, push, pushed, step, call};

use ss_model::{
    Catalog, Emitted, Entry, Listed, Outcome, Procedure, ProcedureKind, StreamDef, Touch,
};
use ss_value::{ColType, Column, Seq, name_of};
use std::alloc::Global;

fn stream_def(alloc: Global) -> Option<StreamDef>
    ensures { IfSome result (λ s. s ≡ stream) }
{
    let column = Column {
        name: name_of(alloc, b"x").ok()?,
        kind: ColType::Int,
    };
    let mut schema = Seq::new(alloc);
    schema.push(column).ok()?;
    Some(StreamDef {
        name: name_of(alloc, b"s").ok()?,
        schema,
    })
}

fn taking(alloc: Global) -> Option<Procedure>
    ensures { IfSome result (λ p. p ≡ taker) }
{
    let mut inputs = Seq::new(alloc);
    inputs.push(0u16).ok()?;
    Some(Procedure {
        name: name_of(alloc, b"a").ok()?,
        kind: ProcedureKind::Border,
        args: Seq::new(alloc),
        inputs,
        inner: Seq::new(alloc),
        touch: Touch::Part(0),
        body: Seq::new(alloc),
    })
}

fn noting(alloc: Global) -> Option<Procedure>
    ensures { IfSome result (λ p. p ≡ note) }
{
    Some(Procedure {
        name: name_of(alloc, b"note").ok()?,
        kind: ProcedureKind::Call,
        args: Seq::new(alloc),
        inputs: Seq::new(alloc),
        inner: Seq::new(alloc),
        touch: Touch::Part(1),
        body: Seq::new(alloc),
    })
}

fn streams(alloc: Global) -> Option<Seq<StreamDef>>
    ensures { IfSome result (λ ss. ss ≡ stream ∷ []) }
{
    let mut streams = Seq::new(alloc);
    streams.push(stream_def(alloc)?).ok()?;
    Some(streams)
}

fn procedures(alloc: Global) -> Option<Seq<Procedure>>
    ensures { IfSome result (λ ps. ps ≡ taker ∷ note ∷ []) }
{
    let mut procedures = Seq::new(alloc);
    procedures.push(taking(alloc)?).ok()?;
    procedures.push(noting(alloc)?).ok()?;
    Some(procedures)
}

pub fn catalog(alloc: Global) -> Option<Catalog>
    ensures { IfSome result (λ c. c ≡ workflow) }
{
    Some(Catalog {
        tables: Seq::new(alloc),
        streams: streams(alloc)?,
        windows: Seq::new(alloc),
        triggers: Seq::new(alloc),
        procedures: procedures(alloc)?,
        own_texts: Seq::new(alloc),
        spares: Seq::new(alloc),
        text: Seq::new(alloc),
    })
}

pub fn push_of(alloc: Global) -> Option<Listed>
    ensures { IfSome result (λ l. l ≡ push) }
{
    Some(Listed {
        entry: Entry::Push {
            client: 0,
            index: 0,
            stream: 0,
            source: name_of(alloc, b"k").ok()?,
            seq: 0,
            rows: Seq::new(alloc),
        },
        outcome: Outcome::Done(Seq::new(alloc)),
    })
}

pub fn batch_of(alloc: Global) -> Option<Seq<Emitted>>
    ensures { IfSome result (λ b. b ≡ pushed) }
{
    let mut emitted = Seq::new(alloc);
    let batch = Emitted {
        stream: 0,
        rows: Seq::new(alloc),
    };
    emitted.push(batch).ok()?;
    Some(emitted)
}

pub fn call_of(alloc: Global) -> Listed
    ensures { result ≡ call }
{
    Listed {
        entry: Entry::Call {
            client: 1,
            index: 0,
            procedure: 1,
            args: Seq::new(alloc),
        },
        outcome: Outcome::Done(Seq::new(alloc)),
    }
}

pub fn step_of(alloc: Global) -> Listed
    ensures { result ≡ step }
{
    Listed {
        entry: Entry::Step {
            procedure: 0,
            batch: 0,
        },
        outcome: Outcome::Done(Seq::new(alloc)),
    }
}
