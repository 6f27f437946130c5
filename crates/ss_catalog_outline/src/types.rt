//! A catalogue as it is written: no name is looked up yet, and no SQL is read.
//!
//! Each value here takes memory linear in what it was read from.

use ss_catalog_json::Word;
use ss_model::ProcedureKind;
use ss_value::{Name, Schema, Seq, Unit, Value};

/// Where a table's rows are.
#[derive(Drop)]
pub enum PlacementOutline {
    /// All on this part, from 0 to 7.
    Part(u8),
    /// Each row by its value in the column that this names.
    By(Word),
}

/// A table, with its key's and its indexes' columns by name.
#[derive(Drop)]
pub struct TableOutline {
    pub name: Name,
    pub columns: Schema,
    pub key: Seq<Word>,
    pub placement: PlacementOutline,
    pub indexes: Seq<Seq<Word>>,
}

/// A stream.
#[derive(Drop)]
pub struct StreamOutline {
    pub name: Name,
    pub columns: Schema,
}

/// A window, with its owner by name.
#[derive(Drop)]
pub struct WindowOutline {
    pub name: Name,
    pub columns: Schema,
    pub owner: Word,
    pub unit: Unit,
    pub size: u32,
    pub slide: u32,
}

/// A trigger, with what it waits for by name, and its statements as texts.
#[derive(Drop)]
pub struct TriggerOutline {
    pub name: Name,
    pub on: Word,
    pub statements: Seq<Word>,
}

/// The partitions that a procedure touches.
#[derive(Drop)]
pub enum TouchOutline {
    /// The partition of this part, from 0 to 7.
    Part(u8),
    /// The partition of the value of the argument that this names.
    Arg(Word),
    /// The partitions of these parts, each from 0 to 7.
    Multi(Seq<u8>),
    /// All of them.
    All,
}

/// A value of an `insert` step.
#[derive(Drop)]
pub enum GivenOutline {
    /// This value.
    Value(Value),
    /// The value of the argument that this names.
    Arg(Word),
}

/// A step inside a `for_each`.
#[derive(Drop)]
pub enum InnerOutline {
    Sql(Word),
    /// Aborts with the code where the test is true.
    AbortIf { test: Word, code: i64 },
}

/// A step of a procedure's body.
#[derive(Drop)]
pub enum StepOutline {
    /// Inserts these values into a table.
    Insert {
        table: Word,
        values: Seq<GivenOutline>,
    },
    /// Returns all columns of all rows of a table.
    ReturnAll(Word),
    Sql(Word),
    /// Aborts with the code where the test is true.
    AbortIf {
        test: Word,
        code: i64,
    },
    /// Runs the inner steps for each row of the batch of this stream.
    ForEach {
        stream: Word,
        body: Seq<InnerOutline>,
    },
    /// Adds the query's rows to the batch of this stream.
    Emit {
        stream: Word,
        query: Word,
    },
    /// Adds the query's rows to the reply.
    Return(Word),
}

/// A procedure, with its inputs by name.
#[derive(Drop)]
pub struct ProcedureOutline {
    pub name: Name,
    pub kind: ProcedureKind,
    pub args: Schema,
    pub inputs: Seq<Word>,
    pub touch: TouchOutline,
    pub body: Seq<StepOutline>,
}

/// All definitions, each kind in written order.
#[derive(Drop)]
pub struct Outline {
    pub tables: Seq<TableOutline>,
    pub streams: Seq<StreamOutline>,
    pub windows: Seq<WindowOutline>,
    pub triggers: Seq<TriggerOutline>,
    pub procedures: Seq<ProcedureOutline>,
}
