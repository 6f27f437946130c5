//! The steps of a body as JSON.

ghost use Rattle.std.specs.Prelude.{◌≡◌, Ok, IfOk, IfErr};
ghost use Rattle.serde_json.specs.View.{view};
ghost use Rattle.ss_catalog_json.specs.Readings.{FaultsAs};
ghost use Rattle.ss_catalog_outline.specs.Steps.{read_given_arg, given_text, read_given, form_of, may_stand, read_alone, read_int, read_test, read_inner_as, read_inner, read_insert, read_for_each, read_emit, read_step_as, read_step, read_steps};

use crate::types::{GivenOutline, InnerOutline, StepOutline};
use serde_json::Value as Json;
use ss_catalog_json::{
    ArrayOf, ItemCount, ReadError, Reader, Word, WordReader, fault_here, has_key, object_of,
    read_key,
};
use ss_model::ProcedureKind;
use ss_value::{Seq, Value, ValueError, text_of};
use std::alloc::Global;

// ---- values of an `insert` step

fn read_given_arg(alloc: Global, value: &Json) -> Result<GivenOutline, ReadError>
    ensures ok { IfOk result (λ g. read_given_arg (view value.now) ≡ Ok g) }
    ensures refused { IfErr result (FaultsAs (read_given_arg (view value.now))) }
{
    object_of(alloc, value, &["arg"])?;
    let name = read_key(alloc, value, "arg", &WordReader)?;
    Ok(GivenOutline::Arg(name))
}

fn given_text(alloc: Global, text: &str) -> Result<GivenOutline, ReadError>
    ensures ok { IfOk result (λ g. given_text text.now ≡ Ok g) }
    ensures refused { IfErr result (FaultsAs (given_text text.now)) }
{
    match text_of(alloc, text.as_bytes()) {
        Ok(text) => Ok(GivenOutline::Value(Value::Text(text))),
        Err(ValueError::TextTooLong) => Err(fault_here(alloc)),
        Err(_) => Err(ReadError::NoMemory),
    }
}

/// A value of an `insert` step: an Int, a text of at most 255 bytes, or an argument.
#[derive(Drop)]
pub struct GivenReader;

impl Reader for GivenReader {
    type Read = GivenOutline;

    ghost reading = { λ _. read_given };

    fn read(&self, alloc: Global, value: &Json) -> Result<GivenOutline, ReadError> {
        if let Some(number) = value.as_i64() {
            return Ok(GivenOutline::Value(Value::Int(number)));
        }
        match value.as_str() {
            Some(text) => given_text(alloc, text),
            None => read_given_arg(alloc, value),
        }
    }
}

// ---- forms of steps

/// A form of step. A value has the form of the first of these keys that it has.
#[derive(Clone, Copy, Drop)]
pub enum StepForm {
    Insert,
    ReturnAll,
    Emit,
    Sql,
    AbortIf,
    ForEach,
    Return,
}

fn form_of(value: &Json) -> Option<StepForm>
    ensures { result ≡ form_of (view value.now) }
{
    // `emit` is tried before `sql`, since an `emit` step has both keys.
    if has_key(value, "insert") {
        Some(StepForm::Insert)
    } else if has_key(value, "return_all") {
        Some(StepForm::ReturnAll)
    } else if has_key(value, "emit") {
        Some(StepForm::Emit)
    } else if has_key(value, "sql") {
        Some(StepForm::Sql)
    } else if has_key(value, "abort_if") {
        Some(StepForm::AbortIf)
    } else if has_key(value, "for_each") {
        Some(StepForm::ForEach)
    } else if has_key(value, "return") {
        Some(StepForm::Return)
    } else {
        None
    }
}

fn may_stand(kind: ProcedureKind, form: StepForm) -> bool
    ensures { result ≡ may_stand kind form }
{
    match form {
        StepForm::Sql => true,
        StepForm::AbortIf => true,
        StepForm::Emit => !kind.is_call(),
        StepForm::ForEach => !kind.is_call(),
        StepForm::Insert => kind.is_call(),
        StepForm::ReturnAll => kind.is_call(),
        StepForm::Return => kind.is_call(),
    }
}

// ---- steps that each kind of procedure may have

/// One text, at the only key of an object.
pub fn read_alone(alloc: Global, value: &Json, key: &str) -> Result<Word, ReadError>
    ensures ok { IfOk result (λ text. read_alone key.now (view value.now) ≡ Ok text) }
    ensures refused { IfErr result (FaultsAs (read_alone key.now (view value.now))) }
{
    object_of(alloc, value, &[key])?;
    read_key(alloc, value, key, &WordReader)
}

/// An Int.
#[derive(Drop)]
pub struct IntReader;

impl Reader for IntReader {
    type Read = i64;

    ghost reading = { λ _. read_int };

    fn read(&self, alloc: Global, value: &Json) -> Result<i64, ReadError> {
        match value.as_i64() {
            Some(number) => Ok(number),
            None => Err(fault_here(alloc)),
        }
    }
}

fn read_test(alloc: Global, value: &Json) -> Result<(Word, i64), ReadError>
    ensures ok { IfOk result (λ t. read_test (view value.now) ≡ Ok t) }
    ensures refused { IfErr result (FaultsAs (read_test (view value.now))) }
{
    object_of(alloc, value, &["abort_if", "code"])?;
    let test = read_key(alloc, value, "abort_if", &WordReader)?;
    let code = read_key(alloc, value, "code", &IntReader)?;
    Ok((test, code))
}

fn read_inner_as(alloc: Global, form: StepForm, value: &Json) -> Result<InnerOutline, ReadError>
    ensures ok { IfOk result (λ s. read_inner_as form (view value.now) ≡ Ok s) }
    ensures refused { IfErr result (FaultsAs (read_inner_as form (view value.now))) }
{
    match form {
        StepForm::Sql => {
            let text = read_alone(alloc, value, "sql")?;
            Ok(InnerOutline::Sql(text))
        }
        StepForm::AbortIf => {
            let (test, code) = read_test(alloc, value)?;
            Ok(InnerOutline::AbortIf { test, code })
        }
        _ => Err(fault_here(alloc)),
    }
}

/// A step inside a `for_each`.
#[derive(Drop)]
pub struct InnerReader;

impl Reader for InnerReader {
    type Read = InnerOutline;

    ghost reading = { λ _. read_inner };

    fn read(&self, alloc: Global, value: &Json) -> Result<InnerOutline, ReadError> {
        match form_of(value) {
            Some(form) => read_inner_as(alloc, form, value),
            None => Err(fault_here(alloc)),
        }
    }
}

// ---- steps that some kinds of procedures may have

fn read_insert(alloc: Global, value: &Json) -> Result<StepOutline, ReadError>
    ensures ok { IfOk result (λ s. read_insert (view value.now) ≡ Ok s) }
    ensures refused { IfErr result (FaultsAs (read_insert (view value.now))) }
{
    object_of(alloc, value, &["insert", "values"])?;
    let table = read_key(alloc, value, "insert", &WordReader)?;
    let values = ArrayOf {
        many: ItemCount::Any,
        of: GivenReader,
    };
    let values = read_key(alloc, value, "values", &values)?;
    Ok(StepOutline::Insert { table, values })
}

fn read_for_each(alloc: Global, value: &Json) -> Result<StepOutline, ReadError>
    ensures ok { IfOk result (λ s. read_for_each (view value.now) ≡ Ok s) }
    ensures refused { IfErr result (FaultsAs (read_for_each (view value.now))) }
{
    object_of(alloc, value, &["for_each", "body"])?;
    let stream = read_key(alloc, value, "for_each", &WordReader)?;
    let steps = ArrayOf {
        many: ItemCount::Any,
        of: InnerReader,
    };
    let body = read_key(alloc, value, "body", &steps)?;
    Ok(StepOutline::ForEach { stream, body })
}

fn read_emit(alloc: Global, value: &Json) -> Result<StepOutline, ReadError>
    ensures ok { IfOk result (λ s. read_emit (view value.now) ≡ Ok s) }
    ensures refused { IfErr result (FaultsAs (read_emit (view value.now))) }
{
    object_of(alloc, value, &["emit", "sql"])?;
    let stream = read_key(alloc, value, "emit", &WordReader)?;
    let query = read_key(alloc, value, "sql", &WordReader)?;
    Ok(StepOutline::Emit { stream, query })
}

fn read_step_as(alloc: Global, form: StepForm, value: &Json) -> Result<StepOutline, ReadError>
    ensures ok { IfOk result (λ s. read_step_as form (view value.now) ≡ Ok s) }
    ensures refused { IfErr result (FaultsAs (read_step_as form (view value.now))) }
{
    match form {
        StepForm::Insert => read_insert(alloc, value),
        StepForm::ReturnAll => {
            let table = read_alone(alloc, value, "return_all")?;
            Ok(StepOutline::ReturnAll(table))
        }
        StepForm::Emit => read_emit(alloc, value),
        StepForm::Sql => {
            let text = read_alone(alloc, value, "sql")?;
            Ok(StepOutline::Sql(text))
        }
        StepForm::AbortIf => {
            let (test, code) = read_test(alloc, value)?;
            Ok(StepOutline::AbortIf { test, code })
        }
        StepForm::ForEach => read_for_each(alloc, value),
        StepForm::Return => {
            let query = read_alone(alloc, value, "return")?;
            Ok(StepOutline::Return(query))
        }
    }
}

/// A step of a procedure of this kind.
#[derive(Drop)]
pub struct StepReader {
    pub kind: ProcedureKind,
}

impl Reader for StepReader {
    type Read = StepOutline;

    ghost reading = { λ r. read_step r.kind };

    fn read(&self, alloc: Global, value: &Json) -> Result<StepOutline, ReadError> {
        let Some(form) = form_of(value) else {
            return Err(fault_here(alloc));
        };
        // First, so that a form which this kind may not have is a fault of the step itself, whatever is wrong inside it.
        if !may_stand(self.kind, form) {
            return Err(fault_here(alloc));
        }
        read_step_as(alloc, form, value)
    }
}

/// The steps of a body of a procedure of this kind, or the way from the body to its first fault. Linear in the value, in
/// time and memory.
pub fn read_steps(
    alloc: Global,
    kind: ProcedureKind,
    value: &Json,
) -> Result<Seq<StepOutline>, ReadError>
    ensures ok { IfOk result (λ steps. read_steps kind (view value.now) ≡ Ok steps) }
    ensures refused { IfErr result (FaultsAs (read_steps kind (view value.now))) }
{
    let steps = ArrayOf {
        many: ItemCount::Any,
        of: StepReader { kind },
    };
    steps.read(alloc, value)
}
