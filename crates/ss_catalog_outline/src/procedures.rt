//! Procedures as JSON.

ghost use Rattle.std.specs.Prelude.{◌≡◌, Ok, codes, IfOk, IfErr, option_and_then};
ghost use Rattle.serde_json.specs.View.{view};
ghost use Rattle.serde_json.specs.Find.{as_str};
ghost use Rattle.ss_catalog_json.specs.Readings.{FaultsAs, read_word, read_array_of, read_key};
ghost use Rattle.ss_catalog_outline.specs.Procedures.{read_touch_part, read_touch_multi, read_touch_form, read_touch, kind_word, read_procedure_kind, read_args, read_inputs, read_procedure};

use crate::steps::{StepReader, read_alone};
use crate::tables::{ColumnReader, PartReader};
use crate::types::{ProcedureOutline, TouchOutline};
use serde_json::Value as Json;
use ss_catalog_json::{
    ArrayOf, ItemCount, NameReader, ReadError, Reader, Word, WordReader, fault_here, has_key,
    no_key, object_of, read_key, read_key_or,
};
use ss_model::ProcedureKind;
use ss_value::{Schema, Seq};
use std::alloc::Global;

// ---- touch sets

fn read_touch_part(alloc: Global, value: &Json) -> Result<TouchOutline, ReadError>
    ensures ok { IfOk result (λ t. read_touch_part (view value.now) ≡ Ok t) }
    ensures refused { IfErr result (FaultsAs (read_touch_part (view value.now))) }
{
    object_of(alloc, value, &["part"])?;
    let part = read_key(alloc, value, "part", &PartReader)?;
    Ok(TouchOutline::Part(part))
}

fn read_touch_multi(alloc: Global, value: &Json) -> Result<TouchOutline, ReadError>
    ensures ok { IfOk result (λ t. read_touch_multi (view value.now) ≡ Ok t) }
    ensures refused { IfErr result (FaultsAs (read_touch_multi (view value.now))) }
{
    object_of(alloc, value, &["multi"])?;
    let parts = ArrayOf {
        many: ItemCount::AtLeastOne,
        of: PartReader,
    };
    let parts = read_key(alloc, value, "multi", &parts)?;
    Ok(TouchOutline::Multi(parts))
}

fn read_touch_form(
    alloc: Global,
    kind: ProcedureKind,
    value: &Json,
) -> Result<TouchOutline, ReadError>
    ensures ok { IfOk result (λ t. read_touch_form kind (view value.now) ≡ Ok t) }
    ensures refused { IfErr result (FaultsAs (read_touch_form kind (view value.now))) }
{
    // The first of these keys that is there decides the form; beside it another one is a key that isn't allowed.
    if has_key(value, "part") {
        return read_touch_part(alloc, value);
    }
    if has_key(value, "arg") {
        // No other kind has arguments.
        if !kind.is_call() {
            return Err(fault_here(alloc));
        }
        let name = read_alone(alloc, value, "arg")?;
        return Ok(TouchOutline::Arg(name));
    }
    if has_key(value, "multi") {
        return read_touch_multi(alloc, value);
    }
    Err(fault_here(alloc))
}

/// The touch set of a procedure of this kind.
#[derive(Drop)]
pub struct TouchReader {
    pub kind: ProcedureKind,
}

impl Reader for TouchReader {
    type Read = TouchOutline;

    ghost reading = { λ r. read_touch r.kind };

    fn read(&self, alloc: Global, value: &Json) -> Result<TouchOutline, ReadError> {
        match value.as_str() {
            Some(word) => {
                if word == "all" {
                    Ok(TouchOutline::All)
                } else {
                    Err(fault_here(alloc))
                }
            }
            None => read_touch_form(alloc, self.kind, value),
        }
    }
}

// ---- procedures

fn kind_word(word: &str) -> Option<ProcedureKind>
    ensures { result ≡ kind_word word.now }
{
    if word == "call" {
        Some(ProcedureKind::Call)
    } else if word == "border" {
        Some(ProcedureKind::Border)
    } else if word == "interior" {
        Some(ProcedureKind::Interior)
    } else {
        None
    }
}

fn kind_from(value: &Json) -> Option<ProcedureKind>
    ensures { result ≡ option_and_then kind_word (as_str (view value.now)) }
{
    match value.as_str() {
        Some(word) => kind_word(word),
        None => None,
    }
}

/// A procedure's kind: who starts it.
#[derive(Drop)]
pub struct ProcedureKindReader;

impl Reader for ProcedureKindReader {
    type Read = ProcedureKind;

    ghost reading = { λ _. read_procedure_kind };

    fn read(&self, alloc: Global, value: &Json) -> Result<ProcedureKind, ReadError> {
        match kind_from(value) {
            Some(kind) => Ok(kind),
            None => Err(fault_here(alloc)),
        }
    }
}

fn read_args(alloc: Global, kind: ProcedureKind, value: &Json) -> Result<Schema, ReadError>
    ensures ok { IfOk result (λ args. read_args kind (view value.now) ≡ Ok args) }
    ensures refused { IfErr result (FaultsAs (read_args kind (view value.now))) }
{
    if kind.is_call() {
        let columns = ArrayOf {
            many: ItemCount::Any,
            of: ColumnReader,
        };
        read_key_or(alloc, value, "args", &columns, Seq::new(alloc))
    } else {
        no_key(alloc, value, "args")?;
        Ok(Seq::new(alloc))
    }
}

fn read_input_list(alloc: Global, many: ItemCount, value: &Json) -> Result<Seq<Word>, ReadError>
    ensures ok { IfOk result (λ inputs. read_key (codes "inputs") (read_array_of many read_word) (view value.now) ≡ Ok inputs) }
    ensures refused { IfErr result (FaultsAs (read_key (codes "inputs") (read_array_of many read_word) (view value.now))) }
{
    let inputs = ArrayOf {
        many,
        of: WordReader,
    };
    read_key(alloc, value, "inputs", &inputs)
}

fn read_inputs(alloc: Global, kind: ProcedureKind, value: &Json) -> Result<Seq<Word>, ReadError>
    ensures ok { IfOk result (λ inputs. read_inputs kind (view value.now) ≡ Ok inputs) }
    ensures refused { IfErr result (FaultsAs (read_inputs kind (view value.now))) }
{
    match kind {
        ProcedureKind::Call => {
            no_key(alloc, value, "inputs")?;
            Ok(Seq::new(alloc))
        }
        ProcedureKind::Border => read_input_list(alloc, ItemCount::JustOne, value),
        ProcedureKind::Interior => read_input_list(alloc, ItemCount::AtLeastOne, value),
    }
}

/// A procedure.
#[derive(Drop)]
pub struct ProcedureReader;

impl Reader for ProcedureReader {
    type Read = ProcedureOutline;

    ghost reading = { λ _. read_procedure };

    fn read(&self, alloc: Global, value: &Json) -> Result<ProcedureOutline, ReadError> {
        // Whether `args` and `inputs` may be there depends on the kind, which isn't read yet: `read_args` and `read_inputs`
        // refuse them where they may not.
        object_of(
            alloc,
            value,
            &["name", "kind", "args", "inputs", "touch", "body"],
        )?;
        let name = read_key(alloc, value, "name", &NameReader)?;
        let kind = read_key(alloc, value, "kind", &ProcedureKindReader)?;
        let args = read_args(alloc, kind, value)?;
        let inputs = read_inputs(alloc, kind, value)?;
        let touch = read_key(alloc, value, "touch", &TouchReader { kind })?;
        let steps = ArrayOf {
            many: ItemCount::Any,
            of: StepReader { kind },
        };
        let body = read_key(alloc, value, "body", &steps)?;
        Ok(ProcedureOutline {
            name,
            kind,
            args,
            inputs,
            touch,
            body,
        })
    }
}
