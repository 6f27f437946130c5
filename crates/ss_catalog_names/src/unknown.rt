//! Unknown names: those in fields that name nothing.

ghost use Rattle.std.specs.Prelude.{◌≡◌, [], ◌∷◌, not, IfOk};
ghost use Rattle.std.specs.Option.{option_copied};
ghost use Rattle.std.specs.List.{find, flat_map};
ghost use Rattle.ss_names.specs.Names.{is_among, itself};
ghost use Rattle.ss_catalog_outline.specs.Unknown.{names_in, owner, waits_on, placement_uses, table_uses, own_table_uses, touch_uses, given_uses, step_uses, procedure_uses, own_procedure_uses, windows_uses, triggers_uses, procedures_uses, first_unknown, name_unknown};

use ss_catalog_json::Word;
use ss_catalog_outline::{
    GivenOutline, Outline, PlacementOutline, ProcedureOutline, StepOutline, TableOutline,
    TouchOutline, TriggerOutline, WindowOutline,
};
use ss_names::{NameSet, add_all, names_of};
use ss_value::{NoMemory, Seq};
use std::alloc::Global;
use std::marker::Model;

/// A copy of the text, where there is one.
fn copy_of(alloc: Global, found: Option<&Word>) -> Result<Option<Word>, NoMemory>
    ensures { IfOk result (λ copy. copy ≡ option_copied found.entry) }
{
    match found {
        Some(word) => {
            let word = Word::of(alloc, word.as_str())?;
            Ok(Some(word))
        }
        None => Ok(None),
    }
}

/// The name, unless it is one of these.
fn unless_known<'a>(known: &NameSet, name: &'a Word) -> Option<&'a Word>
    ensures { option_copied result ≡ first_unknown (names_in itself known.now (name.now ∷ [])) }
{
    if known.has(name.as_slice()) {
        None
    } else {
        Some(name)
    }
}

/// The first name of a list that is none of these.
fn name_missing<'a>(known: &NameSet, names: &'a [Word]) -> Option<&'a Word>
    ensures { option_copied result ≡ find (λ n. not (is_among known.now n)) names.now }
{
    names.iter().find(|name| !known.has(name.as_slice()))
}

/// The first name of a list that is none of these.
fn unknown_in<'a>(known: &NameSet, names: &'a [Word]) -> Option<&'a Word>
    ensures { option_copied result ≡ first_unknown (names_in itself known.now names.now) }
{
    // The search of `name_missing`, which is stated as std's `find`, stated as uses of names.
    name_missing(known, names)
}

/// The first name of several lists that is none of these.
fn unknown_in_one<'a>(known: &NameSet, lists: &'a [Seq<Word>]) -> Option<&'a Word>
    ensures { option_copied result ≡ first_unknown (flat_map (names_in itself known.now) lists.now) }
{
    for list in lists {
        if let Some(name) = unknown_in(known, list.as_slice()) {
            return Some(name);
        }
    }
    None
}

// ---- tables, windows and triggers

/// The split column of a table, unless it is a column of the key.
fn unknown_placement<'a>(key: &NameSet, placement: &'a PlacementOutline) -> Option<&'a Word>
    ensures { option_copied result ≡ first_unknown (placement_uses key.now placement.now) }
{
    match placement {
        PlacementOutline::Part(_) => None,
        PlacementOutline::By(column) => unless_known(key, column),
    }
}

/// The first name in a table's fields that is none of its columns; of its split column, that is none of its key.
fn unknown_column<'a>(columns: &NameSet, key: &NameSet, table: &'a TableOutline) -> Option<&'a Word>
    ensures { option_copied result ≡ first_unknown (table_uses columns.now key.now table.now) }
{
    unknown_in(columns, table.key.as_slice())
        .or(unknown_placement(key, &table.placement))
        .or(unknown_in_one(columns, table.indexes.as_slice()))
}

/// The first unknown name in a table.
fn unknown_in_table(alloc: Global, table: &TableOutline) -> Result<Option<Word>, NoMemory>
    ensures { IfOk result (λ unknown. unknown ≡ first_unknown (own_table_uses table.now)) }
{
    let columns = names_of(alloc, table.columns.as_slice())?;
    let key = names_of(alloc, table.key.as_slice())?;
    copy_of(alloc, unknown_column(&columns, &key, table))
}

/// The first unknown name in these tables.
fn unknown_in_tables(alloc: Global, tables: &[TableOutline]) -> Result<Option<Word>, NoMemory>
    ensures { IfOk result (λ unknown. unknown ≡ first_unknown (flat_map own_table_uses tables.now)) }
{
    for table in tables {
        if let Some(name) = unknown_in_table(alloc, table)? {
            return Ok(Some(name));
        }
    }
    Ok(None)
}

/// The first window whose owner is none of these procedures.
fn without_owner<'a>(
    procedures: &NameSet,
    windows: &'a [WindowOutline],
) -> Option<&'a WindowOutline>
    ensures { option_copied result ≡ find (λ d. not (is_among procedures.now (owner d))) windows.now }
{
    windows
        .iter()
        .find(|window| !procedures.has(window.owner.as_slice()))
}

/// The first owner of a window that is none of these procedures.
fn unknown_owner<'a>(procedures: &NameSet, windows: &'a [WindowOutline]) -> Option<&'a Word>
    ensures { option_copied result ≡ first_unknown (names_in owner procedures.now windows.now) }
{
    match without_owner(procedures, windows) {
        Some(window) => Some(&window.owner),
        None => None,
    }
}

/// The first trigger that waits for none of these streams and windows.
fn without_source<'a>(
    sources: &NameSet,
    triggers: &'a [TriggerOutline],
) -> Option<&'a TriggerOutline>
    ensures { option_copied result ≡ find (λ t. not (is_among sources.now (waits_on t))) triggers.now }
{
    triggers
        .iter()
        .find(|trigger| !sources.has(trigger.on.as_slice()))
}

/// The first name that a trigger waits for and that is none of these streams and windows.
fn unknown_source<'a>(sources: &NameSet, triggers: &'a [TriggerOutline]) -> Option<&'a Word>
    ensures { option_copied result ≡ first_unknown (names_in waits_on sources.now triggers.now) }
{
    match without_source(sources, triggers) {
        Some(trigger) => Some(&trigger.on),
        None => None,
    }
}

// ---- procedures

/// What the fields of a procedure may name.
#[derive(Drop)]
struct Scope<'s, 'a> {
    tables: &'s NameSet<'a>,
    streams: &'s NameSet<'a>,
    args: NameSet<'a>,
    inputs: NameSet<'a>,
}

impl<'s, 'a> Model for Scope<'s, 'a> {
    ghost use Rattle.ss_catalog_outline.specs.Unknown.{Scope as ScopeNames};

    ghost Value = { ScopeNames };

    ghost view = { λ s. record { tables = s.tables.now; streams = s.streams.now; args = s.args; inputs = s.inputs } };
}

impl<'s, 'a> Scope<'s, 'a> {
    fn unknown_touch<'b>(&self, touch: &'b TouchOutline) -> Option<&'b Word>
        ensures { option_copied result ≡ first_unknown (touch_uses self.now touch.now) }
    {
        match touch {
            TouchOutline::Arg(name) => unless_known(&self.args, name),
            _ => None,
        }
    }

    fn unknown_given<'b>(&self, given: &'b GivenOutline) -> Option<&'b Word>
        ensures { option_copied result ≡ first_unknown (given_uses self.now given.now) }
    {
        match given {
            GivenOutline::Value(_) => None,
            GivenOutline::Arg(name) => unless_known(&self.args, name),
        }
    }

    fn unknown_in_values<'b>(&self, values: &'b [GivenOutline]) -> Option<&'b Word>
        ensures { option_copied result ≡ first_unknown (flat_map (given_uses self.now) values.now) }
    {
        for given in values {
            if let Some(name) = self.unknown_given(given) {
                return Some(name);
            }
        }
        None
    }

    fn unknown_in_step<'b>(&self, step: &'b StepOutline) -> Option<&'b Word>
        ensures { option_copied result ≡ first_unknown (step_uses self.now step.now) }
    {
        match step {
            StepOutline::Insert { table, values } => {
                unless_known(self.tables, table).or(self.unknown_in_values(values.as_slice()))
            }
            StepOutline::ReturnAll(table) => unless_known(self.tables, table),
            StepOutline::ForEach { stream, .. } => unless_known(&self.inputs, stream),
            StepOutline::Emit { stream, .. } => unless_known(self.streams, stream),
            _ => None,
        }
    }

    fn unknown_in_body<'b>(&self, body: &'b [StepOutline]) -> Option<&'b Word>
        ensures { option_copied result ≡ first_unknown (flat_map (step_uses self.now) body.now) }
    {
        for step in body {
            if let Some(name) = self.unknown_in_step(step) {
                return Some(name);
            }
        }
        None
    }

    fn unknown_in<'b>(&self, procedure: &'b ProcedureOutline) -> Option<&'b Word>
        ensures { option_copied result ≡ first_unknown (procedure_uses self.now procedure.now) }
    {
        unknown_in(self.streams, procedure.inputs.as_slice())
            .or(self.unknown_touch(&procedure.touch))
            .or(self.unknown_in_body(procedure.body.as_slice()))
    }
}

/// The first unknown name in a procedure's fields.
fn unknown_in_procedure(
    alloc: Global,
    tables: &NameSet,
    streams: &NameSet,
    procedure: &ProcedureOutline,
) -> Result<Option<Word>, NoMemory>
    ensures { IfOk result (λ unknown. unknown ≡ first_unknown (own_procedure_uses tables.now streams.now procedure.now)) }
{
    let args = names_of(alloc, procedure.args.as_slice())?;
    let inputs = names_of(alloc, procedure.inputs.as_slice())?;
    let scope = Scope {
        tables,
        streams,
        args,
        inputs,
    };
    copy_of(alloc, scope.unknown_in(procedure))
}

/// The first unknown name in the fields of these procedures.
fn unknown_in_each(
    alloc: Global,
    tables: &NameSet,
    streams: &NameSet,
    procedures: &[ProcedureOutline],
) -> Result<Option<Word>, NoMemory>
    ensures { IfOk result (λ unknown. unknown ≡ first_unknown (flat_map (own_procedure_uses tables.now streams.now) procedures.now)) }
{
    for procedure in procedures {
        if let Some(name) = unknown_in_procedure(alloc, tables, streams, procedure)? {
            return Ok(Some(name));
        }
    }
    Ok(None)
}

// ---- the whole

/// The first owner of a window that is no procedure.
fn unknown_in_windows(alloc: Global, outline: &Outline) -> Result<Option<Word>, NoMemory>
    ensures { IfOk result (λ unknown. unknown ≡ first_unknown (windows_uses outline.now)) }
{
    let procedures = names_of(alloc, outline.procedures.as_slice())?;
    copy_of(
        alloc,
        unknown_owner(&procedures, outline.windows.as_slice()),
    )
}

/// The first name that a trigger waits for and that is neither a stream nor a window.
fn unknown_in_triggers(alloc: Global, outline: &Outline) -> Result<Option<Word>, NoMemory>
    ensures { IfOk result (λ unknown. unknown ≡ first_unknown (triggers_uses outline.now)) }
{
    let mut sources = names_of(alloc, outline.streams.as_slice())?;
    add_all(&mut sources, outline.windows.as_slice())?;
    copy_of(alloc, unknown_source(&sources, outline.triggers.as_slice()))
}

/// The first unknown name in the fields of the procedures.
fn unknown_in_procedures(alloc: Global, outline: &Outline) -> Result<Option<Word>, NoMemory>
    ensures { IfOk result (λ unknown. unknown ≡ first_unknown (procedures_uses outline.now)) }
{
    // Made once for all procedures, so that the whole stays linear.
    let tables = names_of(alloc, outline.tables.as_slice())?;
    let streams = names_of(alloc, outline.streams.as_slice())?;
    unknown_in_each(alloc, &tables, &streams, outline.procedures.as_slice())
}

/// The first unknown name in a field, in written order: the name of a table, stream, window, procedure, column or
/// argument that isn't there. A table's `by` has to name a column of its key, and a `for_each` an input of its
/// procedure. None exactly where each name is known. SQL texts are not looked into.
pub fn name_unknown(alloc: Global, outline: &Outline) -> Result<Option<Word>, NoMemory>
    ensures { IfOk result (λ unknown. unknown ≡ name_unknown outline.now) }
{
    if let Some(name) = unknown_in_tables(alloc, outline.tables.as_slice())? {
        return Ok(Some(name));
    }
    if let Some(name) = unknown_in_windows(alloc, outline)? {
        return Ok(Some(name));
    }
    if let Some(name) = unknown_in_triggers(alloc, outline)? {
        return Ok(Some(name));
    }
    unknown_in_procedures(alloc, outline)
}
