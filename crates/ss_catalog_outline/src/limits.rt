//! The counts of a catalogue that have limits.

ghost use Rattle.std.specs.Prelude.{◌≡◌, length, nat_lt};
ghost use Rattle.std.specs.List.{list_any, sum_by};
ghost use Rattle.ss_catalog_outline.specs.declared.types.TableOutline.{TableOutline as ATable};
ghost use Rattle.ss_catalog_outline.specs.declared.types.StreamOutline.{StreamOutline as AStream};
ghost use Rattle.ss_catalog_outline.specs.declared.types.WindowOutline.{WindowOutline as AWindow};
ghost use Rattle.ss_catalog_outline.specs.declared.types.ProcedureOutline.{ProcedureOutline as AProcedure};
ghost use Rattle.ss_catalog_outline.specs.Limits.{inner_count, step_count, has_columns_over, has_inputs_over, has_statements_over, has_steps_over, over_limit, is_too_many_to_number};

use crate::types::{
    Outline, ProcedureOutline, StepOutline, StreamOutline, TableOutline, WindowOutline,
};

/// What a limit counts.
#[derive(Clone, Copy, Debug, PartialEq, Eq, Drop)]
pub enum Counted {
    /// At most 64.
    Tables,
    /// At most 32.
    Streams,
    /// At most 32.
    Windows,
    /// At most 64.
    Triggers,
    /// At most 64.
    Procedures,
    /// At most 16 in a table, a stream or a window, and 16 arguments of a procedure.
    Columns,
    /// At most 8 of a procedure.
    Inputs,
    /// At most 8 of a trigger.
    Statements,
    /// At most 32 of a procedure, where a `for_each` counts one and its inner steps one each.
    Steps,
}

/// The number of steps inside a step.
fn inner_count(step: &StepOutline) -> usize
    ensures { result ≡ inner_count step.now }
{
    match step {
        StepOutline::ForEach { body, .. } => body.len(),
        _ => 0,
    }
}

/// Whether there are more steps than this, inner ones too. Linear in the steps up to the first one over it.
fn is_longer(body: &[StepOutline], most: usize) -> bool
    ensures { result ≡ nat_lt most (sum_by step_count body.now) }
{
    // Counts down from the limit, so that no sum can overflow.
    let mut left = most;
    for step in body {
        let inner = inner_count(step);
        if left <= inner {
            return true;
        }
        left -= inner;
        left -= 1;
    }
    false
}

/// Whether some table has more columns than this.
fn are_tables_over(tables: &[TableOutline], most: usize) -> bool
    ensures { result ≡ list_any (λ (d : ATable). nat_lt most (length d.columns)) tables.now }
{
    tables.iter().any(|table| table.columns.len() > most)
}

/// Whether some stream has more columns than this.
fn are_streams_over(streams: &[StreamOutline], most: usize) -> bool
    ensures { result ≡ list_any (λ (d : AStream). nat_lt most (length d.columns)) streams.now }
{
    streams.iter().any(|stream| stream.columns.len() > most)
}

/// Whether some window has more columns than this.
fn are_windows_over(windows: &[WindowOutline], most: usize) -> bool
    ensures { result ≡ list_any (λ (d : AWindow). nat_lt most (length d.columns)) windows.now }
{
    windows.iter().any(|window| window.columns.len() > most)
}

/// Whether some procedure has more arguments than this.
fn are_args_over(procedures: &[ProcedureOutline], most: usize) -> bool
    ensures { result ≡ list_any (λ (p : AProcedure). nat_lt most (length p.args)) procedures.now }
{
    procedures
        .iter()
        .any(|procedure| procedure.args.len() > most)
}

/// Whether some list of columns or arguments is longer than this.
fn has_columns_over(outline: &Outline, most: usize) -> bool
    ensures { result ≡ has_columns_over most outline.now }
{
    are_tables_over(outline.tables.as_slice(), most)
        || are_streams_over(outline.streams.as_slice(), most)
        || are_windows_over(outline.windows.as_slice(), most)
        || are_args_over(outline.procedures.as_slice(), most)
}

/// Whether some procedure has more inputs than this.
fn has_inputs_over(outline: &Outline, most: usize) -> bool
    ensures { result ≡ has_inputs_over most outline.now }
{
    let procedures = outline.procedures.as_slice();
    procedures
        .iter()
        .any(|procedure| procedure.inputs.len() > most)
}

/// Whether some trigger has more statements than this.
fn has_statements_over(outline: &Outline, most: usize) -> bool
    ensures { result ≡ has_statements_over most outline.now }
{
    let triggers = outline.triggers.as_slice();
    triggers
        .iter()
        .any(|trigger| trigger.statements.len() > most)
}

/// Whether some procedure has more steps than this, inner ones too.
fn has_steps_over(outline: &Outline, most: usize) -> bool
    ensures { result ≡ has_steps_over most outline.now }
{
    let procedures = outline.procedures.as_slice();
    procedures
        .iter()
        .any(|procedure| is_longer(procedure.body.as_slice(), most))
}

/// What the first count over its limit counts, in the order of [`Counted`]. None exactly where no count is over its
/// limit. Linear in the outline, and takes no memory.
pub fn over_limit(outline: &Outline) -> Option<Counted>
    ensures { result ≡ over_limit outline.now }
{
    if outline.tables.len() > 64 {
        Some(Counted::Tables)
    } else if outline.streams.len() > 32 {
        Some(Counted::Streams)
    } else if outline.windows.len() > 32 {
        Some(Counted::Windows)
    } else if outline.triggers.len() > 64 {
        Some(Counted::Triggers)
    } else if outline.procedures.len() > 64 {
        Some(Counted::Procedures)
    } else if has_columns_over(outline, 16) {
        Some(Counted::Columns)
    } else if has_inputs_over(outline, 8) {
        Some(Counted::Inputs)
    } else if has_statements_over(outline, 8) {
        Some(Counted::Statements)
    } else if has_steps_over(outline, 32) {
        Some(Counted::Steps)
    } else {
        None
    }
}

/// Whether a section has over 65,536 elements, or a list of columns or arguments over 256, so that the numbers of typed
/// trees, of 16 and of 8 bits, can't name them all. Then some count is over its limit too. Linear in the outline, and
/// takes no memory.
pub fn is_too_many_to_number(outline: &Outline) -> bool
    ensures { result ≡ is_too_many_to_number outline.now }
{
    outline.tables.len() > 65_536
        || outline.streams.len() > 65_536
        || outline.windows.len() > 65_536
        || outline.triggers.len() > 65_536
        || outline.procedures.len() > 65_536
        || has_columns_over(outline, 256)
}
