//! The catalogue of a JSON value.

ghost use Rattle.std.specs.Prelude.{◌≤◌, IfOk, IfErr, IsUtf8};
ghost use Rattle.serde_json.specs.Data.{depth};
ghost use Rattle.serde_json.specs.Read.{max_depth};
ghost use Rattle.serde_json.specs.View.{view};
ghost use Rattle.ss_model.specs.Accepted.{Accepted};
ghost use Rattle.ss_catalog_outline.specs.declared.types.Outline.{Outline};
ghost use Rattle.ss_catalog.specs.Checks.{IsNumbered};
ghost use Rattle.ss_catalog.specs.Reads.{Reads, Refuses};
ghost use Rattle.ss_catalog.specs.Accepts.{Accepts};

use crate::checks::check_catalog;
use crate::error::CatalogError;
use crate::outline_checks::{check_counts, check_outline, read_shape};
use crate::own_texts::body_texts;
use crate::resolve::{resolve_sql, text_of};
use serde_json::Value as Json;
use ss_catalog_checks::{
    acyclic_workflows_have_levels, unrefused_sql_is_local, unrefused_streams_end_well,
    unrefused_windows_are_owned, unreturning_batches_go_forward, unreturning_triggers_have_ranks,
};
use ss_catalog_laws::{resolved_has_form, resolved_is_typed};
use ss_catalog_outline::Outline;
use ss_model::Catalog;
use std::alloc::Global;

/// What passes all checks is accepted: a law that calls, one by one, the laws that it follows from.
pub fn what_reads_is_accepted()
    ensures { Accepts }
{
    resolved_has_form();
    resolved_is_typed();
    acyclic_workflows_have_levels();
    unreturning_triggers_have_ranks();
    unreturning_batches_go_forward();
    unrefused_sql_is_local();
    unrefused_streams_end_well();
    unrefused_windows_are_owned();
}

/// The outline of a value that passes the checks before any SQL is read, in the order of `read_catalog`.
fn read_numbered(alloc: Global, value: &Json) -> Result<Outline, CatalogError>
    ensures ok { IfOk result (IsNumbered (view value.now)) }
    ensures refused { IfErr result (Refuses (view value.now)) }
{
    let outline = read_shape(alloc, value)?;
    check_outline(alloc, &outline)?;
    Ok(outline)
}

/// The catalogue of a value's outline, which has passed the checks before any SQL is read; or the first thing that is wrong
/// with it, in the order of `read_catalog`.
///
/// The outline is lent, so that it is let go in one place and not at each refusal.
fn catalog_of(alloc: Global, value: &Json, outline: &Outline) -> Result<Catalog, CatalogError>
    requires levels { depth (view value.now) ≤ max_depth }
    requires numbered { IsNumbered (view value.now) outline.now }
    ensures ok { IfOk result (Reads (view value.now)) }
    ensures accepted { IfOk result Accepted }
    ensures utf8 { IfOk result (λ catalog. IsUtf8 catalog.text) }
    ensures refused { IfErr result (Refuses (view value.now)) }
{
    let text = text_of(alloc, value)?;
    let own_texts = body_texts(alloc, value)?;
    let catalog = resolve_sql(alloc, outline, text, own_texts)?;
    check_catalog(alloc, &catalog)?;
    // Last in the order of refusals; counts that can't be numbered were refused before any SQL was read.
    check_counts(outline)?;
    what_reads_is_accepted();
    Ok(catalog)
}

/// The catalogue of a value, or the first thing that is wrong with it.
///
/// The checks go in this order, each over the whole: shape (C1); duplicate names (C2); unknown names (C3); counts too
/// large to be numbered (C10); SQL (C4); cycles of workflows (C5) and of triggers (C6); locality (C7); the ends of
/// streams (C8); the owners of windows (C9); all other counts (C10). What is read is accepted, and has the value's compact
/// text, which reads as the same value: it has no float, so there is one such text. It has the compact texts of the bodies
/// too, and no other body may be installed yet. The value has to have at most 127 levels, as each value has that is read
/// from a text, since it is printed again.
///
/// Takes time linear in the value, with two exceptions: each SQL text walks the names of the tables, windows and inputs,
/// and C5 to C9 take the times that the pages of the checks in `ss_catalog_checks` say.
pub fn read_catalog(alloc: Global, value: &Json) -> Result<Catalog, CatalogError>
    requires { depth (view value.now) ≤ max_depth }
    ensures ok { IfOk result (Reads (view value.now)) }
    ensures accepted { IfOk result Accepted }
    ensures utf8 { IfOk result (λ catalog. IsUtf8 catalog.text) }
    ensures refused { IfErr result (Refuses (view value.now)) }
{
    let outline = read_numbered(alloc, value)?;
    catalog_of(alloc, value, &outline)
}
