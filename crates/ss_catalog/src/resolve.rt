//! The catalogue that an outline resolves to, and the text of a value.

ghost use Rattle.std.specs.Prelude.{◌≡◌, ◌≤◌, false, IfOk, IfErr, IsUtf8};
ghost use Rattle.serde_json.specs.Data.{Data, depth};
ghost use Rattle.serde_json.specs.Read.{max_depth};
ghost use Rattle.serde_json.specs.View.{view};
ghost use Rattle.serde_json.specs.Written.{compact_text, has_float};
ghost use Rattle.ss_catalog_outline.specs.Limits.{is_too_many_to_number};
ghost use Rattle.ss_catalog_resolve.specs.Bodies.{Resolves};
ghost use Rattle.ss_catalog.specs.Checks.{IsNumbered};
ghost use Rattle.ss_catalog.specs.SqlFaults.{IsSqlFaultAt};
ghost use Rattle.ss_catalog.specs.Reads.{Refuses};
ghost use Rattle.ss_catalog.specs.Texts.{IsCompactTextOf};

use crate::error::CatalogError;
use serde_json::Value as Json;
use ss_catalog_outline::Outline;
use ss_catalog_resolve::resolve::resolve;
use ss_catalog_resolve::{ResolveError, SqlSite};
use ss_model::Catalog;
use ss_value::{NoMemory, Seq};
use std::alloc::Global;

/// The compact text of a value. Linear in the value.
pub fn text_of(alloc: Global, value: &Json) -> Result<Seq<u8>, NoMemory>
    requires { depth (view value.now) ≤ max_depth }
    ensures compact { IfOk result (IsCompactTextOf (view value.now)) }
    ensures text { IfOk result (λ text. has_float (view value.now) ≡ false → text ≡ compact_text (view value.now)) }
    ensures utf8 { IfOk result IsUtf8 }
{
    match value.to_string(alloc) {
        Ok(text) => Ok(Seq::from_vec(text.into_bytes())),
        Err(_) => Err(NoMemory),
    }
}

/// C4 at a site. A step's number over 32 bits, which no line has room for, is reported as out of memory.
fn sql_fault(site: SqlSite) -> CatalogError
    ensures { IsSqlFaultAt site result }
{
    match u32::try_from(site.number) {
        Ok(step) => CatalogError::SqlFault {
            name: site.name,
            step,
            fault: site.fault,
        },
        Err(_) => CatalogError::NoMemory,
    }
}

/// C4: the catalogue of an outline whose SQL is of the grammar and well typed, with these texts, or the first fault in it.
#[tactic(auto, using(crate::proofs::SqlFaultSites::reported_refuses))]
pub fn resolve_sql(
    alloc: Global,
    outline: &Outline,
    text: Seq<u8>,
    own_texts: Seq<Seq<u8>>,
) -> Result<Catalog, CatalogError>
    requires { is_too_many_to_number outline.now ≡ false }
    ensures ok { IfOk result (Resolves outline.now) }
    ensures text { IfOk result (λ catalog. catalog.text ≡ text) }
    ensures own_texts { IfOk result (λ catalog. catalog.own_texts ≡ own_texts) }
    ensures refused { (d : Data) → IsNumbered d outline.now → IfErr result (Refuses d) }
{
    match resolve(alloc, outline, text, own_texts) {
        Ok(catalog) => Ok(catalog),
        Err(ResolveError::NoMemory) => Err(CatalogError::NoMemory),
        Err(ResolveError::Fault(site)) => Err(sql_fault(site)),
    }
}
