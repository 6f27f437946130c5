//! The catalogue of an outline.

ghost use Rattle.std.specs.Prelude.{◌≡◌, false, IfOk, IfErr};
ghost use Rattle.ss_catalog_outline.specs.Limits.{is_too_many_to_number};
ghost use Rattle.ss_catalog_resolve.specs.Numbered.{sections_of};
ghost use Rattle.ss_catalog_resolve.specs.Answers.{Answers};
ghost use Rattle.ss_catalog_resolve.specs.Scopes.{shared_scope};
ghost use Rattle.ss_catalog_resolve.specs.Bodies.{BodiesRead, Resolves};
ghost use Rattle.ss_catalog_resolve.specs.Refusals.{IsUnresolved};

use crate::definitions::{Sections, sections_of};
use crate::fault::{ResolveError, SqlRefusal, SqlSite};
use crate::outline_index::OutlineIndex;
use crate::scopes::shared_scope;
use ss_catalog_outline::Outline;
use ss_model::{Catalog, Procedure, TriggerDef};
use ss_sql_type::Scope;
use ss_value::Seq;
use std::alloc::Global;

impl<'a> OutlineIndex<'a> {
    /// The procedures of the outline, and then its triggers. The scope has to be that of tables and windows alone.
    fn bodies(
        &self,
        alloc: Global,
        scope: &mut Scope,
    ) -> Result<(Seq<Procedure>, Seq<TriggerDef>), SqlRefusal<SqlSite>>
        requires { scope.old ≡ shared_scope (sections_of self.now.outline.now) }
        ensures { Answers (BodiesRead self.now.outline.now) result }
    {
        let procedures = self.procedures(alloc, scope)?;
        let triggers = match self.triggers(alloc, scope) {
            Ok(triggers) => triggers,
            Err(refused) => return Err(refused),
        };
        Ok((procedures, triggers))
    }
}

/// The procedures of an outline, and then its triggers.
fn bodies_of(
    alloc: Global,
    outline: &Outline,
    sections: &Sections,
) -> Result<(Seq<Procedure>, Seq<TriggerDef>), SqlRefusal<SqlSite>>
    requires few { is_too_many_to_number outline.now ≡ false }
    requires sections { sections.now ≡ sections_of outline.now }
    ensures { Answers (BodiesRead outline.now) result }
{
    let names = OutlineIndex::new(alloc, outline)?;
    let mut scope = shared_scope(alloc, sections)?;
    names.bodies(alloc, &mut scope)
}

/// The catalogue of an outline, with this text and these texts of the procedures' own bodies, or the first fault in its
/// SQL: procedures go before triggers, each in written order, and of one text the first fault is reported. No body may be
/// installed yet.
///
/// It is for outlines without unknown names: where an input is the name of no stream, it may answer `NoMemory`.
///
/// Parses and types each text once, in time and memory linear in the outline and its texts, as far as hashes spread the
/// names, with two exceptions: each text walks the names of tables, windows and inputs up to twice, and each input, `emit`
/// and `for_each` copies the columns of its stream, of which there are at most 256.
pub fn resolve(
    alloc: Global,
    outline: &Outline,
    text: Seq<u8>,
    own_texts: Seq<Seq<u8>>,
) -> Result<Catalog, ResolveError>
    requires { is_too_many_to_number outline.now ≡ false }
    ensures ok { IfOk result (Resolves outline.now) }
    ensures text { IfOk result (λ catalog. catalog.text ≡ text) }
    ensures own_texts { IfOk result (λ catalog. catalog.own_texts ≡ own_texts) }
    ensures refused { IfErr result (IsUnresolved outline.now) }
{
    let sections = sections_of(alloc, outline)?;
    let (procedures, triggers) = bodies_of(alloc, outline, &sections)?;
    let Sections {
        tables,
        streams,
        windows,
    } = sections;
    Ok(Catalog {
        tables,
        streams,
        windows,
        triggers,
        procedures,
        own_texts,
        spares: Seq::new(alloc),
        text,
    })
}
