//! The checks of a catalogue whose names are numbers and whose SQL is typed.

ghost use Rattle.std.specs.Prelude.{◌≡◌, None, IfOk, OnOk, IfErr};
ghost use Rattle.serde_json.specs.Data.{Data};
ghost use Rattle.ss_catalog_outline.specs.declared.types.Outline.{Outline};
ghost use Rattle.ss_catalog_checks.specs.Cascades.{IsOnTriggerCycle};
ghost use Rattle.ss_catalog_checks.specs.StreamEnds.{refused_stream};
ghost use Rattle.ss_catalog_checks.specs.Firsts.{IsFirst};
ghost use Rattle.ss_catalog_checks.specs.Localities.{IsFirstSite};
ghost use Rattle.ss_catalog_checks.specs.Owners.{refused_window};
ghost use Rattle.ss_catalog_checks.specs.Workflows.{IsOnCycle};
ghost use Rattle.ss_catalog.specs.Checks.{IsResolved, HasAcyclicWorkflows, HasAcyclicTriggers, IsLocal, HasRightEnds, HasRightOwners, site_name, site_number};
ghost use Rattle.ss_catalog.specs.Reads.{Refuses};
ghost use Rattle.ss_catalog.specs.SqlFaults.{IsBrokenAt};

use crate::error::CatalogError;
use crate::names::{procedure_name, stream_name, trigger_name, window_name};
use ss_catalog_checks::{
    Site, refused_site, refused_stream, refused_window, trigger_cycle, workflow_cycle,
};
use ss_model::Catalog;
use ss_value::{Name, NoMemory};
use std::alloc::Global;

/// C5: no workflow has a cycle.
fn check_workflows(alloc: Global, catalog: &Catalog) -> Result<(), CatalogError>
    ensures ok { OnOk result (IsFirst (IsOnCycle catalog.now) None) }
    ensures refused { (d : Data) (o : Outline) → IsResolved d o catalog.now → IfErr result (Refuses d) }
{
    match workflow_cycle(alloc, catalog)? {
        None => Ok(()),
        Some(procedure) => {
            let name = procedure_name(alloc, catalog, procedure)?;
            Err(CatalogError::WorkflowCycle(name))
        }
    }
}

/// C6: no trigger leads back to its window.
fn check_cascades(alloc: Global, catalog: &Catalog) -> Result<(), CatalogError>
    ensures ok { OnOk result (IsFirst (IsOnTriggerCycle catalog.now) None) }
    ensures refused { (d : Data) (o : Outline) → HasAcyclicWorkflows d o catalog.now → IfErr result (Refuses d) }
{
    match trigger_cycle(alloc, catalog)? {
        None => Ok(()),
        Some(trigger) => {
            let name = trigger_name(alloc, catalog, trigger)?;
            Err(CatalogError::TriggerCycle(name))
        }
    }
}

/// The name of the procedure or trigger of a site.
fn site_name(alloc: Global, catalog: &Catalog, site: Site) -> Result<Name, NoMemory>
    ensures { IfOk result (λ name. name ≡ site_name catalog.now site) }
{
    match site {
        Site::Step { procedure, .. } => procedure_name(alloc, catalog, procedure),
        Site::Statement { trigger, .. } => trigger_name(alloc, catalog, trigger),
    }
}

/// The number of the step or statement of a site.
fn site_number(site: Site) -> usize
    ensures { result ≡ site_number site }
{
    match site {
        Site::Step { step, .. } => step,
        Site::Statement { statement, .. } => statement,
    }
}

/// C7 at a site. A number over 32 bits, which no line has room for, is reported as out of memory.
fn locality_broken(alloc: Global, catalog: &Catalog, site: Site) -> CatalogError
    ensures { IsBrokenAt catalog.now site result }
{
    let Ok(step) = u32::try_from(site_number(site)) else {
        return CatalogError::NoMemory;
    };
    match site_name(alloc, catalog, site) {
        Ok(name) => CatalogError::LocalityBroken { name, step },
        Err(NoMemory) => CatalogError::NoMemory,
    }
}

/// C7: all SQL keeps to its touch set.
fn check_locality(alloc: Global, catalog: &Catalog) -> Result<(), CatalogError>
    ensures ok { OnOk result (IsFirstSite catalog.now None) }
    ensures refused { (d : Data) (o : Outline) → HasAcyclicTriggers d o catalog.now → IfErr result (Refuses d) }
{
    match refused_site(alloc, catalog)? {
        None => Ok(()),
        Some(site) => Err(locality_broken(alloc, catalog, site)),
    }
}

/// C8: streams have the ends that they should.
fn check_stream_ends(alloc: Global, catalog: &Catalog) -> Result<(), CatalogError>
    ensures ok { OnOk result (refused_stream catalog.now ≡ None) }
    ensures refused { (d : Data) (o : Outline) → IsLocal d o catalog.now → IfErr result (Refuses d) }
{
    match refused_stream(alloc, catalog)? {
        None => Ok(()),
        Some(stream) => {
            let name = stream_name(alloc, catalog, stream)?;
            Err(CatalogError::StreamEnds(name))
        }
    }
}

/// C9: the owner of each window is a streaming procedure, and SQL that names the window runs in it alone.
fn check_window_owners(alloc: Global, catalog: &Catalog) -> Result<(), CatalogError>
    ensures ok { OnOk result (refused_window catalog.now ≡ None) }
    ensures refused { (d : Data) (o : Outline) → HasRightEnds d o catalog.now → IfErr result (Refuses d) }
{
    match refused_window(catalog) {
        None => Ok(()),
        Some(window) => {
            let name = window_name(alloc, catalog, window)?;
            Err(CatalogError::WindowOwner(name))
        }
    }
}

/// The checks of the catalogue that an outline resolved to, in the order of `read_catalog`.
pub fn check_catalog(alloc: Global, catalog: &Catalog) -> Result<(), CatalogError>
    ensures ok { (d : Data) (o : Outline) → IsResolved d o catalog.now → OnOk result (HasRightOwners d o catalog.now) }
    ensures refused { (d : Data) (o : Outline) → IsResolved d o catalog.now → IfErr result (Refuses d) }
{
    check_workflows(alloc, catalog)?;
    check_cascades(alloc, catalog)?;
    check_locality(alloc, catalog)?;
    check_stream_ends(alloc, catalog)?;
    check_window_owners(alloc, catalog)
}
