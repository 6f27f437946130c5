//! The database after a list, by the definitions as they stand.

ghost use Rattle.std.specs.Prelude.{◌≡◌, IfOk, OnOk, ◌↔◌, Some, IsTrue};
ghost use Rattle.ss_model.specs.Database.{empty_database};
ghost use Rattle.ss_model.specs.Replays.{after, database_after};
ghost use Rattle.ss_model_computed.specs.Databases.{database_of};
ghost use Rattle.ss_core.specs.Commits.{outcome_behind};

use crate::outcomes::same_outcome;
use ss_model::{Catalog, Entry, Listed, Outcome};
use ss_model_computed::apply;
use ss_model_computed::entries::database::Database;
use ss_value::NoMemory;
use std::alloc::Global;

/// The database after one entry more; an entry that has no value changes nothing.
fn follow(
    alloc: Global,
    catalog: &Catalog,
    database: &mut Database,
    entry: &Entry,
) -> Result<(), NoMemory>
    ensures { OnOk result (database_of database.new ≡ database_after catalog.now (database_of database.old) entry.now) }
{
    let _applied = apply(alloc, catalog, database, entry)?;
    Ok(())
}

/// The database after all of a list. Costs what its entries do, each with copies of all that the database holds.
fn database_after(alloc: Global, catalog: &Catalog, list: &[Listed]) -> Result<Database, NoMemory>
    ensures { IfOk result (λ database. database_of database ≡ after catalog.now (empty_database catalog.now) list.now) }
{
    let mut database = Database::empty(alloc, catalog)?;
    for listed in list {
        follow(alloc, catalog, &mut database, &listed.entry)?;
    }
    Ok(database)
}

/// Whether an entry comes to this outcome behind a list; false where it has no value there.
pub fn comes_to(
    alloc: Global,
    catalog: &Catalog,
    list: &[Listed],
    entry: &Entry,
    outcome: &Outcome,
) -> Result<bool, NoMemory>
    ensures { IfOk result (λ same. IsTrue same ↔ (outcome_behind catalog.now list.now entry.now ≡ Some outcome.now)) }
{
    let mut database = database_after(alloc, catalog, list)?;
    match apply(alloc, catalog, &mut database, entry)? {
        Some(applied) => Ok(same_outcome(&applied.outcome, outcome)),
        None => Ok(false),
    }
}
