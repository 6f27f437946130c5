//! Whole databases.

ghost use Rattle.ss_model.specs.WholeDatabase.{WholeDatabasesStay, BatchesAreBounded, WholenessStays};

/// The empty database of an accepted catalogue is whole, and a whole database stays so.
pub fn whole_databases_stay()
    ensures { WholeDatabasesStay }
{}

/// Where no stream has had more than n batches, none has had more after a list than n and one for each entry of the
/// list, and no procedure has taken more.
pub fn batches_are_bounded()
    ensures { BatchesAreBounded }
{}

/// Whether a database is whole depends only on what is kept of it.
pub fn wholeness_stays()
    ensures { WholenessStays }
{}
