//! What is fixed from one opening of an engine to its close.

use std::marker::Brand;

/// What is fixed from one opening of an engine to its close, for contracts alone.
///
/// What stands behind a lock is out of sight of every contract. A type that carries a name of this kind speaks of these
/// values in its invariant, and so do the tokens outside of the lock that carry the same name; so the two are about one
/// catalogue, one list and one disk. It is a trait with ghost members, and no struct with ghost fields, since what carries
/// the name has no value of it. A caller picks the values once for each opening, where it names [`Brand`].
pub trait Life {
    ghost use Rattle.std.specs.Prelude.{ℕ, List, Option};
    ghost use Rattle.atomic_table.specs.Seated.{TableId};
    ghost use Rattle.ss_model.specs.declared.catalog.Catalog.{Catalog};
    ghost use Rattle.ss_model.specs.Database.{Database};
    ghost use Rattle.ss_model.specs.Recovery.{Recovery};

    // the catalogue, and the database at the opening
    ghost catalog: { Catalog };

    ghost opening: { Database };

    // the place of the first entry, and how many entries there may be
    ghost first: { ℕ };

    ghost limit: { ℕ };

    // how many partitions and clients there are
    ghost parts: { ℕ };

    ghost clients: { ℕ };

    // whether there are checkpoints, and then from how many entries behind the last one on the next is due
    ghost every: { Option ℕ };

    // how the store is had again behind a crash
    ghost recovery: { Recovery };

    // the table of the seats that tokens stand on, which is made before the name is picked
    ghost table: { TableId };

    // the disk at the opening: its moment, its count of faults, and what a crash at each moment up to that one may have
    // left, as the bytes of each file in the order of the files. Without this past what is said of the disk at the close
    // could not be joined with what a recovery said of it at the opening
    ghost moment: { ℕ };

    ghost faults: { ℕ };

    ghost past: { ℕ → List (List ℕ) → Type 0 };
}

impl Life for Brand {
    ghost use Rattle.std.specs.Prelude.{None};
    ghost use Rattle.ss_model.specs.Recovery.{Strong};
    ghost use Rattle.ss_model.specs.Lives.{no_catalog, no_database, no_table, any_past};

    ghost catalog = { no_catalog };

    ghost opening = { no_database };

    ghost first = { 0 };

    ghost limit = { 0 };

    ghost parts = { 0 };

    ghost clients = { 0 };

    ghost every = { None };

    ghost recovery = { Strong };

    ghost table = { no_table };

    ghost moment = { 0 };

    ghost faults = { 0 };

    ghost past = { any_past };
}
